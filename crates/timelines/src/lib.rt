// The first ticks of a replay as a picture, up to the end of a task's first job or its deadline: a row for each task, in which its jobs are bars.
#![tactic(auto)]

// Which task runs from when to when.
pub mod runs;

use crate::runs::Run;
use cache::units::Ticks;
use drawn::svg::{Picture, Place, Tenths};
use std::alloc::{AllocError, Global};
use std::fmt::Write;
use table::accepted::Accepted;
use table::tasks::Task;

const WIDTH: Tenths = 8600;

const MARGIN: Tenths = 240;

const HEAD: Tenths = 1160; // above the first task

const FOOT: Tenths = 480; // below the last

const LEFT: Tenths = 1500; // where tick 0 stands

const WHOLE: Tenths = 6700; // from there to the last tick

const ROW: Tenths = 440; // the height of a task's row

const TALL: Tenths = 60; // in a row, where arrows begin, or end

const TOP: Tenths = 200; // the upper edge of bars

const BASE: Tenths = 370; // the lower one, on which arrows stand

const MIDDLE: Tenths = 285; // between them

const NARROW: Tenths = 20; // ticks that are narrower are not told apart

const JOINED: Tenths = 10; // bars of such ticks that are nearer are one

const APART: Tenths = 140; // marks that are nearer are left out

const BESIDE: Tenths = 15; // from their tick, a deadline before it and a release behind it

const LABELS: u64 = 16; // along the axis, but for one more

const DARK: &str = "stroke=\"#222\" stroke-width=\"1\"";

const RELEASED: &str = "stroke=\"#1b7340\" stroke-width=\"1.5\"";

const DUE: &str = "stroke=\"#b3261e\" stroke-width=\"1.5\"";

const WAITING: &str = "stroke=\"#222\" stroke-width=\"1.5\" stroke-dasharray=\"2 3\"";

type Done = Result<(), AllocError>;

// The replay of a table in which the first job of the task at `position` ends, or does not by its deadline; `name` is the table's.
pub fn picture(
    alloc: Global,
    name: &str,
    accepted: Accepted,
    position: usize,
    end: Option<Ticks>,
) -> Result<String, AllocError> {
    let tasks = accepted.table.tasks();
    let Some(asked) = tasks.get(position) else {
        return Ok(String::new(alloc));
    };
    let until = match end {
        Some(end) => end.0,
        None => asked.deadline.0,
    };
    let runs = runs::until(alloc, accepted, until)?;
    let scale = Scale { until };
    let title = format!(in alloc; "Replay: {name}")?;
    let foot = top_of(tasks.len());
    let mut picture = Picture::new(alloc, WIDTH, foot.saturating_add(FOOT), title.as_str())?;
    head(alloc, &mut picture, title.as_str(), asked, end)?;
    axis(alloc, &mut picture, scale, foot)?;
    let mut crowded = false;
    for (at, task) in tasks.iter().enumerate() {
        let row = Row {
            top: top_of(at),
            scale,
            colour: if at == position { "#0b5fa5" } else { "#9a9a9a" },
        };
        let bars = row.bars(alloc, &mut picture, at, runs.as_slice())?;
        let arrows = row.arrows(&mut picture, task)?;
        crowded = crowded || bars || arrows;
        row.names(alloc, &mut picture, task)?;
    }
    if crowded {
        picture.text(
            Place::new(LEFT, foot).moved(0, 410),
            "fill=\"#444\"",
            "Marks that would lie upon each other are left out.",
        )?;
    }
    picture.finished()
}

// Where the row of the task at a position begins.
fn top_of(position: usize) -> Tenths {
    let position = Tenths::try_from(position).unwrap_or(0);
    ROW.saturating_mul(position).saturating_add(HEAD)
}

// The title, what became of the first job, and what the marks are.
fn head(
    alloc: Global,
    picture: &mut Picture,
    title: &str,
    asked: &Task,
    end: Option<Ticks>,
) -> Done {
    picture.text(
        Place::new(MARGIN, 340),
        "font-size=\"16\" font-weight=\"bold\"",
        title,
    )?;
    let (name, deadline) = (
        String::from_utf8_lossy(alloc, asked.name.text())?,
        asked.deadline.0,
    );
    let name = name.as_str();
    let words = match end {
        Some(end) => {
            let end = end.0;
            format!(in alloc; "The first job of {name} ends at {end}; its deadline is {deadline}.")?
        }
        None => format!(in alloc;
            "The first job of {name} is unfinished at its deadline, {deadline}."
        )?,
    };
    picture.text(Place::new(MARGIN, 560), "", words.as_str())?;
    let line = Place::new(MARGIN, 640);
    release(picture, line.moved(40, 0))?;
    picture.text(line.moved(130, 260), "", "release")?;
    due(picture, line.moved(1000, 0))?;
    picture.text(line.moved(1090, 260), "", "deadline")?;
    end_of_job(picture, line.moved(2060, 215))?;
    picture.text(line.moved(2160, 260), "", "end of a job")?;
    picture.line(line.moved(3300, 215), line.moved(3600, 215), WAITING)?;
    picture.text(line.moved(3690, 260), "", "pre-empted: its job waits")
}

// The mark of a release, from the upper left corner of a row on: an arrow that points up.
fn release(picture: &mut Picture, at: Place) -> Done {
    picture.line(at.moved(0, TALL), at.moved(0, BASE), RELEASED)?;
    let corners = [
        at.moved(0, TALL - 20),
        at.moved(-30, TALL + 50),
        at.moved(30, TALL + 50),
    ];
    picture.polygon(&corners, "fill=\"#1b7340\"")
}

// The mark of a deadline: an arrow that points down.
fn due(picture: &mut Picture, at: Place) -> Done {
    picture.line(at.moved(0, TALL), at.moved(0, BASE), DUE)?;
    let corners = [
        at.moved(0, BASE),
        at.moved(-30, BASE - 70),
        at.moved(30, BASE - 70),
    ];
    picture.polygon(&corners, "fill=\"#b3261e\"")
}

// The mark of a job's end.
fn end_of_job(picture: &mut Picture, at: Place) -> Done {
    picture.circle(
        at,
        35,
        "fill=\"white\" stroke=\"#222\" stroke-width=\"1.5\"",
    )
}

// From tick 0 to the last one that is drawn.
#[derive(Clone, Copy)]
struct Scale {
    until: u64,
}

impl Scale {
    // Where a tick begins.
    fn place(self, tick: u64) -> Tenths {
        let tick = Tenths::try_from(tick.min(self.until)).unwrap_or(0);
        let until = Tenths::try_from(self.until.max(1)).unwrap_or(1).max(1);
        (WHOLE.saturating_mul(tick) / until).saturating_add(LEFT)
    }

    // Whether ticks are too narrow to be told apart.
    fn is_fine(self) -> bool {
        self.place(1).saturating_sub(LEFT) < NARROW
    }

    // How many ticks lie between two labels: the least of 1, 2, 5, 10, 20, .. with which there are few enough.
    fn step(self) -> u64 {
        let mut ten = 1u64;
        for _ in 0..19 {
            for part in [1u64, 2, 5] {
                let step = ten.saturating_mul(part);
                if self.until <= step.saturating_mul(LABELS) {
                    return step;
                }
            }
            ten = ten.saturating_mul(10);
        }
        ten
    }
}

// The axis below the rows, with the ticks on it and fine lines through the rows.
fn axis(alloc: Global, picture: &mut Picture, scale: Scale, foot: Tenths) -> Done {
    let step = scale.step().max(1);
    for label in 0..(scale.until / step).saturating_add(1) {
        let tick = label.saturating_mul(step);
        let x = scale.place(tick);
        picture.line(
            Place::new(x, HEAD),
            Place::new(x, foot).moved(0, 80),
            "stroke=\"#ddd\" stroke-width=\"1\"",
        )?;
        let words = format!(in alloc; "{tick}")?;
        picture.text(
            Place::new(x, foot).moved(0, 230),
            "text-anchor=\"middle\"",
            words.as_str(),
        )?;
    }
    let start = Place::new(LEFT, foot).moved(0, 80);
    picture.line(start, start.moved(WHOLE, 0), DARK)?;
    picture.text(start.moved(-150, 150), "text-anchor=\"end\"", "tick")
}

// The row of a task.
#[derive(Clone, Copy)]
struct Row {
    top: Tenths,
    scale: Scale,
    colour: &'static str,
}

// Whether a mark lies far enough from the one before.
fn is_apart(last: Option<Tenths>, x: Tenths) -> bool {
    match last {
        Some(last) => APART <= x.saturating_sub(last),
        None => true,
    }
}

impl Row {
    fn names(self, alloc: Global, picture: &mut Picture, task: &Task) -> Done {
        let name = String::from_utf8_lossy(alloc, task.name.text())?;
        let at = Place::new(LEFT, self.top);
        picture.text(
            at.moved(-150, 330),
            "text-anchor=\"end\" font-size=\"14\" font-weight=\"bold\"",
            name.as_str(),
        )?;
        picture.line(at.moved(0, BASE), at.moved(WHOLE, BASE), DARK)
    }

    fn bar(self, alloc: Global, picture: &mut Picture, from: Tenths, to: Tenths) -> Done {
        let colour = self.colour;
        let edge = if self.scale.is_fine() { "" } else { DARK };
        let style = format!(in alloc; "fill=\"{colour}\" fill-opacity=\"0.6\" {edge}")?;
        let width = to.saturating_sub(from).max(1);
        let corner = Place::new(from, self.top).moved(0, TOP);
        picture.rectangle(corner, width, BASE - TOP, style.as_str())
    }

    // The bars of the task at a position, a line where a job of it waits, and where jobs end; and whether some mark is left out.
    fn bars(
        self,
        alloc: Global,
        picture: &mut Picture,
        at: usize,
        runs: &[Run],
    ) -> Result<bool, AllocError> {
        let mut bar: Option<(Tenths, Tenths)> = None;
        let mut waits: Option<Tenths> = None;
        for run in runs {
            if run.task != at {
                continue;
            }
            let (from, to) = (self.scale.place(run.from), self.scale.place(run.to));
            if let Some(since) = waits {
                self.wait(picture, since, from)?;
            }
            waits = if run.ends { None } else { Some(to) };
            bar = match bar {
                Some((start, end)) if self.scale.is_fine() && from.saturating_sub(end) <= JOINED =>
                    { Some((start, to)) }
                Some((start, end)) => {
                    self.bar(alloc, picture, start, end)?;
                    Some((from, to))
                }
                None => Some((from, to)),
            };
        }
        if let Some((start, end)) = bar {
            self.bar(alloc, picture, start, end)?;
        }
        if let Some(since) = waits {
            self.wait(picture, since, self.scale.place(self.scale.until))?;
        }
        self.ends(picture, at, runs)
    }

    // A line while a job waits, where there is room for one.
    fn wait(self, picture: &mut Picture, from: Tenths, to: Tenths) -> Done {
        if to.saturating_sub(from) <= JOINED {
            return Ok(());
        }
        let middle = self.top.saturating_add(MIDDLE);
        picture.line(Place::new(from, middle), Place::new(to, middle), WAITING)
    }

    fn ends(self, picture: &mut Picture, at: usize, runs: &[Run]) -> Result<bool, AllocError> {
        let mut last: Option<Tenths> = None;
        let mut crowded = false;
        for run in runs {
            if run.task != at || !run.ends {
                continue;
            }
            let x = self.scale.place(run.to);
            if is_apart(last, x) {
                end_of_job(picture, Place::new(x, self.top).moved(0, TOP))?;
                last = Some(x);
            } else {
                crowded = true;
            }
        }
        Ok(crowded)
    }

    // The releases and the deadlines of a task's jobs; and whether some are left out.
    fn arrows(self, picture: &mut Picture, task: &Task) -> Result<bool, AllocError> {
        let (until, period, deadline) = (self.scale.until, task.period.0.max(1), task.deadline.0);
        let mut released: Option<Tenths> = None;
        let mut was_due: Option<Tenths> = None;
        let mut crowded = false;
        for job in 0..(until / period).saturating_add(1) {
            let start = job.saturating_mul(period);
            let x = self.scale.place(start);
            if is_apart(released, x) {
                release(picture, Place::new(x, self.top).moved(BESIDE, 0))?;
                released = Some(x);
            } else {
                crowded = true;
            }
            let end = start.saturating_add(deadline);
            if until < end {
                continue;
            }
            let x = self.scale.place(end);
            if is_apart(was_due, x) {
                due(picture, Place::new(x, self.top).moved(-BESIDE, 0))?;
                was_due = Some(x);
            } else {
                crowded = true;
            }
        }
        Ok(crowded)
    }
}
