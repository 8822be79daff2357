// Which task runs from when to when, by the pages of the replay.

use replay::ticks::{self, LONGEST_PAGE, PAGE};
use std::alloc::{AllocError, Global};
use table::Table;
use table::accepted::Accepted;
use table::tasks::Task;
use texts::fields::read_number;
use texts::lines::{Fields, Lines};

// Ticks one after the other in which one job runs: of which task, from when to when, and whether the job ends there.
#[derive(Clone, Copy)]
pub struct Run {
    pub task: usize,
    pub from: u64,
    pub to: u64,
    pub ends: bool,
}

// What runs before a tick. A replay that is shorter is all.
pub fn until(alloc: Global, accepted: Accepted, until: u64) -> Result<Vec<Run>, AllocError> {
    let tasks = accepted.table.tasks();
    let mut runs = Runs {
        all: Vec::new(alloc),
        last: None,
        done: [0; Table::MOST_TASKS],
    };
    let mut out = [0u8; LONGEST_PAGE];
    for page in 0..(until / PAGE).saturating_add(1) {
        let len = ticks::write(accepted, page.saturating_mul(PAGE), &mut out).unwrap_or(0);
        for line in Lines::of(out.get(..len).unwrap_or(&[])) {
            let tick = read_number(field_of(line, 0)).unwrap_or(until);
            if tick < until {
                runs.add(tasks, tick, field_of(line, 1))?;
            }
        }
    }
    runs.finished()
}

fn field_of(line: &[u8], at: usize) -> &[u8] {
    Fields::of(line).nth(at).unwrap_or(&[])
}

// The runs so far, and how many ticks each task was given.
#[derive(Drop)]
struct Runs {
    all: Vec<Run>,
    last: Option<Run>,
    done: [u64; Table::MOST_TASKS],
}

impl Runs {
    // The task at a position runs in a tick, if the tick's line has its name.
    fn add(&mut self, tasks: &[Task], tick: u64, name: &[u8]) -> Result<(), AllocError> {
        for (at, task) in tasks.iter().enumerate() {
            if task.name.text() == name && self.has_work(at, task, tick) {
                return self.give(at, task, tick);
            }
        }
        Ok(())
    }

    fn done_by(&self, at: usize) -> u64 {
        self.done.get(at).copied().unwrap_or(0)
    }

    // Whether a task has work in a tick: `-` is the name of a task, or says that none has.
    fn has_work(&self, at: usize, task: &Task, tick: u64) -> bool {
        let jobs = (tick / task.period.0.max(1)).saturating_add(1);
        self.done_by(at) < jobs.saturating_mul(task.work.0)
    }

    fn give(&mut self, at: usize, task: &Task, tick: u64) -> Result<(), AllocError> {
        let done = self.done_by(at).saturating_add(1);
        if let Some(place) = self.done.get_mut(at) {
            *place = done;
        }
        let ends = done % task.work.0.max(1) == 0;
        let to = tick.saturating_add(1);
        let from = match self.last {
            Some(last) if last.task == at && last.to == tick && !last.ends => last.from,
            Some(last) => {
                self.all.push(last)?;
                tick
            }
            None => tick,
        };
        self.last = Some(Run {
            task: at,
            from,
            to,
            ends,
        });
        Ok(())
    }

    fn finished(self) -> Result<Vec<Run>, AllocError> {
        let (mut all, last) = (self.all, self.last);
        if let Some(last) = last {
            all.push(last)?;
        }
        Ok(all)
    }
}
