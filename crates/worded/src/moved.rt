// What moved between old tables and new ones, in words: build by build what was corrected, what that did to which task, and whether the build passes; at the end how
// many there are.

use crate::{Done, ticks};
use changes::figures::{Column, Value};
use changes::harder::Relation;
use changes::{Comparison, FateChange, FigureChange, Line, ResponseChange};
use lists::Fate;
use search::demand::Response;
use std::alloc::{AllocError, Global};

// Words that are added to a text.
fn add(text: &mut Vec<u8>, words: &str) -> Done {
    text.extend_from_slice(words.as_bytes())
}

// Under which methods a build passes: none where it has no verdicts.
fn passes_of(fate: Option<Fate>) -> [bool; methods::COUNT] {
    match fate {
        Some(Fate::Judged(verdicts)) => verdicts,
        _ => [false; methods::COUNT],
    }
}

// Under which methods a build no longer passes, and under which it passes now.
#[derive(Clone, Copy)]
struct Turned {
    fails: [bool; methods::COUNT],
    passes: [bool; methods::COUNT],
}

impl Turned {
    fn of(found: &Comparison) -> Turned {
        let mut turned = Turned {
            fails: [false; methods::COUNT],
            passes: [false; methods::COUNT],
        };
        if let Some(fates) = found.fates {
            let (old, new) = (passes_of(fates.old), passes_of(fates.new));
            for method in 0..methods::COUNT {
                turned.note(method, old[method], new[method]);
            }
        }
        for verdict in &found.verdicts {
            turned.note(verdict.method, verdict.old, verdict.new);
        }
        turned
    }

    fn note(&mut self, method: usize, old: bool, new: bool) {
        if method < methods::COUNT {
            self.fails[method] = old && !new;
            self.passes[method] = new && !old;
        }
    }

    fn is_any(self) -> bool {
        self.fails.iter().any(|it| *it) || self.passes.iter().any(|it| *it)
    }

    fn tell(self, text: &mut Vec<u8>) -> Done {
        if self.fails.iter().any(|it| *it) {
            add(text, "  It no longer passes under ")?;
            add_methods(text, self.fails)?;
            add(text, ".\n")?;
        }
        if self.passes.iter().any(|it| *it) {
            add(text, "  It passes now under ")?;
            add_methods(text, self.passes)?;
            add(text, ".\n")?;
        }
        Ok(())
    }
}

// The names of some methods, one after the other.
fn add_methods(text: &mut Vec<u8>, which: [bool; methods::COUNT]) -> Done {
    if which.iter().all(|it| *it) {
        return add(text, "every method");
    }
    let mut is_first = true;
    for (name, is_one) in methods::names().iter().zip(which.iter()) {
        if *is_one {
            if !is_first {
                add(text, ", ")?;
            }
            add(text, name)?;
            is_first = false;
        }
    }
    Ok(())
}

// How many builds there are, in how many something moved, and in how many a verdict turned.
#[derive(Drop)]
pub struct Counts {
    pub builds: u64,
    pub changed: u64,
    pub turned: u64,
}

impl Counts {
    pub const NONE: Counts = Counts {
        builds: 0,
        changed: 0,
        turned: 0,
    };

    // One build more.
    pub fn add(&mut self, found: &Comparison) {
        self.builds = self.builds.saturating_add(1);
        if !found.is_empty() {
            self.changed = self.changed.saturating_add(1);
        }
        if Turned::of(found).is_any() {
            self.turned = self.turned.saturating_add(1);
        }
    }

    // The last line.
    pub fn add_line(&self, text: &mut Vec<u8>) -> Done {
        let alloc = *text.allocator();
        let builds = wording::number(alloc, self.builds)?;
        let changed = wording::number(alloc, self.changed)?;
        let turned = wording::number(alloc, self.turned)?;
        let what = if self.builds == 1 { "build" } else { "builds" };
        let line = format!(in alloc; "{builds} {what}: {changed} changed, {turned} turned\n")?;
        add(text, line.as_str())
    }
}

// What moved in a build, below its name; nothing where nothing moved.
pub fn add_build(text: &mut Vec<u8>, name: &[u8], found: &Comparison) -> Done {
    if found.is_empty() {
        return Ok(());
    }
    let alloc = *text.allocator();
    text.extend_from_slice(name)?;
    add(text, "\n")?;
    if let Some(fates) = found.fates {
        add_fates(alloc, text, fates)?;
    }
    for figure in &found.figures {
        add_figure(alloc, text, figure)?;
    }
    for response in &found.responses {
        add_response(alloc, text, *response)?;
    }
    Turned::of(found).tell(text)?;
    add_relation(text, found.relation)?;
    add(text, "\n")
}

// Where one table is no easier than the other line by line it is proved of the library (laws::orders) that no task is answered sooner.
fn add_relation(text: &mut Vec<u8>, relation: Relation) -> Done {
    match relation {
        Relation::Open => Ok(()),
        Relation::Harder => add(
            text,
            "  In no line is the new table easier than the old one, so no response can have become sooner.\n",
        ),
        Relation::Easier => add(
            text,
            "  In no line is the new table harder than the old one, so no response can have become later.\n",
        ),
        Relation::Same => add(
            text,
            "  In no line is the new table easier or harder than the old one, so no response can have moved.\n",
        ),
    }
}

fn add_fates(alloc: Global, text: &mut Vec<u8>, fates: FateChange) -> Done {
    add(text, "  It ")?;
    match fates.old {
        None => add(text, "was not there")?,
        Some(Fate::Refused(refusal)) => {
            let (number, line) = (refusal.reason.number(), refusal.line);
            let words = format!(in alloc; "was refused ({number}, line {line})")?;
            add(text, words.as_str())?;
        }
        Some(Fate::Judged(_)) => add(text, "was accepted")?,
        Some(_) => add(text, "could not be read")?,
    }
    add(text, ", and now it ")?;
    match fates.new {
        None => add(text, "is not there")?,
        Some(Fate::Refused(refusal)) => {
            let (number, line) = (refusal.reason.number(), refusal.line);
            let words = format!(in alloc; "is refused ({number}, line {line})")?;
            add(text, words.as_str())?;
        }
        Some(Fate::Judged(_)) => add(text, "is accepted")?,
        Some(_) => add(text, "cannot be read")?,
    }
    add(text, ".\n")
}

fn is_nothing(value: &Value) -> bool {
    matches!(value, Value::Nothing)
}

// A figure as its table writes it.
fn add_value(alloc: Global, text: &mut Vec<u8>, value: &Value) -> Done {
    let mut field = Vec::new(alloc);
    change_lines::add_value(&mut field, value)?;
    // without the tab before it
    text.extend_from_slice(field.as_slice().get(1..).unwrap_or(&[]))
}

// Whether a column is the first that is told of a line that is new or gone. One sentence tells of all its columns.
fn is_first_told(figure: &FigureChange) -> bool {
    match figure.line {
        Line::Head => false,
        Line::Task(_) => figure.column == Column::Priority,
        Line::Access(_) => figure.column == Column::Task,
    }
}

fn add_line_name(alloc: Global, text: &mut Vec<u8>, line: Line) -> Done {
    match line {
        Line::Head => add(text, "line 1"),
        Line::Task(name) => text.extend_from_slice(name.text()),
        Line::Access(n) => {
            let words = format!(in alloc; "access #{n}")?;
            add(text, words.as_str())
        }
    }
}

fn add_figure(alloc: Global, text: &mut Vec<u8>, figure: &FigureChange) -> Done {
    let (is_new, is_gone) = (is_nothing(&figure.old), is_nothing(&figure.new));
    let is_whole_line = !matches!(figure.line, Line::Head) && (is_new || is_gone);
    if is_whole_line && !is_first_told(figure) {
        return Ok(());
    }
    add(text, "  ")?;
    add_line_name(alloc, text, figure.line)?;
    if is_whole_line {
        return add(text, if is_new { " is new\n" } else { " is gone\n" });
    }
    add(text, ": ")?;
    text.extend_from_slice(figure.column.name())?;
    add(text, " ")?;
    add_value(alloc, text, &figure.new)?;
    add(text, ", was ")?;
    add_value(alloc, text, &figure.old)?;
    if figure.column == Column::Priority {
        add(text, " among the tasks of both tables, the highest 0")?;
    }
    add(text, "\n")
}

fn add_response(alloc: Global, text: &mut Vec<u8>, response: ResponseChange) -> Done {
    add(text, "  ")?;
    text.extend_from_slice(response.task.text())?;
    add(text, " under ")?;
    add(text, methods::name_by_number(response.method))?;
    add(text, ": ")?;
    let words = difference(alloc, response.old, response.new)?;
    add(text, words.as_str())?;
    add(text, "\n")
}

// Two responses, and how far they are apart.
fn difference(alloc: Global, old: Response, new: Response) -> Result<String, AllocError> {
    match (old, new) {
        (Response::Within(old), Response::Within(new)) => {
            let (old, new) = (old.0, new.0);
            let (before, now) = (old, ticks(alloc, new)?);
            if old <= new {
                let apart = new.saturating_sub(old);
                format!(in alloc; "{now}, was {before}: {apart} later")
            } else {
                let apart = old.saturating_sub(new);
                format!(in alloc; "{now}, was {before}: {apart} sooner")
            }
        }
        (Response::Within(old), Response::Unschedulable) => {
            let before = ticks(alloc, old.0)?;
            format!(in alloc; "no response, was {before}")
        }
        (Response::Unschedulable, Response::Within(new)) => {
            let now = ticks(alloc, new.0)?;
            format!(in alloc; "{now}, was none")
        }
        (Response::Unschedulable, Response::Unschedulable) => {
            String::from_str(alloc, "no response, as before")
        }
    }
}
