// The lines that tell what moved, for programs: a build's name, spelled out, and after tabs what moved, its old value and its new one.
#![tactic(auto)]

// The builds of two folders, name by name.
pub mod pairs;

use cache::sets::CacheSet;
use cache::useful::{Form, Useful};
use changes::figures::Value;
use changes::{Comparison, FateChange, FigureChange, Line, ResponseChange, VerdictChange};
use lists::Fate;
use search::demand::Response;
use std::alloc::{AllocError, Global};
use std::fmt::Write;
use writing::marks::{write_marks, write_useful};
use writing::writer::Draft;

type Done = Result<(), AllocError>;

// A tab, and bytes.
fn add_field(line: &mut Vec<u8>, field: &[u8]) -> Done {
    line.push(b'\t')?;
    line.extend_from_slice(field)
}

fn add_number(line: &mut Vec<u8>, number: u64) -> Done {
    let alloc = *line.allocator();
    let text = format!(in alloc; "{number}")?;
    add_field(line, text.as_str().as_bytes())
}

// Cache sets as their table writes them.
fn marks(alloc: Global, set: CacheSet, sets: u64) -> Result<Vec<u8>, AllocError> {
    let mut draft = Draft::new();
    if sets <= CacheSet::MOST_SETS {
        write_marks(&mut draft, sets, set);
    }
    Vec::from_slice(alloc, draft.text())
}

fn add_blocks(line: &mut Vec<u8>, blocks: &Useful, form: Form, sets: u64) -> Done {
    let mut draft = Draft::new();
    if sets <= CacheSet::MOST_SETS && form.ways() <= Useful::MOST_WAYS {
        write_useful(&mut draft, form, sets, blocks);
    }
    line.extend_from_slice(draft.text())
}

// A tab, and a figure as its table writes it; `-` where there is none.
pub fn add_value(line: &mut Vec<u8>, value: &Value) -> Done {
    match value {
        Value::Nothing => add_field(line, b"-"),
        Value::Number(number) => add_number(line, *number),
        Value::Name(name) => add_field(line, name.text()),
        Value::Marks(set, sets) => {
            let text = marks(*line.allocator(), *set, *sets)?;
            line.extend_from_slice(text.as_slice())
        }
        Value::Blocks(blocks, form, sets) => add_blocks(line, blocks, *form, *sets),
    }
}

fn add_response(line: &mut Vec<u8>, response: Response) -> Done {
    match response {
        Response::Within(time) => add_number(line, time.0),
        Response::Unschedulable => add_field(line, b"-"),
    }
}

fn add_method(line: &mut Vec<u8>, method: usize) -> Done {
    add_field(line, methods::name_by_number(method).as_bytes())
}

fn add_verdict(line: &mut Vec<u8>, verdict: bool) -> Done {
    add_field(line, if verdict { b"yes" } else { b"no" })
}

// What became of a build, as its line in a list has it; `-` where there is no such build.
fn add_fate(lines: &mut Vec<u8>, name: &[u8], when: &[u8], fate: Option<Fate>) -> Done {
    let alloc = *lines.allocator();
    let mut start = Vec::from_slice(alloc, name)?;
    add_field(&mut start, when)?;
    match fate {
        Some(fate) => {
            let line = lists::line(alloc, start.as_slice(), fate)?;
            lines.extend_from_slice(line.as_slice())
        }
        None => {
            lines.extend_from_slice(start.as_slice())?;
            lines.extend_from_slice(b"\t-\n")
        }
    }
}

fn add_fates(lines: &mut Vec<u8>, name: &[u8], change: FateChange) -> Done {
    add_fate(lines, name, b"was", change.old)?;
    add_fate(lines, name, b"now", change.new)
}

fn add_figure(lines: &mut Vec<u8>, name: &[u8], change: &FigureChange) -> Done {
    lines.extend_from_slice(name)?;
    match change.line {
        Line::Head => add_field(lines, b"K")?,
        Line::Task(task) => {
            add_field(lines, b"T")?;
            add_field(lines, task.text())?;
        }
        Line::Access(n) => {
            add_field(lines, b"A")?;
            let alloc = *lines.allocator();
            let place = format!(in alloc; "#{n}")?;
            add_field(lines, place.as_str().as_bytes())?;
        }
    }
    add_field(lines, change.column.name())?;
    add_value(lines, &change.old)?;
    add_value(lines, &change.new)?;
    lines.push(b'\n')?;
    Ok(())
}

fn add_moved(lines: &mut Vec<u8>, name: &[u8], change: ResponseChange) -> Done {
    lines.extend_from_slice(name)?;
    add_field(lines, b"R")?;
    add_field(lines, change.task.text())?;
    add_method(lines, change.method)?;
    add_response(lines, change.old)?;
    add_response(lines, change.new)?;
    lines.push(b'\n')?;
    Ok(())
}

fn add_turned(lines: &mut Vec<u8>, name: &[u8], change: VerdictChange) -> Done {
    lines.extend_from_slice(name)?;
    add_field(lines, b"V")?;
    add_method(lines, change.method)?;
    add_verdict(lines, change.old)?;
    add_verdict(lines, change.new)?;
    lines.push(b'\n')?;
    Ok(())
}

// The lines of what moved in a build.
pub fn add_changes(lines: &mut Vec<u8>, name: &[u8], found: &Comparison) -> Done {
    if let Some(fates) = found.fates {
        add_fates(lines, name, fates)?;
    }
    for figure in &found.figures {
        add_figure(lines, name, figure)?;
    }
    for response in &found.responses {
        add_moved(lines, name, *response)?;
    }
    for verdict in &found.verdicts {
        add_turned(lines, name, *verdict)?;
    }
    Ok(())
}
