// What a refusal finds in a partner's list.

use crate::excerpt::Part;
use crate::finding::{Found, from_field, nth_line, place_of, told_at, told_nowhere};
use std::alloc::Global;
use std::fmt::Write;
use table::Table;
use texts::refusals::{Reason, Refusal};

// Places of a line of a list.
const NAME: usize = 1;

const RESPONSE: usize = 2;

// The same in words.
const FORM: &str =
    "a line of a list is R, a task's name, and a number of ticks or -, parted by tabs";

// What a refusal finds in the list for a table.
pub fn found(alloc: Global, list: &[u8], table: &Table, refusal: Refusal) -> Found {
    let line = nth_line(list, refusal.line).unwrap_or(&[]);
    match refusal.reason {
        Reason::ListLine => wrong_line(alloc, line, refusal.field),
        Reason::ListName => wrong_name(alloc, table, line, refusal),
        _ => told_nowhere(alloc, "the list is refused"),
    }
}

// The field that is told is not what it has to be; none is where the line is not ended.
fn wrong_line(alloc: Global, line: &[u8], field: Option<usize>) -> Found {
    match field {
        None => {
            let end = line.len();
            told_at(
                alloc,
                "the last line has no line end",
                Part { start: end, end },
            )
        }
        Some(NAME) => told_at(
            alloc,
            "the name is not 1 to 12 of the characters a-z, 0-9 and -",
            place_of(line, NAME),
        ),
        Some(RESPONSE) => told_at(
            alloc,
            "the response is neither - nor a number: 0, or up to nine digits that do not start with 0",
            place_of(line, RESPONSE),
        ),
        Some(at) => told_at(alloc, FORM, from_field(line, at)),
    }
}

// The name is that of another task, or none is due there, or the line is missing.
fn wrong_name(alloc: Global, table: &Table, line: &[u8], refusal: Refusal) -> Found {
    let at = usize::try_from(refusal.line).unwrap_or(0).saturating_sub(1);
    let Some(task) = table.tasks().get(at) else {
        let tasks = wording::counted(alloc, table.tasks().len() as u64, "task")?;
        let words = format!(in alloc; "the line is one too many, for the table has {tasks}")?;
        return told_at(alloc, words.as_str(), place_of(line, 0));
    };
    let name = wording::word(alloc, task.name.text())?;
    let Some(field) = refusal.field else {
        let words = format!(in alloc; "the line of {name} is missing")?;
        return told_nowhere(alloc, words.as_str());
    };
    let words = format!(in alloc; "the task at this place of the table is {name}")?;
    told_at(alloc, words.as_str(), place_of(line, field))
}
