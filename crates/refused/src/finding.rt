// What a refusal finds in a text: what is wrong in words, and where in the line. The refusal tells which line and which field of it; words on what the field has to be
// go by forms, and those on what stands elsewhere, on another line of the text, by that.

use crate::excerpt::Part;
use crate::forms::{self, Field, Kind, LineKind};
use cache::units::Ticks;
use replay::LONGEST_REPLAY;
use std::alloc::{AllocError, Global};
use std::fmt::Write;
use table::Table;
use texts::fields::{is_within, read_number};
use texts::lines::{Fields, Lines};
use texts::refusals::{Reason, Refusal};

// What is wrong, and where in the line.
#[derive(Drop)]
pub struct Finding {
    pub words: String,
    pub mark: Option<Part>,
}

pub type Found = Result<Finding, AllocError>;

fn at(words: String, mark: Part) -> Finding {
    Finding {
        words,
        mark: Some(mark),
    }
}

pub fn told_at(alloc: Global, words: &str, mark: Part) -> Found {
    Ok(at(String::from_str(alloc, words)?, mark))
}

fn nowhere(words: String) -> Finding {
    Finding { words, mark: None }
}

pub fn told_nowhere(alloc: Global, words: &str) -> Found {
    Ok(nowhere(String::from_str(alloc, words)?))
}

// The line of a number, from 1 on.
pub fn nth_line(text: &[u8], number: u64) -> Option<&[u8]> {
    if number == 0 {
        return None;
    }
    for (line, at) in Lines::of(text).zip(1..) {
        if at == number {
            return Some(line);
        }
    }
    None
}

// What stands behind the last line end.
pub fn last_line(text: &[u8]) -> &[u8] {
    match text.iter().rposition(|byte| *byte == b'\n') {
        Some(end) => text.get(end.saturating_add(1)..).unwrap_or(&[]),
        None => text,
    }
}

impl Finding {
    // What a refusal finds in its text.
    pub fn of(alloc: Global, text: &[u8], refusal: Refusal) -> Found {
        match refusal.reason {
            Reason::TooLong => {
                let most = wording::number(alloc, Table::LONGEST_TEXT as u64)?;
                Ok(nowhere(format!(in alloc; "the text is longer than {most} bytes")?))
            }
            Reason::NotEnded => not_ended(alloc, text),
            Reason::NoTask => told_nowhere(alloc, "there is no task line"),
            Reason::LongDeadline => {
                let most = wording::number(alloc, LONGEST_REPLAY)?;
                Ok(nowhere(format!(in alloc; "the deadline of the task is above {most} ticks")?))
            }
            Reason::LongHyperperiod => {
                let most = wording::number(alloc, Ticks::LONGEST)?;
                Ok(nowhere(format!(in alloc;
                    "the least common multiple of the periods is above {most} ticks"
                )?))
            }
            _ => match nth_line(text, refusal.line) {
                Some(line) => in_line(alloc, text, line, refusal),
                None => refused(alloc),
            },
        }
    }
}

fn refused(alloc: Global) -> Found {
    told_nowhere(alloc, "the text is refused")
}

fn not_ended(alloc: Global, text: &[u8]) -> Found {
    if text.is_empty() {
        return told_nowhere(alloc, "the text is empty");
    }
    let end = last_line(text).len();
    told_at(
        alloc,
        "the last line has no line end",
        Part { start: end, end },
    )
}

// Where a field of a line lies; where it has too few, at its end.
pub fn place_of(line: &[u8], at: usize) -> Part {
    let mut start = 0usize;
    let mut left = at;
    for field in Fields::of(line) {
        let end = start.saturating_add(field.len());
        if left == 0 {
            return Part { start, end };
        }
        left -= 1;
        start = end.saturating_add(1);
    }
    Part {
        start: line.len(),
        end: line.len(),
    }
}

pub fn field_of(line: &[u8], at: usize) -> &[u8] {
    Fields::of(line).nth(at).unwrap_or(&[])
}

pub fn fields_in(line: &[u8]) -> usize {
    let mut count = 0usize;
    for _field in Fields::of(line) {
        count = count.saturating_add(1);
    }
    count
}

fn kind_of(line: &[u8], number: u64) -> LineKind {
    let letter = field_of(line, 0);
    if number == 1 {
        if letter == b"K".as_slice() {
            LineKind::Cache
        } else {
            LineKind::Unknown
        }
    } else if letter == b"T".as_slice() {
        LineKind::Task
    } else if letter == b"A".as_slice() {
        LineKind::Access
    } else {
        LineKind::Unknown
    }
}

// A field of a line of the text that a refusal tells.
#[derive(Clone, Copy)]
struct Told<'a> {
    text: &'a [u8],
    number: u64,
    line: &'a [u8],
    at: usize,
}

impl<'a> Told<'a> {
    fn kind(self) -> LineKind {
        kind_of(self.line, self.number)
    }

    fn field(self) -> Field {
        self.kind().field(self.at)
    }

    fn bytes(self) -> &'a [u8] {
        field_of(self.line, self.at)
    }
}

// What a refusal finds in its line.
fn in_line(alloc: Global, text: &[u8], line: &[u8], refusal: Refusal) -> Found {
    let Some(at) = refusal.field else {
        return refused(alloc);
    };
    let told = Told {
        text,
        number: refusal.line,
        line,
        at,
    };
    let mark = if refusal.reason == Reason::Shape {
        from_field(line, at)
    } else {
        place_of(line, at)
    };
    Ok(Finding {
        words: words_of(alloc, refusal.reason, told)?,
        mark: Some(mark),
    })
}

// A field that is surplus, with those behind it; the first one alone.
pub fn from_field(line: &[u8], at: usize) -> Part {
    let place = place_of(line, at);
    if at == 0 {
        return place;
    }
    Part {
        start: place.start,
        end: line.len(),
    }
}

type Words = Result<String, AllocError>;

// What is wrong with the field that is told.
fn words_of(alloc: Global, reason: Reason, told: Told) -> Words {
    let words = match reason {
        Reason::Shape => return wrong_shape(alloc, told),
        Reason::Name => return faulty(alloc, told, NO_NAME),
        Reason::Number => return faulty(alloc, told, NO_NUMBER),
        Reason::Range => return outside(alloc, told),
        Reason::Marks => return wrong_marks(alloc, told),
        Reason::TooManyBlocks => return too_many_blocks(alloc, told),
        Reason::Order => return wrong_order(alloc, told),
        Reason::KnownName => return known_name(alloc, told),
        Reason::TooManyTasks => return too_many(alloc, Table::MOST_TASKS, "task"),
        Reason::TooManyAccesses => return too_many(alloc, Table::MOST_ACCESSES, "access"),
        Reason::OtherTask => return wrong_access(alloc, told),
        Reason::HasJitter => "the jitter is above 0: this is not answered where there is one",
        Reason::HasAccess => "there is an access: this is not answered where there is one",
        Reason::Blocking => "the blocking is above 0: what blocks a task stands on access lines",
        _ => "the text is refused",
    };
    String::from_str(alloc, words)
}

pub const NO_NAME: &str = "is not 1 to 12 of the characters a-z, 0-9 and -";

const NO_NUMBER: &str = "is not a number: 0, or up to nine digits that do not start with 0";

fn faulty(alloc: Global, told: Told, fault: &str) -> Words {
    let called = told.field().called;
    format!(in alloc; "{called} {fault}")
}

fn known_name(alloc: Global, told: Told) -> Words {
    let above = line_named(told.text, told.number, told.bytes()).unwrap_or(0);
    format!(in alloc; "the name stands on line {above} already")
}

fn too_many(alloc: Global, most: usize, what: &str) -> Words {
    format!(in alloc; "there are more than {most} {what} lines")
}

fn wrong_shape(alloc: Global, told: Told) -> Words {
    let kind = told.kind();
    if told.at == 0 {
        let words = if told.number == 1 {
            "the first line does not start with the field K"
        } else if kind == LineKind::Unknown {
            "the line starts with neither T nor A"
        } else {
            "a task line stands below an access line"
        };
        return String::from_str(alloc, words);
    }
    let found = wording::number(alloc, fields_in(told.line) as u64)?;
    let (letter, wanted) = (kind.letter(), wanted_fields(alloc, kind)?);
    format!(in alloc; "a line {letter} has {wanted} fields, and this one {found}")
}

// How many fields a line has to have, in words.
fn wanted_fields(alloc: Global, kind: LineKind) -> Words {
    let most = kind.most_fields();
    if kind == LineKind::Cache {
        let less = most.saturating_sub(1);
        format!(in alloc; "{less} or {most}")
    } else {
        format!(in alloc; "{most}")
    }
}

// What line 1 says of the fields of cache sets below it, with 0 for what is no number.
#[derive(Clone, Copy)]
struct Cache {
    sets: u64,
    // where they are named, and useful blocks are counted
    ways: Option<u64>,
}

impl Cache {
    fn of(text: &[u8]) -> Cache {
        let line = nth_line(text, 1).unwrap_or(&[]);
        let sets = read_number(field_of(line, forms::SET_COUNT)).unwrap_or(0);
        let ways = Fields::of(line).nth(forms::WAYS);
        Cache {
            sets,
            ways: match ways {
                Some(field) => Some(read_number(field).unwrap_or(0)),
                None => None,
            },
        }
    }
}

fn outside(alloc: Global, told: Told) -> Words {
    let number = read_number(told.bytes()).unwrap_or(0);
    match told.field().kind {
        Kind::Number(least, most) => out_of_range(alloc, told, least, most),
        Kind::SetCount if is_within(forms::SETS_STEP, forms::SETS_MOST, number) => {
            let step = forms::SETS_STEP;
            let fault = format!(in alloc; "is no multiple of {step}")?;
            faulty(alloc, told, fault.as_str())
        }
        _ => out_of_range(alloc, told, forms::SETS_STEP, forms::SETS_MOST),
    }
}

fn out_of_range(alloc: Global, told: Told, least: u64, most: u64) -> Words {
    let (low, high) = (
        wording::number(alloc, least)?,
        wording::number(alloc, most)?,
    );
    let fault = format!(in alloc; "is not in the range from {low} to {high}")?;
    faulty(alloc, told, fault.as_str())
}

fn wrong_marks(alloc: Global, told: Told) -> Words {
    let cache = Cache::of(told.text);
    match (told.field().kind, cache.ways) {
        (Kind::Useful, Some(_)) => {
            let digits = wording::counted(alloc, cache.sets, "digit")?;
            let fault = format!(in alloc; "are not {digits} of 0-9, one for each cache set")?;
            faulty(alloc, told, fault.as_str())
        }
        _ => {
            let digits = wording::counted(alloc, cache.sets / forms::SETS_STEP, "digit")?;
            let fault = format!(in alloc; "are not {digits} of 0-9 and a-f")?;
            faulty(alloc, told, fault.as_str())
        }
    }
}

fn too_many_blocks(alloc: Global, told: Told) -> Words {
    let ways = wording::counted(alloc, Cache::of(told.text).ways.unwrap_or(0), "way")?;
    let fault = format!(in alloc; "have a count above the {ways} of a cache set")?;
    faulty(alloc, told, fault.as_str())
}

// The field is longer than the one before it.
fn wrong_order(alloc: Global, told: Told) -> Words {
    let kind = told.kind();
    let (called, before) = (
        told.field().called,
        kind.field(told.at.saturating_sub(1)).called,
    );
    format!(in alloc; "{called} is longer than {before}")
}

// The first task line above a line that has a name.
fn line_named(text: &[u8], below: u64, name: &[u8]) -> Option<u64> {
    for (line, number) in Lines::of(text).zip(1..) {
        if below <= number {
            return None;
        }
        if 1 < number
            && field_of(line, 0) == b"T".as_slice()
            && field_of(line, forms::NAME) == name
        {
            return Some(number);
        }
    }
    None
}

fn wrong_access(alloc: Global, told: Told) -> Words {
    if line_named(told.text, told.number, told.bytes()).is_some() {
        return String::from_str(alloc, "the ceiling is below the task");
    }
    let called = told.field().called;
    format!(in alloc; "no task has {called}")
}
