// The lines of a table: how many fields each has, what people call them, and what each has to be.

use cache::sets::CacheSet;
use cache::units::Ticks;
use cache::useful::Useful;

// What a field has to be.
#[derive(Clone, Copy)]
pub enum Kind {
    // the letter that tells what the line is
    Letter,
    Name,
    // a number in a range, of which this is the least and the most
    Number(u64, u64),
    // how many cache sets there are: a number in its range, and a multiple of 4
    SetCount,
    // hex digits of cache sets
    Sets,
    // the same, or where line 1 names the ways, a digit for each cache set
    Useful,
}

// A field of a line: what people call it, and what it has to be.
#[derive(Clone, Copy)]
pub struct Field {
    pub called: &'static str,
    pub kind: Kind,
}

// What a line is, by its letter and its place.
#[derive(Clone, Copy, PartialEq, Eq)]
pub enum LineKind {
    Cache,
    Task,
    Access,
    Unknown,
}

fn named(called: &'static str, kind: Kind) -> Field {
    Field { called, kind }
}

fn time(called: &'static str, least: u64) -> Field {
    named(called, Kind::Number(least, Ticks::LONGEST))
}

impl LineKind {
    pub fn letter(self) -> &'static str {
        match self {
            LineKind::Cache => "K",
            LineKind::Task => "T",
            LineKind::Access => "A",
            LineKind::Unknown => "",
        }
    }

    // How many fields it may have at the most. The last of line 1 may be left out.
    pub fn most_fields(self) -> usize {
        match self {
            LineKind::Cache => 4,
            LineKind::Task => 9,
            LineKind::Access => 5,
            LineKind::Unknown => 0,
        }
    }

    // The field at a place, from 0 on.
    pub fn field(self, at: usize) -> Field {
        match self {
            LineKind::Cache => cache_field(at),
            LineKind::Task => task_field(at),
            LineKind::Access => access_field(at),
            LineKind::Unknown => named("the letter", Kind::Letter),
        }
    }
}

// Places of line 1.
pub const SET_COUNT: usize = 1;

pub const WAYS: usize = 3;

fn cache_field(at: usize) -> Field {
    match at {
        1 => named("the number of cache sets", Kind::SetCount),
        2 => named(
            "the block reload time",
            Kind::Number(0, Ticks::LONGEST_RELOAD),
        ),
        3 => named("the number of ways", Kind::Number(1, Useful::MOST_WAYS)),
        _ => named("the letter", Kind::Letter),
    }
}

// The name's place on a task line.
pub const NAME: usize = 1;

fn task_field(at: usize) -> Field {
    match at {
        1 => named("the name", Kind::Name),
        2 => time("the execution time", 1),
        3 => time("the period", 1),
        4 => time("the deadline", 1),
        5 => time("the jitter", 0),
        6 => time("the blocking", 0),
        7 => named("the useful cache sets", Kind::Useful),
        8 => named("the evicting cache sets", Kind::Sets),
        _ => named("the letter", Kind::Letter),
    }
}

fn access_field(at: usize) -> Field {
    match at {
        1 => named("the name of the task", Kind::Name),
        2 => named("the name of the ceiling", Kind::Name),
        3 => time("the length", 1),
        4 => named("the useful cache sets", Kind::Useful),
        _ => named("the letter", Kind::Letter),
    }
}

// The least number of cache sets, of which there are a multiple of so many: a hex digit is for as many.
pub const SETS_STEP: u64 = 4;

// The most cache sets.
pub const SETS_MOST: u64 = CacheSet::MOST_SETS;
