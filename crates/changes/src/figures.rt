// The figures of a table, column by column, and those that moved.

use crate::matching::{Matching, Pair};
use crate::{FigureChange, Line};
use cache::sets::CacheSet;
use cache::useful::{Form, Useful};
use std::alloc::{AllocError, Global};
use table::Table;
use table::tasks::{Name, Task};

// The columns of line 1, of a task, and of an access.
#[derive(Clone, Copy, PartialEq, Eq)]
pub enum Column {
    CacheSets,
    Brt,
    Ways,
    // the position of a task; among the tasks that both tables have, where both have it
    Priority,
    Execution,
    Period,
    Deadline,
    Jitter,
    Ucb,
    Ecb,
    Task,
    Ceiling,
    Length,
}

impl Column {
    // How the documents call it.
    pub fn name(self) -> &'static [u8] {
        match self {
            Column::CacheSets => b"cache sets",
            Column::Brt => b"BRT",
            Column::Ways => b"ways",
            Column::Priority => b"priority",
            Column::Execution => b"C",
            Column::Period => b"T",
            Column::Deadline => b"D",
            Column::Jitter => b"J",
            Column::Ucb => b"UCB",
            Column::Ecb => b"ECB",
            Column::Task => b"task",
            Column::Ceiling => b"ceiling",
            Column::Length => b"length",
        }
    }
}

const OF_HEAD: [Column; 3] = [Column::CacheSets, Column::Brt, Column::Ways];

const OF_TASK: [Column; 7] = [
    Column::Priority,
    Column::Execution,
    Column::Period,
    Column::Deadline,
    Column::Jitter,
    Column::Ucb,
    Column::Ecb,
];

const OF_ACCESS: [Column; 4] = [Column::Task, Column::Ceiling, Column::Length, Column::Ucb];

// A figure: what a column says. Where it has marks or counts, with the form and the cache sets of its table.
#[derive(Clone, Copy)]
pub enum Value {
    // there is no such line, or it does not say it
    Nothing,
    Number(u64),
    Name(Name),
    Marks(CacheSet, u64),
    Blocks(Useful, Form, u64),
}

fn is_same_set(one: CacheSet, other: CacheSet) -> bool {
    one.is_in(other) && other.is_in(one)
}

// Whether each level is the same, whatever the forms are.
fn are_same_blocks(one: &Useful, other: &Useful) -> bool {
    for l in 0..Useful::MOST_WAYS as usize {
        if !is_same_set(one.level(l), other.level(l)) {
            return false;
        }
    }
    true
}

impl Value {
    // Whether it is the same figure. The same cache sets are the same, with however many digits they are written.
    pub fn is(&self, other: &Value) -> bool {
        match (self, other) {
            (Value::Nothing, Value::Nothing) => true,
            (Value::Number(one), Value::Number(two)) => *one == *two,
            (Value::Name(one), Value::Name(two)) => one.bytes == two.bytes,
            (Value::Marks(one, _), Value::Marks(two, _)) => is_same_set(*one, *two),
            (Value::Blocks(one, _, _), Value::Blocks(two, _, _)) => are_same_blocks(one, two),
            _ => false,
        }
    }
}

// Tells a figure if it moved.
fn note(
    changes: &mut Vec<FigureChange>,
    line: Line,
    column: Column,
    old: Value,
    new: Value,
) -> Result<(), AllocError> {
    if !old.is(&new) {
        changes.push(FigureChange {
            line,
            column,
            old,
            new,
        })?;
    }
    Ok(())
}

fn of_head(table: &Table, column: Column) -> Value {
    match column {
        Column::CacheSets => Value::Number(table.sets),
        Column::Brt => Value::Number(table.brt.0),
        _ => match table.form {
            Form::Hex => Value::Nothing,
            Form::Digits(ways) => Value::Number(ways),
        },
    }
}

fn of_task(table: &Table, place: Option<usize>, priority: Option<u64>, column: Column) -> Value {
    let Some(k) = place else {
        return Value::Nothing;
    };
    let Some(task) = table.tasks().get(k) else {
        return Value::Nothing;
    };
    match column {
        Column::Priority => match priority {
            Some(priority) => Value::Number(priority),
            None => Value::Nothing,
        },
        Column::Execution => Value::Number(task.work.0),
        Column::Period => Value::Number(task.period.0),
        Column::Deadline => Value::Number(task.deadline.0),
        Column::Jitter => Value::Number(task.jitter.0),
        Column::Ucb => Value::Blocks(task.ucb, table.form, table.sets),
        _ => Value::Marks(task.ecb, table.sets),
    }
}

fn name_at(table: &Table, k: usize) -> Value {
    match table.tasks().get(k) {
        Some(task) => Value::Name(task.name),
        None => Value::Nothing,
    }
}

fn of_access(table: &Table, n: usize, column: Column) -> Value {
    let Some(access) = table.accesses().get(n) else {
        return Value::Nothing;
    };
    match column {
        Column::Task => name_at(table, access.task),
        Column::Ceiling => name_at(table, access.ceiling),
        Column::Length => Value::Number(access.lasts.0),
        _ => Value::Blocks(access.ucb, table.form, table.sets),
    }
}

fn add_head(changes: &mut Vec<FigureChange>, old: &Table, new: &Table) -> Result<(), AllocError> {
    for column in OF_HEAD {
        note(
            changes,
            Line::Head,
            column,
            of_head(old, column),
            of_head(new, column),
        )?;
    }
    Ok(())
}

fn add_task(
    changes: &mut Vec<FigureChange>,
    old: &Table,
    new: &Table,
    matching: &Matching,
    task: &Task,
    pair: Pair,
) -> Result<(), AllocError> {
    let (before, now) = matching.priorities(pair);
    for column in OF_TASK {
        note(
            changes,
            Line::Task(task.name),
            column,
            of_task(old, pair.old, before, column),
            of_task(new, pair.new, now, column),
        )?;
    }
    Ok(())
}

fn add_access(
    changes: &mut Vec<FigureChange>,
    old: &Table,
    new: &Table,
    n: usize,
) -> Result<(), AllocError> {
    for column in OF_ACCESS {
        note(
            changes,
            Line::Access(n),
            column,
            of_access(old, n, column),
            of_access(new, n, column),
        )?;
    }
    Ok(())
}

// The figures that moved: of line 1, of the tasks as the new table has them, of those that it has no more, and of the accesses.
pub fn moved(
    alloc: Global,
    old: &Table,
    new: &Table,
    matching: &Matching,
) -> Result<Vec<FigureChange>, AllocError> {
    let mut changes = Vec::new(alloc);
    add_head(&mut changes, old, new)?;
    for (k, task) in new.tasks().iter().enumerate() {
        add_task(&mut changes, old, new, matching, task, matching.of_new(k))?;
    }
    for (k, task) in old.tasks().iter().enumerate() {
        if let Some(pair) = matching.gone(k) {
            add_task(&mut changes, old, new, matching, task, pair)?;
        }
    }
    for n in 0..old.accesses().len().max(new.accesses().len()) {
        add_access(&mut changes, old, new, n)?;
    }
    Ok(changes)
}
