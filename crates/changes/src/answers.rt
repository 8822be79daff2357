// The responses that moved, and the verdicts that turned.

ghost use Rattle.std.specs.Prelude.{◌≡◌, ◌<◌, ◌++◌, All, IfOk, OnOk};
ghost use Rattle.std.specs.Option.{ForSome};
ghost use Rattle.search.specs.Positions.{front};
ghost use Rattle.analysis.specs.Rows.{no_row, row_of};
ghost use Rattle.changes.specs.Moved.{IsMoved, is_same_response, response_placed, response_moved};

use crate::{ResponseChange, VerdictChange};
use analysis::rows::{self, Row};
use report::verdicts;
use search::demand::Response;
use std::alloc::{AllocError, Global};
use table::accepted::Accepted;
use table::tasks::{Name, is_known, position_of};

const METHODS: usize = 6;

// What moved between the answers for two tables.
#[derive(Drop)]
pub struct Answers {
    pub responses: Vec<ResponseChange>,
    pub verdicts: Vec<VerdictChange>,
}

#[tactic(auto, using(std::proofs::lemmas::Bool::Decides::nat_tests))]
fn is_same(one: Response, other: Response) -> bool
    ensures { result ≡ is_same_response one other }
{
    match one {
        Response::Within(one) => match other {
            Response::Within(two) => one.0 == two.0,
            Response::Unschedulable => false,
        },
        Response::Unschedulable => match other {
            Response::Within(_) => false,
            Response::Unschedulable => true,
        },
    }
}

// The response of the task at a place, from the rows of its table; none where there is no such task.
fn response_placed(
    accepted: Accepted,
    rows: &[Row; 32],
    place: Option<usize>,
    method: usize,
) -> Response
    requires rows { rows.now ≡ front no_row (row_of accepted.table.now) accepted.table.now.count }
    requires place { ForSome place (λ k. k < accepted.table.now.count) }
    requires method { method < 6 }
    ensures { result ≡ response_placed accepted.entry.table.now place method }
{
    match place {
        Some(k) => rows[k].responses[method],
        None => Response::Unschedulable,
    }
}

// Tells a response if it moved.
fn note(
    moved: &mut Vec<ResponseChange>,
    task: Name,
    method: usize,
    old: Response,
    new: Response,
) -> Result<(), AllocError>
    ensures { OnOk result (moved.new.items ≡ moved.old.items ++ response_moved task method old new) }
{
    if !is_same(old, new) {
        moved.push(ResponseChange {
            task,
            method,
            old,
            new,
        })?;
    }
    Ok(())
}

// Tells the responses that moved of the task of a name.
fn note_task(
    moved: &mut Vec<ResponseChange>,
    task: Name,
    old: Accepted,
    new: Accepted,
    old_rows: &[Row; 32],
    new_rows: &[Row; 32],
) -> Result<(), AllocError>
    requires old_rows { old_rows.now ≡ front no_row (row_of old.table.now) old.table.now.count }
    requires new_rows { new_rows.now ≡ front no_row (row_of new.table.now) new.table.now.count }
    requires all { All (IsMoved old.table.now new.table.now) moved.old.items }
    ensures { OnOk result (All (IsMoved old.entry.table.now new.entry.table.now) moved.new.items) }
{
    let before = position_of(task, old.table.tasks());
    let now = position_of(task, new.table.tasks());
    for method in 0..METHODS {
        let old_response = response_placed(old, old_rows, before, method);
        let new_response = response_placed(new, new_rows, now, method);
        note(moved, task, method, old_response, new_response)?;
    }
    Ok(())
}

// The verdicts that turned.
fn turned(
    alloc: Global,
    old: [bool; METHODS],
    new: [bool; METHODS],
) -> Result<Vec<VerdictChange>, AllocError> {
    let mut turned = Vec::new(alloc);
    for method in 0..METHODS {
        if old[method] != new[method] {
            turned.push(VerdictChange {
                method,
                old: old[method],
                new: new[method],
            })?;
        }
    }
    Ok(turned)
}

// The responses that moved, of the tasks as the new table has them and then of those that it has no more.
fn responses(
    alloc: Global,
    old: Accepted,
    new: Accepted,
    old_rows: &[Row; 32],
    new_rows: &[Row; 32],
) -> Result<Vec<ResponseChange>, AllocError>
    requires old_rows { old_rows.now ≡ front no_row (row_of old.table.now) old.table.now.count }
    requires new_rows { new_rows.now ≡ front no_row (row_of new.table.now) new.table.now.count }
    ensures { IfOk result (λ moved. All (IsMoved old.entry.table.now new.entry.table.now) moved.items) }
{
    let mut moved = Vec::new(alloc);
    for task in new.table.tasks() {
        note_task(&mut moved, task.name, old, new, old_rows, new_rows)?;
    }
    for gone in old.table.tasks() {
        if !is_known(gone.name, new.table.tasks()) {
            note_task(&mut moved, gone.name, old, new, old_rows, new_rows)?;
        }
    }
    Ok(moved)
}

// The responses that moved between two tables, and the verdicts that turned.
pub fn moved(alloc: Global, old: Accepted, new: Accepted) -> Result<Answers, AllocError>
    ensures { IfOk result (λ a. All (IsMoved old.entry.table.now new.entry.table.now) a.responses.items) }
{
    let (before, now) = (rows::responses(old), rows::responses(new));
    Ok(Answers {
        responses: responses(alloc, old, new, &before, &now)?,
        verdicts: turned(
            alloc,
            verdicts::verdicts(&before[..old.table.count]),
            verdicts::verdicts(&now[..new.table.count]),
        )?,
    })
}
