// Plain tables: no task has a jitter above 0, and there is no access. specs/Plain.antt says which line of another is told.

ghost use Rattle.std.specs.Prelude.{◌≡◌, nat_lt, position};
ghost use Rattle.table.specs.Tables.{tasks_of};
ghost use Rattle.crpd.specs.Plain.{plain_checked};

use table::Table;
use table::accepted::Accepted;
use texts::refusals::{Reason, Refusal};

// The number of the first task line: line 1 stands above it.
const FIRST_TASK_LINE: u64 = 2;

// The position of the first task with a jitter above 0.
fn first_jitter(table: &Table) -> Option<usize>
    ensures { result ≡ position (λ task. nat_lt 0 task.jitter.0) (tasks_of table.now) }
{
    table.tasks().iter().position(|task| 0 < task.jitter.0)
}

// Refuses a table that is not plain, telling the first line that shows it: the field of a jitter, else the letter of an access.
#[tactic(auto, unfolding(crate::specs::Plain::plain_checked))]
pub fn check(accepted: Accepted) -> Result<(), Refusal>
    ensures { result ≡ plain_checked accepted.entry.table.now }
{
    let table = accepted.table;
    if let Some(k) = first_jitter(table) {
        return Err(Reason::HasJitter.at(5).on(k as u64 + FIRST_TASK_LINE));
    }
    if 0 < table.access_count {
        return Err(
            Reason::HasAccess
                .at(0)
                .on(table.count as u64 + FIRST_TASK_LINE),
        );
    }
    Ok(())
}
