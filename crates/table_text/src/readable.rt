// Whether a table value is one that a text gives. specs/Readable.antt says what that means, and specs/Tests.antt has the tests.

ghost use Rattle.std.specs.Prelude.{◌≡◌, ◌↔◌, IsTrue, [], drop, is_some, IfSome};
ghost use Rattle.std.specs.List.{list_all};
ghost use Rattle.table.specs.Tables.{tasks_of, accesses_of};
ghost use Rattle.table_text.specs.Readable.{Whole, Readable};
ghost use Rattle.table_text.specs.Tests.{head_of, is_next, are_next, is_entered, is_vacant, is_unused, has_lines, is_readable};

use crate::extent;
use cache::units::Ticks;
use cache::useful::Form;
use table::Table;
use table::accepted::Accepted;
use table::accesses::Access;
use table::tasks::{Head, Task, is_known};
use texts::fields;
use writing::marks::{marks_fit, useful_fits};

// Whether a line can say a task in a table of this form with so many cache sets, below these tasks.
#[tactic(auto, unfolding(crate::specs::Tests::is_next))]
fn is_next(form: Form, sets: u64, above: &[Task], task: &Task) -> bool
    ensures { result ≡ is_next form sets above.now task.now }
{
    task.name.is_filled()
        & task.is_timely()
        & useful_fits(form, sets, &task.ucb)
        & marks_fit(sets, task.ecb)
        & !is_known(task.name, above)
}

// Whether lines can say these tasks, each below those above it.
fn are_next(form: Form, sets: u64, tasks: &[Task]) -> bool
    ensures { result ≡ are_next form sets [] tasks.now }
{
    for (k, task) in tasks.iter().enumerate() {
        if !is_next(form, sets, &tasks[..k], task) {
            return false;
        }
    }
    true
}

// Whether a line can say an access in a table of so many cache sets, below so many tasks.
#[tactic(auto, unfolding(crate::specs::Tests::is_entered))]
fn is_entered(form: Form, sets: u64, count: usize, access: &Access) -> bool
    ensures { result ≡ is_entered form sets count access.now }
{
    fields::is_within(1, Ticks::LONGEST, access.lasts.0)
        & useful_fits(form, sets, &access.ucb)
        & (access.task < count)
        & (access.ceiling <= access.task)
}

fn are_entered(form: Form, sets: u64, count: usize, accesses: &[Access]) -> bool
    ensures { result ≡ list_all (is_entered form sets count) accesses.now }
{
    accesses
        .iter()
        .all(|access| is_entered(form, sets, count, access))
}

// Whether a place has no task: a set without marks fits where there is no cache set.
#[tactic(auto, unfolding(crate::specs::Tests::is_vacant))]
fn is_vacant(task: &Task) -> bool
    ensures { result ≡ is_vacant task.now }
{
    fields::same_bytes(&task.name.bytes, &[0; 12])
        & (task.work.0 == 0)
        & (task.period.0 == 0)
        & (task.deadline.0 == 0)
        & (task.jitter.0 == 0)
        & useful_fits(Form::Hex, 0, &task.ucb)
        & marks_fit(0, task.ecb)
}

fn are_vacant(places: &[Task]) -> bool
    ensures { result ≡ list_all is_vacant places.now }
{
    places.iter().all(|task| is_vacant(task))
}

// Whether a place has no access.
#[tactic(auto, unfolding(crate::specs::Tests::is_unused))]
fn is_unused(access: &Access) -> bool
    ensures { result ≡ is_unused access.now }
{
    (access.task == 0)
        & (access.ceiling == 0)
        & (access.lasts.0 == 0)
        & useful_fits(Form::Hex, 0, &access.ucb)
}

fn are_unused(places: &[Access]) -> bool
    ensures { result ≡ list_all is_unused places.now }
{
    places.iter().all(|access| is_unused(access))
}

// Whether lines can say the table.
#[tactic(auto, unfolding(crate::specs::Tests::has_lines))]
fn has_lines(table: &Table) -> bool
    ensures test { result ≡ has_lines table.now }
    ensures whole { Whole table.now }
{
    let places = &table.tasks;
    let access_places = &table.accesses;
    if Table::MOST_TASKS < table.count || Table::MOST_ACCESSES < table.access_count {
        return false;
    }
    let head = Head {
        sets: table.sets,
        brt: table.brt,
        form: table.form,
    };
    head.in_range()
        && 0 < table.count
        && are_next(table.form, table.sets, table.tasks())
        && are_entered(table.form, table.sets, table.count, table.accesses())
        && are_vacant(&places[table.count..])
        && are_unused(&access_places[table.access_count..])
}

// Whether some accepted text reads as this table.
fn is_readable(table: &Table) -> bool
    ensures test { result ≡ is_readable table.now }
    ensures meant { IsTrue result ↔ Readable table.now }
{
    has_lines(table) && extent::length(table) <= Table::LONGEST_TEXT
}

// The table as an accepted one, where some accepted text reads as it.
pub fn accepted<'a>(table: &'a Table) -> Option<Accepted<'a>>
    ensures test { is_some result ≡ is_readable table.now }
    ensures meant { IsTrue (is_some result) ↔ Readable table.now }
    ensures same { IfSome result (λ accepted. accepted.table.now ≡ table.now) }
{
    if is_readable(table) {
        Some(Accepted { table })
    } else {
        None
    }
}
