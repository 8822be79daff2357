// What each task of a table is charged under earliest deadline first. specs/Charges.antt says what that is.

ghost use Rattle.std.specs.Prelude.{◌≡◌, ◌≤◌};
ghost use Rattle.search.specs.Positions.{front};
ghost use Rattle.search.specs.Demand.{ceil};
ghost use Rattle.table.specs.Tables.{at};
ghost use Rattle.table.specs.Accepted.{AcceptedTable, AcceptedTask};
ghost use Rattle.edf.specs.Charges.{edf_charge, charged_task, charged_at, no_charged_task};

use cache::units::Ticks;
use table::Table;
use table::accepted::{Accepted, Pending};
use table::tasks::Task;

// A task with the time that each of its jobs is charged: its own, and that of the reloads after its pre-emptions.
#[derive(Clone, Copy)]
pub struct ChargedTask {
    pub time: Ticks,
    pub deadline: Ticks,
    pub period: Ticks,
}

impl ChargedTask {
    // What stands in a place without a task.
    pub const NONE: ChargedTask = ChargedTask {
        time: Ticks(0),
        deadline: Ticks(0),
        period: Ticks(0),
    };
}

// ⌈`ticks` / `period`⌉: how often a task of that period can pre-empt in so many ticks.
fn preemptions(ticks: u64, period: Ticks) -> u64
    requires { (ticks ≤ Ticks.LONGEST) × (1 ≤ period.0) × (period.0 ≤ Ticks.LONGEST) }
    ensures is { result ≡ ceil ticks period.0 }
    ensures most { result ≤ Ticks.LONGEST }
{
    (ticks + (period.0 - 1)) / period.0
}

// What a job of `task` is charged for its pre-emptions by `other`: nothing where the deadline of `other` is no smaller.
fn charge(table: &Table, task: &Task, other: &Task) -> u64
    requires accepted { AcceptedTable table.now }
    requires task { AcceptedTask table.now.sets task.now }
    requires other { AcceptedTask table.now.sets other.now }
    ensures is { result ≡ edf_charge table.now task.now other.now }
    ensures most { result ≤ 51200000000000000 }
{
    if task.deadline.0 <= other.deadline.0 {
        return 0;
    }
    let reload = task.ucb.size_in(other.ecb, table.ways()).time(table.brt);
    reload.0 * preemptions(task.deadline.0 - other.deadline.0, other.period)
}

// A task with what it is charged.
fn charged(pending: Pending) -> ChargedTask
    ensures { result ≡ charged_task pending.entry.table.now (at pending.entry.table.now pending.entry.i) }
{
    let task = pending.task();
    let mut time = task.work.0;
    for other in pending.table.tasks() {
        time += charge(pending.table, task, other);
    }
    ChargedTask {
        time: Ticks(time),
        deadline: task.deadline,
        period: task.period,
    }
}

// The tasks of a table, charged.
pub fn charged_tasks(accepted: Accepted) -> [ChargedTask; 32]
    ensures { result ≡ front no_charged_task (charged_at accepted.entry.table.now) accepted.entry.table.now.count }
{
    let mut tasks = [ChargedTask::NONE; 32];
    for i in 0..accepted.table.count {
        tasks[i] = charged(accepted.pending(i));
    }
    tasks
}
