// A replay, tick by tick, of the tasks of a table under fixed priorities, by a machine that knows no equation. specs/Replay.antt says what a replay is, with all
// its jobs; the code keeps two numbers a task, as in specs/Tally.antt.
#![tactic(auto)]

// The ticks as lines.
pub mod ticks;

ghost use Rattle.std.specs.Prelude.{◌≡◌, ◌≤◌, ◌+◌, length, take, position, All, IfOk};
ghost use Rattle.table.specs.Tables.{tasks_of, at};
ghost use Rattle.replay.specs.Replay.{runs_at, first_end, EndsFirst, replayed};
ghost use Rattle.replay.specs.Tally.{Runnable, with_due, add_due, is_busy, give, tally, Most, Ticking, Replayable};

use cache::units::Ticks;
use table::Table;
use table::accepted::Pending;
use table::tasks::Task;
use texts::refusals::{Reason, Refusal};

// No replay is longer, in ticks.
pub const LONGEST_REPLAY: u64 = 100000;

// One task in the replay: the work left of its jobs, and the ticks that it has been given.
#[derive(Clone, Copy)]
pub struct Work {
    pub left: u64,
    pub done: u64,
}

impl Work {
    // No job is released yet.
    const IDLE: Work = Work { left: 0, done: 0 };
}

// A task releases a job where its period divides `t`.
fn with_due(task: &Task, work: Work, t: u64) -> Work
    requires { Runnable task.now × (work.left ≤ 25000000000000) }
    ensures { result ≡ with_due t task.now work }
{
    if t % task.period.0 == 0 {
        return Work {
            left: work.left + task.work.0,
            done: work.done,
        };
    }
    work
}

// The start of tick `t`: each task releases its job.
fn release_all(tasks: &[Task], works: &mut [Work; Table::MOST_TASKS], t: u64)
    requires { (length tasks.now ≤ 32) × All Runnable tasks.now × Most 25000000000000 (take (length tasks.now) works.old) }
    ensures { take (length tasks.now) works.new ≡ add_due t tasks.now (take (length tasks.now) works.old) }
{
    for j in 0..tasks.len() {
        works[j] = with_due(&tasks[j], works[j], t);
    }
}

// One unit of the highest of the first `n` tasks that has work: which one it is.
fn run_highest(works: &mut [Work; Table::MOST_TASKS], n: usize) -> Option<usize>
    requires { (n ≤ 32) × Most 25000250000000 (take n works.old) }
    ensures ran { take n works.new ≡ give (take n works.old) }
    ensures highest { result ≡ position is_busy (take n works.old) }
{
    for j in 0..n {
        let work = works[j];
        if 0 < work.left {
            works[j] = Work {
                left: work.left - 1,
                done: work.done + 1,
            };
            return Some(j);
        }
    }
    None
}

// Tick `t`: which task runs.
fn tick(tasks: &[Task], works: &mut [Work; Table::MOST_TASKS], t: u64) -> Option<usize>
    requires { Ticking tasks.now works.old t }
    ensures state { take (length tasks.now) works.new ≡ tally tasks.now (t + 1) }
    ensures runs { result ≡ runs_at tasks.now t }
{
    release_all(tasks, works, t);
    run_highest(works, tasks.len())
}

// When the first job of the task at `i` ends, in a replay of `limit` ticks, or that it does not by then.
fn first_end(tasks: &[Task], i: usize, limit: u64) -> Option<Ticks>
    requires { Replayable tasks.now i limit }
    ensures { result ≡ first_end tasks.now i limit }
{
    let work = tasks[i].work.0;
    let mut works = [Work::IDLE; Table::MOST_TASKS];
    for t in 0..limit + 1 {
        if work <= works[i].done {
            return Some(Ticks(t));
        }
        tick(tasks, &mut works, t);
    }
    None
}

// When the first job of the pending task ends, or that it is unfinished at its deadline. A deadline that is further than a replay goes is refused.
pub fn replay(pending: Pending) -> Result<Option<Ticks>, Refusal>
    ensures value { result ≡ replayed pending.entry.table.now pending.entry.i }
    ensures means { IfOk result (EndsFirst (tasks_of pending.entry.table.now) pending.entry.i (at pending.entry.table.now pending.entry.i).deadline.0) }
{
    let deadline = pending.task().deadline.0;
    if LONGEST_REPLAY < deadline {
        return Err(Refusal::untold(Reason::LongDeadline));
    }
    Ok(first_end(pending.table.tasks(), pending.i, deadline))
}
