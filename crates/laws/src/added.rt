// A task more: what is answered of a text, and of the text with a task line put in.
ghost use Rattle.std.specs.Prelude.{◌≡◌, ◌<◌, ◌≤◌};
ghost use Rattle.table.specs.Accepted.{AcceptedTable};
ghost use Rattle.laws.specs.Added.{place_after, moved_by, TaskPutIn, NoSoonerWithMore};

use crate::any_text::TwoAnswers;
use table::Table;
use table::accesses::Access;
use table::tasks::Task;

// What the first text is answered for the task at a position, and what the second is for the same task, which stands one further down where it stood below
// `added` other tasks.
pub fn answers(first: &[u8], second: &[u8], added: u64, method: u64, position: u64) -> TwoAnswers
    ensures { NoSoonerWithMore first.now second.now added method position result }
{
    let place = if position < added {
        position
    } else {
        position.saturating_add(1)
    };
    TwoAnswers {
        first: crpd::answer(first, method, position),
        second: crpd::answer(second, method, place),
    }
}

// Where the task at k stands with another one put in at `added`.
fn place_after(added: usize, k: usize) -> usize
    requires { k < 32 }
    ensures { result ≡ place_after added k }
{
    if k < added { k } else { k + 1 }
}

// An access of the same task and with the same ceiling, where these stand then.
fn moved(added: usize, access: &Access) -> Access
    requires { (access.now.task < 32) × (access.now.ceiling < 32) }
    ensures { result ≡ moved_by added access.now }
{
    Access {
        task: place_after(added, access.task),
        ceiling: place_after(added, access.ceiling),
        lasts: access.lasts,
        ucb: access.ucb,
    }
}

// The table with a task put in at `added`, which no access names.
pub fn put_in(table: &Table, added: usize, task: Task) -> Table
    requires { AcceptedTable table.now × (added ≤ table.now.count) × (table.now.count < 32) }
    ensures { TaskPutIn added task table.now result }
{
    let mut second = *table;
    second.count = table.count + 1;
    second.tasks[added] = task;
    for k in added..table.count {
        second.tasks[k + 1] = table.tasks[k];
    }
    for n in 0..table.access_count {
        second.accesses[n] = moved(added, &table.accesses[n]);
    }
    second
}
