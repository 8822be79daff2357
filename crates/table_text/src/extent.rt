// How long the text of a table is, told without writing it: of a table value that no text gives it may be longer than one that is read.

ghost use Rattle.std.specs.Prelude.{◌≡◌, ◌+◌, ◌*◌, ◌≤◌, ◌<◌, length, flat_map};
ghost use Rattle.cache.specs.declared.sets.TheConstants.CacheSet.{MOST_SETS};
ghost use Rattle.cache.specs.declared.useful.Useful.{Useful};
ghost use Rattle.table.specs.Tables.{tasks_of, accesses_of};
ghost use Rattle.writing.specs.Text.{spelled};
ghost use Rattle.writing.specs.Marks.{useful_text};
ghost use Rattle.table_text.specs.TableText.{head_fields, task_fields, access_fields, line_text, tasks_text, accesses_text, table_text, NamesTasks};

use cache::useful::Form;
use table::Table;
use table::accesses::Access;
use table::tasks::Task;
use writing::writer::digits_in;

// How long a number is, with the tab before it.
fn number_len(n: u64) -> usize
    ensures is { result ≡ 1 + length (spelled n) }
    ensures few { result ≤ 21 }
{
    1 + digits_in(n)
}

// How long a field of useful blocks is, with the tab before it.
fn useful_len(form: Form, sets: u64) -> usize
    requires { sets ≤ MOST_SETS }
    ensures is { (u : Useful) → result ≡ 1 + length (useful_text form sets u) }
    ensures few { result ≤ 257 }
{
    match form {
        Form::Hex => 1 + sets as usize / 4,
        Form::Digits(_) => 1 + sets as usize,
    }
}

fn head_len(sets: u64, brt: u64, form: Form) -> usize
    ensures is { result ≡ length (line_text (head_fields sets brt form)) }
    ensures few { result ≤ 100 }
{
    let named = 2 + number_len(sets) + number_len(brt);
    match form {
        Form::Hex => named,
        Form::Digits(ways) => named + number_len(ways),
    }
}

fn task_len(form: Form, sets: u64, task: &Task) -> usize
    requires { sets ≤ MOST_SETS }
    ensures is { result ≡ length (line_text (task_fields form sets task.now)) }
    ensures few { result ≤ 1000 }
{
    let times = number_len(task.work.0)
        + number_len(task.period.0)
        + number_len(task.deadline.0)
        + number_len(task.jitter.0)
        + number_len(0);
    let blocks = useful_len(form, sets) + 1 + sets as usize / 4;
    3 + task.name.len() + times + blocks
}

#[tactic(auto, unfolding(table::specs::Tables::at))]
fn access_len(table: &Table, access: &Access) -> usize
    requires bounds { (table.now.sets ≤ MOST_SETS) × (table.now.count ≤ Table.MOST_TASKS) }
    requires known { (access.now.task < table.now.count) × (access.now.ceiling < table.now.count) }
    ensures is { result ≡ length (line_text (access_fields table.now.form table.now.sets (tasks_of table.now) access.now)) }
    ensures few { result ≤ 1000 }
{
    let names = table.task(access.task).name.len() + table.task(access.ceiling).name.len();
    4 + names + number_len(access.lasts.0) + useful_len(table.form, table.sets)
}

fn tasks_len(table: &Table) -> usize
    requires { (table.now.sets ≤ MOST_SETS) × (table.now.count ≤ Table.MOST_TASKS) }
    ensures is { result ≡ length (tasks_text table.now) }
    ensures few { result ≤ 32000 }
{
    let mut len = 0;
    for task in table.tasks() {
        len += task_len(table.form, table.sets, task);
    }
    len
}

fn accesses_len(table: &Table) -> usize
    requires bounds { (table.now.sets ≤ MOST_SETS) × (table.now.count ≤ Table.MOST_TASKS) × (table.now.access_count ≤ Table.MOST_ACCESSES) }
    requires known { NamesTasks table.now.count (accesses_of table.now) }
    ensures is { result ≡ length (accesses_text table.now) }
    ensures few { result ≤ 32000 }
{
    let mut len = 0;
    for access in table.accesses() {
        len += access_len(table, access);
    }
    len
}

// How long the text of a table is.
pub fn length(table: &Table) -> usize
    requires bounds { (table.now.sets ≤ MOST_SETS) × (table.now.count ≤ Table.MOST_TASKS) × (table.now.access_count ≤ Table.MOST_ACCESSES) }
    requires known { NamesTasks table.now.count (accesses_of table.now) }
    ensures { result ≡ length (table_text table.now) }
{
    head_len(table.sets, table.brt.0, table.form) + tasks_len(table) + accesses_len(table)
}
