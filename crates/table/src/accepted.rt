// Accepted tables, and tasks of them, lent: what may be used of one is a fact of its type, so that nothing is asked of who has it.

ghost use Rattle.std.specs.Prelude.{◌<◌};
ghost use Rattle.table.specs.Accepted.{AcceptedTable};

use crate::Table;
use crate::tasks::Task;
use cache::units::Ticks;
use texts::refusals::Refusal;

// A table that the reader accepted.
#[derive(Clone, Copy)]
pub struct Accepted<'a> {
    pub table: &'a Table,
    pub ghost accepted: { AcceptedTable table.now },
}

// A task of such a table, by its position: the one that is pending, whose response is asked for.
#[derive(Clone, Copy)]
pub struct Pending<'a> {
    pub table: &'a Table,
    pub i: usize,
    pub ghost accepted: { AcceptedTable table.now },
    pub ghost held: { i < table.now.count },
}

impl<'a> Accepted<'a> {
    ghost use Rattle.std.specs.Prelude.{◌≡◌, ◌<◌, Ok};
    ghost use Rattle.table.specs.Tables.{empty_table};
    ghost use Rattle.table.specs.Reading.{read_text, then_read};

    // The table of a text, read into an empty one, or the first refusal.
    pub fn read(text: &[u8], table: &'a mut Table) -> Result<Accepted<'a>, Refusal>
        requires { table.old ≡ empty_table }
        ensures { then_read result (λ a. Ok a.table.now) ≡ read_text text.now }
    {
        table.read(text)?;
        Ok(Accepted { table })
    }

    // The task at a position, as the one that is pending.
    pub fn pending(self, i: usize) -> Pending<'a>
        requires { i < self.table.now.count }
        ensures table { result.table.now ≡ self.entry.table.now }
        ensures position { result.i ≡ i }
    {
        Pending {
            table: self.table,
            i,
        }
    }
}

impl<'a> Pending<'a> {
    ghost use Rattle.std.specs.Prelude.{◌≡◌};
    ghost use Rattle.table.specs.Tables.{at};
    ghost use Rattle.table.specs.Tasks.{limit_of};

    // The task itself.
    pub fn task(self) -> &'a Task
        ensures { result.now ≡ at self.entry.table.now self.entry.i }
    {
        self.table.task(self.i)
    }

    // Within what time of its release it has to be complete: D - J, in ticks.
    pub fn limit(self) -> Ticks
        ensures { result.0 ≡ limit_of (at self.entry.table.now self.entry.i) }
    {
        let task = self.task();
        Ticks(task.deadline.0 - task.jitter.0)
    }
}
