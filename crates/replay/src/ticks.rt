// The ticks of a replay as lines: which task runs in each. specs/TickLines.antt says what a line is.

ghost use Rattle.std.specs.Prelude.{◌≡◌, ◌+◌, ◌≤◌, ◌<◌, ◌++◌, length, IfSome};
ghost use Rattle.writing.specs.declared.writer.TheConstants.{ROOM};
ghost use Rattle.table.specs.Accepted.{AcceptedTable};
ghost use Rattle.replay.specs.TickLines.{tick_line, DeliversPage};

use crate::{LONGEST_REPLAY, Work, tick};
use table::Table;
use table::accepted::Accepted;
use texts::refusals::Refusal;
use writing::delivery::deliver;
use writing::writer::Draft;

// A page has no more lines.
pub const PAGE: u64 = 100;

// No page has more bytes.
pub const LONGEST_PAGE: usize = 2000;

// The line of a tick, in which the task at a position runs, or none.
#[tactic(auto, unfolding(crate::specs::TickLines::tick_line))]
fn write_tick_line(draft: &mut Draft, table: &Table, t: u64, runs: Option<usize>)
    requires accepted { AcceptedTable table.now }
    requires there { IfSome runs (λ k. k < table.now.count) }
    requires room { length draft.old + length (tick_line table.now t runs) ≤ ROOM }
    ensures { draft.new ≡ draft.old ++ tick_line table.now t runs }
{
    draft.write(&t);
    match runs {
        Some(k) => draft.field(&table.task(k).name.text()),
        None => draft.field(&b"-".as_slice()),
    }
    draft.push(b'\n');
}

// A page of lines: the ticks from `from` on, as many as a page has and as far as a replay goes.
pub fn write(accepted: Accepted, from: u64, out: &mut [u8]) -> Result<usize, Refusal>
    ensures { DeliversPage accepted.entry.table.now from out.old result out.new }
{
    let table = accepted.table;
    let tasks = table.tasks();
    let start = from.min(LONGEST_REPLAY);
    let end = (start + PAGE).min(LONGEST_REPLAY);
    let mut works = [Work::IDLE; Table::MOST_TASKS];
    for t in 0..start {
        tick(tasks, &mut works, t);
    }
    let mut draft = Draft::new();
    for t in start..end {
        let runs = tick(tasks, &mut works, t);
        write_tick_line(&mut draft, table, t, runs);
    }
    deliver(draft.text(), out)
}
