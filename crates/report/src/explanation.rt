// The explanation of a figure: a line with what a task needs, and one for each task above it with what that adds.

mod lines;

ghost use Rattle.report.specs.Explained.{DeliversExplanation, AddsUp};

use analysis::{Method, need};
use lines::{write_need_line, write_reasons};
use table::accepted::Pending;
use texts::refusals::Refusal;
use writing::delivery::deliver;
use writing::writer::Draft;

// No explanation has more bytes.
pub const LONGEST_EXPLANATION: usize = 1348;

// The explanation of what a method answers for a task, of which the figures add up to the response. It is written aside and delivered whole.
pub fn explain(pending: Pending, method: Method, out: &mut [u8]) -> Result<usize, Refusal>
    ensures delivers { DeliversExplanation pending.entry.table.now method pending.entry.i out.old result out.new }
    ensures adds_up { AddsUp pending.entry.table.now method pending.entry.i }
{
    let needed = need::explained(pending, method);
    let mut draft = Draft::new();
    write_need_line(&mut draft, pending.task(), &needed);
    write_reasons(&mut draft, pending.table, &needed, pending.i);
    deliver(draft.text(), out)
}
