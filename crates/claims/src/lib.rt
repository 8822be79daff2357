// A partner's list of claimed responses, and what is told of it: a line for each task.
#![tactic(auto)]

// What is said of a claim.
pub mod finding;
// The claims of a list, or why it is refused.
pub mod list;

ghost use Rattle.std.specs.Prelude.{◌≡◌, ◌+◌, ◌≤◌, ◌++◌, length};
ghost use Rattle.writing.specs.declared.writer.TheConstants.{ROOM};
ghost use Rattle.claims.specs.Told.{finding_word, finding_line, DeliversFindings};

use crate::finding::{Finding, judge};
use analysis::Method;
use search::demand::Response;
use table::accepted::Accepted;
use table::tasks::Task;
use texts::refusals::Refusal;
use writing::delivery::deliver;
use writing::writer::{Draft, Text};

// No text of findings has more bytes.
pub const LONGEST_FINDINGS: usize = 640;

impl Text for Finding {
    ghost text = { finding_word };

    fn write_to(&self, draft: &mut Draft) {
        match self {
            Finding::Bad => draft.bytes(b"bad"),
            Finding::Open => draft.bytes(b"open"),
            Finding::Fine => draft.bytes(b"ok"),
        }
    }
}

// The line of one task.
#[tactic(auto, unfolding(crate::specs::Told::finding_line))]
fn write_finding_line(draft: &mut Draft, task: &Task, finding: Finding)
    requires { length draft.old + length (finding_line task.now finding) ≤ ROOM }
    ensures { draft.new ≡ draft.old ++ finding_line task.now finding }
{
    draft.push(b'C');
    draft.field(&task.name.text());
    draft.field(&finding);
    draft.push(b'\n');
}

// What is said under a method of the claims for a table's tasks. It is written aside and delivered whole.
pub fn write(
    accepted: Accepted,
    method: Method,
    claims: &[Response; 32],
    out: &mut [u8],
) -> Result<usize, Refusal>
    ensures { DeliversFindings accepted.entry.table.now method claims.now out.old result out.new }
{
    let mut draft = Draft::new();
    for i in 0..accepted.table.count {
        let pending = accepted.pending(i);
        let finding = judge(pending, method, claims[i]);
        write_finding_line(&mut draft, pending.task(), finding);
    }
    deliver(draft.text(), out)
}
