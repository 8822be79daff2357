// What is found of claimed responses, beside our own.
ghost use Rattle.laws.specs.Claimed.{JudgedBesideOurs, FoundOfOurs};

use analysis::Method;
use claims::finding::{Finding, judge};
use search::demand::Response;
use table::accepted::Pending;

// What is found of a claimed response, and our own.
#[derive(Clone, Copy)]
pub struct Judged {
    pub found: Finding,
    pub ours: Response,
}

// A claimed response of the task at i, judged beside ours: a number that is fine is never below it.
pub fn beside_ours(pending: Pending, method: Method, claim: Response) -> Judged
    ensures { JudgedBesideOurs pending.entry.table.now method pending.entry.i claim result }
{
    Judged {
        found: judge(pending, method, claim),
        ours: analysis::respond(pending, method),
    }
}

// What is found of our own response, as if a partner claimed it: it is never bad, and a number is fine where at most one access may block the task.
pub fn our_own(pending: Pending, method: Method) -> Finding
    ensures { FoundOfOurs pending.entry.table.now method pending.entry.i result }
{
    let ours = analysis::respond(pending, method);
    judge(pending, method, ours)
}
