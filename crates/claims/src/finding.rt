// What is said of a claimed response. specs/Findings.antt says which finding is made, and what it means beside our own response.

ghost use Rattle.std.specs.Prelude.{◌≡◌};
ghost use Rattle.claims.specs.Findings.{finding_under, by_either, finding_of, FindingMeans};

use analysis::costs::Single;
use analysis::{Method, blockers, covering};
use search::demand::Response;
use table::accepted::Pending;

// What is found of a claim: that it is too small or too late, that the equation leaves it open, or that it holds.
#[derive(Clone, Copy)]
pub enum Finding {
    Bad,
    Open,
    Fine,
}

impl Finding {
    // What two methods find, of which one is enough.
    fn by_either(self, other: Finding) -> Finding
        ensures { result ≡ by_either self other }
    {
        match (self, other) {
            (Finding::Fine, _) | (_, Finding::Fine) => Finding::Fine,
            (Finding::Bad, Finding::Bad) => Finding::Bad,
            _ => Finding::Open,
        }
    }
}

// What is found under a method that counts.
#[tactic(auto, unfolding(crate::specs::Findings::finding_under))]
fn judge_under(pending: Pending, method: Single, claim: Response) -> Finding
    ensures { result ≡ finding_under pending.entry.table.now method pending.entry.i claim }
{
    let Response::Within(time) = claim else {
        return Finding::Open;
    };
    let is_within = time.0 <= pending.limit().0;
    if is_within && covering::is_covered(pending, method, time) {
        return Finding::Fine;
    }
    if is_within && blockers::are_several(pending.table.accesses(), pending.i) {
        Finding::Open
    } else {
        Finding::Bad
    }
}

// What is found of a claimed response of the task at i: under combined by either of the unions.
pub fn judge(pending: Pending, method: Method, claim: Response) -> Finding
    ensures value { result ≡ finding_of pending.entry.table.now method pending.entry.i claim }
    ensures means { FindingMeans pending.entry.table.now method pending.entry.i claim result }
{
    match method {
        Method::Of(single) => judge_under(pending, single, claim),
        Method::Combined => {
            let ucb_union = judge_under(pending, Single::UcbUnion, claim);
            ucb_union.by_either(judge_under(pending, Single::EcbUnion, claim))
        }
    }
}
