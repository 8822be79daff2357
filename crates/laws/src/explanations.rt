// What an explanation says of the response, and on what it rests.
ghost use Rattle.std.specs.Prelude.{◌<◌};
ghost use Rattle.laws.specs.Explanations.{IsNeededAsAnswered, NeededAlike, ExplainedAlike};

use analysis::need::Need;
use analysis::{Method, need};
use search::demand::Response;
use table::accepted::{Accepted, Pending};
use texts::refusals::Refusal;

// What a task needs, and its response.
#[derive(Clone, Copy)]
pub struct NeedAndResponse {
    pub need: Need,
    pub response: Response,
}

// What a task needs in each of two tables.
#[derive(Clone, Copy)]
pub struct TwoNeeds {
    pub first: Need,
    pub second: Need,
}

// How long the explanations are that are written of two texts, or why there is none.
#[derive(Clone, Copy)]
pub struct TwoExplanations {
    pub first: Result<usize, Refusal>,
    pub second: Result<usize, Refusal>,
}

// What explains the answer of a method for the task at i, and the answer.
pub fn need_and_response(pending: Pending, method: Method) -> NeedAndResponse
    ensures { IsNeededAsAnswered pending.entry.table.now method pending.entry.i result }
{
    NeedAndResponse {
        need: need::explained(pending, method),
        response: analysis::respond(pending, method),
    }
}

// What explains the answer of a method for the task at i, in each of two tables.
pub fn two_needs(first: Accepted, second: Accepted, method: Method, i: usize) -> TwoNeeds
    requires { (i < first.table.now.count) × (i < second.table.now.count) }
    ensures { NeededAlike first.entry.table.now second.entry.table.now method i result }
{
    TwoNeeds {
        first: need::explained(first.pending(i), method),
        second: need::explained(second.pending(i), method),
    }
}

// The explanations of what a method answers for the task at a position, of each of two texts, each at the start of a buffer of its own.
pub fn two_explanations(
    first: &[u8],
    second: &[u8],
    method: u64,
    position: u64,
    own: &mut [u8],
    others: &mut [u8],
) -> TwoExplanations
    ensures { ExplainedAlike first.now second.now method position own.old own.new others.old others.new result }
{
    TwoExplanations {
        first: crpd::explain(first, method, position, own),
        second: crpd::explain(second, method, position, others),
    }
}
