// The response of a task under a method. specs/Analysis.antt says what a response is.
#![tactic(auto)]

// The same while an access blocks that task.
pub mod blocked_row;
// What may block a task.
pub mod blockers;
// Costs carried down the rows of a report.
pub mod carried;
// What pre-emption costs: reload counts and weights.
pub mod costs;
// Whether a time covers the demand of a task.
pub mod covering;
// What a task needs, whatever its limit is, and by which method.
pub mod need;
// What the tasks above one task are charged and ask for.
pub mod one_row;
// The responses of all tasks under all methods.
pub mod rows;

ghost use Rattle.std.specs.Prelude.{◌≡◌, ◌<◌, ◌≤◌, length};
ghost use Rattle.search.specs.Demand.{demand_of};
ghost use Rattle.search.specs.Terms.{term_in, NoOverflow};
ghost use Rattle.search.specs.Least.{least_of, later};
ghost use Rattle.table.specs.Tables.{at};
ghost use Rattle.table.specs.Tasks.{limit_of};
ghost use Rattle.analysis.specs.Row.{ReadyToJoin};
ghost use Rattle.analysis.specs.BlockedRow.{ChargedUnder};
ghost use Rattle.analysis.specs.Responses.{IsResponse};
ghost use Rattle.analysis.specs.Analysis.{least_under, counted_response, response_of, method_of, MayBlock};

use crate::blockers::Blockers;
use crate::costs::{Charge, Single};
use cache::units::Ticks;
use search::demand::{Response, Term};
use search::response;
use table::accepted::Pending;
use table::accesses::Access;

// The six methods.
#[derive(Clone, Copy)]
pub enum Method {
    Of(Single),
    Combined,
}

impl Method {
    // The method that a caller names by its number.
    pub fn from_number(number: u64) -> Option<Method>
        ensures { result ≡ method_of number }
    {
        match number {
            0 => Some(Method::Of(Single::None)),
            1 => Some(Method::Of(Single::EcbOnly)),
            2 => Some(Method::Of(Single::UcbOnly)),
            3 => Some(Method::Of(Single::UcbUnion)),
            4 => Some(Method::Of(Single::EcbUnion)),
            5 => Some(Method::Combined),
            _ => None,
        }
    }
}

// The later of the answer so far and the smallest time up to a limit that equals its demand, for so much work of the task's own and blocking, under the terms of
// those above it. Where there is no answer so far, nothing is searched for.
fn by_terms(own: Ticks, terms: &[Term], limit: Ticks, so_far: Response) -> Response
    requires { NoOverflow own.0 terms.now limit.0 }
    ensures { result ≡ later so_far (least_of (demand_of own.0 (term_in terms.now) (length terms.now)) limit.0) }
{
    let Response::Within(known) = so_far else {
        return so_far;
    };
    let mut counts = response::firsts(terms);
    so_far.later(response::least_beyond(own, terms, limit, known, &mut counts))
}

// The same of the task at i while an access blocks it, by the charges with the access in `row`.
fn by_charges(
    pending: Pending,
    method: Single,
    limit: Ticks,
    row: &[Charge; 32],
    access: &Access,
    so_far: Response,
) -> Response
    requires { (limit.0 ≤ 250000000) × ChargedUnder pending.table.now access.now method pending.i 0 row.now × MayBlock access.now pending.i }
    ensures { result ≡ later so_far (least_under pending.entry.table.now access.now method pending.entry.i limit.0) }
{
    let terms = blocked_row::terms(pending, row);
    let own = Ticks(pending.task().work.0 + access.lasts.0);
    by_terms(own, &terms[..pending.i], limit, so_far)
}

// The same by the charges without the access. Nothing is copied where the access adds nothing to them.
pub fn later_under(
    pending: Pending,
    method: Single,
    limit: Ticks,
    row: &[Charge; 32],
    access: &Access,
    so_far: Response,
) -> Response
    requires { (limit.0 ≤ 250000000) × ReadyToJoin pending.table.now method pending.i row.now × MayBlock access.now pending.i }
    ensures { result ≡ later so_far (least_under pending.entry.table.now access.now method pending.entry.i limit.0) }
{
    match method {
        Single::None | Single::EcbOnly => {
            by_charges(pending, method, limit, row, access, so_far)
        }
        Single::UcbOnly | Single::UcbUnion | Single::EcbUnion => {
            let mut joined = *row;
            blocked_row::join(pending, method, access, &mut joined);
            by_charges(pending, method, limit, &joined, access, so_far)
        }
    }
}

// The latest of these answers within the task's limit over the accesses that may block it, and where none may, the answer by its own work alone.
fn latest(pending: Pending, method: Single) -> Response
    ensures { result ≡ counted_response pending.entry.table.now method pending.entry.i }
{
    let limit = pending.limit();
    let row = one_row::charged(pending, method);
    let mut latest = Response::Within(Ticks(0));
    for access in Blockers::of(pending.table, pending.i, &Access::NONE) {
        latest = later_under(pending, method, limit, &row, access, latest);
    }
    latest
}

// The response of the task at i: under combined the sooner of those of the two unions.
pub fn respond(pending: Pending, method: Method) -> Response
    ensures value { result ≡ response_of pending.entry.table.now method pending.entry.i }
    ensures means { IsResponse pending.entry.table.now method pending.entry.i result }
{
    match method {
        Method::Of(single) => latest(pending, single),
        Method::Combined => {
            latest(pending, Single::UcbUnion).sooner(latest(pending, Single::EcbUnion))
        }
    }
}
