// The responses of all tasks of a table under all methods. What one task's search finds out is carried on to the next.

ghost use Rattle.std.specs.Prelude.{◌≡◌, ◌+◌, ◌<◌, ◌≤◌, length};
ghost use Rattle.search.specs.declared.demand.Response.TheVariants.{Unschedulable};
ghost use Rattle.search.specs.Positions.{front};
ghost use Rattle.search.specs.Demand.{demand_of};
ghost use Rattle.search.specs.Terms.{term_in, NoOverflow};
ghost use Rattle.search.specs.Least.{least_of, later};
ghost use Rattle.search.specs.Counts.{Started};
ghost use Rattle.table.specs.Tables.{at};
ghost use Rattle.analysis.specs.Carried.{Ledger, Weighed, WeighedUnder};
ghost use Rattle.analysis.specs.Analysis.{MayBlock};
ghost use Rattle.analysis.specs.Rows.{Answered, NoneSoonerThanCheaper, WithOne, row_told, plain_of, CarriedCounts, no_row, row_of, AreResponses};

use crate::blockers::Blockers;
use crate::carried::{Column, Terms};
use crate::{carried, costs};
use cache::units::{Reloads, Ticks};
use search::demand::{Response, Term};
use search::response;
use search::response::Count;
use table::accepted::{Accepted, Pending};
use table::accesses::Access;

// The answers for one task under the methods 0 to 5.
#[derive(Clone, Copy)]
pub struct Row {
    pub responses: [Response; 6],
}

// The answers for one task under the methods that count.
#[derive(Clone, Copy)]
struct Answers {
    none: Response,
    ecb_only: Response,
    ucb_only: Response,
    ucb_union: Response,
    ecb_union: Response,
}

impl Answers {
    // Before any: none is sooner.
    const FIRST: Answers = Answers {
        none: Response::Within(Ticks(0)),
        ecb_only: Response::Within(Ticks(0)),
        ucb_only: Response::Within(Ticks(0)),
        ucb_union: Response::Within(Ticks(0)),
        ecb_union: Response::Within(Ticks(0)),
    };

    // The row that they make.
    fn row(self) -> Row
        ensures { result.responses ≡ row_told self }
    {
        Row {
            responses: [
                self.none,
                self.ecb_only,
                self.ucb_only,
                self.ucb_union,
                self.ecb_union,
                self.ucb_union.sooner(self.ecb_union),
            ],
        }
    }
}

// The later of the answer so far and the smallest time up to a limit that equals its demand. Where there is none so far, or none by a cheaper method, nothing
// is searched for.
fn search(
    own: Ticks,
    terms: &[Term],
    limit: Ticks,
    so_far: Response,
    cheaper: Response,
    counts: &mut [Count],
) -> Response
    requires handed { NoOverflow own.0 terms.now limit.0 }
    requires started { Started own.0 (term_in terms.now) (length terms.now) counts.old }
    requires dearer { cheaper ≡ Unschedulable → Unschedulable ≡ later so_far (least_of (demand_of own.0 (term_in terms.now) (length terms.now)) limit.0) }
    ensures answer { result ≡ later so_far (least_of (demand_of own.0 (term_in terms.now) (length terms.now)) limit.0) }
    ensures started { Started own.0 (term_in terms.now) (length terms.now) counts.new }
{
    let Response::Within(known) = so_far else {
        return so_far;
    };
    let Response::Within(_) = cheaper else {
        return cheaper;
    };
    so_far.later(response::least_beyond(own, terms, limit, known, counts))
}

// The answers so far with those while one access more blocks the task at i, by the terms of its row with that access. Each method goes on from a cheaper one:
// the two unions from no reloads at all, ECB-Only from UCB-Union, and UCB-Only from ECB-Union. `counts` are left as by the search without reloads.
fn by_row(
    pending: Pending,
    access: &Access,
    terms: &Terms,
    so_far: Answers,
    counts: &mut [Count; 32],
) -> Answers
    requires blocks { MayBlock access.now pending.i }
    requires weighed { WeighedUnder pending.table.now access.now pending.i terms.now }
    requires rising { NoneSoonerThanCheaper so_far }
    requires started { Started ((at pending.table.now pending.i).work.0 + access.now.lasts.0) (plain_of pending.table.now) pending.i counts.old }
    ensures with_one { WithOne pending.entry.table.now access.now pending.entry.i so_far result }
    ensures started { Started ((at pending.entry.table.now pending.entry.i).work.0 + access.now.lasts.0) (plain_of pending.entry.table.now) pending.entry.i counts.new }
{
    let task = pending.task();
    let own = Ticks(task.work.0 + access.lasts.0);
    let limit = pending.limit();
    let any = Response::Within(Ticks(0));
    let none = search(
        own,
        &terms.none[..pending.i],
        limit,
        so_far.none,
        any,
        counts,
    );
    let mut these = *counts;
    let ucb_union = search(
        own,
        &terms.ucb_union[..pending.i],
        limit,
        so_far.ucb_union,
        none,
        &mut these,
    );
    let ecb_only = search(
        own,
        &terms.ecb_only[..pending.i],
        limit,
        so_far.ecb_only,
        ucb_union,
        &mut these,
    );
    let mut others = *counts;
    let ecb_union = search(
        own,
        &terms.ecb_union[..pending.i],
        limit,
        so_far.ecb_union,
        none,
        &mut others,
    );
    let ucb_only = search(
        own,
        &terms.ucb_only[..pending.i],
        limit,
        so_far.ucb_only,
        ecb_union,
        &mut others,
    );
    Answers {
        none,
        ecb_only,
        ucb_only,
        ucb_union,
        ecb_union,
    }
}

// While one access blocks, from the terms of the row without it. No task is above a ceiling at position 0, and then nothing is copied.
fn under(
    pending: Pending,
    ledger: &[Column],
    terms: &Terms,
    access: &Access,
    so_far: Answers,
    counts: &[Count; 32],
) -> Answers
    requires blocks { MayBlock access.now pending.i }
    requires ledger { Ledger pending.table.now (pending.i + 1) ledger.now }
    requires weighed { Weighed pending.table.now pending.i terms.now }
    requires rising { NoneSoonerThanCheaper so_far }
    requires started { Started ((at pending.table.now pending.i).work.0 + access.now.lasts.0) (plain_of pending.table.now) pending.i counts.now }
    ensures { WithOne pending.entry.table.now access.now pending.entry.i so_far result }
{
    let mut these = *counts;
    if access.ceiling == 0 {
        return by_row(pending, access, terms, so_far, &mut these);
    }
    let mut joined = *terms;
    carried::weigh_access(pending, ledger, access, &mut joined);
    by_row(pending, access, &joined, so_far, &mut these)
}

// The answers for the task at i: the latest over the accesses that may block it, and where none may, those by its own work alone. `counts` are left as by the
// search without reloads and without an access.
fn over_all(pending: Pending, ledger: &[Column], terms: &Terms, counts: &mut [Count; 32]) -> Answers
    requires ledger { Ledger pending.table.now (pending.i + 1) ledger.now }
    requires weighed { Weighed pending.table.now pending.i terms.now }
    requires started { Started (at pending.table.now pending.i).work.0 (plain_of pending.table.now) pending.i counts.old }
    ensures answered { Answered pending.entry.table.now pending.entry.i result }
    ensures started { Started (at pending.entry.table.now pending.entry.i).work.0 (plain_of pending.entry.table.now) pending.entry.i counts.new }
{
    if pending.table.access_count == 0 {
        return by_row(pending, &Access::NONE, terms, Answers::FIRST, counts);
    }
    let task = pending.task();
    let limit = pending.limit();
    response::least(task.work, &terms.none[..pending.i], limit, counts);
    let mut latest = Answers::FIRST;
    for access in Blockers::of(pending.table, pending.i, &Access::NONE) {
        latest = under(pending, ledger, terms, access, latest, counts);
    }
    latest
}

// Makes `counts`, as the search for the task above left them, what the one for the task at i starts from. It has the work of the task above in its demand,
// so it is answered no sooner.
fn carry_on(pending: Pending, counts: &mut [Count; 32])
    requires left { CarriedCounts pending.table.now pending.i counts.old }
    ensures { Started (at pending.entry.table.now pending.entry.i).work.0 (plain_of pending.entry.table.now) pending.entry.i counts.new }
{
    if pending.i == 0 {
        return;
    }
    counts[pending.i - 1] = Count::once(costs::term(pending, pending.i - 1, Reloads(0)));
}

// The responses of every task of a table under every method. A small table gets a short ledger: the time to clear a long one would show there.
#[tactic(auto, using(crate::proofs::ResponseLaws::rows_mean))]
pub fn responses(accepted: Accepted) -> [Row; 32]
    ensures rows { result ≡ front no_row (row_of accepted.entry.table.now) accepted.entry.table.now.count }
    ensures means { AreResponses accepted.entry.table.now result }
{
    if accepted.table.count <= 4 {
        each_row(accepted, &mut [Column::NONE; 4])
    } else {
        each_row(accepted, &mut [Column::NONE; 32])
    }
}

// The same, row after row, with a ledger that has a place for each task.
fn each_row(accepted: Accepted, ledger: &mut [Column]) -> [Row; 32]
    requires { accepted.table.now.count ≤ length ledger.old }
    ensures { result ≡ front no_row (row_of accepted.entry.table.now) accepted.entry.table.now.count }
{
    let mut terms = Terms::NONE;
    let mut counts = [Count::NONE; 32];
    let mut rows = [Row {
        responses: [Response::Unschedulable; 6],
    }; 32];
    for i in 0..accepted.table.count {
        let pending = accepted.pending(i);
        carried::weigh_row(pending, ledger, &mut terms);
        carry_on(pending, &mut counts);
        rows[i] = over_all(pending, ledger, &terms, &mut counts).row();
    }
    rows
}
