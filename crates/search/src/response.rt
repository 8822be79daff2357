// The search for the smallest time that equals the demand of a task. specs/Counts.antt says how often its terms are known to be activated.

ghost use Rattle.std.specs.Prelude.{◌≡◌, true, ℕ, ◌≤◌, ◌<◌, length, if◌then◌else◌};
ghost use Rattle.search.specs.Positions.{front};
ghost use Rattle.search.specs.Demand.{demand_of};
ghost use Rattle.search.specs.Terms.{term_in, InRange, NoOverflow};
ghost use Rattle.search.specs.Least.{least_of, end_of, later};
ghost use Rattle.search.specs.declared.demand.Response.TheVariants.{Within};
ghost use Rattle.search.specs.Counts.{count, count_in, once, missing_of, raised_to, asked_of, CountsHold, Raised, Started};

use crate::demand::{Response, Term, demand_at};
use crate::hasten;
use cache::units::Ticks;

// After how many turns a search is hastened.
const TURNS: usize = 16;

// How often a term is known to be activated, and up to when that holds.
#[derive(Clone, Copy)]
pub struct Count {
    activations: u64,
    end: Ticks,
}

impl Count {
    // None yet.
    pub const NONE: Count = Count {
        activations: 0,
        end: Ticks(0),
    };

    // One activation: it holds up to the last time at which no second one has come.
    pub fn once(term: Term) -> Count
        requires { term.jitter.0 ≤ term.period.0 }
        ensures { result ≡ once term }
    {
        Count {
            activations: 1,
            end: Ticks(term.period.0 - term.jitter.0),
        }
    }

    // Raised to the activations up to `r`.
    fn raised(self, term: Term, r: u64) -> Count
        requires { InRange term × (self.activations ≤ 750000000) × (self.end.0 ≤ 500000000) × (r ≤ 250000000) }
        ensures { (result ≡ raised_to term r self) × (result.activations ≤ 1000000000) }
    {
        let period = term.period.0;
        let more = missing(period, self.end.0, r);
        Count {
            activations: self.activations + more,
            end: Ticks(self.end.0 + more * period),
        }
    }
}

// 1 where `b` holds, and else 0.
fn one_if(b: bool) -> u64
    ensures { (result ≡ (if b then 1 else 0)) × (result ≤ 1) }
{
    if b { 1 } else { 0 }
}

// How many activations more there are up to `r` than up to `end`. Where it is none or one, nothing is divided.
fn missing(period: u64, end: u64, r: u64) -> u64
    requires { (1 ≤ period) × (period ≤ 250000000) × (end ≤ 500000000) × (r ≤ 250000000) }
    ensures { (result ≡ missing_of period end r) × (result ≤ 250000000) }
{
    let one = one_if(end < r);
    let reached = end + one * period;
    if r <= reached {
        return one;
    }
    one + (r - reached + (period - 1)) / period
}

// What the counts ask for.
fn asked(own: u64, terms: &[Term], counts: &[Count]) -> u64
    requires { NoOverflow own terms.now 0 × CountsHold (term_in terms.now) (length terms.now) counts.now }
    ensures { result ≡ asked_of own (term_in terms.now) counts.now (length terms.now) }
{
    let mut sum = own;
    for (i, term) in terms.iter().enumerate() {
        sum += counts[i].activations * term.weight.0;
    }
    sum
}

// Whether the counts hold up to `r`.
fn hold(counts: &[Count], r: u64) -> bool
    ensures { result ≡ true → (j : ℕ) → j < length counts.now → r ≤ (count_in counts.now j).end.0 }
{
    counts.iter().all(|count| r <= count.end.0)
}

// What the counts ask for once each is raised to the activations up to `r`.
fn advance(own: u64, terms: &[Term], r: u64, counts: &mut [Count]) -> u64
    requires { NoOverflow own terms.now r × CountsHold (term_in terms.now) (length terms.now) counts.old }
    ensures value { result ≡ asked_of own (term_in terms.now) counts.new (length terms.now) }
    ensures raised { Raised (term_in terms.now) r counts.old (length terms.now) counts.new }
{
    let mut sum = own;
    for (i, term) in terms.iter().enumerate() {
        let count = counts[i].raised(*term, r);
        counts[i] = count;
        sum += count.activations * term.weight.0;
    }
    sum
}

// One activation of each term.
pub fn firsts(terms: &[Term]) -> [Count; 32]
    requires { (length terms.now ≤ 32) × ((j : ℕ) → j < length terms.now → (term_in terms.now j).jitter.0 ≤ (term_in terms.now j).period.0) }
    ensures { result ≡ front (count 0 0) (λ j. once (term_in terms.now j)) (length terms.now) }
{
    let mut counts = [Count::NONE; 32];
    for (i, term) in terms.iter().enumerate() {
        counts[i] = Count::once(*term);
    }
    counts
}

// Up to when a search has come: to its answer, or where it has none to the limit.
fn end_of(found: Response, limit: u64) -> u64
    ensures { result ≡ end_of found limit }
{
    match found {
        Response::Within(time) => time.0,
        Response::Unschedulable => limit,
    }
}

// The end of a search that is slow: hastened, from a time on that no solution is below, and the counts raised up to when it has come, so that they can be gone on
// from. Where the demand at the known time is no more than it, the smallest solution is no later.
fn finish(
    own: u64,
    terms: &[Term],
    limit: u64,
    known: Ticks,
    start: u64,
    counts: &mut [Count],
) -> Response
    requires { NoOverflow own terms.now limit × Started own (term_in terms.now) (length terms.now) counts.old × (start ≡ asked_of own (term_in terms.now) counts.old (length terms.now)) }
    ensures result_value { later (Within known) result ≡ later (Within known) (least_of (demand_of own (term_in terms.now) (length terms.now)) limit) }
    ensures started { Started own (term_in terms.now) (length terms.now) counts.new }
{
    if limit < start {
        return Response::Unschedulable;
    }
    if known.0 <= limit {
        if demand_at(own, terms, known.0) <= known.0 {
            return Response::Within(known);
        }
    }
    let found = hasten::hasten(own, terms, limit, start);
    advance(own, terms, end_of(found, limit), counts);
    found
}

// The smallest time up to `limit` that equals its demand, for a task with `own` ticks of work under these terms, unless it is no later than the known time, which
// may be answered in its place. `counts` has activations of theirs to start from, none above those of a solution, and is left so. Each turn tries the time that
// the counts ask for.
pub fn least_beyond(
    own: Ticks,
    terms: &[Term],
    limit: Ticks,
    known: Ticks,
    counts: &mut [Count],
) -> Response
    requires { NoOverflow own.0 terms.now limit.0 × Started own.0 (term_in terms.now) (length terms.now) counts.old }
    ensures result_value { later (Within known) result ≡ later (Within known) (least_of (demand_of own.0 (term_in terms.now) (length terms.now)) limit.0) }
    ensures started { Started own.0 (term_in terms.now) (length terms.now) counts.new }
{
    let n = terms.len();
    let mut time = asked(own.0, terms, counts);
    for _ in 0..TURNS {
        if limit.0 < time {
            return Response::Unschedulable;
        }
        if hold(&counts[..n], time) {
            return Response::Within(Ticks(time));
        }
        time = advance(own.0, terms, time, counts);
    }
    finish(own.0, terms, limit.0, known, time, counts)
}

// The smallest time up to `limit` that equals its demand, for a task with `own` ticks of work under these terms. `counts` has activations of theirs to start
// from, none above those of a solution, and is left so.
pub fn least(own: Ticks, terms: &[Term], limit: Ticks, counts: &mut [Count]) -> Response
    requires { NoOverflow own.0 terms.now limit.0 × Started own.0 (term_in terms.now) (length terms.now) counts.old }
    ensures result_value { result ≡ least_of (demand_of own.0 (term_in terms.now) (length terms.now)) limit.0 }
    ensures started { Started own.0 (term_in terms.now) (length terms.now) counts.new }
{
    least_beyond(own, terms, limit, Ticks(0), counts)
}
