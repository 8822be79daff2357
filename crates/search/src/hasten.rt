// The search for the least solution where it is slow: by counts it has gone on for 16 turns. specs/Hasten.antt says what a turn of it knows, and specs/Rounds.antt
// what is known of rounds. What is tried, in this order:
//  1. Where the shares of the terms take the whole processor, nothing equals its demand.
//  2. Up to 256 turns by shares (`turn_at`). The next time to try is the demand, or what the terms that are counted ask for at `r` divided by what the shares of
//     the others leave: each of these asks for its share of any time at the least, so no solution from `r` on is before that.
//  3. Then rounds are made once, and each turn is followed by a leap: the terms in rounds ask for their shares and for what is lacking to the end of their
//     activations. The least of that over a whole round holds at any time; else the least over a window where `r` is, of 64 ticks and then of 256, holds up to the
//     window's end, and is gone on to at most that end. The longer window is looked at only where the shorter one says nothing up to its end.
// A time is left out only where it is proved that no solution is at or below it (`Reached`). Nothing has to be believed of which terms are put into which rounds, of
// how long rounds and windows are, and of divisors: any choice gives the same answers, since `is_in` tests that a period divides its round.

ghost use Rattle.std.specs.Prelude.{◌≡◌, ◌+◌, ◌≤◌, ◌<◌, length};
ghost use Rattle.search.specs.Demand.{demand_of};
ghost use Rattle.search.specs.Terms.{term_in, InRange, NoOverflow};
ghost use Rattle.search.specs.Least.{least_of, Reached};
ghost use Rattle.search.specs.Positions.{front};
ghost use Rattle.search.specs.Shares.{share_of, shares_of};
ghost use Rattle.search.specs.Classes.{works_over, counted};
ghost use Rattle.search.specs.Rounds.{RoundsOf};
ghost use Rattle.search.specs.Hasten.{PartOf, TurnOf};

use crate::demand::{Response, Term};
use crate::grouping::COUNTED;
use crate::rounds::{Rounds, WINDOWS};
use crate::shares::WHOLE;
use crate::{rounds, shares};
use cache::units::Ticks;

// After how many turns rounds are made.
const TURNS: usize = 256;

// What a term adds to a bound from below.
#[derive(Clone, Copy)]
struct Part {
    work: u64,
    counted: u64,
    extra: u64,
    left: u64,
}

// The demand at a time, and the next time to try.
#[derive(Clone, Copy)]
struct Turn {
    demand: u64,
    next: u64,
}

// A term whose next activation comes before `reach` is taken by its share, where that leaves something, and any other is counted at `r`.
fn part_of(term: Term, share: u64, r: u64, reach: u64, left: u64) -> Part
    requires { (r ≤ 250000000) × InRange term × (reach ≤ 17200000000000000000) × (1 ≤ left) × (left ≤ 17179869184) × (share ≡ share_of term) }
    ensures { PartOf term r left result }
{
    let work = term.work(r);
    let period = term.period.0;
    let jitter = term.jitter.0;
    let release = (r + jitter + (period - 1)) / period * period;
    if release < reach + jitter {
        if share < left {
            return Part {
                work,
                counted: 0,
                extra: jitter * share,
                left: left - share,
            };
        }
    }
    Part {
        work,
        counted: work,
        extra: 0,
        left,
    }
}

// One turn: the next time is the demand, or, if that is later, the time that what is left of the processor takes for what is counted.
fn turn_at(own: u64, terms: &[Term], shares: &[u64; 32], limit: u64, r: u64, reach: u64) -> Turn
    requires { NoOverflow own terms.now limit × (r ≤ limit) × (reach ≤ 17200000000000000000) × (shares.now ≡ front 0 (λ j. share_of (term_in terms.now j)) (length terms.now)) }
    ensures { TurnOf (demand_of own (term_in terms.now) (length terms.now)) r result }
{
    let mut demand = own;
    let mut counted = own;
    let mut extra: u64 = 0;
    let mut left = WHOLE;
    for (i, term) in terms.iter().enumerate() {
        let p = part_of(*term, shares[i], r, reach, left);
        demand += p.work;
        counted += p.counted;
        extra += p.extra;
        left = p.left;
    }
    if counted <= limit {
        let next = (counted * WHOLE + extra + (left - 1)) / left;
        if demand < next {
            return Turn { demand, next };
        }
    }
    Turn {
        demand,
        next: demand,
    }
}

// The task's own work, and what the terms ask for at `r` that are not taken.
fn counted_at(own: u64, terms: &[Term], classes: &[usize; 32], r: u64) -> u64
    requires { NoOverflow own terms.now r × (length classes.now ≡ 32) }
    ensures { (result ≡ own + works_over (counted classes.now) (term_in terms.now) (length terms.now) r) × (result ≤ 8000000000500000000) }
{
    let mut sum = own;
    for (i, term) in terms.iter().enumerate() {
        if COUNTED <= classes[i] {
            sum += term.work(r);
        }
    }
    sum
}

// A time that no solution from `r` on is before, and `next` where none later is known: the terms that are not taken ask for as much as at `r`, and the rounds,
// beyond their shares, for as much as in the windows where `r` is. Shorter windows ask for no less than the longer ones round them, which are looked at only
// where the shorter ones say nothing beyond their own end.
fn leap(
    own: u64,
    terms: &[Term],
    limit: u64,
    rounds: &Rounds,
    entries: &[u64; WINDOWS],
    r: u64,
    next: u64,
) -> u64
    requires handed { NoOverflow own terms.now limit × (r ≤ limit) × (next ≤ 8600000000000000000) }
    requires rounds { RoundsOf (term_in terms.now) (length terms.now) rounds.now entries.now }
    requires reached { Reached (demand_of own (term_in terms.now) (length terms.now)) r × Reached (demand_of own (term_in terms.now) (length terms.now)) next }
    ensures reached { Reached (demand_of own (term_in terms.now) (length terms.now)) result }
    ensures later { (next ≤ result) × (result ≤ 8600000000000000000) }
{
    let counted = counted_at(own, terms, &rounds.classes, r);
    if limit < counted {
        return next;
    }
    let free = rounds.free;
    let all = (counted * WHOLE + rounds.low + (free - 1)) / free;
    if next < all {
        return all;
    }
    let mut best = next;
    let mut step: usize = 16;
    while step <= 64 {
        let mut ahead: u64 = 0;
        for v in 0..rounds.made {
            ahead += rounds::window_at(entries, v, rounds.ticks[v], step, r);
        }
        let bound = (counted * WHOLE + ahead + (free - 1)) / free;
        if bound <= best {
            return best;
        }
        let end = r + 4 * step as u64;
        if bound <= end {
            return bound;
        }
        if best < end {
            best = end;
        }
        step *= 4;
    }
    best
}

// The iteration where it goes on for long, with the terms in rounds. The windows stand on its stack alone, so quick searches need none for them.
#[inline(never)]
fn by_rounds(own: u64, terms: &[Term], limit: u64, start: u64) -> Response
    requires handed { NoOverflow own terms.now limit × (shares_of (term_in terms.now) (length terms.now) < 17179869184) }
    requires reached { Reached (demand_of own (term_in terms.now) (length terms.now)) start × (start ≤ 8600000000000000000) }
    ensures { result ≡ least_of (demand_of own (term_in terms.now) (length terms.now)) limit }
{
    let mut entries = [0u64; WINDOWS];
    let rounds = rounds::make(terms, &mut entries);
    let shares = shares::listed(terms);
    let mut r = start;
    let mut reach = start;
    while r <= limit {
        let t = turn_at(own, terms, &shares, limit, r, reach);
        if t.demand == r {
            return Response::Within(Ticks(r));
        }
        let next = leap(own, terms, limit, &rounds, &entries, r, t.next);
        reach = next + (next - r);
        r = next;
    }
    Response::Unschedulable
}

// The iteration where it is slow. No solution is below `start`.
pub fn hasten(own: u64, terms: &[Term], limit: u64, start: u64) -> Response
    requires { NoOverflow own terms.now limit × (start ≤ limit) × Reached (demand_of own (term_in terms.now) (length terms.now)) start }
    ensures { result ≡ least_of (demand_of own (term_in terms.now) (length terms.now)) limit }
{
    if shares::left_by(terms) == 0 {
        return Response::Unschedulable;
    }
    let shares = shares::listed(terms);
    let mut r = start;
    let mut reach = start;
    for _ in 0..TURNS {
        if limit < r {
            return Response::Unschedulable;
        }
        let t = turn_at(own, terms, &shares, limit, r, reach);
        if t.demand == r {
            return Response::Within(Ticks(r));
        }
        reach = t.next + (t.next - r);
        r = t.next;
    }
    by_rounds(own, terms, limit, r)
}
