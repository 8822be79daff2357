// How much growth is left. specs/Growth.antt says what that is. From the lowest task up, each is tried at the greatest k that those below it leave: most
// have a response there, and only a task that has none is bisected. What its pre-emptions cost does not depend on C, so it is worked out once. Where no k
// is left, no other task is looked at.
#![tactic(auto)]

// Tables whose execution times are scaled.
pub mod scaling;

ghost use Rattle.std.specs.Prelude.{◌≡◌, min, max, ◌≤◌, ◌<◌, length};
ghost use Rattle.search.specs.Positions.{front};
ghost use Rattle.search.specs.Demand.{term_of, demand_of};
ghost use Rattle.search.specs.Terms.{term_in, NoOverflow};
ghost use Rattle.search.specs.Least.{least_of, has_response};
ghost use Rattle.search.specs.Counts.{Started};
ghost use Rattle.table_text.specs.Readable.{Readable};
ghost use Rattle.analysis.specs.Costs.{term_with};
ghost use Rattle.analysis.specs.Row.{ReadyToJoin};
ghost use Rattle.analysis.specs.BlockedRow.{ChargedUnder, FewReloads, term_by};
ghost use Rattle.analysis.specs.Analysis.{counted_response, response_of, MayBlock};
ghost use Rattle.growth.specs.Scaling.{FitsBy, scaled_by};
ghost use Rattle.growth.specs.Growth.{growth_of, Bounds};
ghost use Rattle.growth.specs.Boundary.{IsGrowth};
ghost use Rattle.growth.specs.declared.scaling.TheConstants.{MOST};
ghost use Rattle.growth.specs.Tried.{answers_under, text_fits, Stretches, FitsUpTo};

use crate::scaling::scaled_work;
use analysis::blockers::Blockers;
use analysis::costs::{Charge, Single};
use analysis::{Method, blocked_row, one_row};
use cache::units::{Reloads, Ticks};
use search::demand::{Response, Term, demand_at};
use search::response;
use search::response::Count;
use table::accepted::{Accepted, Pending};
use table::accesses::Access;
use table::{Table, accesses};
use table_text::extent;

// What C times k may not be above: the longest C, in thousandths.
const LONGEST_WORK: u64 = Ticks::LONGEST * scaling::WHOLE;

// What the task at j asks for with C scaled by k, and with so many reloads in its weight.
fn scaled_term(table: &Table, j: usize, reloads: Reloads, k: u64) -> Term
    requires { Stretches table.now k × (j < table.now.count) × (reloads.0 ≤ 2048) }
    ensures { result ≡ term_with (scaled_by k table.now) j reloads.0 }
{
    let task = table.task(j);
    let work = scaled_work(task.work, k);
    Term {
        period: task.period,
        jitter: task.jitter,
        weight: Ticks(work.0 + reloads.time(table.brt).0),
    }
}

// What each task above i asks for, by the charges in a row.
fn scaled_terms(table: &Table, i: usize, row: &[Charge; 32], k: u64) -> [Term; 32]
    requires { Stretches table.now k × (i < table.now.count) × FewReloads i row.now }
    ensures { result ≡ front (term_of 0 0 0) (term_by (scaled_by k table.now) row.now) i }
{
    let mut terms = [Term::NONE; 32];
    for j in 0..i {
        terms[j] = scaled_term(table, j, row[j].count(), k);
    }
    terms
}

// The demand at `r` under these terms, before they are listed.
fn demand_by_row(table: &Table, i: usize, row: &[Charge; 32], own: u64, k: u64, r: u64) -> u64
    requires { Stretches table.now k × (i < table.now.count) × FewReloads i row.now × (own ≤ 500000000) × (r ≤ Ticks.LONGEST) }
    ensures { result ≡ demand_of own (term_by (scaled_by k table.now) row.now) i r }
{
    let mut demand = own;
    for j in 0..i {
        demand += scaled_term(table, j, row[j].count(), k).work(r);
    }
    demand
}

// Whether there is a response within a limit. There is one where the limit is no less than the demand there, as that of most tasks is; where the limit is less
// there may be one before it, which is searched for from `counts` on. Where the search is slow, the time that was found last is tried: it is likely late enough.
fn responds(
    own: Ticks,
    terms: &[Term],
    limit: Ticks,
    likely: &mut Ticks,
    counts: &mut [Count],
) -> bool
    requires { NoOverflow own.0 terms.now limit.0 × Started own.0 (term_in terms.now) (length terms.now) counts.old }
    ensures value { result ≡ has_response (least_of (demand_of own.0 (term_in terms.now) (length terms.now)) limit.0) }
    ensures started { Started own.0 (term_in terms.now) (length terms.now) counts.new }
{
    if demand_at(own.0, terms, limit.0) <= limit.0 {
        return true;
    }
    match response::least_beyond(own, terms, limit, *likely, counts) {
        Response::Within(time) => {
            *likely = time;
            true
        }
        Response::Unschedulable => false,
    }
}

// The greatest k up to `most` at which the task at i has a response while an access blocks it, by the charges with the access in `row`. Most tasks have one
// at `most`, and no search is begun for them. What is searched out at a k where there is a response is what a greater k is searched from.
fn most_by_charges(
    table: &Table,
    method: Single,
    i: usize,
    row: &[Charge; 32],
    access: &Access,
    most: u64,
    likely: &mut Ticks,
) -> u64
    requires { Stretches table.now most × (i < table.now.count) × ChargedUnder table.now access.now method i 0 row.now × MayBlock access.now i }
    ensures { Bounds (answers_under table.now access.now method i) most result }
{
    if most == 0 {
        return 0;
    }
    let task = table.task(i);
    let limit = Ticks(task.deadline.0 - task.jitter.0);
    let work = scaled_work(task.work, most);
    let own = Ticks(work.0 + access.lasts.0);
    if demand_by_row(table, i, row, own.0, most, limit.0) <= limit.0 {
        return most;
    }
    let terms = scaled_terms(table, i, row, most);
    let mut counts = response::firsts(&terms[..i]);
    let mut last = counts;
    if responds(own, &terms[..i], limit, likely, &mut last) {
        return most;
    }
    let mut low: u64 = 0;
    let mut high = most;
    while low + 1 < high {
        let middle = (low + high) / 2;
        let work = scaled_work(task.work, middle);
        let terms = scaled_terms(table, i, row, middle);
        let mut next = counts;
        let own = Ticks(work.0 + access.lasts.0);
        if responds(own, &terms[..i], limit, likely, &mut next) {
            low = middle;
            counts = next;
        } else {
            high = middle;
        }
    }
    low
}

// The same by the charges without the access. Nothing is copied where the access adds nothing to them.
fn most_under(
    table: &Table,
    method: Single,
    i: usize,
    row: &[Charge; 32],
    access: &Access,
    most: u64,
    likely: &mut Ticks,
) -> u64
    requires { Stretches table.now most × (i < table.now.count) × ReadyToJoin table.now method i row.now × MayBlock access.now i }
    ensures { Bounds (answers_under table.now access.now method i) most result }
{
    match method {
        Single::None | Single::EcbOnly => most_by_charges(
            table, method, i, row, access, most, likely,
        ),
        Single::UcbOnly | Single::UcbUnion | Single::EcbUnion => {
            let mut joined = *row;
            blocked_row::join(Pending { table, i }, method, access, &mut joined);
            most_by_charges(table, method, i, &joined, access, most, likely)
        }
    }
}

// The greatest k up to `most` at which the task at i has a response whichever access blocks it that may, and where none may by its own work alone.
fn over_blockers(table: &Table, method: Single, i: usize, most: u64, likely: &mut Ticks) -> u64
    requires { Stretches table.now most × (i < table.now.count) }
    ensures { Bounds (λ k. has_response (counted_response (scaled_by k table.now) method i)) most result }
{
    let row = one_row::charged(Pending { table, i }, method);
    let mut left = most;
    for access in Blockers::of(table, i, &Access::NONE) {
        left = most_under(table, method, i, &row, access, left, likely);
    }
    left
}

fn larger(a: u64, b: u64) -> u64
    ensures { result ≡ max a b }
{
    if a < b { b } else { a }
}

// The greatest such k under a method. By combined a task has a response where it has one by either union.
fn by_method(table: &Table, method: Method, i: usize, most: u64, likely: &mut Ticks) -> u64
    requires { Stretches table.now most × (i < table.now.count) }
    ensures { Bounds (λ k. has_response (response_of (scaled_by k table.now) method i)) most result }
{
    match method {
        Method::Of(single) => over_blockers(table, single, i, most, likely),
        Method::Combined => {
            let ecb_union = over_blockers(table, Single::EcbUnion, i, most, likely);
            if ecb_union == most {
                return most;
            }
            let ucb_union = over_blockers(table, Single::UcbUnion, i, most, likely);
            larger(ecb_union, ucb_union)
        }
    }
}

fn smaller(a: u64, b: u64) -> u64
    ensures { result ≡ min a b }
{
    if a < b { a } else { b }
}

// The greatest k up to 4,000 by which each C may be scaled.
fn fits_up_to(accepted: Accepted) -> u64
    ensures { FitsUpTo accepted.entry.table.now accepted.entry.table.now.count result }
{
    let mut most = scaling::MOST;
    for j in 0..accepted.table.count {
        most = smaller(most, LONGEST_WORK / accepted.table.task(j).work.0);
    }
    most
}

// Whether the text of the table scaled by k is no longer than one that is read.
fn text_fits(table: &Table, k: u64) -> bool
    requires { Readable table.now × (k ≤ MOST) }
    ensures { result ≡ text_fits table.now k }
{
    let mut scaled = *table;
    scaling::scale(&mut scaled, k);
    extent::length(&scaled) <= Table::LONGEST_TEXT
}

// The greatest k up to `most` at which it is: where C grow, so does their text. Most texts are so short that it is at every k, since no C has more than nine digits.
fn texts_up_to(table: &Table, most: u64) -> u64
    requires { Readable table.now × (most ≤ MOST) × FitsBy most table.now }
    ensures { Bounds (text_fits table.now) most result }
{
    if extent::length(table) + 8 * table.count <= Table::LONGEST_TEXT {
        return most;
    }
    if text_fits(table, most) {
        return most;
    }
    let mut short: u64 = 0;
    let mut long = most;
    while short + 1 < long {
        let middle = (short + long) / 2;
        if text_fits(table, middle) {
            short = middle;
        } else {
            long = middle;
        }
    }
    short
}

// The growth that is left of a table under a method.
pub fn growth(table: &Table, method: Method) -> u64
    requires { Readable table.now }
    ensures value { result ≡ growth_of method table.now }
    ensures means { IsGrowth table.now method result }
{
    let mut left = texts_up_to(table, fits_up_to(Accepted { table }));
    let mut likely = Ticks(0);
    for i in (0..table.count).rev() {
        if left == 0 {
            return 0;
        }
        left = by_method(table, method, i, left, &mut likely);
    }
    left
}
