// Whether a table is harder than another: whether no figure of it is easier, position by position and access by access. `Harder` of analysis says when that is, and
// `laws` has that no task is answered sooner then.

ghost use Rattle.std.specs.Prelude.{◌≡◌, true, ◌≤◌, ◌<◌};
ghost use Rattle.cache.specs.Words.{members};
ghost use Rattle.cache.specs.Levels.{counts};
ghost use Rattle.table.specs.Tables.{at, access_at};
ghost use Rattle.analysis.specs.Harder.{Harder};
ghost use Rattle.changes.specs.Relations.{holds_below, no_more, all_in, is_harder_task, is_harder_access, is_harder, relation_of, is_named_alike, are_named_alike, relation_between};

use cache::sets::CacheSet;
use cache::useful::Useful;
use table::accepted::Accepted;
use table::accesses::Access;
use table::tasks::Task;
use texts::fields::same_bytes;

// How a new table is to an old one, line by line.
#[derive(Clone, Copy, PartialEq, Eq)]
pub enum Relation {
    // Neither, or their tasks have other names.
    Open,
    // The new one is harder.
    Harder,
    // The old one is.
    Easier,
    // Each is harder than the other: no figure differs that an answer rests on.
    Same,
}

impl Relation {
    // That of tables whose tasks have the same names or not, where the new one is harder or not, and where the old one is.
    fn of(alike: bool, harder: bool, easier: bool) -> Relation
        ensures { result ≡ relation_of alike harder easier }
    {
        match (alike, harder, easier) {
            (true, true, true) => Relation::Same,
            (true, true, false) => Relation::Harder,
            (true, false, true) => Relation::Easier,
            _ => Relation::Open,
        }
    }
}

// Whether the second has all of each level of the first. Then no cache set has more blocks; where it is not so, some may yet have no more.
#[tactic(auto, using(crate::proofs::Levels::no_level, crate::proofs::Levels::level_more, crate::proofs::Levels::counts_more))]
fn are_levels_in(first: &Useful, second: &Useful, ways: u64) -> bool
    requires { ways ≤ 8 }
    ensures { result ≡ true → no_more (counts ways first.now) (counts ways second.now) ≡ true }
{
    for l in 0..ways as usize {
        if !first.level(l).is_in(second.level(l)) {
            return false;
        }
    }
    true
}

// Whether no cache set has more blocks.
#[tactic(auto, using(crate::proofs::Below::none_below, crate::proofs::Below::below_more, crate::proofs::Below::fails_below))]
fn are_no_more(first: &Useful, second: &Useful, ways: u64) -> bool
    requires { ways ≤ 8 }
    ensures { result ≡ no_more (counts ways first.now) (counts ways second.now) }
{
    if are_levels_in(first, second, ways) {
        return true;
    }
    for s in 0..CacheSet::MOST_SETS {
        if second.count(s, ways) < first.count(s, ways) {
            return false;
        }
    }
    true
}

// Whether each cache set is in the second.
#[tactic(auto, using(crate::proofs::Below::none_below, crate::proofs::Below::below_more, crate::proofs::Below::fails_below))]
fn are_in(first: CacheSet, second: CacheSet) -> bool
    ensures { result ≡ all_in (members first) (members second) }
{
    if first.is_in(second) {
        return true;
    }
    for s in 0..CacheSet::MOST_SETS {
        if first.has(s) && !second.has(s) {
            return false;
        }
    }
    true
}

#[tactic(auto, using(std::proofs::lemmas::Bool::Decides::nat_tests))]
fn is_harder_task(first: &Task, second: &Task, ways: u64) -> bool
    requires { ways ≤ 8 }
    ensures { result ≡ is_harder_task ways first.now second.now }
{
    first.work.0 <= second.work.0
        && second.period.0 <= first.period.0
        && second.deadline.0 <= first.deadline.0
        && first.jitter.0 <= second.jitter.0
        && are_no_more(&first.ucb, &second.ucb, ways)
        && are_in(first.ecb, second.ecb)
}

#[tactic(auto, using(std::proofs::lemmas::Bool::Decides::nat_tests))]
fn is_harder_access(first: &Access, second: &Access, ways: u64) -> bool
    requires { ways ≤ 8 }
    ensures { result ≡ is_harder_access ways first.now second.now }
{
    second.task == first.task
        && second.ceiling == first.ceiling
        && first.lasts.0 <= second.lasts.0
        && are_no_more(&first.ucb, &second.ucb, ways)
}

// The access at a place.
#[tactic(auto, unfolding(table::specs::Tables::access_at))]
fn access<'a>(accepted: Accepted<'a>, n: usize) -> &'a Access
    requires { n < accepted.table.now.access_count }
    ensures { result.now ≡ access_at accepted.entry.table.now n }
{
    &accepted.table.accesses()[n]
}

#[tactic(auto, using(crate::proofs::Below::none_below, crate::proofs::Below::below_more, crate::proofs::Below::fails_below))]
fn are_harder_tasks(first: Accepted, second: Accepted, ways: u64) -> bool
    requires bounds { ways ≤ 8 }
    requires same { first.table.now.count ≡ second.table.now.count }
    ensures { result ≡ holds_below first.entry.table.now.count (λ k. is_harder_task ways (at first.entry.table.now k) (at second.entry.table.now k)) }
{
    for k in 0..first.table.count {
        if !is_harder_task(first.table.task(k), second.table.task(k), ways) {
            return false;
        }
    }
    true
}

#[tactic(auto, using(crate::proofs::Below::none_below, crate::proofs::Below::below_more, crate::proofs::Below::fails_below))]
fn are_harder_accesses(first: Accepted, second: Accepted, ways: u64) -> bool
    requires bounds { ways ≤ 8 }
    requires same { first.table.now.access_count ≡ second.table.now.access_count }
    ensures { result ≡ holds_below first.entry.table.now.access_count (λ n. is_harder_access ways (access_at first.entry.table.now n) (access_at second.entry.table.now n)) }
{
    for n in 0..first.table.access_count {
        if !is_harder_access(access(first, n), access(second, n), ways) {
            return false;
        }
    }
    true
}

// The test, figure by figure.
#[tactic(auto, using(std::proofs::lemmas::Bool::Decides::nat_tests), unfolding(crate::specs::Relations::is_harder))]
fn are_all_harder(first: Accepted, second: Accepted) -> bool
    ensures { result ≡ is_harder first.entry.table.now second.entry.table.now }
{
    if first.table.count != second.table.count
        || first.table.access_count != second.table.access_count
    {
        return false;
    }
    let ways = first.table.ways();
    first.table.sets == second.table.sets
        && ways == second.table.ways()
        && first.table.brt.0 <= second.table.brt.0
        && are_harder_tasks(first, second, ways)
        && are_harder_accesses(first, second, ways)
}

// Whether the second table is harder.
pub fn is_harder(first: Accepted, second: Accepted) -> bool
    ensures test { result ≡ is_harder first.entry.table.now second.entry.table.now }
    ensures means { result ≡ true → Harder first.entry.table.now second.entry.table.now }
    ensures meant { Harder first.entry.table.now second.entry.table.now → result ≡ true }
{
    are_all_harder(first, second)
}

// Whether the tasks have the same names, one after the other.
#[tactic(auto, using(std::proofs::lemmas::Bool::Decides::nat_tests), unfolding(crate::specs::Relations::are_named_alike))]
fn are_named_alike(first: Accepted, second: Accepted) -> bool
    ensures { result ≡ are_named_alike first.entry.table.now second.entry.table.now }
{
    first.table.count == second.table.count && are_names_alike(first, second)
}

#[tactic(auto, using(crate::proofs::Below::none_below, crate::proofs::Below::below_more, crate::proofs::Below::fails_below))]
fn are_names_alike(first: Accepted, second: Accepted) -> bool
    requires { first.table.now.count ≡ second.table.now.count }
    ensures { result ≡ holds_below first.entry.table.now.count (λ k. is_named_alike (at first.entry.table.now k) (at second.entry.table.now k)) }
{
    for k in 0..first.table.count {
        if !is_named_alike(first.table.task(k), second.table.task(k)) {
            return false;
        }
    }
    true
}

fn is_named_alike(first: &Task, second: &Task) -> bool
    ensures { result ≡ is_named_alike first.now second.now }
{
    same_bytes(&first.name.bytes, &second.name.bytes)
}

// How the new table is to the old one. Where their tasks have other names it is left open: that a table is harder is said of positions.
pub fn compared(old: Accepted, new: Accepted) -> Relation
    ensures relation { result ≡ relation_between old.entry.table.now new.entry.table.now }
    ensures harder { result ≡ Relation.Harder → Harder old.entry.table.now new.entry.table.now }
    ensures easier { result ≡ Relation.Easier → Harder new.entry.table.now old.entry.table.now }
{
    Relation::of(
        are_named_alike(old, new),
        is_harder(old, new),
        is_harder(new, old),
    )
}
