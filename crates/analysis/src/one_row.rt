// What the tasks above one task are charged: one row, gone through once. From a task above to the next higher one aff gets one position more, in front, so
// what is gathered over it is carried up from the last task above to the first. The union of the ECBs is carried down. specs/Row.antt says what a row tells.

ghost use Rattle.std.specs.Prelude.{◌≡◌, ◌<◌, length};
ghost use Rattle.cache.specs.Words.{members};
ghost use Rattle.analysis.specs.declared.costs.Single.TheVariants.{EcbOnly, UcbOnly, EcbUnion};
ghost use Rattle.analysis.specs.Gather.{aff, largest_at};
ghost use Rattle.analysis.specs.Row.{Charged, ReadyToJoin, Evictors, shared_of, AtMost};

use crate::costs;
use crate::costs::{Charge, Hit, Single};
use cache::sets::CacheSet;
use cache::units::Reloads;
use cache::useful::Useful;
use table::accepted::Pending;

// ECB-only: as many as the pre-empting task's ECB has, in each of the ways.
fn ecb_only(pending: Pending, row: &mut [Charge; 32])
    requires { length row.old ≡ 32 }
    ensures { Charged pending.entry.table.now EcbOnly pending.entry.i 0 row.new }
{
    for j in (0..pending.i).rev() {
        row[j] = Charge::NoVictim(costs::cleared(pending, j));
    }
}

// UCB-only: the largest UCB is carried up.
fn ucb_only(pending: Pending, row: &mut [Charge; 32])
    requires { length row.old ≡ 32 }
    ensures { Charged pending.entry.table.now UcbOnly pending.entry.i 0 row.new }
{
    let mut most = Hit::none(pending.i + 1);
    for j in (0..pending.i).rev() {
        let victim = j + 1;
        let reloads = pending.table.task(victim).ucb.size(pending.table.ways());
        let hit = Hit { reloads, victim };
        most = hit.larger(most);
        row[j] = Charge::Victim(most);
    }
}

// The unions of the ECBs down to each of the tasks above i.
pub fn evictors(pending: Pending) -> [CacheSet; 32]
    ensures { Evictors pending.entry.table.now pending.entry.i result }
{
    let mut unions = [CacheSet::EMPTY; 32];
    let mut above = CacheSet::EMPTY;
    for j in 0..pending.i {
        above = above.union(pending.table.task(j).ecb);
        unions[j] = above;
    }
    unions
}

// The most that one UCB in aff(i, j) shares with the ECBs, and the first that has it. No UCB shares more than its bound, so one is not looked at where that is no
// more than the most so far; where it is, its bound becomes what it shares.
fn largest_shared(pending: Pending, j: usize, ecbs: CacheSet, bounds: &mut [Reloads; 32]) -> Hit
    requires { (j < pending.i) × AtMost (shared_of pending.table.now (members ecbs)) bounds.old }
    ensures { (result ≡ largest_at (shared_of pending.entry.table.now (members ecbs)) (aff pending.entry.i j)) × AtMost (shared_of pending.entry.table.now (members ecbs)) bounds.new }
{
    let mut most = Hit::none(j + 1);
    for k in j + 1..pending.i + 1 {
        if most.reloads.0 < bounds[k].0 {
            let reloads = pending
                .table
                .task(k)
                .ucb
                .size_in(ecbs, pending.table.ways());
            bounds[k] = reloads;
            most = most.larger(Hit { reloads, victim: k });
        }
    }
    most
}

// ECB-Union. Going up the ECBs get fewer, so no UCB shares more than it did further down.
fn ecb_union(pending: Pending, row: &mut [Charge; 32])
    requires { length row.old ≡ 32 }
    ensures { Charged pending.entry.table.now EcbUnion pending.entry.i 0 row.new }
{
    let unions = evictors(pending);
    let mut bounds = [Reloads(Useful::MOST); 32];
    for j in (0..pending.i).rev() {
        let shared = largest_shared(pending, j, unions[j], &mut bounds);
        row[j] = Charge::Victim(shared);
    }
}

// What each task above i is charged for reloads at an activation, before an access joins. Under UCB-Union the row is left empty: it is gathered with the access.
pub fn charged(pending: Pending, method: Single) -> [Charge; 32]
    ensures { ReadyToJoin pending.entry.table.now method pending.entry.i result }
{
    let mut row = [Charge::NOTHING; 32];
    match method {
        Single::None => {}
        Single::UcbUnion => {}
        Single::EcbOnly => ecb_only(pending, &mut row),
        Single::UcbOnly => ucb_only(pending, &mut row),
        Single::EcbUnion => ecb_union(pending, &mut row),
    }
    row
}
