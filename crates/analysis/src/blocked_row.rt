// What the tasks above one task are charged and ask for while an access blocks it. The row without the access is there already: only what the access's UCB
// adds to it is worked out, for the tasks above its ceiling. specs/BlockedRow.antt says what a row then tells.

ghost use Rattle.std.specs.Prelude.{◌≡◌, ◌<◌, ◌≤◌, length};
ghost use Rattle.cache.specs.Words.{members};
ghost use Rattle.cache.specs.Counts.{◌⊕◌, capped, ◌on◌, total};
ghost use Rattle.cache.specs.Levels.{counts};
ghost use Rattle.table.specs.Accesses.{added_by};
ghost use Rattle.search.specs.Positions.{front};
ghost use Rattle.search.specs.Demand.{term_of};
ghost use Rattle.analysis.specs.declared.costs.Single.TheVariants.{UcbOnly, UcbUnion, EcbUnion};
ghost use Rattle.analysis.specs.Row.{Charged, ReadyToJoin};
ghost use Rattle.analysis.specs.BlockedRow.{ChargedUnder, FewReloads, term_by};

use crate::costs::{Charge, Hit, Single};
use crate::{costs, one_row};
use cache::sets::CacheSet;
use cache::units::{Reloads, Ticks};
use cache::useful::Useful;
use search::demand::Term;
use table::accepted::Pending;
use table::accesses::Access;

// UCB-only: the larger of what is there and the access's UCB.
fn ucb_only(pending: Pending, access: &Access, row: &mut [Charge; 32])
    requires { (access.now.ceiling ≤ pending.i) × Charged pending.table.now UcbOnly pending.i 0 row.old }
    ensures { ChargedUnder pending.entry.table.now access.now UcbOnly pending.entry.i 0 row.new }
{
    let added = Hit {
        reloads: access.ucb.size(pending.table.ways()),
        victim: access.task,
    };
    for j in (0..access.ceiling).rev() {
        row[j] = row[j].with(added);
    }
}

// The useful blocks of all that are affected, and the access's if its ceiling is below j: how many of them the ECB evicts.
fn shared_with(all: &Useful, access: &Access, j: usize, ecb: CacheSet, ways: u64) -> Reloads
    requires { ways ≤ 8 }
    ensures { result.0 ≡ total (capped ways (counts ways all.now ⊕ added_by ways access.now j) on members ecb) }
{
    if j < access.ceiling {
        let mut joined = *all;
        joined.join(&access.ucb, ways);
        return joined.size_in(ecb, ways);
    }
    all.size_in(ecb, ways)
}

// UCB-Union: the useful blocks of all are carried up, and the access's are put to them above its ceiling.
fn ucb_union(pending: Pending, access: &Access, row: &mut [Charge; 32])
    requires { length row.old ≡ 32 }
    ensures { ChargedUnder pending.entry.table.now access.now UcbUnion pending.entry.i 0 row.new }
{
    let ways = pending.table.ways();
    let mut all = Useful::NONE;
    for j in (0..pending.i).rev() {
        all.join(&pending.table.task(j + 1).ucb, ways);
        row[j] = Charge::NoVictim(shared_with(&all, access, j, pending.table.task(j).ecb, ways));
    }
}

// ECB-Union: the larger of what is there and what the access's UCB shares with the ECBs.
fn ecb_union(pending: Pending, access: &Access, row: &mut [Charge; 32])
    requires { (access.now.ceiling ≤ pending.i) × Charged pending.table.now EcbUnion pending.i 0 row.old }
    ensures { ChargedUnder pending.entry.table.now access.now EcbUnion pending.entry.i 0 row.new }
{
    let unions = one_row::evictors(pending);
    for j in (0..access.ceiling).rev() {
        let shared = access.ucb.size_in(unions[j], pending.table.ways());
        let added = Hit {
            reloads: shared,
            victim: access.task,
        };
        row[j] = row[j].with(added);
    }
}

// Makes a row of charges without the access one with it. No reloads and ECB-Only do not depend on who is affected.
pub fn join(pending: Pending, method: Single, access: &Access, row: &mut [Charge; 32])
    requires { (access.now.ceiling ≤ pending.i) × ReadyToJoin pending.table.now method pending.i row.old }
    ensures { ChargedUnder pending.entry.table.now access.now method pending.entry.i 0 row.new }
{
    match method {
        Single::None | Single::EcbOnly => {}
        Single::UcbOnly => ucb_only(pending, access, row),
        Single::UcbUnion => ucb_union(pending, access, row),
        Single::EcbUnion => ecb_union(pending, access, row),
    }
}

// What each task above i asks for, by the charges in a row.
pub fn terms(pending: Pending, row: &[Charge; 32]) -> [Term; 32]
    requires { FewReloads pending.i row.now }
    ensures { result ≡ front (term_of 0 0 0) (term_by pending.entry.table.now row.now) pending.entry.i }
{
    let mut terms = [Term::NONE; 32];
    for j in 0..pending.i {
        terms[j] = costs::term(pending, j, row[j].count());
    }
    terms
}
