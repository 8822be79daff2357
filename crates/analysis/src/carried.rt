// What pre-emption costs, carried down the rows of a report, so that no row gathers again what the row above it has. specs/Carried.antt says what a
// column is, and what the terms of a row are.

ghost use Rattle.std.specs.Prelude.{◌≡◌, ◌+◌, ◌<◌, ◌≤◌, length};
ghost use Rattle.cache.specs.Words.{members};
ghost use Rattle.cache.specs.Counts.{◌on◌, total};
ghost use Rattle.cache.specs.Levels.{counts};
ghost use Rattle.table.specs.Tables.{ways_in};
ghost use Rattle.search.specs.Positions.{hp};
ghost use Rattle.analysis.specs.declared.costs.Single.{Single};
ghost use Rattle.analysis.specs.Gather.{union_of, hit, larger_of};
ghost use Rattle.analysis.specs.Costs.{term_with, ecb_of};
ghost use Rattle.analysis.specs.Carried.{Next, Small, FewReloadsCounted, count_told, count_of, count_with, LedgerInRow, Ledger, FullTerms, TermPut, Weighed, WeighedUnder, RowWeighed};

use crate::costs;
use crate::costs::{Hit, term};
use cache::sets::CacheSet;
use cache::units::Reloads;
use cache::useful::Useful;
use search::demand::Term;
use table::accepted::Pending;
use table::accesses::Access;

// What is gathered for a task over the positions below it, down to a row: the largest UCB, the useful blocks of all, and the most that one UCB shares with
// the union of the ECBs down to the task's own; the first and the last with the position that has them. Beside it that union, and what its own ECB can clear.
#[derive(Clone, Copy)]
pub struct Column {
    above: CacheSet,
    evicting: Reloads,
    most: Hit,
    all: Useful,
    shared: Hit,
}

impl Column {
    // Of no task.
    pub const NONE: Column = Column {
        above: CacheSet::EMPTY,
        evicting: Reloads(0),
        most: Hit {
            reloads: Reloads(0),
            victim: 0,
        },
        all: Useful::NONE,
        shared: Hit {
            reloads: Reloads(0),
            victim: 0,
        },
    };

    // One UCB more. `useful` is its size, with the position of its task.
    fn gather(&mut self, ucb: &Useful, useful: Hit, ways: u64)
        requires { (ways ≤ 8) × (useful.reloads.0 ≡ total (counts ways ucb.now)) }
        ensures { Next ways self.old (counts ways ucb.now) useful.victim self.new }
    {
        self.most = self.most.larger(useful);
        self.all.join(ucb, ways);
        self.shared = most_shared(self.shared, ucb, useful, self.above, ways);
    }

    // What it gives for a task with this ECB.
    fn counted(&self, ecb: CacheSet, ways: u64) -> Counted
        requires few { ways ≤ 8 }
        requires small { Small self.now }
        ensures each { (m : Single) → count_told result m ≡ count_of ways (members ecb) self.now m }
        ensures few { FewReloadsCounted result }
    {
        Counted {
            ecb_only: self.evicting,
            ucb_only: self.most.reloads,
            ucb_union: self.all.size_in(ecb, ways),
            ecb_union: self.shared.reloads,
        }
    }

    // What it would give with one UCB more. `useful` is its size, with the position of its task.
    fn counted_with(&self, ucb: &Useful, useful: Hit, ecb: CacheSet, ways: u64) -> Counted
        requires useful { (ways ≤ 8) × (useful.reloads.0 ≡ total (counts ways ucb.now)) }
        requires small { Small self.now }
        ensures each { (m : Single) → count_told result m ≡ count_with ways (members ecb) self.now (counts ways ucb.now) useful.victim m }
        ensures few { FewReloadsCounted result }
    {
        Counted {
            ecb_only: self.evicting,
            ucb_only: self.most.larger(useful).reloads,
            ucb_union: self.all.joined_size_in(ucb, ecb, ways),
            ecb_union: most_shared(self.shared, ucb, useful, self.above, ways).reloads,
        }
    }
}

// The larger of a hit and what a UCB shares with the ECBs. It shares no more than its size, `useful`, so where that is not larger nothing is worked out.
fn most_shared(most: Hit, ucb: &Useful, useful: Hit, above: CacheSet, ways: u64) -> Hit
    requires { (ways ≤ 8) × (useful.reloads.0 ≡ total (counts ways ucb.now)) }
    ensures { result ≡ larger_of most (hit (total (counts ways ucb.now on members above)) useful.victim) }
{
    if useful.reloads.0 <= most.reloads.0 {
        return most;
    }
    let reloads = ucb.shared_size(useful.reloads, above, ways);
    most.larger(Hit {
        reloads,
        victim: useful.victim,
    })
}

// The terms of the tasks above a row under each method.
#[derive(Clone, Copy)]
pub struct Terms {
    pub none: [Term; 32],
    pub ecb_only: [Term; 32],
    pub ucb_only: [Term; 32],
    pub ucb_union: [Term; 32],
    pub ecb_union: [Term; 32],
}

impl Terms {
    pub const NONE: Terms = Terms {
        none: [Term::NONE; 32],
        ecb_only: [Term::NONE; 32],
        ucb_only: [Term::NONE; 32],
        ucb_union: [Term::NONE; 32],
        ecb_union: [Term::NONE; 32],
    };
}

// How many reloads an activation is charged under the methods that charge any.
#[derive(Clone, Copy)]
struct Counted {
    ecb_only: Reloads,
    ucb_only: Reloads,
    ucb_union: Reloads,
    ecb_union: Reloads,
}

// Puts in the terms of the task at j, with so many reloads.
fn put(terms: &mut Terms, pending: Pending, j: usize, counted: Counted)
    requires { (j < pending.i) × FewReloadsCounted counted × FullTerms terms.old }
    ensures { TermPut j (λ m. term_with pending.entry.table.now j (count_told counted m)) terms.old terms.new }
{
    terms.none[j] = term(pending, j, Reloads(0));
    terms.ecb_only[j] = term(pending, j, counted.ecb_only);
    terms.ucb_only[j] = term(pending, j, counted.ucb_only);
    terms.ucb_union[j] = term(pending, j, counted.ucb_union);
    terms.ecb_union[j] = term(pending, j, counted.ecb_union);
}

// The union of the ECBs down to that of the task at i: the one in the column above, with one set more.
fn ecbs_down_to(pending: Pending, ledger: &[Column]) -> CacheSet
    requires { LedgerInRow pending.table.now pending.i pending.i ledger.now }
    ensures { members result ≡ union_of (ecb_of pending.entry.table.now) (hp (pending.entry.i + 1)) }
{
    let own = pending.task().ecb;
    if pending.i == 0 {
        return own;
    }
    ledger[pending.i - 1].above.union(own)
}

// Adds the column of the task at i, below all that have one.
fn add_column(pending: Pending, ledger: &mut [Column])
    requires { LedgerInRow pending.table.now pending.i pending.i ledger.old }
    ensures { Ledger pending.entry.table.now (pending.entry.i + 1) ledger.new }
{
    let above = ecbs_down_to(pending, ledger);
    let evicting = costs::cleared(pending, pending.i);
    let nobody = Hit::none(pending.i + 1);
    ledger[pending.i] = Column {
        above,
        evicting,
        most: nobody,
        all: Useful::NONE,
        shared: nobody,
    };
}

// The terms of the tasks above i. What is gathered for each of them is carried one row further, and the task at i gets a column of its own.
pub fn weigh_row(pending: Pending, ledger: &mut [Column], terms: &mut Terms)
    requires { Ledger pending.table.now pending.i ledger.old × FullTerms terms.old }
    ensures { RowWeighed pending.entry.table.now pending.entry.i ledger.new terms.new }
{
    let ways = pending.table.ways();
    let ucb = &pending.task().ucb;
    let useful = Hit {
        reloads: ucb.size(ways),
        victim: pending.i,
    };
    for j in 0..pending.i {
        ledger[j].gather(ucb, useful, ways);
        let counted = ledger[j].counted(pending.table.task(j).ecb, ways);
        put(terms, pending, j, counted);
    }
    add_column(pending, ledger);
}

// Makes the terms of row i, of which the ledger is carried past it, those while an access blocks the task at i: for the tasks above its ceiling its UCB is
// gathered, too.
pub fn weigh_access(pending: Pending, ledger: &[Column], access: &Access, terms: &mut Terms)
    requires { (access.now.ceiling ≤ pending.i) × Ledger pending.table.now (pending.i + 1) ledger.now × Weighed pending.table.now pending.i terms.old }
    ensures { WeighedUnder pending.entry.table.now access.now pending.entry.i terms.new }
{
    let ways = pending.table.ways();
    let useful = Hit {
        reloads: access.ucb.size(ways),
        victim: access.task,
    };
    for j in 0..access.ceiling {
        let ecb = pending.table.task(j).ecb;
        let counted = ledger[j].counted_with(&access.ucb, useful, ecb, ways);
        put(terms, pending, j, counted);
    }
}
