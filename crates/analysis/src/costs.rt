// What pre-emption costs: reload counts with whom they hit, and what one activation asks for with them. specs/Costs.antt says what they are; what is
// here is common to the two modules that work them out, for the rows of a report and for one row.

ghost use Rattle.std.specs.Prelude.{◌≡◌, ◌*◌, ◌≤◌};
ghost use Rattle.cache.specs.Sets.{size};
ghost use Rattle.table.specs.Tables.{ways_in};
ghost use Rattle.analysis.specs.Gather.{hit, larger_of};
ghost use Rattle.analysis.specs.Costs.{reloads_in, with_hit, ecb_of, term_with};

use cache::units::{Reloads, Ticks};
use search::demand::Term;
use table::accepted::Pending;

// The methods that count reloads.
#[derive(Clone, Copy)]
pub enum Single {
    None,
    EcbOnly,
    UcbOnly,
    UcbUnion,
    EcbUnion,
}

// What one task has to reload, and the position of that task: whom the pre-emption hits.
#[derive(Clone, Copy)]
pub struct Hit {
    pub reloads: Reloads,
    pub victim: usize,
}

impl Hit {
    // Nothing to reload, before any task is looked at. Where no task has anything, this victim stays.
    pub fn none(victim: usize) -> Hit
        ensures { result ≡ hit 0 victim }
    {
        Hit {
            reloads: Reloads(0),
            victim,
        }
    }

    // The larger of two hits, and the first where they are equal.
    pub fn larger(self, other: Hit) -> Hit
        ensures { result ≡ larger_of self other }
    {
        if self.reloads.0 < other.reloads.0 {
            other
        } else {
            self
        }
    }
}

// What an activation is charged for reloads: a count that is not that of a single task, or as many as the worst hit task has.
#[derive(Clone, Copy)]
pub enum Charge {
    NoVictim(Reloads),
    Victim(Hit),
}

impl Charge {
    // Nothing.
    pub const NOTHING: Charge = Charge::NoVictim(Reloads(0));

    // How many reloads, with or without a victim.
    pub fn count(self) -> Reloads
        ensures { result.0 ≡ reloads_in self }
    {
        match self {
            Charge::Victim(hit) => hit.reloads,
            Charge::NoVictim(n) => n,
        }
    }

    // With one more task that may be hit, where it is the count of a single task.
    pub fn with(self, other: Hit) -> Charge
        ensures { result ≡ with_hit self other }
    {
        match self {
            Charge::Victim(hit) => Charge::Victim(hit.larger(other)),
            Charge::NoVictim(n) => Charge::NoVictim(n),
        }
    }
}

// How many blocks the ECB of the task at j can clear: each of its cache sets has as many as there are ways.
pub fn cleared(pending: Pending, j: usize) -> Reloads
    requires { j ≤ pending.i }
    ensures { result.0 ≡ size (ecb_of pending.entry.table.now j) * ways_in pending.entry.table.now }
{
    Reloads(pending.table.task(j).ecb.size().0 * pending.table.ways())
}

// What the task at j asks for, with so many reloads in its weight.
pub fn term(pending: Pending, j: usize, n: Reloads) -> Term
    requires { (j ≤ pending.i) × (n.0 ≤ 2048) }
    ensures { result ≡ term_with pending.entry.table.now j n.0 }
{
    let task = pending.table.task(j);
    Term {
        period: task.period,
        jitter: task.jitter,
        weight: Ticks(task.work.0 + n.time(pending.table.brt).0),
    }
}
