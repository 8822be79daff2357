// Every run of a processor that is modelled tick by tick, and that an answer of the equation bounds each job of each run. Nothing here knows a table, or what
// answers. Read specs/model (what a run is), specs/machine (a machine that makes one of any jobs), specs/Equation.antt (what the equation counts) and
// specs/Theorem.antt; proofs/Lib.antt has the argument in its order. The functions below say the counts and the rules, and promise of each the law of
// every run that it stands for (specs/Promises.antt).
#![tactic(auto)]

ghost use Rattle.std.specs.Prelude.{◌≡◌, ◌+◌, ◌≤◌, ◌&&◌, ◌||◌, not, nat_le, nat_lt};
ghost use Rattle.search.specs.Demand.{ceil};
ghost use Rattle.runs.specs.Theorem.{AnswersBound};
ghost use Rattle.runs.specs.Promises.{EndsBy, ReleasesAtMost, OvertakenJob, OvertakenAccess, TakenBy, IsReload, GoesByCeiling, MachineGoes};

use cache::units::Ticks;

// By when a job has ended whose task has this response time; and the theorem itself, which has the deadline, too.
pub fn latest_end(release: u64, response: Ticks) -> u64
    requires { release + response.0 ≤ 18446744073709551615 }
    ensures sum { result ≡ release + response.0 }
    ensures bounds { EndsBy release response.0 result }
    ensures theorem { AnswersBound }
{
    release + response.0
}

// How many jobs a task with this period and jitter may release in so many ticks on end.
pub fn most_releases(time: u64, period: Ticks, jitter: Ticks) -> u64
    requires { (1 ≤ period.0) × (time + jitter.0 + period.0 ≤ 18446744073709551615) }
    ensures count { result ≡ ceil (time + jitter.0) period.0 }
    ensures bounds { ReleasesAtMost time period.0 jitter.0 result }
{
    (time + jitter.0 + (period.0 - 1)) / period.0
}

// Whether the task `victim` may be overtaken by the task `other`, and lose blocks to it, while a job of `waiting` is pending: it is not below that task, or it
// blocks it by an access, whose ceiling is told.
pub fn may_lose(victim: u64, other: u64, waiting: u64, ceiling: u64) -> bool
    ensures test { result ≡ (nat_lt other victim && (nat_le victim waiting || nat_lt other ceiling)) }
    ensures job { OvertakenJob victim other waiting result }
    ensures access { OvertakenAccess victim other waiting ceiling result }
{
    (other < victim) & ((victim <= waiting) | (other < ceiling))
}

// Whether a use of the task `user` counts, where the reloads of a pre-emption are charged to the lowest task that ran in it.
pub fn may_take(lowest: u64, user: u64) -> bool
    ensures test { result ≡ nat_le user lowest }
    ensures uses { TakenBy lowest user result }
{
    user <= lowest
}

// Whether a use of a cache set is a reload: the block would be there, had the job been alone, and it is not.
pub fn must_reload(alone: bool, found: bool) -> bool
    ensures test { result ≡ (alone && not found) }
    ensures reloads { IsReload alone found result }
{
    alone & !found
}

// An access that is held: the task that holds it, and its ceiling.
#[derive(Clone, Copy)]
pub struct Held {
    pub task: u64,
    pub ceiling: u64,
}

// Which task has the processor, by the first one that has a job pending and the access that was taken last. The machine goes by it, and its runs are legal.
#[tactic(auto, using(crate::proofs::PromiseLaws::machine_goes))]
pub fn goes_to(first: Option<u64>, held: Option<Held>) -> Option<u64>
    ensures rule { GoesByCeiling first held result }
    ensures machine { MachineGoes first held result }
{
    let Some(access) = held else {
        return first;
    };
    match first {
        Some(task) if task < access.ceiling => first,
        _ => Some(access.task),
    }
}
