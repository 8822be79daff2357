// The demand bound of charged tasks, and the times at which it is above the time. specs/Bound.antt says what it is.

ghost use Rattle.std.specs.Prelude.{◌≡◌, ◌≤◌, ◌<◌, ◌+◌, ◌*◌, ◌↔◌, ℕ, All};
ghost use Rattle.edf.specs.Bound.{jobs_within, asked_within, demand_bound, unless_above, Timed, LastOverrun};

use crate::charges::ChargedTask;
use cache::units::Ticks;

impl ChargedTask {
    // How many of its jobs are released and due within `x` ticks: job k is released at k periods.
    #[tactic(auto, using(std::proofs::lemmas::Bool::Decides::nat_tests), unfolding(crate::specs::Bound::jobs_within))]
    pub fn jobs(&self, x: u64) -> u64
        requires { Timed self.now × (x ≤ Ticks.LONGEST) }
        ensures is { result ≡ jobs_within x self.now }
        ensures counted { (k : ℕ) → (k < result) ↔ (k * self.now.period.0 + self.now.deadline.0 ≤ x) }
    {
        if x < self.deadline.0 {
            return 0;
        }
        (x - self.deadline.0) / self.period.0 + 1
    }
}

// What these jobs ask for, where it is no more than `x`. A product is taken only of a time that is no longer than `x`.
fn asked(task: &ChargedTask, x: u64) -> Option<u64>
    requires { Timed task.now × (x ≤ Ticks.LONGEST) }
    ensures { result ≡ unless_above x (asked_within x task.now) }
{
    let jobs = task.jobs(x);
    if jobs == 0 {
        return Some(0);
    }
    if x < task.time.0 {
        return None;
    }
    let asked = jobs * task.time.0;
    if x < asked { None } else { Some(asked) }
}

// The demand bound at `x`, where it is no more than `x`.
pub fn bound_within(tasks: &[ChargedTask], x: u64) -> Option<u64>
    requires { All Timed tasks.now × (x ≤ Ticks.LONGEST) }
    ensures { result ≡ unless_above x (demand_bound tasks.now x) }
{
    let mut sum = 0;
    for task in tasks {
        sum += asked(task, x)?;
        if x < sum {
            return None;
        }
    }
    Some(sum)
}

// The last time from `clear` on and before `end` at which the demand bound is above the time, if there is one. It goes down from `end`: as the bound grows with
// the time, a bound of d at some time is no larger than any time from d to there, and so d is the next end.
pub fn last_overrun(tasks: &[ChargedTask], clear: u64, end: u64) -> Option<Ticks>
    requires { All Timed tasks.now × (end ≤ Ticks.LONGEST + 1) }
    ensures { LastOverrun tasks.now clear end result }
{
    let mut end = end;
    while clear < end {
        let x = end - 1;
        match bound_within(tasks, x) {
            Some(bound) => end = bound,
            None => return Some(Ticks(x)),
        }
    }
    None
}
