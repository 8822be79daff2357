// Earliest deadline first: whether at every whole time the demand bound of a table's tasks, with their charged times, is no larger than that time, and when it
// is larger first. specs/Charges.antt says what a task is charged, specs/Bound.antt what the demand bound is, specs/Hyperperiod.antt the least common multiple of
// the periods, and specs/Verdicts.antt what is answered.
#![tactic(auto)]

// What each task is charged.
pub mod charges;
// Divisors and multiples.
pub mod multiples;
// The demand bound, and the times at which it is above the time.
pub mod bound;

ghost use Rattle.std.specs.Prelude.{◌≡◌, All};
ghost use Rattle.edf.specs.Bound.{Timed, FirstOverrun};
ghost use Rattle.edf.specs.Hyperperiod.{hyperperiod_within, IsHyperperiod, Posed};
ghost use Rattle.edf.specs.Verdicts.{IsVerdict, edf_verdict};

use crate::bound::last_overrun;
use crate::charges::ChargedTask;
use cache::units::Ticks;
use multiples::lcm;

// Whether the tasks are schedulable by earliest deadline first.
#[derive(Clone, Copy)]
pub enum Verdict {
    No,
    Yes,
}

// The least common multiple of the periods, or none where it is above 250,000,000 ticks. It is looked at after each period, so that no product wraps.
pub fn hyperperiod(tasks: &[ChargedTask]) -> Option<Ticks>
    requires { All Timed tasks.now }
    ensures value { result ≡ hyperperiod_within tasks.now }
    ensures means { IsHyperperiod tasks.now result }
{
    let mut h = 1;
    for task in tasks {
        h = lcm(h, task.period.0);
        if Ticks::LONGEST < h {
            return None;
        }
    }
    Some(Ticks(h))
}

// The verdict on tasks whose periods have the common multiple `h`. At `h` the demand bound is what is charged in `h` ticks, so that this is looked at first.
pub fn decide(tasks: &[ChargedTask], h: Ticks) -> Verdict
    requires { Posed tasks.now h.0 }
    ensures value { result ≡ edf_verdict tasks.now h.0 }
    ensures means { IsVerdict tasks.now result }
{
    match last_overrun(tasks, 0, h.0 + 1) {
        Some(_) => Verdict::No,
        None => Verdict::Yes,
    }
}

// The first time at which the demand bound is above the time, if there is one: there is none where the verdict is yes, and where it is no it is no later than
// the common multiple `h`. It is found by halves: what no time of a half is, is not looked at again.
pub fn first_overrun(tasks: &[ChargedTask], h: Ticks) -> Option<Ticks>
    requires { Posed tasks.now h.0 }
    ensures { FirstOverrun tasks.now h.0 result }
{
    let mut first = last_overrun(tasks, 0, h.0 + 1)?;
    let mut clear = 0;
    while clear < first.0 {
        let middle = clear + (first.0 - clear) / 2;
        match last_overrun(tasks, clear, middle + 1) {
            Some(sooner) => first = sooner,
            None => clear = middle + 1,
        }
    }
    Some(first)
}
