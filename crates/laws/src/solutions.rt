// The smallest solution of an equation.
ghost use Rattle.std.specs.Prelude.{◌≡◌, ◌≤◌, ℕ};
ghost use Rattle.search.specs.Least.{least_of};
ghost use Rattle.laws.specs.Solutions.{IsSmallest};

use cache::units::Ticks;
use search::demand::Response;

// A demand: what is asked for in `r` ticks. It is one side of an equation, of which r is the other.
pub trait Demand {
    ghost asked: { Self → ℕ → ℕ };

    fn asked(&self, r: u64) -> u64
        ensures { result ≡ asked self.now r };
}

// The demand of a task that waits for no other: its own work, at all times.
#[derive(Clone, Copy)]
pub struct Alone {
    pub work: Ticks,
}

impl Demand for Alone {
    ghost asked = { λ d r. d.work.0 };

    fn asked(&self, _r: u64) -> u64 {
        self.work.0
    }
}

// The smallest time up to `limit` that equals its demand, whatever the demand is: each is tried, from 0 on.
pub fn smallest<D: Demand>(demand: &D, limit: Ticks) -> Response
    ensures value { result ≡ least_of (D.asked demand.now) limit.0 }
    ensures means { IsSmallest (D.asked demand.now) limit.0 result }
{
    for r in 0..=limit.0 {
        if demand.asked(r) == r {
            return Response::Within(Ticks(r));
        }
    }
    Response::Unschedulable
}
