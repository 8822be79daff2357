// The demand of a task, and the smallest time that equals it. specs/Demand.antt says what a demand is, specs/Terms.antt how its terms are
// lent, and specs/Least.antt what the smallest solution is.

ghost use Rattle.std.specs.Prelude.{◌≡◌, ◌≤◌, length};
ghost use Rattle.search.specs.Demand.{work_of, demand_of};
ghost use Rattle.search.specs.Terms.{term_in, InRange, NoOverflow};
ghost use Rattle.search.specs.Least.{sooner, later};

use cache::units::Ticks;

// What one task of higher priority asks for: `weight` ticks at each activation.
#[derive(Clone, Copy)]
pub struct Term {
    pub period: Ticks,
    pub jitter: Ticks,
    pub weight: Ticks,
}

impl Term {
    // Nothing.
    pub const NONE: Term = Term {
        period: Ticks(0),
        jitter: Ticks(0),
        weight: Ticks(0),
    };

    // What it asks for in `r` ticks.
    pub fn work(self, r: u64) -> u64
        requires { (r ≤ 250000000) × InRange self }
        ensures { (result ≡ work_of r self) × (result ≤ 250000000000000000) }
    {
        (r + self.jitter.0 + (self.period.0 - 1)) / self.period.0 * self.weight.0
    }
}

// The demand of a task with `own` ticks of work under these terms at `r`.
pub fn demand_at(own: u64, terms: &[Term], r: u64) -> u64
    requires { NoOverflow own terms.now r }
    ensures { result ≡ demand_of own (term_in terms.now) (length terms.now) r }
{
    let mut demand = own;
    for term in terms {
        demand += term.work(r);
    }
    demand
}

// The answer for one task: its response time, or that it has none within its limit.
#[derive(Clone, Copy)]
pub enum Response {
    Within(Ticks),
    Unschedulable,
}

impl Response {
    // The sooner of two answers. Where one has no response time it is the other.
    pub fn sooner(self, other: Response) -> Response
        ensures { result ≡ sooner self other }
    {
        let Response::Within(x) = self else {
            return other;
        };
        let Response::Within(y) = other else {
            return self;
        };
        if x.0 <= y.0 { self } else { other }
    }

    // The later of two answers. Where one has no response time, there is none.
    pub fn later(self, other: Response) -> Response
        ensures { result ≡ later self other }
    {
        let Response::Within(x) = self else {
            return Response::Unschedulable;
        };
        let Response::Within(y) = other else {
            return Response::Unschedulable;
        };
        if x.0 < y.0 { other } else { self }
    }
}
