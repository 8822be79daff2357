// Tables that are no harder than others, and tasks that are gone through in any order.
ghost use Rattle.std.specs.Prelude.{◌≡◌, ℕ, ◌<◌, length};
ghost use Rattle.table.specs.declared.accesses.Access.{Access};
ghost use Rattle.analysis.specs.declared.costs.Single.{Single};
ghost use Rattle.search.specs.Demand.{demand_of};
ghost use Rattle.search.specs.Terms.{term_in};
ghost use Rattle.analysis.specs.Analysis.{response_of};
ghost use Rattle.laws.specs.Permutations.{EachOnce};
ghost use Rattle.laws.specs.Equation.{Arrangement, response_arranged};
ghost use Rattle.laws.specs.Orders.{Addable, EasierRespondsFirst};

use analysis::Method;
use cache::units::Ticks;
use search::demand::{Response, Term};
use table::accepted::Pending;

// The responses of a task of a table, and of one of another table.
#[derive(Clone, Copy)]
pub struct TwoResponses {
    pub first: Response,
    pub second: Response,
}

// The response of a task of one table, and that of one of another table.
pub fn in_two_tables(first: Pending, second: Pending, method: Method) -> TwoResponses
    ensures { EasierRespondsFirst first.entry.table.now first.entry.i second.entry.table.now second.entry.i method result }
{
    TwoResponses {
        first: analysis::respond(first, method),
        second: analysis::respond(second, method),
    }
}

// The response of the task at i: it is what comes out where the tasks of each sum, union and largest value are gone through in any order.
pub fn in_any_order(pending: Pending, method: Method) -> Response
    ensures value { result ≡ response_of pending.entry.table.now method pending.entry.i }
    ensures any { (arranged : Single → Access → ℕ → Arrangement pending.entry.i) → result ≡ response_arranged pending.entry.table.now method pending.entry.i arranged }
{
    analysis::respond(pending, method)
}

// The demand at `r`, with the terms taken in this order.
pub fn demand_in_order(own: Ticks, terms: &[Term], order: &[usize], r: u64) -> u64
    requires addable { Addable own.0 terms.now r }
    requires order { EachOnce 0 (length terms.now) order.now }
    ensures { result ≡ demand_of own.0 (term_in terms.now) (length terms.now) r }
{
    let mut demand = own.0;
    for j in order {
        demand += terms[*j].work(r);
    }
    demand
}
