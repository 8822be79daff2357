// The figures that were worked out by hand.
ghost use Rattle.std.specs.Prelude.{◌≡◌, ◌<◌};
ghost use Rattle.analysis.specs.Analysis.{response_of};
ghost use Rattle.analysis.specs.Costs.{charge_at};
ghost use Rattle.claims.specs.Findings.{finding_of};
ghost use Rattle.laws.specs.Figures.{IsFigured, IsChargeFigured, IsFindingFigured};

use analysis::costs::{Charge, Single};
use analysis::{Method, blocked_row, one_row};
use claims::finding::{Finding, judge};
use search::demand::Response;
use table::accepted::Pending;
use table::accesses::Access;

// The response of the task at i. Where there is a figure of it, it is that one.
pub fn response(pending: Pending, method: Method) -> Response
    ensures value { result ≡ response_of pending.entry.table.now method pending.entry.i }
    ensures figure { IsFigured pending.entry.table.now method pending.entry.i result }
{
    analysis::respond(pending, method)
}

// What an activation of the task at j is charged while i is pending. Where there is a figure of it, it is that one.
pub fn charge(pending: Pending, method: Single, j: usize) -> Charge
    requires { j < pending.i }
    ensures value { result ≡ charge_at pending.entry.table.now method pending.entry.i j }
    ensures figure { IsChargeFigured pending.entry.table.now method pending.entry.i j result }
{
    let mut row = one_row::charged(pending, method);
    blocked_row::join(pending, method, &Access::NONE, &mut row);
    row[j]
}

// What is found of a claimed response of the task at i. Where there is a figure of it, it is that one.
pub fn finding(pending: Pending, method: Method, claim: Response) -> Finding
    ensures value { result ≡ finding_of pending.entry.table.now method pending.entry.i claim }
    ensures figure { IsFindingFigured pending.entry.table.now method pending.entry.i claim result }
{
    judge(pending, method, claim)
}
