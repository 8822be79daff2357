// Whether the demand of a task at a time is no larger than the time, so that all that is asked for by then is done by then. Nothing is searched for.
// specs/Covering.antt says when that is.

ghost use Rattle.std.specs.Prelude.{◌≡◌, ◌≤◌};
ghost use Rattle.analysis.specs.Row.{ReadyToJoin};
ghost use Rattle.analysis.specs.Analysis.{MayBlock};
ghost use Rattle.analysis.specs.Covering.{covers, is_covered};

use crate::blockers::Blockers;
use crate::costs::{Charge, Single};
use crate::{blocked_row, one_row};
use cache::units::Ticks;
use search::demand;
use table::accepted::Pending;
use table::accesses::Access;

// Whether that is so while an access blocks the task. `row` has the charges of the method without an access.
fn covers(
    pending: Pending,
    method: Single,
    time: Ticks,
    row: &[Charge; 32],
    access: &Access,
) -> bool
    requires { (time.0 ≤ Ticks.LONGEST) × ReadyToJoin pending.table.now method pending.i row.now × MayBlock access.now pending.i }
    ensures { result ≡ covers pending.entry.table.now method pending.entry.i time.0 access.now }
{
    let mut joined = *row;
    blocked_row::join(pending, method, access, &mut joined);
    let terms = blocked_row::terms(pending, &joined);
    let own = pending.task().work.0 + access.lasts.0;
    demand::demand_at(own, &terms[..pending.i], time.0) <= time.0
}

// Whether it is so whatever may block the task.
pub fn is_covered(pending: Pending, method: Single, time: Ticks) -> bool
    requires { time.0 ≤ Ticks.LONGEST }
    ensures { result ≡ is_covered pending.entry.table.now method pending.entry.i time.0 }
{
    let row = one_row::charged(pending, method);
    for access in Blockers::of(pending.table, pending.i, &Access::NONE) {
        if !covers(pending, method, time, &row, access) {
            return false;
        }
    }
    true
}
