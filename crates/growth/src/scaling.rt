// Tables whose execution times are scaled. specs/Scaling.antt says what becomes of a C.

ghost use Rattle.std.specs.Prelude.{◌≡◌, ◌≤◌};
ghost use Rattle.growth.specs.Scaling.{scaled_work, scaled_by, Scalable};

use cache::units::Ticks;
use table::Table;

// A growth is told in parts of the whole, as thousandths of each C.
pub const WHOLE: u64 = 1000;

// The greatest k that is tried.
pub const MOST: u64 = 4000;

// C times k thousandths, rounded up.
pub fn scaled_work(work: Ticks, k: u64) -> Ticks
    requires { (work.0 ≤ Ticks.LONGEST) × (k ≤ MOST) }
    ensures { result.0 ≡ scaled_work k work.0 }
{
    Ticks((work.0 * k + (WHOLE - 1)) / WHOLE)
}

// Scales every C of a table.
pub fn scale(table: &mut Table, k: u64)
    requires { Scalable k table.old }
    ensures { table.new ≡ scaled_by k table.old }
{
    for task in table.tasks.iter_mut() {
        task.work = scaled_work(task.work, k);
    }
}
