// Accesses to shared devices, and whom they may block. specs/Accesses.antt says who that is.

mod line;

ghost use Rattle.std.specs.Prelude.{◌≡◌};
ghost use Rattle.table.specs.Accesses.{may_block};

use cache::units::Ticks;
use cache::useful::Useful;

// An access: the positions of the task that makes it and of its ceiling, how long it lasts, and its UCB.
#[derive(Clone, Copy)]
pub struct Access {
    pub task: usize,
    pub ceiling: usize,
    pub lasts: Ticks,
    pub ucb: Useful,
}

impl Access {
    // What stands in a place without an access. It takes no time, and nothing of it can be evicted.
    pub const NONE: Access = Access {
        task: 0,
        ceiling: 0,
        lasts: Ticks(0),
        ucb: Useful::NONE,
    };

    // Whether the task at i may have to wait for it: its own task is below i, and its ceiling is i or above.
    pub fn may_block(&self, i: usize) -> bool
        ensures { result ≡ may_block i self.now }
    {
        (i < self.task) & (self.ceiling <= i)
    }
}
