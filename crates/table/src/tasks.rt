// Tasks, and the lines that say them: line 1, and a task line. specs/HeadLine.antt and specs/TaskLine.antt say it field by field, with the refusals as rows.

mod head;
mod line;
mod name;

use cache::sets::CacheSet;
use cache::units::Ticks;
use cache::useful::Useful;
pub use head::Head;
pub use name::{Name, is_known, position_of};

// A task: its name, C, T, D, J, UCB and ECB.
#[derive(Clone, Copy)]
pub struct Task {
    pub name: Name,
    pub work: Ticks,
    pub period: Ticks,
    pub deadline: Ticks,
    pub jitter: Ticks,
    pub ucb: Useful,
    pub ecb: CacheSet,
}

impl Task {
    // What stands in a place without a task.
    pub const NONE: Task = Task {
        name: Name { bytes: [0; 12] },
        work: Ticks(0),
        period: Ticks(0),
        deadline: Ticks(0),
        jitter: Ticks(0),
        ucb: Useful::NONE,
        ecb: CacheSet::EMPTY,
    };
}
