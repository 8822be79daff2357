// Earliest deadline first in words: the first time at which more is asked for than there is, and who asks for it.

ghost use Rattle.std.specs.Prelude.{◌≤◌, All, IfSome};
ghost use Rattle.edf.specs.Bound.{Timed};

use crate::ticks;
use cache::units::Ticks;
use edf::charges::{self, ChargedTask};
use sentences::sums::{Part, add_sum};
use std::alloc::{AllocError, Global};
use table::accepted::Accepted;

// Whether the tasks of a table are schedulable by earliest deadline first, and if not, when it is seen first. The table has no jitter and no access, and its
// periods a common multiple.
pub fn told(alloc: Global, accepted: Accepted) -> Result<Vec<u8>, AllocError> {
    let charged = charges::charged_tasks(accepted);
    let tasks = &charged[..accepted.table.count];
    let Some(x) = first_overrun(tasks) else {
        return Vec::from_slice(
            alloc,
            b"Yes: at no time is more asked for than there is by the jobs that are released and due by then.\n",
        );
    };
    let asked = asked_by(alloc, tasks, x)?;
    let mut parts = Vec::new(alloc);
    let mut whole = 0u64;
    for (task, asked) in accepted.table.tasks().iter().zip(asked.as_slice().iter()) {
        whole = whole.saturating_add(asked.all());
        parts.push(asked.part(alloc, task.name.text())?)?;
    }
    let (time, need) = (ticks(alloc, x.0)?, ticks(alloc, whole)?);
    let line = format!(in alloc;
        "No: the jobs that are released and due within {time} ask for {need}. Within no shorter time is more asked for than there is.\n"
    )?;
    let mut words = Vec::from_slice(alloc, line.as_str().as_bytes())?;
    add_sum(&mut words, parts.as_slice(), whole)?;
    Ok(words)
}

// The first time at which the demand bound is above the time, if there is one.
fn first_overrun(tasks: &[ChargedTask]) -> Option<Ticks>
    requires { All Timed tasks.now }
    ensures { IfSome result (λ x. x.0 ≤ Ticks.LONGEST) }
{
    let h = edf::hyperperiod(tasks)?;
    edf::first_overrun(tasks, h)
}

// What a task asks for within some time: so many jobs, and so long for each, in ticks.
#[derive(Clone, Copy)]
struct Asked {
    jobs: u64,
    time: u64,
}

// What each task asks for within that time.
fn asked_by(alloc: Global, tasks: &[ChargedTask], x: Ticks) -> Result<Vec<Asked>, AllocError>
    requires { All Timed tasks.now × (x.0 ≤ Ticks.LONGEST) }
{
    let mut all = Vec::new(alloc);
    for task in tasks {
        all.push(Asked {
            jobs: task.jobs(x.0),
            time: task.time.0,
        })?;
    }
    Ok(all)
}

impl Asked {
    // All its jobs together.
    fn all(self) -> u64 {
        self.jobs.saturating_mul(self.time)
    }

    fn part(self, alloc: Global, name: &[u8]) -> Result<Part, AllocError> {
        let (jobs, time) = (wording::counted(alloc, self.jobs, "job")?, self.time);
        let words = format!(in alloc; "{jobs} x {time}")?;
        Ok(Part {
            name: Vec::from_slice(alloc, name)?,
            words: Vec::from_slice(alloc, words.as_str().as_bytes())?,
            ticks: self.all(),
        })
    }
}
