// Random task sets of the paper's base configuration, as tables for the proved library. A tick is a microsecond.
//
// The paper leaves some of this open; docs/EVALUATION.md says what was taken, why, and what else was tried.

use crate::random::Random;
use std::alloc::{AllocError, Global};
use std::fmt::Write;
use std::num::{nearest_u64_to_f64, saturating_f64_to_u64};

const TASKS: usize = 10;

const CACHE_SETS: u64 = 256;

const RELOAD_TIME: u64 = 8;

// How often the tasks together would fill the cache.
const CACHE_UTILISATION: f64 = 10.0;

const REUSE_FACTOR: f64 = 0.3;

const SHORTEST_PERIOD: f64 = 5000.0;

// The natural logarithm of 100, by which the longest period is longer than the shortest.
const PERIODS_LOGARITHM: f64 = 4.605170185988092;

// The configuration in words.
pub const CONFIGURATION: &str =
    "10 tasks, 256 cache sets, BRT 8 microseconds, cache utilisation 10, reuse factor 0.3";

// Cache sets that lie beside each other; the last set has the first as its neighbour.
#[derive(Clone, Copy)]
struct Stretch {
    start: u64,
    size: u64,
}

const DIGIT_SETS: u64 = 4; // a hex digit is for so many

impl Stretch {
    fn has(self, cache_set: u64) -> bool {
        let behind = cache_set
            .saturating_add(CACHE_SETS)
            .saturating_sub(self.start);
        behind % CACHE_SETS < self.size
    }

    // A stretch of so many sets, anywhere within this one.
    fn part(self, random: &mut Random, size: u64) -> Stretch {
        let behind = random.up_to(self.size.saturating_sub(size));
        Stretch {
            start: self.start.saturating_add(behind) % CACHE_SETS,
            size,
        }
    }

    // The hex digit of the sets from a place on.
    fn digit(self, place: u64) -> u8 {
        let set = place.saturating_mul(DIGIT_SETS);
        let mut value = 0;
        if self.has(set) {
            value |= 1;
        }
        if self.has(set.saturating_add(1)) {
            value |= 2;
        }
        if self.has(set.saturating_add(2)) {
            value |= 4;
        }
        if self.has(set.saturating_add(3)) {
            value |= 8;
        }
        value
    }

    // As a table has it: a hex digit for four sets, the highest first.
    fn add_to(self, text: &mut String) -> Result<(), AllocError> {
        text.push('\t')?;
        for place in (0..CACHE_SETS / DIGIT_SETS).rev() {
            let digit = self.digit(place);
            write!(text, "{digit:x}")?;
        }
        Ok(())
    }
}

#[derive(Clone, Copy)]
struct Task {
    execution: u64,
    period: u64,
    useful: Stretch,
    evicting: Stretch,
}

// The nearest whole number.
fn whole(number: f64) -> u64 {
    saturating_f64_to_u64(number + 0.5)
}

impl Task {
    // `cache_use` is how often the task alone would fill the cache; it may be above 1.
    fn random(random: &mut Random, utilisation: f64, cache_use: f64) -> Task {
        let period = whole(random.log_uniform(SHORTEST_PERIOD, PERIODS_LOGARITHM));
        let blocks = cache_use * nearest_u64_to_f64(CACHE_SETS);
        let evicting = Stretch {
            start: random.up_to(CACHE_SETS - 1),
            size: whole(blocks).min(CACHE_SETS),
        };
        // reuse goes by all blocks of the task, also where they are more than the cache holds
        let reused = random
            .up_to(saturating_f64_to_u64(REUSE_FACTOR * blocks))
            .min(evicting.size);
        let useful = evicting.part(random, reused);
        Task {
            execution: whole(utilisation * nearest_u64_to_f64(period)).max(1),
            period,
            useful,
            evicting,
        }
    }

    // The execution time multiplied by so many thousandths, and rounded up as the library does it.
    fn scaled(self, thousandths: u64) -> u64 {
        self.execution
            .saturating_mul(thousandths)
            .saturating_add(999)
            / 1000
    }
}

// Tasks from the highest priority down.
#[derive(Drop)]
pub struct TaskSet {
    tasks: Vec<Task>,
}

impl TaskSet {
    pub fn random(
        alloc: Global,
        random: &mut Random,
        utilisation: f64,
    ) -> Result<TaskSet, AllocError> {
        let utilisations = random.shares::<TASKS>(utilisation);
        let cache_uses = random.shares::<TASKS>(CACHE_UTILISATION);
        let mut tasks = Vec::new(alloc);
        for (share, cache_use) in utilisations.iter().zip(cache_uses.iter()) {
            tasks.push(Task::random(random, *share, *cache_use))?;
        }
        // deadlines are periods, so this is the deadline-monotonic order; equal ones stay as they were drawn
        tasks.sort_by_key(|task| task.period)?;
        Ok(TaskSet { tasks })
    }

    // The text of the table.
    pub fn text(&self, alloc: Global) -> Result<String, AllocError> {
        let mut text = format!(in alloc; "K\t{CACHE_SETS}\t{RELOAD_TIME}\n")?;
        for (place, task) in self.tasks.iter().enumerate() {
            let (execution, period) = (task.execution, task.period);
            write!(text, "T\tt{place}\t{execution}\t{period}\t{period}\t0\t0")?;
            task.useful.add_to(&mut text)?;
            task.evicting.add_to(&mut text)?;
            text.push('\n')?;
        }
        Ok(text)
    }

    // The utilisation with every execution time multiplied by so many thousandths.
    pub fn scaled_utilisation(&self, thousandths: u64) -> f64 {
        let mut sum = 0.0;
        for task in &self.tasks {
            sum = sum
                + nearest_u64_to_f64(task.scaled(thousandths)) / nearest_u64_to_f64(task.period);
        }
        sum
    }
}
