// The paper's evaluation of its base configuration, done again with the proved library: how many random task sets each method finds schedulable (its Figure 6), and up
// to which utilisation (its Table III).
//
// Each task set is scored under each method, and what is told are the averages. A task set depends on the seed and on its own numbers alone, and scores are added up in
// one fixed order. So the results are the same bytes whenever they are worked out.
#![tactic(auto)]

// The results as a picture.
pub mod chart;
// The results as text.
pub mod figures;
// Numbers that are the same on every machine.
mod random;
// Tables made of such numbers.
mod task_sets;

use crate::random::Random;
use crate::task_sets::TaskSet;
use analysis::rows::{self, Row};
use search::demand::Response;
use std::alloc::{AllocError, Global};
use std::num::nearest_u64_to_f64;
use table::Table;
use table::accepted::Accepted;
use texts::refusals::Refusal;

// A number for each method.
pub type Scores = [f64; methods::COUNT];

const NONE: Scores = [0.0; methods::COUNT];

// The average breakdown utilisations of the paper's Table III.
const PAPER_BREAKDOWN: Scores = [0.93, 0.39, 0.55, 0.57, 0.62, 0.64];

// The utilisations of Figure 6, in thousandths: from one step on, each a step above the last.
const UTILISATION_STEP: u64 = 25;

const UTILISATIONS: u64 = 39;

// Where breakdown utilisations start from, in thousandths. The library scales by 4,000 thousandths at most, so they reach to 1, in steps of a thousandth of this.
const UNSCALED: u64 = 250;

// How the evaluation is to be done: `sets` task sets at each utilisation, 1 at least.
#[derive(Clone, Copy)]
pub struct Setting {
    pub sets: u64,
    pub seed: u64,
}

impl Setting {
    // How many task sets there are altogether.
    pub fn all_sets(self) -> u64 {
        self.sets.saturating_mul(UTILISATIONS + 1)
    }
}

// What came out.
#[derive(Drop)]
pub struct Results {
    setting: Setting,
    // The share of the task sets that each method finds schedulable, from the lowest utilisation up.
    shares: Vec<Scores>,
    // The average breakdown utilisations.
    breakdown: Scores,
}

// Why nothing came out.
pub enum Failure {
    // A table of a task set was refused.
    Refused(Refusal),
    NoMemory,
}

impl From<AllocError> for Failure {
    fn from(_error: AllocError) -> Failure {
        Failure::NoMemory
    }
}

impl From<Refusal> for Failure {
    fn from(refusal: Refusal) -> Failure {
        Failure::Refused(refusal)
    }
}

// Whoever wants to know how far the work is.
pub trait Watcher {
    // A task set more is scored.
    fn step(&mut self);
}

// The utilisation at a place of Figure 6, in thousandths.
fn utilisation(place: u64) -> u64 {
    place.saturating_add(1).saturating_mul(UTILISATION_STEP)
}

// What is asked of task sets.
#[derive(Clone, Copy)]
enum Purpose {
    Share = 0,
    Breakdown = 1,
}

// Task sets of one utilisation, and what is asked of them.
#[derive(Clone, Copy)]
struct Experiment {
    setting: Setting,
    purpose: Purpose,
    thousandths: u64,
}

// Does the evaluation.
pub fn evaluate<W: Watcher>(
    alloc: Global,
    setting: Setting,
    watcher: &mut W,
) -> Result<Results, Failure> {
    let mut shares = Vec::new(alloc);
    for place in 0..UTILISATIONS {
        let experiment = Experiment {
            setting,
            purpose: Purpose::Share,
            thousandths: utilisation(place),
        };
        let average = experiment.average(alloc, watcher)?;
        if shares.push(average).is_err() {
            return Err(Failure::NoMemory);
        }
    }
    let experiment = Experiment {
        setting,
        purpose: Purpose::Breakdown,
        thousandths: UNSCALED,
    };
    let breakdown = experiment.average(alloc, watcher)?;
    Ok(Results {
        setting,
        shares,
        breakdown,
    })
}

impl Experiment {
    // The averages, method by method. The scores are added up in their order.
    fn average<W: Watcher>(self, alloc: Global, watcher: &mut W) -> Result<Scores, Failure> {
        let mut sums = NONE;
        for set in 0..self.setting.sets {
            let scores = self.scores_of(alloc, set)?;
            for (sum, score) in sums.iter_mut().zip(scores.iter()) {
                *sum = *sum + *score;
            }
            watcher.step();
        }
        let count = nearest_u64_to_f64(self.setting.sets);
        for sum in sums.iter_mut() {
            *sum = *sum / count;
        }
        Ok(sums)
    }

    fn scores_of(self, alloc: Global, set: u64) -> Result<Scores, Failure> {
        let numbers = [
            self.setting.seed,
            self.purpose as u64,
            self.thousandths,
            set,
        ];
        let mut random = Random::for_purpose(&numbers);
        let whole = nearest_u64_to_f64(self.thousandths) / 1000.0;
        let set = TaskSet::random(alloc, &mut random, whole)?;
        match self.purpose {
            Purpose::Share => schedulable(alloc, &set),
            Purpose::Breakdown => breakdown_utilisations(alloc, &set),
        }
    }
}

fn responds(row: &Row, method: usize) -> bool {
    match row.responses.get(method) {
        Some(Response::Within(_)) => true,
        _ => false,
    }
}

// 1 for each method that finds the task set schedulable, 0 for the others.
fn schedulable(alloc: Global, set: &TaskSet) -> Result<Scores, Failure> {
    let text = set.text(alloc)?;
    let mut table = Table::empty();
    let accepted = Accepted::read(text.as_str().as_bytes(), &mut table)?;
    let rows = rows::responses(accepted);
    let rows = &rows[..accepted.table.count];
    let mut scores = NONE;
    for (method, score) in scores.iter_mut().enumerate() {
        if rows.iter().all(|row| responds(row, method)) {
            *score = 1.0;
        }
    }
    Ok(scores)
}

// The utilisation of the task set scaled by as much as passes, 0 where nothing does.
fn breakdown_utilisations(alloc: Global, set: &TaskSet) -> Result<Scores, Failure> {
    let text = set.text(alloc)?;
    let mut scores = NONE;
    for (score, method) in scores.iter_mut().zip(0u64..) {
        let growth = crpd::growth(text.as_str().as_bytes(), method)?;
        *score = set.scaled_utilisation(growth);
    }
    Ok(scores)
}
