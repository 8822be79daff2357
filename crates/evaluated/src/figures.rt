// The results as text.

use crate::task_sets::CONFIGURATION;
use crate::{PAPER_BREAKDOWN, Results, Scores, utilisation};
use std::alloc::{AllocError, Global};
use std::fmt::Write;

type Done = Result<(), AllocError>;

const NAME_WIDTH: usize = 11;

// The least width of a column: that of a figure.
const FIGURE_WIDTH: usize = 5;

// What was done, the share of schedulable task sets by utilisation and method, and the breakdown utilisations beside the paper's.
pub fn figures(alloc: Global, results: &Results) -> Result<String, AllocError> {
    let mut text = String::new(alloc);
    heading(alloc, &mut text, results)?;
    text.push_str("\nShare of the task sets found schedulable\n")?;
    headings(&mut text, "utilisation")?;
    for (shares, place) in results.shares.iter().zip(0u64..) {
        let thousandths = utilisation(place);
        let name = format!(in alloc; "0.{thousandths:03}")?;
        row(alloc, &mut text, name.as_str(), shares, Digits::Three)?;
    }
    text.push_str("\nAverage breakdown utilisation\n")?;
    headings(&mut text, "")?;
    row(alloc, &mut text, "here", &results.breakdown, Digits::Three)?;
    row(alloc, &mut text, "paper", &PAPER_BREAKDOWN, Digits::Two)?;
    Ok(text)
}

fn heading(alloc: Global, text: &mut String, results: &Results) -> Done {
    let (sets, seed) = (
        wording::number(alloc, results.setting.sets)?,
        results.setting.seed,
    );
    text.push_str(
        "The paper's evaluation of its base configuration, done again (Altmeyer, Davis and Maiza, section VII, A).\nConfiguration: ",
    )?;
    text.push_str(CONFIGURATION)?;
    text.push_str(
        ".\nPeriods from 5 to 500 ms, log-uniform; deadlines are periods; deadline-monotonic order; no jitter, no blocking.\nTaken where the paper is open: ECBs lie in a stretch from a random cache set on, UCBs in a stretch at a random place of it; the\nnumber of UCBs is uniform from 0 to the reuse factor times the number of ECBs before that is cut at the size of the cache.\nNot done, of the paper's Figure 6: Simulation-UB and Staschulat.\n",
    )?;
    write!(
        text,
        "Task sets: {sets} at each utilisation, and as many others for the breakdown utilisations. Seed: {seed}.\n"
    )
}

// How many digits stand behind the point.
#[derive(Clone, Copy)]
pub enum Digits {
    Two,
    Three,
}

// A score with its digits.
pub fn decimal(alloc: Global, score: f64, digits: Digits) -> Result<String, AllocError> {
    match digits {
        Digits::Two => format!(in alloc; "{score:.2}"),
        Digits::Three => format!(in alloc; "{score:.3}"),
    }
}

fn blanks(text: &mut String, count: usize) -> Done {
    for _ in 0..count {
        text.push(' ')?;
    }
    Ok(())
}

// What stands at the start of a line.
fn first(text: &mut String, name: &str) -> Done {
    text.push_str(name)?;
    blanks(text, NAME_WIDTH.saturating_sub(name.len()))
}

// A column that is as wide as the method's name.
fn column(text: &mut String, words: &str, name: &str) -> Done {
    text.push_str("  ")?;
    let width = name.len().max(FIGURE_WIDTH);
    blanks(text, width.saturating_sub(words.len()))?;
    text.push_str(words)
}

fn headings(text: &mut String, start: &str) -> Done {
    first(text, start)?;
    for name in methods::names() {
        column(text, name, name)?;
    }
    text.push('\n')
}

// A line with a name and a column for each method.
fn row(alloc: Global, text: &mut String, start: &str, scores: &Scores, digits: Digits) -> Done {
    first(text, start)?;
    for (score, name) in scores.iter().zip(methods::names().iter()) {
        let figure = decimal(alloc, *score, digits)?;
        column(text, figure.as_str(), name)?;
    }
    text.push('\n')
}
