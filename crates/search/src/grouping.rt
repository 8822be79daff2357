// How rounds are chosen: stretches of time after which the releases of some terms come again as they were, and which terms are put into which of them. Nothing
// rests on the choice, so nothing more is said of it than its ranges: any other one would do, and give the same answers.

ghost use Rattle.std.specs.Prelude.{◌≡◌, ℕ, ◌≤◌, ◌<◌, length};
ghost use Rattle.search.specs.Terms.{term_in, NoOverflow};
ghost use Rattle.search.specs.Grouping.{ShortTaken, Chosen};

use crate::demand::Term;

// The ticks of the longest round.
pub const LONGEST: u64 = 16384;

// How many rounds there are at most.
pub const ROUNDS: usize = 8;

// The classes of the terms: one for each round, then the terms that are in none but are taken by their share, and then those that are counted.
pub const BY_SHARE: usize = 8;

pub const COUNTED: usize = 9;

// The greatest common divisor, by Euclid; what it is has not to be known.
fn gcd(a: u64, b: u64) -> u64
    requires { 1 ≤ a }
    ensures { 1 ≤ result }
{
    if b == 0 { a } else { gcd(b, a % b) }
}

// The terms whose periods are within the longest round are taken, and the others counted.
fn set_apart(terms: &[Term], classes: &mut [usize; 32])
    requires { (length terms.now ≤ 32) × (length classes.old ≡ 32) }
    ensures { ShortTaken (term_in terms.now) (length terms.now) classes.new }
{
    for (i, term) in terms.iter().enumerate() {
        classes[i] = if term.period.0 <= LONGEST {
            BY_SHARE
        } else {
            COUNTED
        };
    }
}

// The period of the term that asks for most, of those that are in no round yet; 0 where there is none.
fn heaviest(terms: &[Term], classes: &[usize; 32]) -> u64
    requires { NoOverflow 1 terms.now 0 × ShortTaken (term_in terms.now) (length terms.now) classes.now }
    ensures { result ≤ 16384 }
{
    let mut period: u64 = 0;
    let mut most: u64 = 0;
    for (i, term) in terms.iter().enumerate() {
        if classes[i] == BY_SHARE {
            if most < term.weight.0 {
                period = term.period.0;
                most = term.weight.0;
            }
        }
    }
    period
}

// What those ask for whose periods divide a round.
fn weight_in(terms: &[Term], classes: &[usize; 32], ticks: u64) -> u64
    requires { NoOverflow 1 terms.now 0 × (length classes.now ≡ 32) }
{
    let mut sum: u64 = 0;
    for (i, term) in terms.iter().enumerate() {
        if classes[i] == BY_SHARE {
            if ticks % term.period.0 == 0 {
                sum += term.weight.0;
            }
        }
    }
    sum
}

// The least common multiple of a round and a period where it is within the longest round, and else the round.
fn joined(ticks: u64, period: u64) -> u64
    requires { (1 ≤ ticks) × (ticks ≤ 16384) × (1 ≤ period) × (period ≤ 250000000) }
    ensures { (1 ≤ result) × (result ≤ 16384) }
{
    let long = ticks * (period / gcd(period, ticks));
    if long == 0 {
        return ticks;
    }
    if LONGEST < long { ticks } else { long }
}

// The round that is joined with the period of one more term so that those in it ask for most.
fn longer(terms: &[Term], classes: &[usize; 32], ticks: u64) -> u64
    requires { NoOverflow 1 terms.now 0 × (length classes.now ≡ 32) × (1 ≤ ticks) × (ticks ≤ 16384) }
    ensures { (1 ≤ result) × (result ≤ 16384) }
{
    let mut best = ticks;
    let mut most = weight_in(terms, classes, ticks);
    for (i, term) in terms.iter().enumerate() {
        if classes[i] == BY_SHARE {
            let long = joined(ticks, term.period.0);
            let weight = weight_in(terms, classes, long);
            if most < weight {
                best = long;
                most = weight;
            }
        }
    }
    best
}

// A round made longer so, as often as it goes.
fn grown(terms: &[Term], classes: &[usize; 32], ticks: u64) -> u64
    requires { NoOverflow 1 terms.now 0 × (length classes.now ≡ 32) × (1 ≤ ticks) × (ticks ≤ 16384) }
    ensures { (1 ≤ result) × (result ≤ 16384) }
{
    let long = longer(terms, classes, ticks);
    if ticks < long {
        grown(terms, classes, long)
    } else {
        ticks
    }
}

// Puts the terms into a round whose periods divide it, and which are in none yet.
fn join(terms: &[Term], ticks: u64, round: usize, classes: &mut [usize; 32])
    requires { (length terms.now ≤ 32) × ((j : ℕ) → j < length terms.now → 1 ≤ (term_in terms.now j).period.0) × ShortTaken (term_in terms.now) (length terms.now) classes.old }
    ensures { ShortTaken (term_in terms.now) (length terms.now) classes.new }
{
    for (i, term) in terms.iter().enumerate() {
        if classes[i] == BY_SHARE {
            if ticks % term.period.0 == 0 {
                classes[i] = round;
            }
        }
    }
}

// Chooses rounds, puts terms into them, and tells how many they are.
pub fn choose(terms: &[Term], classes: &mut [usize; 32], ticks: &mut [u64; 8]) -> usize
    requires { NoOverflow 1 terms.now 0 × (length classes.old ≡ 32) × (length ticks.old ≡ 8) }
    ensures { Chosen (term_in terms.now) (length terms.now) result classes.new ticks.new }
{
    set_apart(terms, classes);
    for made in 0..ROUNDS {
        let period = heaviest(terms, classes);
        if period == 0 {
            return made;
        }
        let long = grown(terms, classes, period);
        join(terms, long, made, classes);
        ticks[made] = long;
    }
    ROUNDS
}
