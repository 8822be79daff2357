// Random numbers that are the same on every machine. The functions of a system's mathematics library (powers, roots, exponentials) may differ in their last bit from
// one machine to the next, and one bit moves a period by a tick. So there is nothing here but whole numbers and the `+`, `-`, `*` and `/` of `f64`, which IEEE 754 fixes
// to the last bit.

use std::num::nearest_u64_to_f64;

// SplitMix64: a counter whose values are mixed.
#[derive(Clone, Copy)]
pub struct Random {
    state: u64,
}

// What the counter goes on by: 2^64 divided by the golden ratio, and odd.
const STEP: u64 = 0x9e37_79b9_7f4a_7c15;

// The factors that mix.
const FIRST_FACTOR: u64 = 0xbf58_476d_1ce4_e5b9;

const SECOND_FACTOR: u64 = 0x94d0_49bb_1331_11eb;

fn mixed(bits: u64) -> u64 {
    let once = (bits ^ (bits >> 30)).wrapping_mul(FIRST_FACTOR);
    let twice = (once ^ (once >> 27)).wrapping_mul(SECOND_FACTOR);
    twice ^ (twice >> 31)
}

const FRACTIONS: f64 = 9007199254740992.0; // 2^53, of which each is a number of its own

impl Random {
    // A generator for one purpose, which the numbers name. Each purpose has its own, so that nothing depends on who has drawn before.
    pub fn for_purpose(numbers: &[u64]) -> Random {
        let mut state = 0u64;
        for number in numbers {
            state = mixed(state.wrapping_add(STEP) ^ mixed(*number));
        }
        Random { state }
    }

    fn bits(&mut self) -> u64 {
        self.state = self.state.wrapping_add(STEP);
        mixed(self.state)
    }

    // A number above 0, up to 1.
    fn fraction(&mut self) -> f64 {
        let place = (self.bits() >> 11).wrapping_add(1);
        nearest_u64_to_f64(place) / FRACTIONS
    }

    // A whole number from 0 to `most`, each as likely as the others.
    pub fn up_to(&mut self, most: u64) -> u64 {
        let count = (most as u128).wrapping_add(1);
        let product = (self.bits() as u128).wrapping_mul(count);
        u64::try_from(product >> 64).unwrap_or(most)
    }

    // A number from `low` to `high`, whose logarithm is uniform. `logarithm` is the natural one of `high / low`.
    pub fn log_uniform(&mut self, low: f64, logarithm: f64) -> f64 {
        low * exponential(logarithm * self.fraction())
    }

    // UUnifast of Bini and Buttazzo: so many shares of a total, each way to part it as likely as any other.
    pub fn shares<const COUNT: usize>(&mut self, total: f64) -> [f64; COUNT] {
        let mut left = total;
        let mut shares = [0.0; COUNT];
        for (share, others) in shares.iter_mut().zip((0..COUNT).rev()) {
            let rest = if others == 0 {
                0.0
            } else {
                left * root(self.fraction(), others as u64)
            };
            *share = left - rest;
            left = rest;
        }
        shares
    }
}

// Newton's steps are fewer for every root that is taken here.
const STEPS_MOST: u64 = 1_000_000;

// The root of a number above 0, up to 1, by Newton's steps from 1 on. They go down as long as they are above the root, so the first that does not is the end.
fn root(number: f64, degree: u64) -> f64 {
    let whole = nearest_u64_to_f64(degree);
    let mut guess = 1.0;
    for _ in 0..STEPS_MOST {
        let mut slope = whole;
        for _ in 1..degree {
            slope = slope * guess;
        }
        let next = guess - (guess / whole - number / slope);
        if next >= guess {
            return guess;
        }
        guess = next;
    }
    guess
}

const HALVINGS: u64 = 6;

const PARTS: f64 = 64.0; // 2^HALVINGS

const TERMS: u64 = 12; // the next one is below 2^-53 of the sum

// The exponential of a number from 0 to 8. A series is short where the number is small: so it is halved six times, and the result squared as often.
fn exponential(number: f64) -> f64 {
    let small = number / PARTS;
    let mut power = 1.0;
    for term in (1..=TERMS).rev() {
        power = 1.0 + small / nearest_u64_to_f64(term) * power;
    }
    for _ in 0..HALVINGS {
        power = power * power;
    }
    power
}
