// Rounds: stretches of time after which the releases of some terms come again as they were. specs/Rounds.antt says what is known of a round, and specs/Classes.antt
// which terms are in which.

ghost use Rattle.std.specs.Prelude.{◌≡◌, ◌&&◌, ℕ, ◌+◌, ◌-◌, ◌*◌, ◌%◌, ◌≤◌, ◌<◌, length, ◌==◌};
ghost use Rattle.search.specs.Demand.{ceil};
ghost use Rattle.search.specs.Terms.{term_in, NoOverflow};
ghost use Rattle.search.specs.Shares.{shares_of};
ghost use Rattle.search.specs.Grouping.{ShortTaken};
ghost use Rattle.search.specs.Classes.{shares_over, taken};
ghost use Rattle.search.specs.Rounds.{Near, Lacking, LeastOver, Added, LacksIn, IsStep, WindowsIn, Tabled, RoundsOf, window_at};

use crate::demand::Term;
use crate::grouping::COUNTED;
use crate::shares::WHOLE;
use crate::{grouping, shares};

// Places of a round's windows, and of those of all rounds.
pub const SLOT: usize = 2048;

pub const WINDOWS: usize = 16384;

// The ticks of the longest round and of the longest window.
const LACKS: usize = 16704;

// What is known of some rounds beside their windows: the class of each term, the ticks of each of the `made` rounds, what the terms that are taken leave free of
// the processor, and what they ask for beyond their shares at any time.
#[derive(Clone, Copy)]
pub struct Rounds {
    pub classes: [usize; 32],
    pub ticks: [u64; 8],
    pub made: usize,
    pub free: u64,
    pub low: u64,
}

// What those of them leave that are taken by their shares.
fn left_by_taken(terms: &[Term], classes: &[usize; 32]) -> u64
    requires { NoOverflow 1 terms.now 0 × (length classes.now ≡ 32) }
    ensures { result ≡ 17179869184 - shares_over (taken classes.now) (term_in terms.now) (length terms.now) }
{
    let mut left = WHOLE;
    for (i, term) in terms.iter().enumerate() {
        if classes[i] < COUNTED {
            left = left.saturating_sub(shares::share(*term));
        }
    }
    left
}

// The first release that is no sooner than `at`, from one that is no more than a period away.
fn release_from(release: u64, period: u64, at: u64) -> u64
    requires { (1 ≤ period) × (period ≤ 16384) × (at ≤ 65536) × Near period at release }
    ensures { result ≡ ceil at period * period }
{
    if release < at {
        release + period
    } else {
        release
    }
}

// Adds to each of the first `count` ticks of a round what one term asks for beyond its share there: its share goes on up to its next release.
fn add_term(period: u64, jitter: u64, share: u64, count: usize, lacks: &mut [u64; LACKS])
    requires { (1 ≤ period) × (period ≤ 16384) × (jitter ≤ period) × (share ≤ 17179869184) × (count ≤ 16704) × Lacking 31 count lacks.old }
    ensures { Added period jitter share count lacks.old lacks.new }
{
    let mut release: u64 = 0;
    for x in 0..count {
        let at = x as u64;
        let next = release_from(release, period, at + jitter);
        lacks[x] += (next - at) * share;
        release = next;
    }
}

// Whether a term is in a round, and its period divides it.
fn is_in(class: usize, round: usize, ticks: u64, period: u64) -> bool
    requires { 1 ≤ period }
    ensures { result ≡ (class == round && (ticks % period) == 0) }
{
    (class == round) & (ticks % period == 0)
}

// What the terms of a round ask for beyond their shares at each of its first `count` ticks.
fn lacking(
    terms: &[Term],
    classes: &[usize; 32],
    round: usize,
    ticks: u64,
    count: usize,
) -> [u64; LACKS]
    requires { NoOverflow 1 terms.now 0 × (shares_of (term_in terms.now) (length terms.now) < 17179869184) × ShortTaken (term_in terms.now) (length terms.now) classes.now × (round < 8) × (count ≤ 16704) }
    ensures { LacksIn (term_in terms.now) (length terms.now) classes.now round ticks count result }
{
    let mut lacks = [0u64; LACKS];
    for (i, term) in terms.iter().enumerate() {
        if is_in(classes[i], round, ticks, term.period.0) {
            let q = shares::share(*term);
            add_term(term.period.0, term.jitter.0, q, count, &mut lacks);
        }
    }
    lacks
}

// The least of `count` numbers of a list from one on.
fn least_of(list: &[u64], from: usize, count: usize) -> u64
    requires { (1 ≤ count) × (from + count ≤ length list.now) × (from + count ≤ 100000) }
    ensures { LeastOver list.now from count result }
{
    let mut least = list[from];
    let end = from + count;
    for i in from..end {
        least = least.min(list[i]);
    }
    least
}

// The least in each window of a round: one starts at every `step` ticks, and has five times as many.
fn windows(
    lacks: &[u64; LACKS],
    round: usize,
    ticks: u64,
    step: usize,
    entries: &mut [u64; WINDOWS],
)
    requires { IsStep step × (round < 8) × (1 ≤ ticks) × (ticks ≤ 16384) × (length lacks.now ≡ 16704) × (length entries.old ≡ 16384) }
    ensures { WindowsIn lacks.now round ticks step entries.old entries.new }
{
    let count = (ticks as usize + (step - 1)) / step;
    let first = SLOT * round + 16384 / step;
    for k in 0..count {
        entries[first + k] = least_of(lacks, step * k, 5 * step);
    }
}

// The windows of a round, and the least that its terms ask for beyond their shares.
#[inline(never)]
fn tabulate(
    terms: &[Term],
    classes: &[usize; 32],
    round: usize,
    ticks: u64,
    entries: &mut [u64; WINDOWS],
) -> u64
    requires { NoOverflow 1 terms.now 0 × (shares_of (term_in terms.now) (length terms.now) < 17179869184) × ShortTaken (term_in terms.now) (length terms.now) classes.now × (round < 8) × (1 ≤ ticks) × (ticks ≤ 16384) × (length entries.old ≡ 16384) }
    ensures { Tabled (term_in terms.now) (length terms.now) classes.now round ticks result entries.old entries.new }
{
    let count = ticks as usize;
    let lacks = lacking(terms, classes, round, ticks, count + 320);
    windows(&lacks, round, ticks, 16, entries);
    windows(&lacks, round, ticks, 64, entries);
    least_of(&lacks, 0, count)
}

// The window of a round in which a time is.
pub fn window_at(entries: &[u64; WINDOWS], round: usize, ticks: u64, step: usize, at: u64) -> u64
    requires { (length entries.now ≡ 16384) × (round < 8) × (1 ≤ ticks) × (ticks ≤ 16384) × IsStep step }
    ensures { result ≡ window_at entries.now round ticks step at }
{
    let k = (at % ticks) as usize / step;
    entries[SLOT * round + 16384 / step + k]
}

// Rounds for some terms, and their windows.
pub fn make(terms: &[Term], entries: &mut [u64; WINDOWS]) -> Rounds
    requires { NoOverflow 1 terms.now 0 × (shares_of (term_in terms.now) (length terms.now) < 17179869184) × (length entries.old ≡ 16384) }
    ensures { RoundsOf (term_in terms.now) (length terms.now) result entries.new }
{
    let mut classes = [COUNTED; 32];
    let mut ticks = [1u64; 8];
    let made = grouping::choose(terms, &mut classes, &mut ticks);
    let mut low: u64 = 0;
    for v in 0..made {
        low += tabulate(terms, &classes, v, ticks[v], entries);
    }
    let free = left_by_taken(terms, &classes);
    Rounds {
        classes,
        ticks,
        made,
        free,
        low,
    }
}
