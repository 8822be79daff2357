// Useful blocks, counted: how many of them each cache set holds, up to the cache's ways, 1 to 8. specs/Counts.antt says what counts, their sum, their cap and
// their size are, specs/Levels.antt which counts a value stands for, and specs/UsefulField.antt what a text field says.

ghost use Rattle.std.specs.Prelude.{◌≡◌, ◌≤◌, ◌<◌, ◌-◌, ◌*◌, min, length, true, ◌&&◌, nat_le, nat_lt};
ghost use Rattle.std.specs.Char.{is_ascii_digit};
ghost use Rattle.std.specs.List.{list_all};
ghost use Rattle.cache.specs.Words.{members};
ghost use Rattle.cache.specs.Counts.{◌⊕◌, capped, ◌on◌, total};
ghost use Rattle.cache.specs.Levels.{set_at, counts, above, set_of, leveled, held_levels, marked, Puts};
ghost use Rattle.cache.specs.UsefulField.{ways_of, is_counted, counts_of, bits_above, read_useful, within_ways};

use crate::sets::CacheSet;
use crate::units::Reloads;

// How useful blocks are written in a table, and how many ways a cache set has.
#[derive(Clone, Copy)]
pub enum Form {
    // As hex digits of the cache sets that hold one, with 1 way.
    Hex,
    // As one digit for each cache set, with so many ways.
    Digits(u64),
}

impl Form {
    pub fn ways(self) -> u64
        ensures { result ≡ ways_of self }
    {
        match self {
            Form::Hex => 1,
            Form::Digits(ways) => ways,
        }
    }
}

// How many useful blocks each cache set holds: one for each level that it is in. Where there are fewer ways than levels, only as many are looked at.
#[derive(Clone, Copy)]
pub struct Useful {
    levels: [CacheSet; 8],
}

impl Useful {
    // The most ways that there are.
    pub const MOST_WAYS: u64 = 8;

    // The most useful blocks, and so the largest size.
    pub const MOST: u64 = 2048;

    pub const NONE: Useful = Useful {
        levels: [CacheSet::EMPTY; 8],
    };

    // One useful block in each cache set of a set.
    pub fn marked(set: CacheSet) -> Useful
        ensures { result ≡ marked set }
    {
        let none = CacheSet::EMPTY;
        Useful {
            levels: [set, none, none, none, none, none, none, none],
        }
    }

    // How many there are.
    pub fn size(&self, ways: u64) -> Reloads
        requires { ways ≤ 8 }
        ensures count { result.0 ≡ total (counts ways self.now) }
        ensures most { result.0 ≤ 2048 }
    {
        let mut sum = 0;
        for l in 0..ways as usize {
            sum += self.levels[l].size().0;
        }
        Reloads(sum)
    }

    // How many there are in the evicting sets.
    pub fn size_in(&self, evicting: CacheSet, ways: u64) -> Reloads
        requires { ways ≤ 8 }
        ensures count { result.0 ≡ total (counts ways self.now on members evicting) }
        ensures most { result.0 ≤ 2048 }
    {
        let mut sum = 0;
        for l in 0..ways as usize {
            sum += self.levels[l].intersection(evicting).size().0;
        }
        Reloads(sum)
    }

    // The same where its own size is known: that is it, where these have all of its cache sets.
    pub fn shared_size(&self, own: Reloads, evicting: CacheSet, ways: u64) -> Reloads
        requires { (ways ≤ 8) × (own.0 ≡ total (counts ways self.now)) }
        ensures { result.0 ≡ total (counts ways self.now on members evicting) }
    {
        for l in 0..ways as usize {
            if !self.levels[l].is_in(evicting) {
                return self.size_in(evicting, ways);
            }
        }
        own
    }

    // How many there would be in the evicting sets with those of another joined. With 1 way these are in the union of both.
    pub fn joined_size_in(&self, other: &Useful, evicting: CacheSet, ways: u64) -> Reloads
        requires { ways ≤ 8 }
        ensures count { result.0 ≡ total (capped ways (counts ways self.now ⊕ counts ways other.now) on members evicting) }
        ensures most { result.0 ≤ 2048 }
    {
        if ways == 1 {
            let both = self.levels[0].union(other.levels[0]);
            return both.intersection(evicting).size();
        }
        let mut joined = *self;
        joined.join(other, ways);
        joined.size_in(evicting, ways)
    }

    // The counts of both, added and capped at the ways. A level of the other is one block more in each of its cache sets, and is put on the levels from its own on,
    // and what finds no place there on those below; where each level has the cache set, it is one too many.
    pub fn join(&mut self, other: &Useful, ways: u64)
        requires { ways ≤ 8 }
        ensures { counts ways self.new ≡ capped ways (counts ways self.old ⊕ counts ways other.now) }
    {
        let levels = ways as usize;
        for k in 0..levels {
            let left = self.put(other.levels[k], k, levels);
            self.put(left, 0, k);
        }
    }

    // One block more in each cache set of a set, put on the lowest of some levels that does not have it. Those are left that each of these levels has.
    fn put(&mut self, more: CacheSet, from: usize, to: usize) -> CacheSet
        requires { (from ≤ to) × (to ≤ 8) }
        ensures { Puts from to self.old (members more) self.new (members result) }
    {
        let mut more = more;
        for l in from..to {
            let level = self.levels[l];
            self.levels[l] = level.union(more);
            more = level.intersection(more);
        }
        more
    }

    // How many cache set `s` holds.
    pub fn count(&self, s: u64, ways: u64) -> u64
        requires { (s < 256) × (ways ≤ 8) }
        ensures count { result ≡ counts ways self.now s }
        ensures most { result ≤ 8 }
    {
        let mut n = 0;
        for l in 0..ways as usize {
            n += self.levels[l].has(s) as u64;
        }
        n
    }

    // The cache sets that hold one where there is 1 way.
    pub fn marks(&self) -> CacheSet
        ensures { result ≡ set_at self.now.levels 0 }
    {
        self.levels[0]
    }

    // The cache sets of a level.
    pub fn level(&self, l: usize) -> CacheSet
        requires { l < 8 }
        ensures is { result ≡ set_at self.now.levels l }
        ensures long { length self.now.levels ≡ 8 }
    {
        self.levels[l]
    }

    // The useful blocks whose levels stand in a list of words, four for each, the lowest first.
    pub fn from_words(words: &[u64]) -> Useful
        requires { 32 ≤ length words.now }
        ensures { result ≡ held_levels words.now }
    {
        Useful {
            levels: [
                CacheSet::from_words(words, 0),
                CacheSet::from_words(words, 1),
                CacheSet::from_words(words, 2),
                CacheSet::from_words(words, 3),
                CacheSet::from_words(words, 4),
                CacheSet::from_words(words, 5),
                CacheSet::from_words(words, 6),
                CacheSet::from_words(words, 7),
            ],
        }
    }

    // What a field of the table text says.
    #[tactic(auto, unfolding(crate::specs::UsefulField::read_useful))]
    pub fn from_field(field: &[u8], sets: u64, form: Form) -> Option<Useful>
        ensures { result ≡ read_useful form sets field.now }
    {
        match form {
            Form::Hex => Some(Useful::marked(CacheSet::from_field(field, sets)?)),
            Form::Digits(ways) => {
                if !is_counted(field, sets) {
                    return None;
                }
                Some(Useful::from_digits(field, ways))
            }
        }
    }

    // The counts that digits say, the highest cache set first, as far as the ways go.
    fn from_digits(field: &[u8], ways: u64) -> Useful
        requires { length field.now ≤ 256 }
        ensures { result ≡ leveled (capped ways (counts_of field.now)) }
    {
        let mut levels = [CacheSet::EMPTY; 8];
        for l in 0..looked_at(ways) as usize {
            levels[l] = level_of(field, l as u8);
        }
        Useful { levels }
    }
}

// Whether none of a field's counts is above the ways. The old form has none that is.
#[tactic(auto, unfolding(crate::specs::UsefulField::within_ways))]
pub fn is_within(field: &[u8], form: Form) -> bool
    ensures { result ≡ within_ways form field.now }
{
    match form {
        Form::Hex => true,
        Form::Digits(ways) => all_at_most(field, ways),
    }
}

fn all_at_most(field: &[u8], most: u64) -> bool
    ensures { result ≡ list_all (λ b. nat_le (b - 48) most) field.now }
{
    field.iter().all(|b| is_at_most(*b, most))
}

// Whether the count that a digit says is no larger than `most`.
fn is_at_most(b: u8, most: u64) -> bool
    ensures { result ≡ nat_le (b - 48) most }
{
    b.saturating_sub(b'0') as u64 <= most
}

// Whether a field has a digit for each of the cache sets, and nothing else.
#[tactic(auto, using(std::proofs::lemmas::Bool::Decides::nat_tests))]
fn is_counted(field: &[u8], sets: u64) -> bool
    ensures { result ≡ is_counted sets field.now }
{
    sets <= CacheSet::MOST_SETS && field.len() as u64 == sets && all_digits(field)
}

fn all_digits(field: &[u8]) -> bool
    ensures { result ≡ list_all is_ascii_digit field.now }
{
    field.iter().all(|b| b.is_ascii_digit())
}

// How many levels are looked at.
fn looked_at(ways: u64) -> u64
    ensures { result ≡ min ways 8 }
{
    if ways < Useful::MOST_WAYS {
        ways
    } else {
        Useful::MOST_WAYS
    }
}

// Of up to 64 digits, the first for the highest bit: whether each is above `l`.
fn word_above(part: &[u8], l: u8) -> u64
    requires { (length part.now ≤ 64) × (l < 8) }
    ensures { result ≡ bits_above l 0 part.now }
{
    let mut word = 0;
    for b in part {
        word = word << 1 | (l + b'0' < *b) as u64;
    }
    word
}

// The cache sets whose digit is above `l`.
fn level_of(field: &[u8], l: u8) -> CacheSet
    requires { (length field.now ≤ 256) × (l < 8) }
    ensures { result ≡ set_of (above l (counts_of field.now)) }
{
    let end = field.len();
    let to_w3 = end.saturating_sub(192);
    let to_w2 = end.saturating_sub(128);
    let to_w1 = end.saturating_sub(64);
    CacheSet::of_words(
        word_above(&field[0..to_w3], l),
        word_above(&field[to_w3..to_w2], l),
        word_above(&field[to_w2..to_w1], l),
        word_above(&field[to_w1..], l),
    )
}
