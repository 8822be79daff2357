// Sets of cache sets, as bits of four words. specs/Sets.antt says what a set, a union and a size are,
// specs/Words.antt which set the words stand for, and specs/Field.antt what a text field says.

ghost use Rattle.std.specs.Prelude.{◌≡◌, ◌==◌, ◌&&◌, true, ◌+◌, ◌*◌, ◌<◌, ◌≤◌, length};
ghost use Rattle.std.specs.Int.Count.{ones};
ghost use Rattle.cache.specs.Sets.{◌∪◌, ◌∩◌, size};
ghost use Rattle.cache.specs.Hex.{of_words};
ghost use Rattle.cache.specs.Words.{number_of, members, word_of, is_blank, is_part};
ghost use Rattle.cache.specs.Stored.{held_at, stored_at};
ghost use Rattle.cache.specs.Field.{read_set};

use crate::hex_digits;
use crate::units::Reloads;

// A set of cache sets: cache set s is bit s % 64 of word s / 64.
#[derive(Clone, Copy)]
pub struct CacheSet {
    w0: u64,
    w1: u64,
    w2: u64,
    w3: u64,
}

impl CacheSet {
    // The most cache sets that there are, and so the largest size.
    pub const MOST_SETS: u64 = 256;

    pub const EMPTY: CacheSet = CacheSet {
        w0: 0,
        w1: 0,
        w2: 0,
        w3: 0,
    };

    // The set of four words, the most significant first.
    #[tactic(auto, unfolding(crate::specs::Words::number_of))]
    pub fn of_words(w3: u64, w2: u64, w1: u64, w0: u64) -> CacheSet
        ensures { number_of result ≡ of_words (w3, w2, w1, w0) }
    {
        CacheSet { w0, w1, w2, w3 }
    }

    pub fn union(self, other: CacheSet) -> CacheSet
        ensures { members result ≡ members self ∪ members other }
    {
        CacheSet {
            w0: self.w0 | other.w0,
            w1: self.w1 | other.w1,
            w2: self.w2 | other.w2,
            w3: self.w3 | other.w3,
        }
    }

    pub fn intersection(self, other: CacheSet) -> CacheSet
        ensures { members result ≡ members self ∩ members other }
    {
        CacheSet {
            w0: self.w0 & other.w0,
            w1: self.w1 & other.w1,
            w2: self.w2 & other.w2,
            w3: self.w3 & other.w3,
        }
    }

    pub fn size(self) -> Reloads
        ensures count { result.0 ≡ size (members self) }
        ensures most { result.0 ≤ 256 }
    {
        Reloads(ones_in(self.w0) + ones_in(self.w1) + ones_in(self.w2) + ones_in(self.w3))
    }

    // Word `n`, which holds the cache sets 64 n to 64 n + 63.
    #[tactic(auto, unfolding(crate::specs::Words::word_of))]
    fn word(self, n: u64) -> u64
        requires { n < 4 }
        ensures { result ≡ word_of self n }
    {
        match n {
            0 => self.w0,
            1 => self.w1,
            2 => self.w2,
            _ => self.w3,
        }
    }

    // Whether cache set `s` is in it.
    pub fn has(self, s: u64) -> bool
        requires { s < 256 }
        ensures { result ≡ members self s }
    {
        (self.word(s / 64) >> (s % 64)) % 2 == 1
    }

    // Whether it has no member.
    pub fn is_empty(self) -> bool
        ensures { result ≡ is_blank self }
    {
        (self.w0 == 0) & (self.w1 == 0) & (self.w2 == 0) & (self.w3 == 0)
    }

    // Whether another has all of it.
    pub fn is_in(self, other: CacheSet) -> bool
        ensures test { result ≡ is_part self other }
        ensures meant { result ≡ true → members self ∩ members other ≡ members self }
    {
        (self.w0 & other.w0 == self.w0)
            & (self.w1 & other.w1 == self.w1)
            & (self.w2 & other.w2 == self.w2)
            & (self.w3 & other.w3 == self.w3)
    }

    // The set whose words stand at position `k` of a list, four for each position.
    #[tactic(auto, unfolding(crate::specs::Stored::held_at))]
    pub fn from_words(words: &[u64], k: usize) -> CacheSet
        requires { 4 * k + 4 ≤ length words.now }
        ensures { result ≡ held_at words.now k }
    {
        let at = 4 * k;
        CacheSet {
            w0: words[at],
            w1: words[at + 1],
            w2: words[at + 2],
            w3: words[at + 3],
        }
    }

    // Puts its words at position `k` of a list.
    #[tactic(auto, unfolding(crate::specs::Stored::stored_at))]
    pub fn put_words(self, words: &mut [u64], k: usize)
        requires { 4 * k + 4 ≤ length words.old }
        ensures { words.new ≡ stored_at words.old k self }
    {
        let at = 4 * k;
        words[at] = self.w0;
        words[at + 1] = self.w1;
        words[at + 2] = self.w2;
        words[at + 3] = self.w3;
    }

    // The set that a field of the table text says: sets / 4 hex digits, most significant first.
    pub fn from_field(field: &[u8], sets: u64) -> Option<CacheSet>
        ensures { result ≡ read_set sets field.now }
    {
        if sets > CacheSet::MOST_SETS {
            return None;
        }
        if field.len() as u64 != sets / 4 {
            return None;
        }
        let (w3, w2, w1, w0) = hex_digits::read_words(field)?;
        Some(CacheSet { w0, w1, w2, w3 })
    }
}

// How many bits of a word are 1.
fn ones_in(word: u64) -> u64
    ensures { (result ≡ ones word) × (result ≤ 64) }
{
    u64::count_ones(word) as u64
}
