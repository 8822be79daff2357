// Sets of cache sets as the hex digits of a field, and useful blocks as hex digits or as digits that count them. specs/Marks.antt says which digits, and when a
// field can hold them.

ghost use Rattle.std.specs.Prelude.{◌≡◌, ◌+◌, ◌/◌, ◌^◌, ◌≤◌, ◌<◌, ◌++◌, length, nat_lt};
ghost use Rattle.cache.specs.UsefulField.{ways_of};
ghost use Rattle.cache.specs.Levels.{counts};
ghost use Rattle.writing.specs.Text.{after_tab};
ghost use Rattle.writing.specs.declared.writer.TheConstants.{ROOM};
ghost use Rattle.writing.specs.Marks.{marks_text, bits_in, word_list, marks_fit, count_digits, useful_text, level_fits, useful_fits};

use crate::writer::Draft;
use cache::sets::CacheSet;
use cache::useful::{Form, Useful};

// How many of so many cache sets have their bit in word k.
#[tactic(auto, unfolding(crate::specs::Marks::bits_in))]
fn bits_in(sets: u64, k: u64) -> usize
    requires { k < 4 }
    ensures { (result ≡ bits_in sets k) × (result ≤ 64) }
{
    let below = 64 * k;
    if sets <= below {
        return 0;
    }
    let left = sets - below;
    if left < 64 { left as usize } else { 64 }
}

// The words of a set, the lowest cache sets first.
#[tactic(auto, unfolding(cache::specs::Stored::stored_at))]
fn words_of(marks: CacheSet) -> [u64; 4]
    ensures { result ≡ word_list marks }
{
    let mut words = [0u64; 4];
    marks.put_words(&mut words, 0);
    words
}

// A tab and the field of a set, the most significant word first. A word that has no cache set has no digit.
pub fn write_marks(draft: &mut Draft, sets: u64, marks: CacheSet)
    requires sets_bound { sets ≤ CacheSet.MOST_SETS }
    requires room { length draft.old + length (after_tab (marks_text sets marks)) ≤ ROOM }
    ensures { draft.new ≡ draft.old ++ after_tab (marks_text sets marks) }
{
    let words = words_of(marks);
    draft.push(b'\t');
    draft.hex(words[3], bits_in(sets, 3) / 4);
    draft.hex(words[2], bits_in(sets, 2) / 4);
    draft.hex(words[1], bits_in(sets, 1) / 4);
    draft.hex(words[0], bits_in(sets, 0) / 4);
}

// Whether a word has no bit beyond its lowest ones, so many of them.
#[tactic(auto, using(crate::proofs::Fitting::nothing_above))]
fn word_fits(word: u64, bits: usize) -> bool
    requires { bits ≤ 64 }
    ensures { result ≡ nat_lt word (2 ^ bits) }
{
    if bits < 64 { word >> bits == 0 } else { true }
}

// Whether every mark is that of one of so many cache sets.
#[tactic(auto, unfolding(crate::specs::Marks::marks_fit))]
pub fn marks_fit(sets: u64, marks: CacheSet) -> bool
    ensures { result ≡ marks_fit sets marks }
{
    let words = words_of(marks);
    word_fits(words[0], bits_in(sets, 0))
        & word_fits(words[1], bits_in(sets, 1))
        & word_fits(words[2], bits_in(sets, 2))
        & word_fits(words[3], bits_in(sets, 3))
}

// A digit for each cache set, the highest first.
fn write_counts(draft: &mut Draft, sets: u64, useful: &Useful, ways: u64)
    requires bounds { (sets ≤ CacheSet.MOST_SETS) × (ways ≤ Useful.MOST_WAYS) }
    requires room { length draft.old + length (count_digits sets (counts ways useful.now)) ≤ ROOM }
    ensures { draft.new ≡ draft.old ++ count_digits sets (counts ways useful.now) }
{
    for s in (0..sets).rev() {
        draft.push(b'0' + useful.count(s, ways) as u8);
    }
}

// A tab and the field of useful blocks.
#[tactic(auto, unfolding(crate::specs::Marks::useful_text))]
pub fn write_useful(draft: &mut Draft, form: Form, sets: u64, useful: &Useful)
    requires bounds { (sets ≤ CacheSet.MOST_SETS) × (ways_of form ≤ Useful.MOST_WAYS) }
    requires room { length draft.old + length (after_tab (useful_text form sets useful.now)) ≤ ROOM }
    ensures { draft.new ≡ draft.old ++ after_tab (useful_text form sets useful.now) }
{
    match form {
        Form::Hex => write_marks(draft, sets, useful.marks()),
        Form::Digits(ways) => {
            draft.push(b'\t');
            write_counts(draft, sets, useful, ways);
        }
    }
}

// Whether a level can be one of a field: its cache sets are the table's, it is empty beyond the ways, and the one below it has all of it.
#[tactic(auto, using(std::proofs::lemmas::Bool::Decides::nat_tests), unfolding(crate::specs::Marks::level_fits))]
fn level_fits(useful: &Useful, l: usize, sets: u64, ways: u64) -> bool
    requires { l < 8 }
    ensures test { result ≡ level_fits ways sets useful.now.levels l }
    ensures long { length useful.now.levels ≡ 8 }
{
    let level = useful.level(l);
    marks_fit(sets, level)
        && ((l as u64) < ways || level.is_empty())
        && (l == 0 || level.is_in(useful.level(l - 1)))
}

// Whether a field can say these useful blocks.
#[tactic(auto, unfolding(crate::specs::Marks::useful_fits))]
pub fn useful_fits(form: Form, sets: u64, useful: &Useful) -> bool
    ensures { result ≡ useful_fits form sets useful.now }
{
    let ways = form.ways();
    level_fits(useful, 0, sets, ways)
        & level_fits(useful, 1, sets, ways)
        & level_fits(useful, 2, sets, ways)
        & level_fits(useful, 3, sets, ways)
        & level_fits(useful, 4, sets, ways)
        & level_fits(useful, 5, sets, ways)
        & level_fits(useful, 6, sets, ways)
        & level_fits(useful, 7, sets, ways)
}
