// Line 1 of a table.
ghost use Rattle.std.specs.Prelude.{◌≡◌, false, MatchOption, option_map};
ghost use Rattle.texts.specs.Rows.{unless_fault};
ghost use Rattle.table.specs.HeadLine.{AreHeadFields, is_head, read_form, are_sets_in_range, head_in_range, head_rows, head_said};

use cache::sets::CacheSet;
use cache::units::Ticks;
use cache::useful::{Form, Useful};
use texts::fields;
use texts::lines::{Fields, first_field};
use texts::refusals::{Fault, Reason};

// The number of cache sets, the ticks that a block reload takes, and how useful blocks are written.
#[derive(Clone, Copy)]
pub struct Head {
    pub sets: u64,
    pub brt: Ticks,
    pub form: Form,
}

// The fields of line 1, behind the first.
#[derive(Clone, Copy)]
struct HeadFields<'a> {
    sets: &'a [u8],
    brt: &'a [u8],
    ways: Option<&'a [u8]>,
}

fn cut(line: &[u8]) -> Option<HeadFields<'_>>
    ensures { MatchOption result (is_head line.now ≡ false) (AreHeadFields line.now) }
{
    let mut fields = Fields::of(line);
    if fields.next()? != b"K".as_slice() {
        return None;
    }
    let sets = fields.next()?;
    let brt = fields.next()?;
    let Some(ways) = fields.next() else {
        return Some(HeadFields {
            sets,
            brt,
            ways: None,
        });
    };
    let ways = Some(ways);
    if fields.is_done() {
        Some(HeadFields { sets, brt, ways })
    } else {
        None
    }
}

// How useful blocks are written: as marks, or where the ways are named as digits.
#[tactic(auto, unfolding(crate::specs::HeadLine::read_form))]
fn read_form(ways: Option<&[u8]>) -> Option<Form>
    ensures { result ≡ read_form (option_map (λ w. w.now) ways.entry) }
{
    match ways {
        None => Some(Form::Hex),
        Some(field) => Some(Form::Digits(fields::read_number(field)?)),
    }
}

// Whether there can be so many cache sets, which come in fours.
fn are_sets_in_range(sets: u64) -> bool
    ensures { result ≡ are_sets_in_range sets }
{
    fields::is_within(4, CacheSet::MOST_SETS, sets) & (sets % 4 == 0)
}

impl Head {
    // Whether line 1 can say it.
    #[tactic(auto, unfolding(crate::specs::HeadLine::head_in_range))]
    pub fn in_range(self) -> bool
        ensures { result ≡ head_in_range self }
    {
        are_sets_in_range(self.sets)
            & fields::is_within(0, Ticks::LONGEST_RELOAD, self.brt.0)
            & fields::is_within(1, Useful::MOST_WAYS, self.form.ways())
    }

    // What line 1 says, or its first refusal.
    #[tactic(auto, unfolding(crate::specs::HeadLine::head_said, texts::specs::Rows::unless_fault))]
    pub fn read(line: &[u8]) -> Result<Head, Fault>
        ensures { result ≡ unless_fault (head_rows line.now) (head_said line.now) }
    {
        if first_field(line) != b"K".as_slice() {
            return Err(Reason::Shape.at(0));
        }
        let fields = cut(line).ok_or(Reason::Shape.at(4))?;
        let sets = fields::read_number(fields.sets).ok_or(Reason::Number.at(1))?;
        let brt = fields::read_number(fields.brt).ok_or(Reason::Number.at(2))?;
        let form = read_form(fields.ways).ok_or(Reason::Number.at(3))?;
        if !are_sets_in_range(sets) {
            return Err(Reason::Range.at(1));
        }
        if !fields::is_within(0, Ticks::LONGEST_RELOAD, brt) {
            return Err(Reason::Range.at(2));
        }
        if !fields::is_within(1, Useful::MOST_WAYS, form.ways()) {
            return Err(Reason::Range.at(3));
        }
        Ok(Head {
            sets,
            brt: Ticks(brt),
            form,
        })
    }
}
