// What moved between two tables, and between what is answered of them: figures, responses, verdicts, and what became of a build. Nothing is told of what stayed.
#![tactic(auto)]

// What moved between the answers.
pub mod answers;
// Figures of a table, and those that moved.
pub mod figures;
// Whether no figure of a table is easier than in another.
pub mod harder;
// Which task of one table is which of another.
pub mod matching;

ghost use Rattle.std.specs.Prelude.{◌≡◌, ◌↔◌, true, IsTrue, IfOk, All, None};
ghost use Rattle.table.specs.Tables.{empty_table};
ghost use Rattle.changes.specs.Moved.{AreSameText, IsMoved, IsUnmoved};

use crate::answers::Answers;
use crate::figures::{Column, Value};
use crate::harder::Relation;
use crate::matching::Matching;
use analysis::rows;
use lists::Fate;
use report::verdicts;
use search::demand::Response;
use std::alloc::{AllocError, Global};
use table::Table;
use table::accepted::Accepted;
use table::tasks::Name;
use texts::fields::same_bytes;
use texts::refusals::Refusal;

// A line of a table: line 1, that of a task, or that of an access, by its position among the accesses.
#[derive(Clone, Copy)]
pub enum Line {
    Head,
    Task(Name),
    Access(usize),
}

// A figure that moved.
#[derive(Clone, Copy)]
pub struct FigureChange {
    pub line: Line,
    pub column: Column,
    pub old: Value,
    pub new: Value,
}

// A response that moved, under the method of a number.
#[derive(Clone, Copy)]
pub struct ResponseChange {
    pub task: Name,
    pub method: usize,
    pub old: Response,
    pub new: Response,
}

// A verdict that turned.
#[derive(Clone, Copy)]
pub struct VerdictChange {
    pub method: usize,
    pub old: bool,
    pub new: bool,
}

// What became of a build before and now; none where there is no such build.
#[derive(Clone, Copy)]
pub struct FateChange {
    pub old: Option<Fate>,
    pub new: Option<Fate>,
}

// Where a table comes from.
#[derive(Clone, Copy)]
pub enum Source<'a> {
    // There is none.
    Absent,
    // It could not be read.
    Unread,
    // Its text.
    Text(&'a [u8]),
}

// What is found of a build: what became of it where it is not accepted on both sides, what moved where it is; how the new table is to the old one; and why the new one is
// refused if it is.
#[derive(Drop)]
pub struct Comparison {
    pub fates: Option<FateChange>,
    pub figures: Vec<FigureChange>,
    pub responses: Vec<ResponseChange>,
    pub verdicts: Vec<VerdictChange>,
    pub relation: Relation,
    pub refused: Option<Refusal>,
}

impl Comparison {
    // Whether nothing moved.
    pub fn is_empty(&self) -> bool
        ensures { IsTrue result ↔ IsUnmoved self.now }
    {
        self.fates.is_none()
            && self.figures.is_empty()
            && self.responses.is_empty()
            && self.verdicts.is_empty()
    }
}

// What stands in the place of a table that is not there.
#[derive(Clone, Copy)]
enum Missing {
    Absent,
    Unread,
    Refused(Refusal),
}

impl Missing {
    fn refusal(self) -> Option<Refusal> {
        match self {
            Missing::Refused(refusal) => Some(refusal),
            _ => None,
        }
    }

    fn fate(self) -> Option<Fate> {
        match self {
            Missing::Absent => None,
            Missing::Unread => Some(Fate::Unread),
            Missing::Refused(refusal) => Some(Fate::Refused(refusal)),
        }
    }

    fn is(self, other: Missing) -> bool {
        match (self, other) {
            (Missing::Absent, Missing::Absent) | (Missing::Unread, Missing::Unread) => true,
            (Missing::Refused(one), Missing::Refused(two)) => {
                one.line == two.line && one.reason.number() == two.reason.number()
            }
            _ => false,
        }
    }
}

fn read<'a>(source: Source, table: &'a mut Table) -> Result<Accepted<'a>, Missing>
    requires { table.old ≡ empty_table }
{
    match source {
        Source::Absent => Err(Missing::Absent),
        Source::Unread => Err(Missing::Unread),
        Source::Text(text) => match Accepted::read(text, table) {
            Ok(accepted) => Ok(accepted),
            Err(refusal) => Err(Missing::Refused(refusal)),
        },
    }
}

// What becomes of a build whose table is accepted.
fn judged(accepted: Accepted) -> Option<Fate> {
    let rows = rows::responses(accepted);
    Some(Fate::Judged(verdicts::verdicts(&rows[..accepted.table.count])))
}

// That nothing moved, but what became of the build if that is told.
fn unmoved(alloc: Global, fates: Option<FateChange>, refused: Option<Refusal>) -> Comparison
    ensures { fates ≡ None → IsUnmoved result }
{
    Comparison {
        fates,
        figures: Vec::new(alloc),
        responses: Vec::new(alloc),
        verdicts: Vec::new(alloc),
        relation: Relation::Open,
        refused,
    }
}

// Why a text is refused, if it is.
fn refusal_of(source: Source) -> Option<Refusal> {
    let mut table = Table::empty();
    match read(source, &mut table) {
        Ok(_) => None,
        Err(missing) => missing.refusal(),
    }
}

fn is_same_text(old: Source, new: Source) -> bool
    ensures { AreSameText old.entry new.entry → result ≡ true }
{
    match (old, new) {
        (Source::Text(old), Source::Text(new)) => same_bytes(old, new),
        _ => false,
    }
}

// What is found of two accepted tables; how they are to each other where that is asked for.
pub fn between(
    alloc: Global,
    old: Accepted,
    new: Accepted,
    asks_relation: bool,
) -> Result<Comparison, AllocError>
    ensures { IfOk result (λ c. All (IsMoved old.entry.table.now new.entry.table.now) c.responses.items) }
{
    let matching = Matching::of(alloc, old.table, new.table)?;
    let figures = figures::moved(alloc, old.table, new.table, &matching)?;
    let Answers {
        responses,
        verdicts,
    } = answers::moved(alloc, old, new)?;
    let relation = if asks_relation {
        harder::compared(old, new)
    } else {
        Relation::Open
    };
    Ok(Comparison {
        fates: None,
        figures,
        responses,
        verdicts,
        relation,
        refused: None,
    })
}

// What is found of two builds, both answered anew. Where their texts are the same nothing moved.
pub fn compare(
    alloc: Global,
    old: Source,
    new: Source,
    asks_relation: bool,
) -> Result<Comparison, AllocError>
    ensures { IfOk result (λ c. AreSameText old.entry new.entry → IsUnmoved c) }
{
    if is_same_text(old, new) {
        return Ok(unmoved(alloc, None, refusal_of(new)));
    }
    between_others(alloc, old, new, asks_relation)
}

// The same of builds whose texts are not the same.
fn between_others(
    alloc: Global,
    old: Source,
    new: Source,
    asks_relation: bool,
) -> Result<Comparison, AllocError> {
    let (mut first, mut second) = (Table::empty(), Table::empty());
    let (old, new, refused) = match (read(old, &mut first), read(new, &mut second)) {
        (Ok(old), Ok(new)) => return between(alloc, old, new, asks_relation),
        (Ok(old), Err(new)) => (judged(old), new.fate(), new.refusal()),
        (Err(old), Ok(new)) => (old.fate(), judged(new), None),
        (Err(old), Err(new)) if old.is(new) => return Ok(unmoved(alloc, None, new.refusal())),
        (Err(old), Err(new)) => (old.fate(), new.fate(), new.refusal()),
    };
    Ok(unmoved(alloc, Some(FateChange { old, new }), refused))
}
