// An access line.
ghost use Rattle.std.specs.Prelude.{◌≡◌, false, MatchOption, ◌==◌};
ghost use Rattle.texts.specs.Cut.{field_count};
ghost use Rattle.texts.specs.Rows.{unless_fault};
ghost use Rattle.table.specs.AccessLine.{AreAccessFields, access_rows, access_said};

use crate::accesses::Access;
use crate::tasks;
use crate::tasks::{Name, Task};
use cache::units::Ticks;
use cache::useful;
use cache::useful::{Form, Useful};
use texts::fields;
use texts::lines::Fields;
use texts::refusals::{Fault, Reason};

// The fields of an access line, behind the first, which says of what kind the line is.
#[derive(Clone, Copy)]
struct AccessFields<'a> {
    task: &'a [u8],
    ceiling: &'a [u8],
    lasts: &'a [u8],
    ucb: &'a [u8],
}

fn cut(line: &[u8]) -> Option<AccessFields<'_>>
    ensures { MatchOption result ((field_count line.now == 5) ≡ false) (AreAccessFields line.now) }
{
    let mut fields = Fields::of(line);
    fields.next()?;
    let cut = AccessFields {
        task: fields.next()?,
        ceiling: fields.next()?,
        lasts: fields.next()?,
        ucb: fields.next()?,
    };
    if fields.is_done() { Some(cut) } else { None }
}

impl Access {
    // The access that a line says in a table of this form with so many cache sets, below these tasks, or its first refusal.
    #[tactic(auto, using(std::proofs::lemmas::Bool::Decides::nat_tests), unfolding(crate::specs::AccessLine::access_rows, crate::specs::AccessLine::access_said, texts::specs::Rows::unless_fault))]
    pub fn read(line: &[u8], form: Form, sets: u64, tasks: &[Task]) -> Result<Access, Fault>
        ensures { result ≡ unless_fault (access_rows form sets tasks.now line.now) (access_said form sets tasks.now line.now) }
    {
        let fields = cut(line).ok_or(Reason::Shape.at(5))?;
        if !fields::is_name(fields.task) {
            return Err(Reason::Name.at(1));
        }
        if !fields::is_name(fields.ceiling) {
            return Err(Reason::Name.at(2));
        }
        let lasts = fields::read_number(fields.lasts).ok_or(Reason::Number.at(3))?;
        if !fields::is_within(1, Ticks::LONGEST, lasts) {
            return Err(Reason::Range.at(3));
        }
        let ucb = Useful::from_field(fields.ucb, sets, form).ok_or(Reason::Marks.at(4))?;
        if !useful::is_within(fields.ucb, form) {
            return Err(Reason::TooManyBlocks.at(4));
        }
        let task = tasks::position_of(Name::of(fields.task), tasks).ok_or(Reason::OtherTask.at(1))?;
        let ceiling = tasks::position_of(Name::of(fields.ceiling), tasks).ok_or(
            Reason::OtherTask.at(2),
        )?;
        if task < ceiling {
            return Err(Reason::OtherTask.at(2));
        }
        Ok(Access {
            task,
            ceiling,
            lasts: Ticks(lasts),
            ucb,
        })
    }
}
