// A task line.
ghost use Rattle.std.specs.Prelude.{◌≡◌, false, not, ◌&&◌, [], ◌∷◌, MatchOption, ◌==◌};
ghost use Rattle.cache.specs.declared.units.TheConstants.Ticks.{LONGEST};
ghost use Rattle.texts.specs.Cut.{field_count};
ghost use Rattle.texts.specs.Rows.{unless_fault};
ghost use Rattle.texts.specs.Fields.{is_number, number, is_within};
ghost use Rattle.texts.specs.declared.refusals.Reason.TheVariants.{Number, Range};
ghost use Rattle.texts.specs.Faults.{at_field};
ghost use Rattle.table.specs.TaskLine.{AreTaskFields, times_in_range, times_in_order, task_rows, task_said, blocking_said};

use crate::tasks::Task;
use crate::tasks::name::{Name, is_known};
use cache::sets::CacheSet;
use cache::units::Ticks;
use cache::useful;
use cache::useful::{Form, Useful};
use texts::fields;
use texts::lines::Fields;
use texts::refusals::{Fault, Reason};

// The fields of a task line, behind the first, which says of what kind the line is.
#[derive(Clone, Copy)]
struct TaskFields<'a> {
    name: &'a [u8],
    work: &'a [u8],
    period: &'a [u8],
    deadline: &'a [u8],
    jitter: &'a [u8],
    blocking: &'a [u8],
    ucb: &'a [u8],
    ecb: &'a [u8],
}

fn cut(line: &[u8]) -> Option<TaskFields<'_>>
    ensures { MatchOption result ((field_count line.now == 9) ≡ false) (AreTaskFields line.now) }
{
    let mut fields = Fields::of(line);
    fields.next()?;
    let cut = TaskFields {
        name: fields.next()?,
        work: fields.next()?,
        period: fields.next()?,
        deadline: fields.next()?,
        jitter: fields.next()?,
        blocking: fields.next()?,
        ucb: fields.next()?,
        ecb: fields.next()?,
    };
    if fields.is_done() { Some(cut) } else { None }
}

// What the field at this place says in ticks, if it is a number.
#[tactic(auto, unfolding(texts::specs::Rows::unless_fault))]
fn read_ticks(field: &[u8], at: usize) -> Result<Ticks, Fault>
    ensures { result ≡ unless_fault ((not (is_number field.now), at_field at Number) ∷ []) (record { 0 = number field.now }) }
{
    let ticks = fields::read_number(field).ok_or(Reason::Number.at(at))?;
    Ok(Ticks(ticks))
}

// Refuses a time, that of the field at this place, if it is below the least or longer than any may be.
#[tactic(auto, unfolding(texts::specs::Rows::unless_fault))]
fn check_range(ticks: Ticks, least: u64, at: usize) -> Result<(), Fault>
    ensures { result ≡ unless_fault ((not (is_within least LONGEST ticks.0), at_field at Range) ∷ []) tt }
{
    if !fields::is_within(least, Ticks::LONGEST, ticks.0) {
        return Err(Reason::Range.at(at));
    }
    Ok(())
}

impl Task {
    #[tactic(auto, unfolding(crate::specs::TaskLine::times_in_range))]
    fn times_in_range(&self) -> bool
        ensures { result ≡ times_in_range self.now }
    {
        fields::is_within(1, Ticks::LONGEST, self.work.0)
            & fields::is_within(1, Ticks::LONGEST, self.period.0)
            & fields::is_within(1, Ticks::LONGEST, self.deadline.0)
            & fields::is_within(0, Ticks::LONGEST, self.jitter.0)
    }

    #[tactic(auto, unfolding(crate::specs::TaskLine::times_in_order))]
    fn times_in_order(&self) -> bool
        ensures { result ≡ times_in_order self.now }
    {
        (self.jitter.0 <= self.deadline.0) & (self.deadline.0 <= self.period.0)
    }

    // Whether a line can say its times: each is in its range, and they are in their order.
    pub fn is_timely(&self) -> bool
        ensures { result ≡ (times_in_range self.now && times_in_order self.now) }
    {
        self.times_in_range() & self.times_in_order()
    }

    // The task that a line says in a table of this form with so many cache sets, below the tasks above it, and the line's B; or its first refusal.
    #[tactic(auto, using(std::proofs::lemmas::Bool::Decides::nat_tests), unfolding(crate::specs::TaskLine::task_rows, crate::specs::TaskLine::task_said, texts::specs::Rows::unless_fault))]
    pub fn read(line: &[u8], form: Form, sets: u64, above: &[Task]) -> Result<(Task, Ticks), Fault>
        ensures { result ≡ unless_fault (task_rows form sets above.now line.now) (task_said form sets line.now, blocking_said line.now) }
    {
        let fields = cut(line).ok_or(Reason::Shape.at(9))?;
        if !fields::is_name(fields.name) {
            return Err(Reason::Name.at(1));
        }
        let mut task = Task {
            name: Name::of(fields.name),
            work: read_ticks(fields.work, 2)?,
            period: read_ticks(fields.period, 3)?,
            deadline: read_ticks(fields.deadline, 4)?,
            jitter: read_ticks(fields.jitter, 5)?,
            ucb: Useful::NONE,
            ecb: CacheSet::EMPTY,
        };
        let blocking = read_ticks(fields.blocking, 6)?;
        check_range(task.work, 1, 2)?;
        check_range(task.period, 1, 3)?;
        check_range(task.deadline, 1, 4)?;
        check_range(task.jitter, 0, 5)?;
        check_range(blocking, 0, 6)?;
        task.ucb = Useful::from_field(fields.ucb, sets, form).ok_or(Reason::Marks.at(7))?;
        task.ecb = CacheSet::from_field(fields.ecb, sets).ok_or(Reason::Marks.at(8))?;
        if !useful::is_within(fields.ucb, form) {
            return Err(Reason::TooManyBlocks.at(7));
        }
        if task.period.0 < task.deadline.0 {
            return Err(Reason::Order.at(4));
        }
        if task.deadline.0 < task.jitter.0 {
            return Err(Reason::Order.at(5));
        }
        if is_known(task.name, above) {
            return Err(Reason::KnownName.at(1));
        }
        Ok((task, blocking))
    }
}
