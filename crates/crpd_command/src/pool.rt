// The reports of all tables below a folder or of a part of them, and one list of them; and one list of the lists of parts.
use crate::answers::all_pass;
use asked::arguments::Arguments;
use asked::ending::{Ending, Outcome, Stop};
use builds::Part;
use console::tell;
use files::disk::{Disk, Found};
use files::progress::{self, Progress};
use files::{Parts, deliver};
use lists::Fate;
use std::alloc::{AllocError, Global};
use std::fmt::Write as _;
use texts::lines::{Fields, Lines};

// The part that is asked for.
#[derive(Clone, Copy)]
struct Share {
    number: u64,
    of: u64,
}

impl Share {
    // How many of so many builds belong to it.
    fn count(self, all: u64) -> u64 {
        match all.checked_sub(self.number) {
            Some(behind) => (behind / self.of.max(1)).saturating_add(1),
            None => 0,
        }
    }

    fn part(self) -> Part {
        let number = usize::try_from(self.number).unwrap_or(0);
        let of = usize::try_from(self.of).unwrap_or(0);
        Part::new(number, of).unwrap_or(Part::WHOLE)
    }
}

pub fn reports(rt: &HostRuntime, arguments: &Arguments) -> Outcome {
    let alloc = rt.alloc();
    let list = files::output(rt, arguments)?;
    let (number, of) = arguments.part()?;
    let share = Share { number, of };
    progress::take_jobs(
        rt,
        arguments,
        "one process works; --part K/N does a part, so that several may work at once",
    )?;
    let first = files::path_of_folder(alloc, arguments.operand(0).unwrap_or(b""))?;
    let parts = Parts::new(rt)?;
    let Found { builds, unread } = Found::below(rt, &parts, first.as_str())?;
    let count = share.count(builds.len() as u64);
    let mut disk = Disk {
        rt,
        first,
        parts,
        messages: Vec::new(alloc),
        progress: Progress::new(rt, count, "builds"),
    };
    let run = builds::write_reports(alloc, &mut disk, builds.as_slice(), share.part())?;
    disk.progress.clear(rt);
    for message in &disk.messages {
        tell(rt, message.as_str());
    }
    for message in &unread {
        tell(rt, message.as_str());
    }
    deliver(rt, list, run.list.as_slice())?;
    let mut tally = Tally::NONE;
    for fate in &run.fates {
        tally.add(*fate);
    }
    let took = disk.progress.took(rt);
    tell(
        rt,
        tally.summary(alloc, took, unread.len() as u64)?.as_str(),
    );
    if !unread.is_empty() {
        return Ok(Ending::Failed);
    }
    Ok(tally.worst)
}

// How a command ends by what became of a build.
pub fn ending_of(fate: Fate) -> Ending {
    match fate {
        Fate::Judged(verdicts) => Ending::of_responses(all_pass(verdicts)),
        Fate::Refused(_) => Ending::Refused,
        Fate::Unread | Fate::Unwritten => Ending::Failed,
    }
}

// How many builds ended in which way, and the worst of these.
#[derive(Clone, Copy)]
struct Tally {
    pass: u64,
    fail: u64,
    refused: u64,
    lost: u64,
    worst: Ending,
}

impl Tally {
    const NONE: Tally = Tally {
        pass: 0,
        fail: 0,
        refused: 0,
        lost: 0,
        worst: Ending::Given,
    };

    fn add(&mut self, fate: Fate) {
        let ending = ending_of(fate);
        match ending {
            Ending::Given => self.pass = self.pass.saturating_add(1),
            Ending::NoResponse => self.fail = self.fail.saturating_add(1),
            Ending::Refused => self.refused = self.refused.saturating_add(1),
            _ => self.lost = self.lost.saturating_add(1),
        }
        self.worst = self.worst.worse(ending);
    }

    fn all(self) -> u64 {
        self.pass
            .saturating_add(self.fail)
            .saturating_add(self.refused)
            .saturating_add(self.lost)
    }

    fn summary(self, alloc: Global, millis: u64, unread: u64) -> Result<String, AllocError> {
        let (all, rate) = (
            wording::number(alloc, self.all())?,
            wording::number(alloc, progress::rate(self.all(), millis))?,
        );
        let (pass, fail) = (
            wording::number(alloc, self.pass)?,
            wording::number(alloc, self.fail)?,
        );
        let (refused, lost) = (
            wording::number(alloc, self.refused)?,
            wording::number(alloc, self.lost)?,
        );
        let what = if self.all() == 1 { "build" } else { "builds" };
        let tenths = millis / 100;
        let (seconds, tenth) = (tenths / 10, tenths % 10);
        let mut text = format!(in alloc;
            "{all} {what} in {seconds}.{tenth} s, {rate} a second: {pass} pass under every method, {fail} do not, {refused} are refused, {lost} could not be read or written"
        )?;
        if unread > 0 {
            let folders = wording::counted(alloc, unread, "folder")?;
            write!(text, "; {folders} could not be read")?;
        }
        Ok(text)
    }
}

pub fn lists(rt: &HostRuntime, arguments: &Arguments) -> Outcome {
    let alloc = rt.alloc();
    let out = files::output(rt, arguments)?;
    let mut lists = Vec::new(alloc);
    let mut worst = Ending::Given;
    for file in arguments.operands() {
        let list = files::whole(rt, file.as_slice())?;
        worst = worst.worse(ending_of_list(alloc, &list)?);
        lists.push(list.text)?;
    }
    let list = lists::put_together(alloc, lists.as_slice())?;
    deliver(rt, out, list.as_slice())?;
    Ok(worst)
}

// How the builds of a list ended, the worst of them. What is no list is refused.
fn ending_of_list(alloc: Global, list: &console::Input) -> Result<Ending, Stop> {
    let mut worst = Ending::Given;
    for (line, number) in Lines::of(list.text.as_slice()).zip(1u64..) {
        match ending_of_line(line) {
            Some(ending) => worst = worst.worse(ending),
            None => {
                let name = list.name.as_str();
                return Err(Stop::refused(format!(in alloc;
                    "{name}: line {number}: it is no line of a list of builds"
                )?));
            }
        }
    }
    Ok(worst)
}

// How the build of a line ended.
fn ending_of_line(line: &[u8]) -> Option<Ending> {
    let mut fields = Fields::of(line);
    let _name = fields.next()?;
    let letter = fields.next()?;
    if letter == b"E".as_slice() {
        return Some(Ending::Refused);
    }
    if letter == b"F".as_slice() {
        return Some(Ending::Failed);
    }
    if letter != b"V".as_slice() {
        return None;
    }
    let mut passes = true;
    for verdict in fields {
        passes = passes && verdict == b"yes".as_slice();
    }
    Some(Ending::of_responses(passes))
}
