// The reports of many builds, and the list of them. Where the builds lie is left open: it is a `Folder`.
#![tactic(auto)]

ghost use Rattle.std.specs.Prelude.{◌≡◌, ℕ, List, [], ◌++◌, ◌≤◌, ◌<◌, map, length, Option, ◌⊎◌, IsSome, IfSome, IfNone, IfOk, OnOk, OnErr, IsPermutation};
ghost use Rattle.writing.specs.Delivery.{PutsText};
ghost use Rattle.writing.specs.Error.{error_text};
ghost use Rattle.crpd.specs.Operations.{printed};
ghost use Rattle.report.specs.Report.{report_in};
ghost use Rattle.spelling.specs.Spelling.{spelled_out};
ghost use Rattle.lists.specs.Together.{ascending};
ghost use Rattle.builds.specs.Fates.{judged, fate_of};
ghost use Rattle.builds.specs.Folders.{Held, HasText, HasNoText, Gains, TakesNone, ReportsBuild};
ghost use Rattle.builds.specs.Runs.{in_part, part_of, WritesReports, SharedOut};

use analysis::rows;
use lists::Fate;
use report::verdicts;
use std::alloc::{AllocError, Global};
use table::Table;
use table::accepted::Accepted;
use texts::refusals::Refusal;
use writing::delivery;
use writing::writer::{Draft, ROOM};

// What is told of a build: how long its report is, and what became of it.
#[derive(Clone, Copy)]
pub struct Told {
    pub len: usize,
    pub fate: Fate,
}

// The report of a table at the buffer's start.
fn put_report(accepted: Accepted, out: &mut [u8; ROOM]) -> Told
    ensures put { PutsText (report_in accepted.entry.table.now) out.old result.len out.new }
    ensures fate { result.fate ≡ judged accepted.entry.table.now }
{
    let table = accepted.table;
    let rows = rows::responses(accepted);
    let fate = Fate::Judged(verdicts::verdicts(&rows[..table.count]));
    let len = report::report(table, &rows, out).unwrap();
    Told { len, fate }
}

// The line of a refusal at the buffer's start.
fn put_refusal(refusal: Refusal, out: &mut [u8; ROOM]) -> Told
    ensures put { PutsText (error_text refusal) out.old result.len out.new }
    ensures fate { result.fate ≡ Fate.Refused refusal }
{
    let mut draft = Draft::new();
    delivery::write_error(&mut draft, refusal);
    Told {
        len: delivery::put(draft.text(), out),
        fate: Fate::Refused(refusal),
    }
}

// What is printed of a text, at the buffer's start: its report, or the line of its refusal. It is read and analysed once.
#[tactic(auto, unfolding(crpd::specs::Operations::printed, crate::specs::Fates::fate_of))]
pub fn print(text: &[u8], out: &mut [u8; ROOM]) -> Told
    ensures printed { PutsText (printed text.now) out.old result.len out.new }
    ensures fate { result.fate ≡ fate_of text.now }
{
    let mut table = Table::empty();
    match Accepted::read(text, &mut table) {
        Ok(accepted) => put_report(accepted, out),
        Err(refusal) => put_refusal(refusal, out),
    }
}

// A build: the way to its table from the folder, as bytes, and its name in the list, which is that way spelled out.
#[derive(Drop)]
pub struct Build {
    pub way: Vec<u8>,
    pub name: Vec<u8>,
    ghost spelled: { name.items ≡ spelled_out way.items },
}

impl Build {
    // The build at the end of a way.
    pub fn at(alloc: Global, way: Vec<u8>) -> Result<Build, AllocError>
        ensures { IfOk result (λ build. build.way.items ≡ way.items) }
    {
        let name = spelling::spelled_out(alloc, way.as_slice())?;
        Ok(Build { way, name })
    }
}

// Puts builds into the order of their names, so that their places do not depend on the order in which they were found.
pub fn sort(builds: &mut Vec<Build>) -> Result<(), AllocError>
    ensures same { IsPermutation builds.old.items builds.new.items }
    ensures in_order { OnOk result (map (λ b. b.name.items) builds.new.items ≡ ascending (map (λ b. b.name.items) builds.old.items)) }
{
    builds.sort_by(|one, other| one.name.as_slice().cmp(&other.name.as_slice()))?;
    Ok(())
}

// A part of the builds: those whose places in the order of names, counted from 1, are `number` modulo `of`.
#[derive(Clone, Copy)]
pub struct Part {
    number: usize,
    of: usize,
    ghost within: { (0 < number) × (number ≤ of) },
}

impl Part {
    // All builds.
    pub const WHOLE: Part = Part { number: 1, of: 1 };

    // That part, from 1 to `of`; where there is none of that number, none.
    pub fn new(number: usize, of: usize) -> Option<Part>
        ensures part { IfSome result (λ part. (part.number ≡ number) × (part.of ≡ of)) }
        ensures none { IfNone result ((number ≡ 0) ⊎ (of < number)) }
        ensures shared { IsSome result → (ways : List (List ℕ)) → SharedOut of ways }
    {
        if number == 0 || of < number {
            return None;
        }
        Some(Part { number, of })
    }

    // Whether the build at a place, counted from 1, belongs to it.
    fn has(self, place: usize) -> bool
        ensures { result ≡ in_part self.number self.of place }
    {
        place % self.of == self.number % self.of
    }
}

// That a table could not be read, and that a report could not be written.
#[derive(Drop)]
pub struct Unread;

#[derive(Drop)]
pub struct Unwritten;

// Where builds lie. `held` has what lies there, where the type says it: the text of each build, by the way to it, if it can be read; of which builds a report can be
// put there; and the reports that were put there, one after the other, each with the way to its build.
pub trait Folder {
    ghost held: { Self → Option Held };

    // The text of a build at the buffer's start, as much as there is room for.
    fn read(&mut self, build: &Build, buf: &mut [u8]) -> Result<usize, Unread>
        ensures within { IfOk result (λ len. len ≤ length buf.new) }
        ensures text { IfOk result (λ len. HasText (held self.old) build.now.way.items len buf.new) }
        ensures no_text { OnErr result (HasNoText (held self.old) build.now.way.items) }
        ensures same { held self.new ≡ held self.old };

    // Puts the report of a build there, whole or not at all.
    fn put(&mut self, build: &Build, report: &[u8]) -> Result<(), Unwritten>
        ensures put { OnOk result (Gains (held self.old) (held self.new) build.now.way.items report.now) }
        ensures not_taken { OnErr result (TakesNone (held self.old) build.now.way.items) }
        ensures not_put { OnErr result (held self.new ≡ held self.old) };

    // Hears of what became of a build; with as much of its text as was read.
    fn hear(&mut self, build: &Build, text: &[u8], fate: Fate)
        ensures same { held self.new ≡ held self.old };
}

// Writes the report of a build.
pub fn write_report<F: Folder>(folder: &mut F, build: &Build) -> Fate
    ensures { ReportsBuild (F.held folder.old) build.now.way.items result (F.held folder.new) }
{
    let mut text = [0u8; Table::LONGEST_TEXT + 1];
    let Ok(len) = folder.read(build, &mut text) else {
        folder.hear(build, &text[..0], Fate::Unread);
        return Fate::Unread;
    };
    let mut report = [0u8; ROOM];
    let told = print(&text[..len], &mut report);
    let fate = match folder.put(build, &report[..told.len]) {
        Ok(()) => told.fate,
        Err(_) => Fate::Unwritten,
    };
    folder.hear(build, &text[..len], fate);
    fate
}

// What came of a run: the list, and what became of each build of the part, one after the other.
#[derive(Drop)]
pub struct Run {
    pub list: Vec<u8>,
    pub fates: Vec<Fate>,
}

// Writes the reports of a part of builds, and the list of them.
pub fn write_reports<F: Folder>(
    alloc: Global,
    folder: &mut F,
    builds: &[Build],
    part: Part,
) -> Result<Run, AllocError>
    ensures { IfOk result (λ run. WritesReports (F.held folder.old) (part_of part.number part.of (map (λ b. b.way.items) builds.now)) run.list.items run.fates.items (F.held folder.new)) }
{
    let mut lines = Vec::new(alloc);
    let mut fates = Vec::new(alloc);
    for i in 0..builds.len() {
        if part.has(i + 1) {
            let build = &builds[i];
            let fate = write_report(folder, build);
            lines.push(lists::line(alloc, build.name.as_slice(), fate)?)?;
            fates.push(fate)?;
        }
    }
    let list = lists::put_together(alloc, lines.as_slice())?;
    Ok(Run { list, fates })
}
