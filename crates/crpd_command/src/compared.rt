// What moved between two tables, or between the tables below two folders. Both are answered anew: no report that lies there is believed.
use asked::arguments::{Arguments, Opt};
use asked::ending::{Ending, Outcome, Stop};
use builds::{Build, Folder};
use change_lines::pairs::{self, Places};
use changes::{Comparison, Source};
use console::{Input, print, tell};
use files::Parts;
use files::disk::{Disk, Found};
use files::progress::Progress;
use lists::Fate;
use std::alloc::{AllocError, Global};
use table::Table;
use texts::refusals::Refusal;
use worded::moved::{self, Counts};

pub fn changes(rt: &HostRuntime, arguments: &Arguments) -> Outcome {
    let alloc = rt.alloc();
    let (old, new) = (
        arguments.operand(0).unwrap_or(b""),
        arguments.operand(1).unwrap_or(b""),
    );
    let mut told = Told::new(alloc, arguments.has(Opt::Words));
    let failed = match (files::is_folder(rt, old), files::is_folder(rt, new)) {
        (true, true) => in_folders(rt, old, new, &mut told)?,
        (false, false) => {
            in_files(rt, old, new, &mut told)?;
            false
        }
        _ => {
            return Err(Stop::wrong(
                alloc,
                "OLD and NEW are two tables or two folders, and not one of each",
            ));
        }
    };
    told.end(rt)?;
    if failed {
        return Ok(Ending::Failed);
    }
    // that something moved has the status of a response that is missing
    Ok(Ending::of_responses(told.counts.changed == 0))
}

// What is told: so much text waits to be printed, and what was counted.
#[derive(Drop)]
struct Told {
    in_words: bool,
    text: Vec<u8>,
    counts: Counts,
}

// So many bytes are printed at once.
const MANY: usize = 65536;

impl Told {
    fn new(alloc: Global, in_words: bool) -> Told {
        Told {
            in_words,
            text: Vec::new(alloc),
            counts: Counts::NONE,
        }
    }

    fn add(&mut self, name: &[u8], found: &Comparison) -> Result<(), AllocError> {
        self.counts.add(found);
        if self.in_words {
            moved::add_build(&mut self.text, name, found)
        } else {
            change_lines::add_changes(&mut self.text, name, found)
        }
    }

    fn print(&mut self, rt: &HostRuntime) -> Result<(), Stop> {
        print(rt, self.text.as_slice())?;
        self.text.clear();
        Ok(())
    }

    // What is left, and in words what was counted.
    fn end(&mut self, rt: &HostRuntime) -> Result<(), Stop> {
        if self.in_words {
            self.counts.add_line(&mut self.text)?;
        }
        self.print(rt)
    }
}

fn in_files(rt: &HostRuntime, old: &[u8], new: &[u8], told: &mut Told) -> Result<(), Stop> {
    let alloc = rt.alloc();
    if console::named(Some(old)).is_none() && console::named(Some(new)).is_none() {
        return Err(Stop::wrong(alloc, "OLD and NEW are both standard input"));
    }
    let (old, input) = (console::read(rt, Some(old))?, console::read(rt, Some(new))?);
    let name = spelling::spelled_out(alloc, new)?;
    let found = changes::compare(
        alloc,
        Source::Text(old.text.as_slice()),
        Source::Text(input.text.as_slice()),
        told.in_words,
    )?;
    tell_refused(rt, &input, &found)?;
    told.add(name.as_slice(), &found)?;
    Ok(())
}

// That the new text is refused, in words.
fn tell_refused(rt: &HostRuntime, input: &Input, found: &Comparison) -> Result<(), Stop> {
    if let Some(refusal) = found.refused {
        let (name, text) = (input.name.as_str(), input.text.as_slice());
        let message = refused::told(rt.alloc(), name, text, refusal)?;
        tell(rt, message.as_str());
    }
    Ok(())
}

// The build at a place, if there is one.
fn build_at(builds: &[Build], place: Option<usize>) -> Option<&Build> {
    match place {
        Some(place) => builds.get(place),
        None => None,
    }
}

// The name of a build that is in one of the two folders, or in both.
fn name_of<'b>(old: Option<&'b Build>, new: Option<&'b Build>) -> &'b [u8] {
    match new {
        Some(build) => build.name.as_slice(),
        None => match old {
            Some(build) => build.name.as_slice(),
            None => b"",
        },
    }
}

fn names_of(alloc: Global, builds: &[Build]) -> Result<Vec<&[u8]>, AllocError> {
    let mut names = Vec::new(alloc);
    for build in builds {
        names.push(build.name.as_slice())?;
    }
    Ok(names)
}

fn paired(alloc: Global, old: &[Build], new: &[Build]) -> Result<Vec<Places>, AllocError> {
    let old = names_of(alloc, old)?;
    let new = names_of(alloc, new)?;
    pairs::paired(alloc, old.as_slice(), new.as_slice())
}

// The text of a build, if there is one.
fn source<'b>(disk: &mut Disk, build: Option<&Build>, buf: &'b mut [u8]) -> Source<'b> {
    let Some(build) = build else {
        return Source::Absent;
    };
    match disk.read(build, buf) {
        Ok(len) => Source::Text(buf.get(..len).unwrap_or(&[])),
        Err(_) => Source::Unread,
    }
}

// Tells what moved in all builds, and whether something could not be read.
fn in_folders(rt: &HostRuntime, old: &[u8], new: &[u8], told: &mut Told) -> Result<bool, Stop> {
    let alloc = rt.alloc();
    let parts = Parts::new(rt)?;
    let old_first = files::path_of_folder(alloc, old)?;
    let new_first = files::path_of_folder(alloc, new)?;
    let old_found = Found::below(rt, &parts, old_first.as_str())?;
    let new_found = Found::below(rt, &parts, new_first.as_str())?;
    let pairs = paired(
        alloc,
        old_found.builds.as_slice(),
        new_found.builds.as_slice(),
    )?;
    let mut old_disk = disk(rt, old_first, 0)?;
    let mut new_disk = disk(rt, new_first, pairs.len() as u64)?;
    let mut failed = !old_found.unread.is_empty() || !new_found.unread.is_empty();
    for places in &pairs {
        let before = build_at(old_found.builds.as_slice(), places.old);
        let now = build_at(new_found.builds.as_slice(), places.new);
        failed |= in_pair(&mut old_disk, &mut new_disk, before, now, told)?;
        if MANY <= told.text.len() {
            new_disk.progress.clear(rt);
            told.print(rt)?;
        }
    }
    new_disk.progress.clear(rt);
    tell_all(rt, old_disk.messages.as_slice());
    tell_all(rt, old_found.unread.as_slice());
    tell_all(rt, new_disk.messages.as_slice());
    tell_all(rt, new_found.unread.as_slice());
    Ok(failed)
}

fn disk<'a>(rt: &'a HostRuntime, first: String, count: u64) -> Result<Disk<'a>, AllocError> {
    Ok(Disk {
        rt,
        first,
        parts: Parts::new(rt)?,
        messages: Vec::new(rt.alloc()),
        progress: Progress::new(rt, count, "builds"),
    })
}

fn tell_all(rt: &HostRuntime, messages: &[String]) {
    for message in messages {
        tell(rt, message.as_str());
    }
}

// Tells what moved in a build, and whether it could not be read.
fn in_pair(
    old_disk: &mut Disk,
    new_disk: &mut Disk,
    old: Option<&Build>,
    new: Option<&Build>,
    told: &mut Told,
) -> Result<bool, Stop> {
    let mut first = [0u8; Table::LONGEST_TEXT + 1];
    let mut second = [0u8; Table::LONGEST_TEXT + 1];
    let before = source(old_disk, old, &mut first);
    let now = source(new_disk, new, &mut second);
    let found = changes::compare(new_disk.rt.alloc(), before, now, told.in_words)?;
    told.add(name_of(old, new), &found)?;
    hear(new_disk, new, now, found.refused);
    Ok(matches!(before, Source::Unread) || matches!(now, Source::Unread))
}

// One build more is done; where its new text is refused that is to be told.
fn hear(disk: &mut Disk, build: Option<&Build>, now: Source, refused: Option<Refusal>) {
    match (build, now, refused) {
        (Some(build), Source::Text(text), Some(refusal)) => {
            disk.hear(build, text, Fate::Refused(refusal));
        }
        _ => disk.progress.step(disk.rt),
    }
}
