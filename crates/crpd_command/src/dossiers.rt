// The dossier of a table, or those of all tables below a folder: a page each, NAME.html beside NAME.table.
ghost use Rattle.std.specs.Prelude.{None};

use crate::answers::spare_input;
use crate::pool::ending_of;
use crate::version;
use asked::arguments::{Arguments, Opt};
use asked::ending::{Ending, Outcome, Stop};
use builds::{Build, Folder, Part, Unread, Unwritten};
use command_line::refused_stop;
use console::{print, tell};
use dossier::{Proved, Unmade};
use files::disk::{Disk, Found};
use files::progress::Progress;
use files::{Parts, deliver};
use lists::Fate;
use std::alloc::AllocError;

const PROVED: Proved<'static> = Proved {
    number: version::NUMBER,
    toolchain: version::TOOLCHAIN,
};

pub fn dossier(rt: &HostRuntime, arguments: &Arguments) -> Outcome {
    match arguments.operand(0) {
        Some(name) if files::is_folder(rt, name) => of_folder(rt, arguments, name),
        _ => of_table(rt, arguments),
    }
}

fn of_table(rt: &HostRuntime, arguments: &Arguments) -> Outcome {
    let alloc = rt.alloc();
    if !arguments.has(Opt::Output) {
        return Err(Stop::wrong(
            alloc,
            "-o PAGE.html is missing\nusage: crpd dossier [FILE] -o PAGE.html | FOLDER",
        ));
    }
    let (file, out) = (arguments.operand(0), files::output(rt, arguments)?);
    let input = console::read(rt, file)?;
    spare_input(rt, &input, file, out)?;
    match dossier::page(alloc, input.text.as_slice(), PROVED) {
        Ok(made) => {
            deliver(rt, out, made.page.as_str().as_bytes())?;
            Ok(Ending::of_responses(made.passes))
        }
        Err(Unmade::Refused(refusal)) => Err(refused_stop(alloc, &input, refusal)),
        Err(Unmade::NoMemory) => Err(Stop::from(AllocError)),
    }
}

fn of_folder(rt: &HostRuntime, arguments: &Arguments, name: &[u8]) -> Outcome {
    let alloc = rt.alloc();
    if arguments.has(Opt::Output) {
        let message = "the pages of a folder go beside its tables, so -o is not taken";
        return Err(Stop::wrong(alloc, message));
    }
    let first = files::path_of_folder(alloc, name)?;
    let parts = Parts::new(rt)?;
    let Found { builds, unread } = Found::below(rt, &parts, first.as_str())?;
    let count = builds.len() as u64;
    let mut pages = Pages {
        disk: Disk {
            rt,
            first,
            parts,
            messages: Vec::new(alloc),
            progress: Progress::new(rt, count, "pages"),
        },
        text: Vec::new(alloc),
    };
    let run = builds::write_reports(alloc, &mut pages, builds.as_slice(), Part::WHOLE)?;
    pages.disk.progress.clear(rt);
    for message in &pages.disk.messages {
        tell(rt, message.as_str());
    }
    for message in &unread {
        tell(rt, message.as_str());
    }
    print(rt, run.list.as_slice())?;
    let mut worst = Ending::Given;
    for fate in &run.fates {
        worst = worst.worse(ending_of(*fate));
    }
    if !unread.is_empty() {
        worst = Ending::Failed;
    }
    Ok(worst)
}

// A folder of the file system as its builds are gone through, with a page put where a run of reports puts a report.
#[derive(Drop)]
struct Pages<'a> {
    disk: Disk<'a>,
    // that of the build that was read last
    text: Vec<u8>,
}

impl<'a> Pages<'a> {
    // The page of the text that was read. That of a refused one has no figures: a page that an earlier table left must not stand beside it.
    fn made(&self) -> Result<String, AllocError> {
        let (alloc, text) = (self.disk.rt.alloc(), self.text.as_slice());
        match dossier::page(alloc, text, PROVED) {
            Ok(made) => Ok(made.page),
            Err(Unmade::Refused(refusal)) => dossier::refused_page(alloc, text, refusal),
            Err(Unmade::NoMemory) => Err(AllocError),
        }
    }
}

impl<'a> Folder for Pages<'a> {
    ghost held = { λ _. None };

    fn read(&mut self, build: &Build, buf: &mut [u8]) -> Result<usize, Unread> {
        let len = self.disk.read(build, buf)?;
        match Vec::from_slice(self.disk.rt.alloc(), buf.get(..len).unwrap_or(&[])) {
            Ok(text) => {
                self.text = text;
                Ok(len)
            }
            Err(_) => Err(Unread),
        }
    }

    // The report is not written: what the page tells is made of the text.
    fn put(&mut self, build: &Build, _report: &[u8]) -> Result<(), Unwritten> {
        let Ok(page) = self.made() else {
            return Err(Unwritten);
        };
        self.disk
            .put_beside(build, b"html", page.as_str().as_bytes())
    }

    fn hear(&mut self, build: &Build, text: &[u8], fate: Fate) {
        self.disk.hear(build, text, fate);
    }
}
