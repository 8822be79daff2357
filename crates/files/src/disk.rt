// Builds below a folder of the file system: found, read, and their reports written beside them.
ghost use Rattle.std.specs.Prelude.{None};

use crate::Parts;
use crate::progress::Progress;
use asked::ending::Stop;
use builds::{Build, Folder, Unread, Unwritten};
use console::path_of;
use lists::Fate;
use std::alloc::{AllocError, Global};
use std::fmt::Write as _;
use std::fs;
use std::io::{self, ErrorKind, Read};
use std::rt::Files;
use streams::read_input;

// What was found below a folder: the builds by their names, and what is to be told of folders that could not be read.
#[derive(Drop)]
pub struct Found {
    pub builds: Vec<Build>,
    pub unread: Vec<String>,
}

// The names in a folder, each ended by a NUL.
fn names_in(rt: &HostRuntime, folder: &str) -> io::Result<Vec<u8>> {
    let alloc = rt.alloc();
    let path = if folder.is_empty() || folder.ends_with('/') {
        String::from_str(alloc, folder)?
    } else {
        format!(in alloc; "{folder}/")?
    };
    let mut names = Vec::new(alloc);
    let mut dir = rt.open_dir(path.as_str())?;
    // no read ends inside a name, so each is given room for the longest
    let mut some = [0u8; 32768];
    for _ in 0..u64::MAX {
        match dir.read(&mut some) {
            Ok(0) => break,
            Ok(len) => names.extend_from_slice(&some[..len])?,
            Err(error) if error.kind() == ErrorKind::Interrupted => {}
            Err(error) => return Err(error),
        }
    }
    Ok(names)
}

// A folder that waits, and the way to it from the first one.
#[derive(Drop)]
struct Waiting {
    path: String,
    way: Vec<u8>,
}

impl Found {
    // Goes through a folder and all below it. Each is closed before the next one is opened, so they may be as deep as names go.
    pub fn below(rt: &HostRuntime, parts: &Parts, first: &str) -> Result<Found, Stop> {
        let alloc = rt.alloc();
        let mut found = Found {
            builds: Vec::new(alloc),
            unread: Vec::new(alloc),
        };
        let mut waiting = Vec::new(alloc);
        waiting.push(Waiting {
            path: String::from_str(alloc, first)?,
            way: Vec::new(alloc),
        })?;
        for turn in 0..u64::MAX {
            let Some(folder) = waiting.pop() else {
                break;
            };
            match names_in(rt, folder.path.as_str()) {
                Ok(names) => {
                    found.sort_in(rt, parts, &folder, names.as_slice(), &mut waiting)?;
                }
                Err(error) => {
                    let name = wording::word(alloc, folder.path.as_str().as_bytes())?;
                    let stop = Stop::failed(alloc, name.as_str(), "read", error);
                    if turn == 0 {
                        return Err(stop);
                    }
                    found.tell(stop)?;
                }
            }
        }
        builds::sort(&mut found.builds)?;
        found.unread.sort()?;
        Ok(found)
    }

    fn tell(&mut self, stop: Stop) -> Result<(), AllocError> {
        match stop.message {
            Some(message) => Ok(self.unread.push(message)?),
            None => Err(AllocError),
        }
    }

    // Notes the tables in a folder, and the folders that wait; removes what an earlier run has left.
    fn sort_in(
        &mut self,
        rt: &HostRuntime,
        parts: &Parts,
        folder: &Waiting,
        names: &[u8],
        waiting: &mut Vec<Waiting>,
    ) -> Result<(), Stop> {
        for name in names.split(|byte| *byte == 0) {
            if name.is_empty() || name == b".".as_slice() || name == b"..".as_slice() {
                continue;
            }
            match std::str::from_utf8(name) {
                Ok(text) => self.note(rt, parts, folder, text, waiting)?,
                Err(_) => self.note_unnamed(rt.alloc(), folder, name)?,
            }
        }
        Ok(())
    }

    fn note(
        &mut self,
        rt: &HostRuntime,
        parts: &Parts,
        folder: &Waiting,
        name: &str,
        waiting: &mut Vec<Waiting>,
    ) -> Result<(), Stop> {
        let alloc = rt.alloc();
        let path = joined(alloc, folder.path.as_str(), name)?;
        // what a link leads to may be a folder above: it is not entered
        let is_folder = match fs::symlink_metadata(rt, path.as_str()) {
            Ok(there) => there.is_dir(),
            Err(_) => false,
        };
        if is_folder {
            let mut way = folder.way_to(name.as_bytes())?;
            way.push(b'/')?;
            waiting.push(Waiting { path, way })?;
        } else if name.ends_with(".table") {
            let way = folder.way_to(name.as_bytes())?;
            self.builds.push(Build::at(alloc, way)?)?;
        } else if parts.is_leftover(rt, name) {
            // whoever else removes it first is welcome
            let _ = fs::remove_file(rt, path.as_str());
        }
        Ok(())
    }

    // What has no name in UTF-8 cannot be asked for. A table is one that cannot be read; of what may be a folder it is told that nobody looked into it.
    fn note_unnamed(&mut self, alloc: Global, folder: &Waiting, name: &[u8]) -> Result<(), Stop> {
        let way = folder.way_to(name)?;
        if name.ends_with(b".table".as_slice()) {
            self.builds.push(Build::at(alloc, way)?)?;
            return Ok(());
        }
        let mut path = Vec::from_slice(alloc, folder.path.as_str().as_bytes())?;
        if !path.ends_with(b"/".as_slice()) {
            path.push(b'/')?;
        }
        path.extend_from_slice(name)?;
        let name = wording::word(alloc, path.as_slice())?;
        self.tell(Stop::failed(
            alloc,
            name.as_str(),
            "read",
            io::Error::new(ErrorKind::InvalidFilename, NO_UTF_8),
        ))?;
        Ok(())
    }
}

const NO_UTF_8: &str = "its name is no UTF-8, and only such names can be opened";

// The path of what has a name in a folder.
fn joined(alloc: Global, folder: &str, name: &str) -> Result<String, AllocError> {
    let slash = if folder.ends_with('/') { "" } else { "/" };
    format!(in alloc; "{folder}{slash}{name}")
}

impl Waiting {
    // The way to what has a name in it.
    fn way_to(&self, name: &[u8]) -> Result<Vec<u8>, AllocError> {
        let mut way = self.way.clone()?;
        way.extend_from_slice(name)?;
        Ok(way)
    }
}

// A folder of the file system as its builds are reported.
#[derive(Drop)]
pub struct Disk<'a> {
    pub rt: &'a HostRuntime,
    // the folder that everything lies below
    pub first: String,
    pub parts: Parts,
    // what is to be told of builds
    pub messages: Vec<String>,
    pub progress: Progress,
}

impl<'a> Disk<'a> {
    fn keep(&mut self, message: Option<String>) {
        if let Some(message) = message {
            let _ = self.messages.push(message);
        }
    }

    // Keeps it that a file could not be `read`, or `written`.
    fn keep_failure(&mut self, path: &[u8], doing: &str, error: io::Error) {
        let alloc = self.rt.alloc();
        if let Ok(name) = wording::word(alloc, path) {
            let message = Stop::failed(alloc, name.as_str(), doing, error).message;
            self.keep(message);
        }
    }

    // The path of a build's table, as bytes.
    fn table_of(&self, build: &Build) -> Result<Vec<u8>, AllocError> {
        let mut path = Vec::from_slice(self.rt.alloc(), self.first.as_str().as_bytes())?;
        if !path.ends_with(b"/".as_slice()) {
            path.push(b'/')?;
        }
        path.extend_from_slice(build.way.as_slice())?;
        Ok(path)
    }

    // Puts a file beside a build's table: its name ends so in place of `table`.
    pub fn put_beside(&mut self, build: &Build, end: &[u8], bytes: &[u8]) -> Result<(), Unwritten> {
        let Ok(table) = self.table_of(build) else {
            return Err(Unwritten);
        };
        let Ok(path) = beside(self.rt.alloc(), table.as_slice(), end) else {
            return Err(Unwritten);
        };
        match put_file(self.rt, &mut self.parts, path.as_slice(), bytes) {
            Ok(()) => Ok(()),
            Err(error) => {
                self.keep_failure(path.as_slice(), "written", error);
                Err(Unwritten)
            }
        }
    }
}

fn text_of(rt: &HostRuntime, path: &[u8], buf: &mut [u8]) -> io::Result<usize> {
    let path = path_of(path)?;
    // what is no plain file is not waited for: nobody might ever write into a pipe
    if !fs::metadata(rt, path)?.is_file() {
        return Err(io::Error::other("it is no plain file"));
    }
    read_input(&mut fs::open(rt, path)?, buf)
}

// The file beside a table whose name ends so in place of `table`.
fn beside(alloc: Global, table: &[u8], end: &[u8]) -> Result<Vec<u8>, AllocError> {
    let name = table.strip_suffix(b"table".as_slice()).unwrap_or(table);
    let mut path = Vec::from_slice(alloc, name)?;
    path.extend_from_slice(end)?;
    Ok(path)
}

fn put_file(rt: &HostRuntime, parts: &mut Parts, path: &[u8], bytes: &[u8]) -> io::Result<()> {
    parts.replace(rt, path_of(path)?, bytes)
}

impl<'a> Folder for Disk<'a> {
    ghost held = { λ _. None };

    fn read(&mut self, build: &Build, buf: &mut [u8]) -> Result<usize, Unread> {
        let Ok(path) = self.table_of(build) else {
            return Err(Unread);
        };
        match text_of(self.rt, path.as_slice(), buf) {
            Ok(len) => Ok(len.min(buf.len())),
            Err(error) => {
                self.keep_failure(path.as_slice(), "read", error);
                Err(Unread)
            }
        }
    }

    fn put(&mut self, build: &Build, report: &[u8]) -> Result<(), Unwritten> {
        self.put_beside(build, b"report", report)
    }

    fn hear(&mut self, build: &Build, text: &[u8], fate: Fate) {
        self.progress.step(self.rt);
        if let Fate::Refused(refusal) = fate {
            let alloc = self.rt.alloc();
            let Ok(path) = self.table_of(build) else {
                return;
            };
            let Ok(name) = wording::word(alloc, path.as_slice()) else {
                return;
            };
            self.keep(refused::told(alloc, name.as_str(), text, refusal).ok());
        }
    }
}
