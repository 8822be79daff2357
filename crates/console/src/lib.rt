// Where a table's text comes from, a file or standard input; and what is printed and told.
#![tactic(auto)]

use asked::ending::Stop;
use std::alloc::{AllocError, Global};
use std::fs;
use std::io::{self, ErrorKind};

// A text, and the name under which people are told of it.
#[derive(Drop)]
pub struct Input {
    pub name: String,
    pub text: Vec<u8>,
}

// The path that bytes name. A path is UTF-8 text here.
pub fn path_of(name: &[u8]) -> io::Result<&str> {
    match std::str::from_utf8(name) {
        Ok(path) => Ok(path),
        Err(_) => Err(io::Error::new(
            ErrorKind::InvalidFilename,
            "its name is no UTF-8, and only such names can be opened",
        )),
    }
}

// The file that is named; none where it is standard input.
pub fn named(file: Option<&[u8]>) -> Option<&[u8]> {
    match file {
        Some(name) if name != b"-".as_slice() => Some(name),
        _ => None,
    }
}

fn of_file(rt: &HostRuntime, name: &[u8]) -> io::Result<Vec<u8>> {
    streams::read_text(rt.alloc(), &mut fs::open(rt, path_of(name)?)?)
}

// The text of a file; that of standard input where none is named, or `-`.
pub fn read(rt: &HostRuntime, file: Option<&[u8]>) -> Result<Input, Stop> {
    let alloc = rt.alloc();
    let (name, text) = match named(file) {
        Some(path) => (wording::word(alloc, path)?, of_file(rt, path)),
        None => (
            String::from_str(alloc, "standard input")?,
            streams::read_text(alloc, &mut rt.stdin()),
        ),
    };
    match text {
        Ok(text) => Ok(Input { name, text }),
        Err(error) => Err(Stop::failed(alloc, name.as_str(), "read", error)),
    }
}

// Whether standard output got all. That nobody reads it any more is no failure.
pub fn is_written(alloc: Global, written: io::Result<()>) -> Result<(), Stop> {
    match written {
        Ok(()) => Ok(()),
        Err(error) if error.kind() == ErrorKind::BrokenPipe => Ok(()),
        Err(error) => Err(Stop::failed(alloc, "standard output", "written", error)),
    }
}

// Writes to standard output.
pub fn print(rt: &HostRuntime, text: &[u8]) -> Result<(), Stop> {
    let alloc = rt.alloc();
    is_written(alloc, terminal::print(alloc, text, &mut rt.stdout()))
}

// Says something on standard error. That nobody can be told is no reason to stop.
pub fn tell(rt: &HostRuntime, message: &str) {
    let _ = terminal::tell(rt.alloc(), message.as_bytes(), &mut rt.stderr());
}

// Whether a terminal is more than paper: it can be written over, and has colours.
pub fn is_lively(rt: &HostRuntime, is_terminal: bool) -> bool {
    is_terminal
        && match std::env::var(rt, "TERM") {
            Ok(kind) => kind.as_str() != "dumb",
            Err(_) => true,
        }
}
