// Where results go: standard output, or a file that is written aside and then renamed; whole files that are read, and builds below a folder.
#![tactic(auto)]

// Builds below a folder of the file system.
pub mod disk;
// How far the work is.
pub mod progress;

use asked::arguments::{Arguments, Opt};
use asked::ending::Stop;
use console::{Input, named, path_of, print};
use std::alloc::{AllocError, Global};
use std::fmt::Write as _;
use std::fs::{self, Metadata, OpenOptions, Permissions};
use std::io::{self, ErrorKind, Read, Write};
use std::os::unix::fs::MetadataExt;

// The path of a folder that is named.
pub fn path_of_folder(alloc: Global, name: &[u8]) -> Result<String, Stop> {
    match path_of(name) {
        Ok(path) => Ok(String::from_str(alloc, path)?),
        Err(error) => {
            let name = wording::word(alloc, name)?;
            Err(Stop::failed(alloc, name.as_str(), "read", error))
        }
    }
}

// Whether a folder has this name.
pub fn is_folder(rt: &HostRuntime, name: &[u8]) -> bool {
    match (named(Some(name)), path_of(name)) {
        (Some(_), Ok(path)) => match fs::metadata(rt, path) {
            Ok(there) => there.is_dir(),
            Err(_) => false,
        },
        _ => false,
    }
}

fn whole_file(rt: &HostRuntime, name: &[u8]) -> io::Result<Vec<u8>> {
    fs::read(rt, path_of(name)?)
}

fn whole_input(rt: &HostRuntime) -> io::Result<Vec<u8>> {
    let mut text = Vec::new(rt.alloc());
    rt.stdin().read_to_end(&mut text)?;
    Ok(text)
}

// All that a file has, however long it is; `-` is standard input.
pub fn whole(rt: &HostRuntime, file: &[u8]) -> Result<Input, Stop> {
    let alloc = rt.alloc();
    let (name, text) = match named(Some(file)) {
        Some(path) => (wording::word(alloc, path)?, whole_file(rt, path)),
        None => (String::from_str(alloc, "standard input")?, whole_input(rt)),
    };
    match text {
        Ok(text) => Ok(Input { name, text }),
        Err(error) => Err(Stop::failed(alloc, name.as_str(), "read", error)),
    }
}

// What the operating system says of what is read.
fn described(rt: &HostRuntime, file: Option<&[u8]>) -> io::Result<Metadata> {
    match named(file) {
        Some(name) => fs::metadata(rt, path_of(name)?),
        None => fs::metadata(rt, "/proc/self/fd/0"),
    }
}

fn described_output(rt: &HostRuntime, out: &[u8]) -> io::Result<Metadata> {
    fs::metadata(rt, path_of(out)?)
}

// Whether an output is the plain file that was read.
pub fn is_input(rt: &HostRuntime, file: Option<&[u8]>, out: &[u8]) -> bool {
    match (described(rt, file), described_output(rt, out)) {
        (Ok(read), Ok(written)) => read.is_file() && is_same(&read, &written),
        _ => false,
    }
}

// The kinds of files that are no outputs: tables, and the reports beside them.
const NO_OUTPUTS: [&str; 2] = ["table", "report"];

// Whether a path is called like a file of a kind.
fn is_of_kind(path: &str, kind: &str) -> bool {
    match path.strip_suffix(kind) {
        Some(rest) => rest.ends_with('.'),
        None => false,
    }
}

// The name of the file that is to be written; `-`, standard output, where none is given. What is a table, or a report, is not written over.
pub fn output<'a>(rt: &HostRuntime, arguments: &'a Arguments) -> Result<&'a [u8], Stop> {
    let alloc = rt.alloc();
    let name = arguments.value(Opt::Output).unwrap_or(b"-");
    if name.is_empty() {
        return Err(Stop::wrong(alloc, "the name of the output is empty"));
    }
    let Ok(path) = path_of(name) else {
        return Ok(name);
    };
    let steps = steps(rt, path)?;
    for kind in NO_OUTPUTS {
        if steps
            .as_slice()
            .iter()
            .any(|step| is_of_kind(step.as_str(), kind))
        {
            let name = wording::word(alloc, name)?;
            return Err(Stop::wrong_use(format!(in alloc;
                "{name} is the name of a {kind}, and would be written over"
            )?));
        }
    }
    Ok(name)
}

fn is_same(one: &Metadata, other: &Metadata) -> bool {
    one.dev() == other.dev() && one.ino() == other.ino()
}

fn is_standard_output(rt: &HostRuntime, there: &Metadata) -> bool {
    match fs::metadata(rt, "/proc/self/fd/1") {
        Ok(standard) => is_same(&standard, there),
        Err(_) => false,
    }
}

// Whether a name stands for what somebody has open, as `/dev/fd/3` does.
fn is_descriptor(path: &str) -> bool {
    let folder = match path.rsplit_once('/') {
        Some((folder, _)) => folder,
        None => "",
    };
    (folder == "fd" || folder.ends_with("/fd"))
        && (folder.starts_with("/dev/") || folder.starts_with("/proc/"))
}

// Links that are followed, as many as the kernel follows.
const LINKS_MOST: usize = 40;

// A path, and where it leads to through symbolic links, step by step. The last is no link.
pub fn steps(rt: &HostRuntime, path: &str) -> Result<Vec<String>, AllocError> {
    let alloc = rt.alloc();
    let mut steps = Vec::new(alloc);
    let mut last = String::from_str(alloc, path)?;
    for _ in 0..LINKS_MOST {
        let Ok(link) = fs::read_link(rt, last.as_str()) else {
            break;
        };
        let next = beside(alloc, last.as_str(), link.as_str())?;
        steps.push(last)?;
        last = next;
    }
    steps.push(last)?;
    Ok(steps)
}

// The folder of a path, with its slash, or nothing.
fn folder_of(path: &str) -> &str {
    match path.rsplit_once('/') {
        Some((folder, _)) => path.get(..folder.len().saturating_add(1)).unwrap_or(""),
        None => "",
    }
}

// A name from where a file lies.
fn beside(alloc: Global, path: &str, name: &str) -> Result<String, AllocError> {
    if name.starts_with('/') {
        return String::from_str(alloc, name);
    }
    let folder = folder_of(path);
    format!(in alloc; "{folder}{name}")
}

fn append(rt: &HostRuntime, path: &str, text: &[u8]) -> io::Result<()> {
    let mut file = OpenOptions::new().append(true).open(rt, path)?;
    file.write_all(text)
}

// How files that are written aside are called: `.crpd-HOST-PROCESS-NUMBER.part`.
#[derive(Drop)]
pub struct Parts {
    start: String,
    process: u32,
    next: u64,
}

impl Parts {
    pub fn new(rt: &HostRuntime) -> Result<Parts, AllocError> {
        let alloc = rt.alloc();
        let mut start = String::from_str(alloc, ".crpd-")?;
        let name = fs::read(rt, "/proc/sys/kernel/hostname").unwrap_or(Vec::new(alloc));
        for byte in name.as_slice().trim_ascii().iter().take(64) {
            let plain = byte.is_ascii_alphanumeric() || *byte == b'.';
            start.push(if plain { char::from(*byte) } else { '_' })?;
        }
        start.push('-')?;
        Ok(Parts {
            start,
            process: std::process::id(rt.process()),
            next: 0,
        })
    }

    fn next_path(&mut self, alloc: Global, folder: &str) -> Result<String, AllocError> {
        let (start, process, number) = (self.start.as_str(), self.process, self.next);
        self.next = number.wrapping_add(1);
        format!(in alloc; "{folder}{start}{process}-{number}.part")
    }

    // Whether a file of that name was written aside on this machine by a process that is no more.
    pub fn is_leftover(&self, rt: &HostRuntime, name: &str) -> bool {
        let Some(rest) = name.strip_prefix(self.start.as_str()) else {
            return false;
        };
        let Some(numbers) = rest.strip_suffix(".part") else {
            return false;
        };
        let process = match numbers.split_once('-') {
            Some((process, _)) => process,
            None => numbers,
        };
        match process.parse::<u32>() {
            Ok(process) => !is_running(rt, process),
            Err(_) => false,
        }
    }

    // Writes a file: aside, and renamed once it is whole, so that nothing half-written ever stands under its name. A link under that name is
    // replaced, and not followed; what is neither a file nor a link stays.
    pub fn replace(&mut self, rt: &HostRuntime, path: &str, text: &[u8]) -> io::Result<()> {
        let before = match fs::symlink_metadata(rt, path) {
            Ok(there) if there.is_file() => Some(there.permissions()),
            Ok(there) if there.is_symlink() => None,
            Ok(_) => return Err(io::Error::other("there is something else than a file")),
            Err(_) => None,
        };
        let alloc = rt.alloc();
        let folder = folder_of(path);
        for _ in 0..u64::MAX {
            let aside = self.next_path(alloc, folder)?;
            match OpenOptions::new()
                .write(true)
                .create_new(true)
                .open(rt, aside.as_str())
            {
                // a leftover of a process that had the same number
                Err(error) if error.kind() == ErrorKind::AlreadyExists => {}
                Err(error) => return Err(error),
                Ok(file) => {
                    let written = match fill(file, text, before) {
                        Ok(()) => put_in_place(rt, aside.as_str(), path, text),
                        Err(error) => Err(error),
                    };
                    if written.is_err() {
                        let _ = fs::remove_file(rt, aside.as_str());
                    }
                    return written;
                }
            }
        }
        Err(io::Error::other("no name is free"))
    }
}

fn fill(mut file: fs::File, text: &[u8], before: Option<Permissions>) -> io::Result<()> {
    file.write_all(text)?;
    if let Some(permissions) = before {
        file.set_permissions(permissions)?;
    }
    Ok(())
}

// Whether a file that is closed has all that was written: some file systems find only at its end that there is no room, and std does not tell how closing went.
fn is_whole(rt: &HostRuntime, path: &str, text: &[u8]) -> io::Result<()> {
    if fs::symlink_metadata(rt, path)?.len() == text.len() as u64 {
        Ok(())
    } else {
        Err(io::Error::other("it was not written whole"))
    }
}

fn put_in_place(rt: &HostRuntime, aside: &str, path: &str, text: &[u8]) -> io::Result<()> {
    is_whole(rt, aside, text)?;
    fs::rename(rt, aside, path)
}

// Whether a process of this machine is running, or may be, as nobody knows.
fn is_running(rt: &HostRuntime, process: u32) -> bool {
    let Ok(path) = format!(in rt.alloc(); "/proc/{process}/stat") else {
        return true;
    };
    match fs::read(rt, path.as_str()) {
        Ok(told) => !has_ended(told.as_slice()),
        Err(error) => {
            error.kind() != ErrorKind::NotFound || !fs::exists(rt, "/proc/self").unwrap_or(false)
        }
    }
}

// Whether a process has ended and only waits to be asked how: its state, which stands after its name in brackets, is Z or X.
fn has_ended(told: &[u8]) -> bool {
    match told.iter().rposition(|byte| *byte == b')') {
        Some(end) => match told.get(end.saturating_add(2)) {
            Some(state) => *state == b'Z' || *state == b'X',
            None => false,
        },
        None => false,
    }
}

// Writes to the file of that name, or to standard output where it is `-` or leads there. What is there and is no plain file, as a device or a pipe,
// is written to as it is.
pub fn deliver(rt: &HostRuntime, name: &[u8], text: &[u8]) -> Result<(), Stop> {
    if name == b"-".as_slice() {
        return print(rt, text);
    }
    let alloc = rt.alloc();
    let shown = wording::word(alloc, name)?;
    let path = match path_of(name) {
        Ok(path) => path,
        Err(error) => return Err(Stop::failed(alloc, shown.as_str(), "written", error)),
    };
    let there = fs::metadata(rt, path);
    if let Ok(there) = &there {
        if is_standard_output(rt, there) {
            return print(rt, text);
        }
    }
    let steps = steps(rt, path)?;
    let is_open = steps
        .as_slice()
        .iter()
        .any(|step| is_descriptor(step.as_str()));
    let last = match steps.as_slice().last() {
        Some(last) => last.as_str(),
        None => path,
    };
    let written = match there {
        Ok(there) if !there.is_file() || is_open => append(rt, path, text),
        Ok(_) => Parts::new(rt)?.replace(rt, last, text),
        Err(error) if error.kind() == ErrorKind::NotFound => Parts::new(rt)?.replace(
            rt, last, text,
        ),
        Err(error) => Err(error),
    };
    match written {
        Ok(()) => Ok(()),
        Err(error) if error.kind() == ErrorKind::BrokenPipe => Ok(()),
        Err(error) => Err(Stop::failed(alloc, shown.as_str(), "written", error)),
    }
}
