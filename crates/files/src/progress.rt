// How far the work is, on standard error: a bar on a terminal, a line now and then elsewhere.
use asked::arguments::{Arguments, Opt};
use asked::ending::Stop;
use std::alloc::AllocError;
use std::fmt::Write as _;
use std::io::{IsTerminal, Write};
use std::time::Instant;

// In milliseconds.
const REDRAWN: u64 = 100;

const TOLD: u64 = 2000;

#[derive(Drop)]
pub struct Progress {
    count: u64,
    // what the things are called
    what: &'static str,
    done: u64,
    began: Option<Instant>,
    last: Option<Instant>,
    lively: bool,
    stands: bool,
}

impl Progress {
    // Of so many things that are to be done.
    pub fn new(rt: &HostRuntime, count: u64, what: &'static str) -> Progress {
        let now = Instant::now(rt).ok();
        Progress {
            count,
            what,
            done: 0,
            began: now,
            last: now,
            lively: console::is_lively(rt, rt.stderr().is_terminal()),
            stands: false,
        }
    }

    // How long it has taken so far, in milliseconds.
    pub fn took(&self, rt: &HostRuntime) -> u64 {
        match self.began {
            Some(began) => since(rt, began),
            None => 0,
        }
    }

    // One thing more is done.
    pub fn step(&mut self, rt: &HostRuntime) {
        self.done = self.done.saturating_add(1);
        let Some(last) = self.last else {
            return;
        };
        let pause = if self.lively { REDRAWN } else { TOLD };
        if since(rt, last) >= pause {
            let _ = self.tell(rt);
            self.last = Instant::now(rt).ok();
        }
    }

    fn tell(&mut self, rt: &HostRuntime) -> Result<(), AllocError> {
        let alloc = rt.alloc();
        let (so_far, all) = (
            wording::number(alloc, self.done)?,
            wording::number(alloc, self.count)?,
        );
        let (left, rate) = (
            wording::number(alloc, self.count.saturating_sub(self.done))?,
            wording::number(alloc, rate(self.done, self.took(rt)))?,
        );
        let what = self.what;
        let line = if self.lively {
            self.stands = true;
            let bar = bar(self.done.saturating_mul(10) / self.count.max(1));
            format!(in alloc;
                "\r\x1b[K[{bar}] {so_far} of {all} {what}, {left} left, {rate} a second"
            )?
        } else {
            format!(in alloc; "crpd: {so_far} of {all} {what}, {left} left, {rate} a second\n")?
        };
        let _ = rt.stderr().write_all(line.as_str().as_bytes());
        Ok(())
    }

    // Removes the bar, if there is one.
    pub fn clear(&mut self, rt: &HostRuntime) {
        if self.stands {
            self.stands = false;
            let _ = rt.stderr().write_all(b"\r\x1b[K");
        }
    }
}

fn bar(full: u64) -> &'static str {
    match full {
        0 => "..........",
        1 => "#.........",
        2 => "##........",
        3 => "###.......",
        4 => "####......",
        5 => "#####.....",
        6 => "######....",
        7 => "#######...",
        8 => "########..",
        9 => "#########.",
        _ => "##########",
    }
}

// How many things are done in a second, where so many took so many milliseconds.
pub fn rate(done: u64, millis: u64) -> u64 {
    done.saturating_mul(1000) / millis.max(1)
}

fn since(rt: &HostRuntime, when: Instant) -> u64 {
    match when.elapsed(rt) {
        Ok(took) => u64::try_from(took.as_millis()).unwrap_or(u64::MAX),
        Err(_) => 0,
    }
}

const JOBS_MOST: u64 = 1000;

// Takes the option --jobs, of which there are none any more, and tells what took its place.
pub fn take_jobs(rt: &HostRuntime, arguments: &Arguments, instead: &str) -> Result<(), Stop> {
    arguments.number(Opt::Jobs, 1, JOBS_MOST, 1)?;
    if arguments.has(Opt::Jobs) {
        let message = format!(in rt.alloc(); "--jobs does nothing: {instead}")?;
        console::tell(rt, message.as_str());
    }
    Ok(())
}
