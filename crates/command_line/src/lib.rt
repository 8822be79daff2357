// A program's command line: its words, what a command is given by them, and how the program ends.
#![tactic(auto)]

// The command show.
pub mod show;

use asked::arguments::{self, Arguments, Form};
use asked::ending::{Ending, Outcome, Stop};
use console::Input;
use endings::Answered;
use std::alloc::{AllocError, Global};
use std::env::FillError;
use std::fmt::Write as _;
use std::process::ExitCode;
use std::rt::Env;
use texts::refusals::Refusal;

// What people are taught of a command, and what it may be given.
#[derive(Clone, Copy)]
pub struct Manual {
    pub usage: &'static str,
    pub lesson: &'static str,
    pub form: Form,
}

// Tells why nothing was given, where that is so, and gives the exit status.
pub fn conclude(rt: &HostRuntime, outcome: Outcome) -> ExitCode {
    match outcome {
        Ok(ending) => ExitCode::from(ending.status()),
        Err(stop) => {
            let ending = stop.ending;
            tell_why(rt, &stop.message);
            ExitCode::from(ending.status())
        }
    }
}

fn tell_why(rt: &HostRuntime, message: &Option<String>) {
    match message {
        Some(message) => console::tell(rt, message.as_str()),
        None => console::tell(rt, "there is no memory left"),
    }
}

// The longest word that Linux hands on.
const LONGEST: usize = 131_072;

// The words of the command line, which may be any bytes.
pub fn words(rt: &HostRuntime) -> Result<Vec<Vec<u8>>, Stop> {
    let alloc = rt.alloc();
    let mut words = Vec::new(alloc);
    let mut short = [0u8; 4096];
    for at in 1..usize::MAX {
        match rt.arg(at, &mut short) {
            Ok(len) => words.push(Vec::from_slice(alloc, &short[..len])?)?,
            Err(FillError::NotPresent) => break,
            Err(FillError::TooLong) => words.push(long_word(rt, at)?)?,
        }
    }
    Ok(words)
}

fn long_word(rt: &HostRuntime, at: usize) -> Result<Vec<u8>, Stop> {
    let alloc = rt.alloc();
    let mut long = vec![in alloc; 0u8; LONGEST]?;
    match rt.arg(at, long.as_mut_slice()) {
        Ok(len) => {
            long.truncate(len);
            Ok(long)
        }
        Err(_) => Err(Stop::wrong(alloc, "an argument is too long")),
    }
}

// What a command is given by the words behind its name; nothing, where they ask for help: that is printed.
pub fn given(
    rt: &HostRuntime,
    manual: Manual,
    words: &[Vec<u8>],
) -> Result<Option<Arguments>, Stop> {
    let arguments = match arguments::sorted(rt.alloc(), manual.form, words) {
        Ok(arguments) => arguments,
        Err(stop) => return Err(taught(rt.alloc(), manual, stop)),
    };
    if arguments.wants_help {
        print_help(rt, manual)?;
        return Ok(None);
    }
    Ok(Some(arguments))
}

// What is wrong, and below it how the command is used.
fn taught(alloc: Global, manual: Manual, stop: Stop) -> Stop {
    let usage = manual.usage;
    let message = match &stop.message {
        Some(message) => {
            let message = message.as_str();
            format!(in alloc; "{message}\nusage: crpd {usage}")
        }
        None => Err(AllocError),
    };
    match message {
        Ok(message) => Stop::wrong_use(message),
        Err(error) => Stop::from(error),
    }
}

// Prints what people are taught of a command.
pub fn print_help(rt: &HostRuntime, manual: Manual) -> Outcome {
    let (usage, lesson) = (manual.usage, manual.lesson);
    let text = format!(in rt.alloc(); "usage: crpd {usage}\n\n{lesson}")?;
    console::print(rt, text.as_str().as_bytes())?;
    Ok(Ending::Given)
}

// What is told of a text that is refused.
pub fn refused_stop(alloc: Global, input: &Input, refusal: Refusal) -> Stop {
    match refused::told(alloc, input.name.as_str(), input.text.as_slice(), refusal) {
        Ok(message) => Stop::refused(message),
        Err(error) => Stop::from(error),
    }
}

// How a command ends whose question was answered.
pub fn ended(rt: &HostRuntime, input: &Input, answered: Answered) -> Outcome {
    console::is_written(rt.alloc(), answered.written)?;
    match answered.ending {
        Ok(ending) => Ok(ending),
        Err(refusal) => Err(refused_stop(rt.alloc(), input, refusal)),
    }
}
