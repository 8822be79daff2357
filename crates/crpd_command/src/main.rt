// crpd: one command for people over the proved operations.
#![tactic(auto)]

mod answers;
mod commands;
mod compared;
mod deadlines;
mod dossiers;
mod evaluate;
mod help;
mod partner;
mod pool;
mod replays;
mod version;

use crate::commands::Command;
use asked::ending::{Ending, Outcome, Stop};
use command_line::{conclude, given, print_help, words};
use std::alloc::{AllocError, Global};
use std::fmt::Write as _;
use std::process::ExitCode;

fn main(rt: HostRuntime) -> ExitCode {
    conclude(&rt, run(&rt))
}

fn run(rt: &HostRuntime) -> Outcome {
    let alloc = rt.alloc();
    let words = words(rt)?;
    let Some((first, rest)) = words.as_slice().split_first() else {
        return Err(Stop::wrong(alloc, "what is to be done? crpd help lists the commands"));
    };
    let first = first.as_slice();
    if is_help(first) {
        return teach(rt, rest);
    }
    if first == b"--version".as_slice() {
        return tell_version(rt, rest);
    }
    match commands::find(first) {
        Some(command) => perform(rt, command, rest),
        None => Err(no_command(alloc, first)),
    }
}

fn is_help(word: &[u8]) -> bool {
    word == b"help".as_slice() || word == b"--help".as_slice() || word == b"-h".as_slice()
}

fn perform(rt: &HostRuntime, command: Command, words: &[Vec<u8>]) -> Outcome {
    match given(rt, command.manual(), words)? {
        Some(arguments) => command.run(rt, &arguments),
        None => Ok(Ending::Given),
    }
}

fn no_command(alloc: Global, name: &[u8]) -> Stop {
    match wording::word(alloc, name) {
        Ok(name) => match format!(in alloc;
            "there is no command {name}; crpd help lists those that there are"
        ) {
            Ok(message) => Stop::wrong_use(message),
            Err(error) => Stop::from(error),
        },
        Err(error) => Stop::from(error),
    }
}

fn overview(alloc: Global) -> Result<String, AllocError> {
    let mut text = String::from_str(alloc, help::OPENING)?;
    for command in commands::ALL {
        let (name, summary) = (command.name(), command.summary());
        write!(text, "  crpd {name:8}  {summary}\n")?;
    }
    text.push_str(help::CLOSING)?;
    Ok(text)
}

fn teach(rt: &HostRuntime, words: &[Vec<u8>]) -> Outcome {
    match words {
        [] => {}
        [name] if is_help(name.as_slice()) => {}
        [name] => {
            return match commands::find(name.as_slice()) {
                Some(command) => print_help(rt, command.manual()),
                None => Err(no_command(rt.alloc(), name.as_slice())),
            };
        }
        _ => return Err(Stop::wrong(rt.alloc(), "crpd help takes one command")),
    }
    console::print(rt, overview(rt.alloc())?.as_str().as_bytes())?;
    Ok(Ending::Given)
}

fn tell_version(rt: &HostRuntime, words: &[Vec<u8>]) -> Outcome {
    if !words.is_empty() {
        return Err(Stop::wrong(rt.alloc(), "crpd --version takes nothing more"));
    }
    let (number, toolchain) = (version::NUMBER, version::TOOLCHAIN);
    let text = format!(in rt.alloc(); "crpd {number}\nproved with {toolchain}\n")?;
    console::print(rt, text.as_str().as_bytes())?;
    Ok(Ending::Given)
}
