// The command show alone, as a program. It stands on fewer crates than crpd_command, which has all commands, so that people have their first figures sooner.
#![tactic(auto)]

use asked::ending::Outcome;
use command_line::{conclude, show, words};
use std::process::ExitCode;

fn main(rt: HostRuntime) -> ExitCode {
    conclude(&rt, run(&rt))
}

fn run(rt: &HostRuntime) -> Outcome {
    show::perform(rt, words(rt)?.as_slice())
}
