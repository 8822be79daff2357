// The report as people see it, on standard output.
use crate::{Manual, ended, given};
use asked::arguments::{Arguments, Form};
use asked::ending::{Ending, Outcome};
use std::io::IsTerminal;

// What people are taught of it, and that it may be given a file.
pub const MANUAL: Manual = Manual {
    usage: "show [FILE]",
    lesson: LESSON,
    form: Form {
        options: &[],
        needs_output: false,
        least: 0,
        most: 1,
        task: None,
    },
};

const LESSON: &str =
    "Prints the report as a table with headings: each task's limit (deadline less\njitter) and its responses, - where there is none, and below which methods\npass, that is, leave every task a response. Colours are used on a terminal\nonly, and not where NO_COLOR is set.\n\nExample:\n  $ crpd show examples/controller.table\n  task    limit  none  ecb-only  ucb-only  ucb-union  ecb-union  combined\n  valve     200    40        40        40         40         40        40\n  motor     500   140       180       170        170        170       170\n  log      1000   660         -         -        960        910       910\n  passes          yes        no        no        yes        yes       yes\n";

// What the words behind the name `show` ask for.
pub fn perform(rt: &HostRuntime, words: &[Vec<u8>]) -> Outcome {
    match given(rt, MANUAL, words)? {
        Some(arguments) => show(rt, &arguments),
        None => Ok(Ending::Given),
    }
}

// Colours are for a terminal alone, and not for those who do not want them.
fn has_colours(rt: &HostRuntime) -> bool {
    let wanted = match std::env::var(rt, "NO_COLOR") {
        Ok(value) => value.as_str().is_empty(),
        Err(std::env::VarError::NotPresent) => true,
        Err(_) => false,
    };
    wanted && console::is_lively(rt, rt.stdout().is_terminal())
}

// Writes the report of the text that is named, for people.
pub fn show(rt: &HostRuntime, arguments: &Arguments) -> Outcome {
    let input = console::read(rt, arguments.operand(0))?;
    let colours = has_colours(rt);
    let text = input.text.as_slice();
    let answered = shown::show(rt.alloc(), text, colours, &mut rt.stdout())?;
    ended(rt, &input, answered)
}
