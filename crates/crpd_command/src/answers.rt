// The commands that ask one question of one table.
use answered::Question;
use asked::arguments::{Arguments, Asked, Opt};
use asked::ending::{Ending, Outcome, Stop};
use bars::Undrawn;
use command_line::{ended, refused_stop};
use console::Input;
use files::deliver;
use std::alloc::{AllocError, Global};
use std::fmt::Write as _;
use table::Table;

// The method that an operand names, by its number.
pub fn method(alloc: Global, arguments: &Arguments, at: usize) -> Result<u64, Stop> {
    let word = arguments.operand(at).unwrap_or(b"");
    if let Some(number) = method_of(word) {
        return Ok(number);
    }
    let word = wording::word(alloc, word)?;
    Err(Stop::wrong_use(format!(in alloc;
        "there is no method {word}: it is 0 to 5, or none, ecb-only, ucb-only, ucb-union, ecb-union, combined (12)"
    )?))
}

// The method that is written as its number or its name.
fn method_of(written: &[u8]) -> Option<u64> {
    for (name, number) in methods::names().iter().zip(0u64..) {
        if written == name.as_bytes() {
            return Some(number);
        }
    }
    match written {
        [digit] if (b'0'..=b'5').contains(digit) => Some((*digit - b'0') as u64),
        _ => None,
    }
}

pub fn all_pass(verdicts: [bool; 6]) -> bool {
    verdicts.iter().all(|passes| *passes)
}

// Answers a question about a text, on standard output.
pub fn ask(rt: &HostRuntime, input: &Input, question: Question) -> Outcome {
    let answered = answered::answer(question, input.text.as_slice(), &mut rt.stdout());
    ended(rt, input, answered)
}

pub fn report(rt: &HostRuntime, arguments: &Arguments) -> Outcome {
    ask(
        rt,
        &console::read(rt, arguments.operand(0))?,
        Question::Report,
    )
}

// Refuses an output that is the table itself.
pub fn spare_input(
    rt: &HostRuntime,
    input: &Input,
    file: Option<&[u8]>,
    out: &[u8],
) -> Result<(), Stop> {
    if out != b"-".as_slice() && files::is_input(rt, file, out) {
        let name = input.name.as_str();
        return Err(Stop::wrong_use(format!(in rt.alloc();
            "{name} is the table itself, and would be written over"
        )?));
    }
    Ok(())
}

pub fn plot(rt: &HostRuntime, arguments: &Arguments) -> Outcome {
    let alloc = rt.alloc();
    let (file, out) = (arguments.operand(0), files::output(rt, arguments)?);
    let input = console::read(rt, file)?;
    spare_input(rt, &input, file, out)?;
    match bars::picture(alloc, input.name.as_str(), input.text.as_slice()) {
        Ok(drawn) => {
            deliver(rt, out, drawn.text.as_str().as_bytes())?;
            Ok(Ending::of_responses(drawn.passes))
        }
        Err(Undrawn::Refused(refusal)) => Err(refused_stop(alloc, &input, refusal)),
        Err(Undrawn::NoMemory) => Err(Stop::from(AllocError)),
    }
}

// The position of the task asked for. A text that is refused has no tasks, so that comes first.
pub fn position(alloc: Global, input: &Input, asked: Asked<'_>) -> Result<u64, Stop> {
    let mut table = Table::empty();
    if let Err(refusal) = table.read(input.text.as_slice()) {
        return Err(refused_stop(alloc, input, refusal));
    }
    match asked {
        Asked::Named(word) => named(alloc, input, &table, word),
        Asked::At(position, written) => counted(alloc, input, &table, position, written),
    }
}

fn named(alloc: Global, input: &Input, table: &Table, word: &[u8]) -> Result<u64, Stop> {
    for (task, position) in table.tasks().iter().zip(0u64..) {
        if task.name.text() == word {
            return Ok(position);
        }
    }
    let (name, word) = (input.name.as_str(), wording::word(alloc, word)?);
    Err(Stop::wrong_use(format!(in alloc; "{name}: there is no task {word} (13)")?))
}

fn counted(
    alloc: Global,
    input: &Input,
    table: &Table,
    position: u64,
    written: &[u8],
) -> Result<u64, Stop> {
    let count = table.tasks().len() as u64;
    if position < count {
        return Ok(position);
    }
    let name = input.name.as_str();
    let (word, last) = (wording::word(alloc, written)?, count.saturating_sub(1));
    Err(Stop::wrong_use(format!(in alloc;
        "{name}: there is no task {word}: the positions are 0 to {last} (13)"
    )?))
}

pub fn answer(rt: &HostRuntime, arguments: &Arguments) -> Outcome {
    let (method, asked) = (method(rt.alloc(), arguments, 0)?, arguments.task(1)?);
    let input = console::read(rt, arguments.operand(2))?;
    let position = position(rt.alloc(), &input, asked)?;
    ask(rt, &input, Question::Answer { method, position })
}

pub fn explain(rt: &HostRuntime, arguments: &Arguments) -> Outcome {
    let (method, asked) = (method(rt.alloc(), arguments, 0)?, arguments.task(1)?);
    let input = console::read(rt, arguments.operand(2))?;
    let position = position(rt.alloc(), &input, asked)?;
    if arguments.has(Opt::Words) {
        explain_in_words(rt, &input, method, position)
    } else {
        ask(rt, &input, Question::Explain { method, position })
    }
}

fn explain_in_words(rt: &HostRuntime, input: &Input, method: u64, position: u64) -> Outcome {
    let (alloc, text) = (rt.alloc(), input.text.as_slice());
    let answered = sentences::explain(alloc, text, method, position, &mut rt.stdout())?;
    ended(rt, input, answered)
}

pub fn growth(rt: &HostRuntime, arguments: &Arguments) -> Outcome {
    let method = method(rt.alloc(), arguments, 0)?;
    let input = console::read(rt, arguments.operand(1))?;
    ask(rt, &input, Question::Growth { method })
}

pub fn scaled(rt: &HostRuntime, arguments: &Arguments) -> Outcome {
    let method = method(rt.alloc(), arguments, 0)?;
    let input = console::read(rt, arguments.operand(1))?;
    ask(rt, &input, Question::Scaled { method })
}
