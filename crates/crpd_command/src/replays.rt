// A replay tick by tick: when a first job ends, and the ticks until then as a picture.
use crate::answers::{ask, position, spare_input};
use answered::Question;
use asked::arguments::{Arguments, Opt};
use asked::ending::{Ending, Outcome, Stop};
use cache::units::Ticks;
use command_line::refused_stop;
use console::Input;
use files::deliver;
use replay::ticks::LONGEST_PAGE;
use std::alloc::Global;
use table::Table;
use table::accepted::Accepted;

pub fn replay(rt: &HostRuntime, arguments: &Arguments) -> Outcome {
    let alloc = rt.alloc();
    let (asked, file) = (arguments.task(0)?, arguments.operand(1));
    let out = if arguments.has(Opt::Output) {
        Some(files::output(rt, arguments)?)
    } else {
        None
    };
    let input = console::read(rt, file)?;
    if let Some(out) = out {
        spare_input(rt, &input, file, out)?;
    }
    let text = input.text.as_slice();
    // a jitter or an access is told before a task that is not there
    let mut page = [0u8; LONGEST_PAGE];
    if let Err(refusal) = crpd::ticks(text, 0, &mut page) {
        return Err(refused_stop(alloc, &input, refusal));
    }
    let position = position(alloc, &input, asked)?;
    let Some(out) = out else {
        return ask(rt, &input, Question::Replay { position });
    };
    let end = match crpd::replay(text, position) {
        Ok(end) => end,
        Err(refusal) => return Err(refused_stop(alloc, &input, refusal)),
    };
    let picture = pictured(alloc, &input, position, end)?;
    deliver(rt, out, picture.as_str().as_bytes())?;
    Ok(Ending::of_responses(end.is_some()))
}

// The ticks as a picture.
fn pictured(
    alloc: Global,
    input: &Input,
    position: u64,
    end: Option<Ticks>,
) -> Result<String, Stop> {
    let mut table = Table::empty();
    let accepted = match Accepted::read(input.text.as_slice(), &mut table) {
        Ok(accepted) => accepted,
        Err(refusal) => return Err(refused_stop(alloc, input, refusal)),
    };
    let position = usize::try_from(position).unwrap_or(usize::MAX);
    Ok(timelines::picture(alloc, input.name.as_str(), accepted, position, end)?)
}
