// Earliest deadline first: whether every job ends by its deadline.
use crate::answers::ask;
use answered::Question;
use asked::arguments::{Arguments, Opt};
use asked::ending::{Ending, Outcome};
use command_line::refused_stop;
use console::{Input, print};
use edf::Verdict;
use table::Table;
use table::accepted::Accepted;
use worded::overrun;

pub fn edf(rt: &HostRuntime, arguments: &Arguments) -> Outcome {
    let input = console::read(rt, arguments.operand(0))?;
    if arguments.has(Opt::Words) {
        in_words(rt, &input)
    } else {
        ask(rt, &input, Question::Edf)
    }
}

fn in_words(rt: &HostRuntime, input: &Input) -> Outcome {
    let alloc = rt.alloc();
    let text = input.text.as_slice();
    let is_in_time = match crpd::edf(text) {
        Ok(verdict) => matches!(verdict, Verdict::Yes),
        Err(refusal) => return Err(refused_stop(alloc, input, refusal)),
    };
    let mut table = Table::empty();
    match Accepted::read(text, &mut table) {
        Ok(accepted) => {
            let words = overrun::told(alloc, accepted)?;
            print(rt, words.as_slice())?;
            Ok(Ending::of_responses(is_in_time))
        }
        Err(refusal) => Err(refused_stop(alloc, input, refusal)),
    }
}
