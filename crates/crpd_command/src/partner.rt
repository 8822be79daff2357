// A partner's list of claimed responses, and what is found of it.
use crate::answers::method;
use asked::arguments::{Arguments, Opt};
use asked::ending::{Outcome, Stop};
use claims::list;
use command_line::refused_stop;
use console::{Input, is_written, print};
use std::alloc::Global;
use table::Table;
use table::accepted::Accepted;
use texts::refusals::{Reason, Refusal};
use worded::claimed;

// Why nothing is told of a list: the table is refused, or the list itself.
fn list_stop(alloc: Global, input: &Input, list: &Input, table: &Table, refusal: Refusal) -> Stop {
    if refusal.reason != Reason::ListLine && refusal.reason != Reason::ListName {
        return refused_stop(alloc, input, refusal);
    }
    let (name, text) = (list.name.as_str(), list.text.as_slice());
    match refused::told_of_list(alloc, name, text, table, refusal) {
        Ok(message) => Stop::refused(message),
        Err(error) => Stop::from(error),
    }
}

pub fn check(rt: &HostRuntime, arguments: &Arguments) -> Outcome {
    let alloc = rt.alloc();
    let method = method(rt.alloc(), arguments, 0)?;
    let (list, file) = (arguments.operand(1), arguments.operand(2));
    if console::named(list).is_none() && console::named(file).is_none() {
        return Err(Stop::wrong(alloc, "LIST and FILE are both standard input"));
    }
    let list = console::read(rt, list)?;
    let input = console::read(rt, file)?;
    let (text, listed) = (input.text.as_slice(), list.text.as_slice());
    let mut table = Table::empty();
    let accepted = match Accepted::read(text, &mut table) {
        Ok(accepted) => accepted,
        Err(refusal) => return Err(refused_stop(alloc, &input, refusal)),
    };
    let claims = match list::read(accepted, listed) {
        Ok(claims) => claims,
        Err(refusal) => return Err(list_stop(alloc, &input, &list, accepted.table, refusal)),
    };
    let ending = if arguments.has(Opt::Words) {
        let words = claimed::told(alloc, accepted, method, claims.as_slice())?;
        print(rt, words.as_str().as_bytes())?;
        answered::ending_checked(text, listed, method)
    } else {
        let answered = answered::check(text, listed, method, &mut rt.stdout());
        is_written(alloc, answered.written)?;
        answered.ending
    };
    match ending {
        Ok(ending) => Ok(ending),
        Err(refusal) => Err(list_stop(alloc, &input, &list, accepted.table, refusal)),
    }
}
