// An explanation in words: sentences, a line each, and a sum that a person can follow. specs/Explained.antt says which, of every text.
#![tactic(auto)]

// The parts of a need, as a sum.
mod parts;
// Phrases of sentences: the names of the methods, and numbers of things.
mod phrases;
// Sums: parts, and what they come to.
pub mod sums;
// The sentences of an explanation.
mod told;

ghost use Rattle.std.specs.Prelude.{◌≡◌, ◌≤◌, IfOk, IfSome, Ok};
ghost use Rattle.std.specs.List.{AllPass};
ghost use Rattle.analysis.specs.BlockedRow.{ChargedUnder};
ghost use Rattle.writing.specs.Printable.{is_printable_byte};
ghost use Rattle.endings.specs.Answered.{unless_refused, WritesAnswer};
ghost use Rattle.sentences.specs.Sentences.{sentences_of};
ghost use Rattle.sentences.specs.Explained.{ShowsSum, AddsUpTo, explanation_words, words_in, words_to, ending_explained};

use crate::parts::sum_of;
use crate::phrases::add;
use crate::sums::{Sum, add_sum};
use crate::told::{add_answer, add_reasons, add_union};
use analysis::costs::Charge;
use analysis::need::Need;
use analysis::{Method, blocked_row, need, one_row};
use endings::{Answered, Ending};
use search::demand::Response;
use std::alloc::{AllocError, Global};
use std::io::Write;
use streams::write_output;
use table::Table;
use table::accepted::{Accepted, Pending};

// An explanation: its sentences, a line each, and a sum where there is one.
#[derive(Drop)]
pub struct Explanation {
    pub sentences: Vec<u8>,
    pub sum: Option<Sum>,
}

// What each task above is charged at an activation, while the access blocks that explains a need.
fn charges(pending: Pending, need: &Need) -> [Charge; 32]
    requires { need.now.blocker.ceiling ≤ pending.i }
    ensures { ChargedUnder pending.entry.table.now need.now.blocker need.now.method pending.entry.i 0 result }
{
    let mut row = one_row::charged(pending, need.method);
    blocked_row::join(pending, need.method, &need.blocker, &mut row);
    row
}

// The explanation of what a method answers for a task. Its sum is that of the parts of what the task needs: it is the response, where there is one.
pub fn explained(alloc: Global, pending: Pending, method: Method) -> Result<Explanation, AllocError>
    ensures sentences { IfOk result (λ e. e.sentences.items ≡ sentences_of pending.entry.table.now method pending.entry.i) }
    ensures sum { IfOk result (λ e. ShowsSum pending.entry.table.now method pending.entry.i e.sum) }
    ensures adds_up { IfOk result (λ e. IfSome e.sum (AddsUpTo pending.entry.table.now method pending.entry.i)) }
{
    let need = need::explained(pending, method);
    let response = analysis::respond(pending, method);
    let mut sentences = Vec::new(alloc);
    add_answer(&mut sentences, pending, method, need.time, response)?;
    add_union(&mut sentences, method, need.method)?;
    let Response::Within(time) = need.time else {
        add(&mut sentences, b"So there is no sum to show.\n")?;
        return Ok(Explanation {
            sentences,
            sum: None,
        });
    };
    let row = charges(pending, &need);
    add_reasons(&mut sentences, pending, &need, &row, time)?;
    let sum = sum_of(alloc, pending, &need, &row, time)?;
    Ok(Explanation {
        sentences,
        sum: Some(sum),
    })
}

// The same as one text.
fn words(alloc: Global, pending: Pending, method: Method) -> Result<Vec<u8>, AllocError>
    ensures { IfOk result (λ out. out.items ≡ explanation_words pending.entry.table.now method pending.entry.i) }
{
    let Explanation { mut sentences, sum } = explained(alloc, pending, method)?;
    if let Some(sum) = &sum {
        add_sum(&mut sentences, sum.parts.as_slice(), sum.whole)?;
    }
    Ok(sentences)
}

// The same of the task at a position; nothing, where there is none.
fn words_at(
    alloc: Global,
    accepted: Accepted,
    method: Method,
    position: u64,
) -> Result<Vec<u8>, AllocError>
    ensures { IfOk result (λ out. out.items ≡ unless_refused (λ words. words) (words_in accepted.entry.table.now method position)) }
{
    if position < accepted.table.count as u64 {
        words(alloc, accepted.pending(position as usize), method)
    } else {
        Ok(Vec::new(alloc))
    }
}

// The same of a text; nothing, where it is refused.
#[tactic(auto, using(crate::proofs::Texts::no_method, crate::proofs::Texts::no_table))]
fn words_to(alloc: Global, text: &[u8], method: u64, position: u64) -> Result<Vec<u8>, AllocError>
    ensures { IfOk result (λ out. out.items ≡ unless_refused (λ words. words) (words_to text.now method position)) }
{
    let Some(method) = Method::from_number(method) else {
        return Ok(Vec::new(alloc));
    };
    let mut table = Table::empty();
    match Accepted::read(text, &mut table) {
        Ok(accepted) => words_at(alloc, accepted, method, position),
        Err(_) => Ok(Vec::new(alloc)),
    }
}

// Writes the explanation of what a method answers for the task at a position, in words, and nothing else. Each byte of the words is printable.
pub fn explain<W: Write>(
    alloc: Global,
    text: &[u8],
    method: u64,
    position: u64,
    writer: &mut W,
) -> Result<Answered, AllocError>
    ensures answers { IfOk result (λ answered. WritesAnswer (unless_refused (λ words. words) (words_to text.now method position)) (ending_explained text.now method position) (W.contents writer.old) (W.contents writer.new) answered) }
    ensures printable { AllPass is_printable_byte (unless_refused (λ words. words) (words_to text.now method position)) }
{
    let words = words_to(alloc, text, method, position)?;
    let ending = Ending::of_answer(crpd::answer(text, method, position));
    Ok(Answered {
        ending,
        written: write_output(writer, words.as_slice()),
    })
}
