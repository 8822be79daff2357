// What the commands that ask one question of one table write, and how they end: over any writer, of every text.
#![tactic(auto)]

ghost use Rattle.std.specs.Prelude.{◌≡◌, ◌+◌, List, ℕ, take, Ok, nat_le, is_some};
ghost use Rattle.std.specs.List.{AllPass};
ghost use Rattle.table.specs.declared.TheConstants.Table.{LONGEST_TEXT};
ghost use Rattle.table.specs.Reading.{then_read, read_text};
ghost use Rattle.writing.specs.Printable.{is_printable_byte};
ghost use Rattle.writing.specs.Text.{spelled};
ghost use Rattle.writing.specs.Delivery.{PutsText};
ghost use Rattle.endings.specs.Endings.{ending_of};
ghost use Rattle.answered.specs.Answered.{as_line, told_response, told_end, told_yes, bytes_for, is_yes, ending_for, bytes_checked, is_bad, has_bad_claim, ending_checked, AnswersTo, ChecksTo};

use analysis::Method;
use cache::units::Ticks;
use claims::finding::{Finding, judge};
use claims::list;
use crpd::Outcome;
use edf::Verdict;
use endings::{Answered, Ending};
use search::demand::Response;
use std::io::Write;
use streams::write_output;
use table::Table;
use table::accepted::Accepted;
use texts::refusals::{Reason, Refusal};
use writing::delivery;
use writing::writer::{Draft, ROOM};

// What is asked of a text.
#[derive(Clone, Copy)]
pub enum Question {
    Report,
    Answer { method: u64, position: u64 },
    Explain { method: u64, position: u64 },
    Growth { method: u64 },
    Scaled { method: u64 },
    Edf,
    Replay { position: u64 },
}

// From a growth of as many thousandths on the table passes as it is.
const AS_IT_IS: u64 = 1000;

// What stands in a buffer: how long it is, and how the command ends, unless the text is refused.
#[derive(Clone, Copy)]
struct Made {
    len: usize,
    ending: Result<Ending, Refusal>,
}

// A number as a line.
#[tactic(auto, using(crate::proofs::Lines::number_fits))]
fn put_number(n: u64, out: &mut [u8; Table::LONGEST_TEXT]) -> usize
    ensures { PutsText (as_line (spelled n)) out.old result out.new }
{
    let mut draft = Draft::new();
    draft.write(&n);
    draft.push(b'\n');
    delivery::put(draft.text(), out)
}

// A response as a line.
fn put_response(response: Response, out: &mut [u8; Table::LONGEST_TEXT]) -> usize
    ensures { PutsText (told_response response) out.old result out.new }
{
    match response {
        Response::Within(time) => put_number(time.0, out),
        Response::Unschedulable => delivery::put(b"-\n", out),
    }
}

// Where a first job ends, as a line.
fn put_end(end: Option<Ticks>, out: &mut [u8; Table::LONGEST_TEXT]) -> usize
    ensures { PutsText (told_end end) out.old result out.new }
{
    match end {
        Some(tick) => put_number(tick.0, out),
        None => delivery::put(b"-\n", out),
    }
}

// A verdict as a line.
fn put_verdict(verdict: Verdict, out: &mut [u8; Table::LONGEST_TEXT]) -> usize
    ensures { PutsText (told_yes verdict) out.old result out.new }
{
    match verdict {
        Verdict::Yes => delivery::put(b"yes\n", out),
        Verdict::No => delivery::put(b"no\n", out),
    }
}

fn is_yes(verdict: Verdict) -> bool
    ensures { result ≡ is_yes verdict }
{
    match verdict {
        Verdict::Yes => true,
        Verdict::No => false,
    }
}

// How it ends where a growth is told.
fn ending_of_growth(growth: Result<u64, Refusal>) -> Result<Ending, Refusal>
    ensures { result ≡ then_read growth (λ k. Ok (ending_of (nat_le 1000 k))) }
{
    match growth {
        Ok(k) => Ok(Ending::of_responses(AS_IT_IS <= k)),
        Err(refusal) => Err(refusal),
    }
}

// The report, or the line of the refusal.
#[tactic(auto, unfolding(crate::specs::Answered::bytes_for, crate::specs::Answered::ending_for))]
fn put_report(text: &[u8], out: &mut [u8; Table::LONGEST_TEXT]) -> Made
    ensures bytes { PutsText (bytes_for Question.Report text.now) out.old result.len out.new }
    ensures ending { result.ending ≡ ending_for Question.Report text.now }
{
    let mut report = [0u8; ROOM];
    let printed = crpd::print(text, &mut report);
    let len = delivery::put(&report[..printed.len], out);
    match printed.outcome {
        Outcome::Passed => Made {
            len,
            ending: Ok(Ending::Given),
        },
        Outcome::SomeUnschedulable => Made {
            len,
            ending: Ok(Ending::NoResponse),
        },
        Outcome::Refused => Made {
            len,
            ending: refusal_of(text),
        },
    }
}

// Why a text is refused, where it is.
fn refusal_of(text: &[u8]) -> Result<Ending, Refusal>
    ensures { result ≡ then_read (read_text text.now) (λ table. Ok Ending.Given) }
{
    let mut table = Table::empty();
    match table.read(text) {
        Ok(()) => Ok(Ending::Given),
        Err(refusal) => Err(refusal),
    }
}

// The lines of an explanation.
#[tactic(auto, unfolding(crate::specs::Answered::bytes_for, crate::specs::Answered::ending_for), using(crate::proofs::Lines::text_put, crate::proofs::Lines::refusal_put))]
fn put_explanation(
    text: &[u8],
    method: u64,
    position: u64,
    out: &mut [u8; Table::LONGEST_TEXT],
) -> Made
    ensures bytes { PutsText (bytes_for (Question.Explain method position) text.now) out.old result.len out.new }
    ensures ending { result.ending ≡ ending_for (Question.Explain method position) text.now }
{
    match crpd::explain(text, method, position, out) {
        Ok(len) => Made {
            len,
            ending: Ending::of_answer(crpd::answer(text, method, position)),
        },
        Err(refusal) => Made {
            len: 0,
            ending: Err(refusal),
        },
    }
}

// The table with its growth.
#[tactic(auto, unfolding(crate::specs::Answered::bytes_for, crate::specs::Answered::ending_for), using(crate::proofs::Lines::text_put, crate::proofs::Lines::refusal_put))]
fn put_scaled(text: &[u8], method: u64, out: &mut [u8; Table::LONGEST_TEXT]) -> Made
    ensures bytes { PutsText (bytes_for (Question.Scaled method) text.now) out.old result.len out.new }
    ensures ending { result.ending ≡ ending_for (Question.Scaled method) text.now }
{
    match crpd::scaled(text, method, out) {
        Ok(len) => Made {
            len,
            ending: ending_of_growth(crpd::growth(text, method)),
        },
        Err(refusal) => Made {
            len: 0,
            ending: Err(refusal),
        },
    }
}

// One response.
#[tactic(auto, unfolding(crate::specs::Answered::bytes_for, crate::specs::Answered::ending_for))]
fn put_answer(text: &[u8], method: u64, position: u64, out: &mut [u8; Table::LONGEST_TEXT]) -> Made
    ensures bytes { PutsText (bytes_for (Question.Answer method position) text.now) out.old result.len out.new }
    ensures ending { result.ending ≡ ending_for (Question.Answer method position) text.now }
{
    match crpd::answer(text, method, position) {
        Ok(response) => Made {
            len: put_response(response, out),
            ending: Ok(Ending::of_response(response)),
        },
        Err(refusal) => Made {
            len: 0,
            ending: Err(refusal),
        },
    }
}

// How much growth is left.
#[tactic(auto, unfolding(crate::specs::Answered::bytes_for, crate::specs::Answered::ending_for))]
fn put_growth(text: &[u8], method: u64, out: &mut [u8; Table::LONGEST_TEXT]) -> Made
    ensures bytes { PutsText (bytes_for (Question.Growth method) text.now) out.old result.len out.new }
    ensures ending { result.ending ≡ ending_for (Question.Growth method) text.now }
{
    match crpd::growth(text, method) {
        Ok(k) => Made {
            len: put_number(k, out),
            ending: Ok(Ending::of_responses(AS_IT_IS <= k)),
        },
        Err(refusal) => Made {
            len: 0,
            ending: Err(refusal),
        },
    }
}

// Whether the earliest deadline first is in time.
#[tactic(auto, unfolding(crate::specs::Answered::bytes_for, crate::specs::Answered::ending_for))]
fn put_edf(text: &[u8], out: &mut [u8; Table::LONGEST_TEXT]) -> Made
    ensures bytes { PutsText (bytes_for Question.Edf text.now) out.old result.len out.new }
    ensures ending { result.ending ≡ ending_for Question.Edf text.now }
{
    match crpd::edf(text) {
        Ok(verdict) => Made {
            len: put_verdict(verdict, out),
            ending: Ok(Ending::of_responses(is_yes(verdict))),
        },
        Err(refusal) => Made {
            len: 0,
            ending: Err(refusal),
        },
    }
}

// When a first job ends.
#[tactic(auto, unfolding(crate::specs::Answered::bytes_for, crate::specs::Answered::ending_for))]
fn put_replay(text: &[u8], position: u64, out: &mut [u8; Table::LONGEST_TEXT]) -> Made
    ensures bytes { PutsText (bytes_for (Question.Replay position) text.now) out.old result.len out.new }
    ensures ending { result.ending ≡ ending_for (Question.Replay position) text.now }
{
    match crpd::replay(text, position) {
        Ok(end) => Made {
            len: put_end(end, out),
            ending: Ok(Ending::of_responses(end.is_some())),
        },
        Err(refusal) => Made {
            len: 0,
            ending: Err(refusal),
        },
    }
}

// What is written, at the buffer's start.
fn put_for(question: Question, text: &[u8], out: &mut [u8; Table::LONGEST_TEXT]) -> Made
    ensures bytes { PutsText (bytes_for question text.now) out.old result.len out.new }
    ensures ending { result.ending ≡ ending_for question text.now }
{
    match question {
        Question::Report => put_report(text, out),
        Question::Answer { method, position } => put_answer(text, method, position, out),
        Question::Explain { method, position } => put_explanation(text, method, position, out),
        Question::Growth { method } => put_growth(text, method, out),
        Question::Scaled { method } => put_scaled(text, method, out),
        Question::Edf => put_edf(text, out),
        Question::Replay { position } => put_replay(text, position, out),
    }
}

fn is_bad(finding: Finding) -> bool
    ensures { result ≡ is_bad finding }
{
    match finding {
        Finding::Bad => true,
        Finding::Open | Finding::Fine => false,
    }
}

// Whether what is claimed of some task is bad.
fn has_bad_claim(accepted: Accepted, method: Method, claims: &[Response; Table::MOST_TASKS]) -> bool
    ensures { result ≡ has_bad_claim accepted.entry.table.now method (take accepted.entry.table.now.count claims.now) }
{
    for i in 0..accepted.table.count {
        if is_bad(judge(accepted.pending(i), method, claims[i])) {
            return true;
        }
    }
    false
}

// How it ends where a partner's list is checked: a bad claim is as a response that is missing.
#[tactic(auto, unfolding(crate::specs::Answered::ending_checked), using(std::proofs::lemmas::Result::err_from_is_err_and))]
pub fn ending_checked(text: &[u8], list: &[u8], method: u64) -> Result<Ending, Refusal>
    ensures { result ≡ ending_checked text.now list.now method }
{
    let method = Method::from_number(method).ok_or(Refusal::untold(Reason::Method))?;
    let mut table = Table::empty();
    let accepted = Accepted::read(text, &mut table)?;
    let claims = list::read(accepted, list)?;
    Ok(Ending::of_responses(!has_bad_claim(accepted, method, &claims)))
}

// What is found of each claim of a list.
#[tactic(auto, unfolding(crate::specs::Answered::ending_checked), using(crate::proofs::Lines::text_put, crate::proofs::Lines::refusal_put))]
fn put_findings(text: &[u8], list: &[u8], method: u64, out: &mut [u8; Table::LONGEST_TEXT]) -> Made
    ensures bytes { PutsText (bytes_checked text.now list.now method) out.old result.len out.new }
    ensures ending { result.ending ≡ ending_checked text.now list.now method }
{
    match crpd::check(text, list, method, out) {
        Ok(len) => Made {
            len,
            ending: ending_checked(text, list, method),
        },
        Err(refusal) => Made {
            len: 0,
            ending: Err(refusal),
        },
    }
}

// Writes the answer to a question about a text, and nothing else. The ending is that of the text, whatever becomes of the writing. Where the text is what was read of
// more bytes, it is the answer to all of them.
#[tactic(auto, using(crate::proofs::Lines::answers, crate::proofs::PrintableTexts::answer_passes))]
pub fn answer<W: Write>(question: Question, text: &[u8], writer: &mut W) -> Answered
    ensures answers { AnswersTo question text.now (W.contents writer.old) (W.contents writer.new) result }
    ensures whole { (bytes : List ℕ) → text.now ≡ take (LONGEST_TEXT + 1) bytes → AnswersTo question bytes (W.contents writer.old) (W.contents writer.new) result }
    ensures printable { AllPass is_printable_byte (bytes_for question text.now) }
{
    let mut out = [0u8; Table::LONGEST_TEXT];
    let made = put_for(question, text, &mut out);
    Answered {
        ending: made.ending,
        written: write_output(writer, &out[..made.len]),
    }
}

// Writes what is found of each claim of a partner's list, and nothing else; it ends as `ending_checked` says. Where the text of the table is what was read of more
// bytes, it is checked by all of them.
#[tactic(auto, using(crate::proofs::Lines::answers))]
pub fn check<W: Write>(text: &[u8], list: &[u8], method: u64, writer: &mut W) -> Answered
    ensures checks { ChecksTo text.now list.now method (W.contents writer.old) (W.contents writer.new) result }
    ensures whole { (bytes : List ℕ) → text.now ≡ take (LONGEST_TEXT + 1) bytes → ChecksTo bytes list.now method (W.contents writer.old) (W.contents writer.new) result }
    ensures printable { AllPass is_printable_byte (bytes_checked text.now list.now method) }
{
    let mut out = [0u8; Table::LONGEST_TEXT];
    let made = put_findings(text, list, method, &mut out);
    Answered {
        ending: made.ending,
        written: write_output(writer, &out[..made.len]),
    }
}
