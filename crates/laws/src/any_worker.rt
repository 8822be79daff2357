// Any worker gets the same. proofs/AnyWorker.antt has for each operation that two calls agree. Here it is promised of what the code returns: two workers ask
// for the same answer, or for the same report, each into a buffer of its own.

ghost use Rattle.laws.specs.Calls.{AnsweredTwice, ReportedTwice};

use search::demand::Response;
use texts::refusals::Refusal;

// What two calls of `crpd::answer` answered.
#[derive(Clone, Copy)]
pub struct Replies {
    pub one: Result<Response, Refusal>,
    pub other: Result<Response, Refusal>,
}

// What two calls of `crpd::report` answered.
#[derive(Clone, Copy)]
pub struct Reports {
    pub one: Result<usize, Refusal>,
    pub other: Result<usize, Refusal>,
}

// One question, asked by two workers.
pub fn answered_twice(text: &[u8], method: u64, position: u64) -> Replies
    ensures { AnsweredTwice text.now method position result }
{
    Replies {
        one: crpd::answer(text, method, position),
        other: crpd::answer(text, method, position),
    }
}

// One text, reported by two workers, each into a buffer of its own.
pub fn reported_twice(text: &[u8], own: &mut [u8], others: &mut [u8]) -> Reports
    ensures { ReportedTwice text.now own.old own.new others.old others.new result }
{
    Reports {
        one: crpd::report(text, own),
        other: crpd::report(text, others),
    }
}
