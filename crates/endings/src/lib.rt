// How a command ends, and the exit status that tells it; what became of a question about a text. specs/Endings.antt has the statuses.
#![tactic(auto)]

ghost use Rattle.std.specs.Prelude.{◌≡◌, Ok};
ghost use Rattle.table.specs.Reading.{then_read};
ghost use Rattle.search.specs.Least.{has_response};
ghost use Rattle.endings.specs.Endings.{status_of, ending_of, worse_of};

use search::demand::Response;
use std::io;
use texts::refusals::Refusal;

// What was given, with the exit status that it has.
#[derive(Clone, Copy, PartialEq, Eq)]
pub enum Ending {
    Given = 0,
    NoResponse = 1,
    Refused = 2,
    WrongUse = 3,
    Failed = 4,
}

impl Ending {
    // The exit status.
    pub fn status(self) -> u8
        ensures { result ≡ status_of self }
    {
        self as u8
    }

    // How it ends where one task's response is given.
    pub fn of_response(response: Response) -> Ending
        ensures { result ≡ ending_of (has_response response) }
    {
        match response {
            Response::Within(_) => Ending::Given,
            Response::Unschedulable => Ending::NoResponse,
        }
    }

    // The same, unless the text is refused.
    pub fn of_answer(answer: Result<Response, Refusal>) -> Result<Ending, Refusal>
        ensures { result ≡ then_read answer (λ response. Ok (ending_of (has_response response))) }
    {
        match answer {
            Ok(response) => Ok(Ending::of_response(response)),
            Err(refusal) => Err(refusal),
        }
    }

    // How it ends where the responses of several tasks are.
    pub fn of_responses(all_have_one: bool) -> Ending
        ensures { result ≡ ending_of all_have_one }
    {
        if all_have_one {
            Ending::Given
        } else {
            Ending::NoResponse
        }
    }

    // The worse of two: that of the higher status.
    pub fn worse(self, other: Ending) -> Ending
        ensures { result ≡ worse_of self other }
    {
        if self.status() < other.status() {
            other
        } else {
            self
        }
    }
}

// What became of a question about a text: how the command ends, unless the text is refused; and whether all was written.
#[derive(Drop)]
pub struct Answered {
    pub ending: Result<Ending, Refusal>,
    pub written: io::Result<()>,
}
