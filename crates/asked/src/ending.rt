// How a command ends, and what standard error is told.

pub use endings::Ending;
use std::alloc::{AllocError, AllocFailed, Global};
use std::fmt::Write;
use std::io;

// Why a command gave nothing: how it ends, and what standard error is told. There is no message where there is no memory.
#[derive(Drop)]
pub struct Stop {
    pub ending: Ending,
    pub message: Option<String>,
}

impl Stop {
    pub fn refused(message: String) -> Stop {
        Stop {
            ending: Ending::Refused,
            message: Some(message),
        }
    }

    pub fn wrong_use(message: String) -> Stop {
        Stop {
            ending: Ending::WrongUse,
            message: Some(message),
        }
    }

    // A wrong use, by words that are known before.
    pub fn wrong(alloc: Global, words: &str) -> Stop {
        Stop {
            ending: Ending::WrongUse,
            message: String::from_str(alloc, words).ok(),
        }
    }

    // What has a name could not be `read`, or `written`.
    pub fn failed(alloc: Global, name: &str, doing: &str, error: io::Error) -> Stop {
        Stop {
            ending: Ending::Failed,
            message: failure(alloc, name, doing, error).ok(),
        }
    }
}

fn failure(alloc: Global, name: &str, doing: &str, error: io::Error) -> Result<String, AllocError> {
    let mut message = format!(in alloc; "{name}: cannot be {doing}: ")?;
    message.push_str(&reason(alloc, error)?)?;
    Ok(message)
}

// What the operating system says, without its number.
fn reason(alloc: Global, error: io::Error) -> Result<String, AllocError> {
    let words = format!(in alloc; "{error}")?;
    match words.as_str().split_once(" (os error") {
        Some((reason, _)) => wording::line(alloc, reason.as_bytes()),
        None => wording::line(alloc, words.as_str().as_bytes()),
    }
}

impl From<AllocError> for Stop {
    fn from(_error: AllocError) -> Stop {
        Stop {
            ending: Ending::Failed,
            message: None,
        }
    }
}

impl<T: Drop> From<AllocFailed<T>> for Stop {
    fn from(_error: AllocFailed<T>) -> Stop {
        Stop {
            ending: Ending::Failed,
            message: None,
        }
    }
}

pub type Outcome = Result<Ending, Stop>;
