// What is found of a partner's claims, in words: a line for each task, beside our own response.

use crate::{Done, name_of, ticks, word};
use analysis::Method;
use claims::finding::{Finding, judge};
use search::demand::Response;
use std::alloc::{AllocError, Global};
use std::fmt::Write;
use table::accepted::{Accepted, Pending};

// What is found under a method of the responses that are claimed for a table's tasks.
pub fn told(
    alloc: Global,
    accepted: Accepted,
    method: u64,
    claims: &[Response],
) -> Result<String, AllocError> {
    let mut words = String::new(alloc);
    let Some(judged_by) = Method::from_number(method) else {
        return Ok(words);
    };
    let mut lines = String::new(alloc);
    let mut counts = Counts::NONE;
    for i in 0..accepted.table.count {
        let pending = accepted.pending(i);
        let claim = claims.get(i).copied().unwrap_or(Response::Unschedulable);
        let finding = judge(pending, judged_by, claim);
        counts.add(finding);
        let ours = analysis::respond(pending, judged_by);
        tell(alloc, &mut lines, pending, claim, finding, ours)?;
    }
    let (name, fine, open, bad) = (name_of(method), counts.fine, counts.open, counts.bad);
    write!(words, "Under {name}: {fine} ok, {open} open, {bad} bad.\n")?;
    words.push_str(lines.as_str())?;
    Ok(words)
}

// How many claims are found to be so.
#[derive(Drop)]
struct Counts {
    bad: u64,
    open: u64,
    fine: u64,
}

impl Counts {
    const NONE: Counts = Counts {
        bad: 0,
        open: 0,
        fine: 0,
    };

    fn add(&mut self, finding: Finding) {
        let count = match finding {
            Finding::Bad => &mut self.bad,
            Finding::Open => &mut self.open,
            Finding::Fine => &mut self.fine,
        };
        *count = count.saturating_add(1);
    }
}

// The line of one task.
fn tell(
    alloc: Global,
    words: &mut String,
    pending: Pending,
    claim: Response,
    finding: Finding,
    ours: Response,
) -> Done {
    let name = word(alloc, pending.task().name.text())?;
    match claim {
        Response::Within(time) => {
            let claimed = ticks(alloc, time.0)?;
            let why = reason(alloc, time.0, finding, pending.limit().0)?;
            let beside = beside(alloc, time.0, ours)?;
            write!(words, "{name}: {claimed}, {why}; {beside}.\n")
        }
        Response::Unschedulable => {
            let beside = alone(alloc, ours)?;
            write!(
                words,
                "{name}: -, open: no response is claimed; {beside}.\n"
            )
        }
    }
}

// Why that is found of a number.
fn reason(alloc: Global, time: u64, finding: Finding, limit: u64) -> Result<String, AllocError> {
    match finding {
        Finding::Fine => {
            String::from_str(alloc, "ok: all that is asked for by then is done by then")
        }
        Finding::Open => String::from_str(
            alloc,
            "open: two or more accesses may block the task, and beside one of them more is asked for by then",
        ),
        Finding::Bad if limit < time => {
            let limit = ticks(alloc, limit)?;
            format!(in alloc; "bad: its limit is {limit}")
        }
        Finding::Bad => String::from_str(alloc, "bad: by then more is asked for"),
    }
}

// Our response beside a number that is claimed.
fn beside(alloc: Global, time: u64, ours: Response) -> Result<String, AllocError> {
    let Response::Within(response) = ours else {
        return String::from_str(alloc, "we find no response");
    };
    let response = response.0;
    if response == time {
        return String::from_str(alloc, "our response is the same");
    }
    let told = ticks(alloc, response)?;
    if response < time {
        let lower = wording::number(alloc, time.saturating_sub(response))?;
        format!(in alloc; "our response is {told}, {lower} lower")
    } else {
        let above = wording::number(alloc, response.saturating_sub(time))?;
        format!(in alloc; "our response is {told}, {above} above")
    }
}

// Our response where none is claimed.
fn alone(alloc: Global, ours: Response) -> Result<String, AllocError> {
    match ours {
        Response::Within(response) => {
            let told = ticks(alloc, response.0)?;
            format!(in alloc; "our response is {told}")
        }
        Response::Unschedulable => String::from_str(alloc, "we find none either"),
    }
}
