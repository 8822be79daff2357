// Refusals in words: what standard error is told of a text that is refused, with the line that it is of and a mark under the field; and how names and numbers are
// spelled for people. What is told here decides nothing: whether a text is refused, and with which number, is the reader's answer alone.
#![tactic(auto)]

// A line with a mark below.
pub mod excerpt;
// What is wrong in a text, and where.
mod finding;
// The fields of lines: what people call them, and what they have to be.
mod forms;
// What is wrong in a partner's list.
mod listed;

use crate::finding::Finding;
use std::alloc::{AllocError, Global};
use table::Table;
use texts::refusals::{Reason, Refusal};

// All that standard error is told of a text's refusal; `name` is that of the text.
pub fn told(
    alloc: Global,
    name: &str,
    text: &[u8],
    refusal: Refusal,
) -> Result<String, AllocError> {
    told_with(
        alloc,
        name,
        text,
        refusal,
        Finding::of(alloc, text, refusal)?,
    )
}

// The same of a partner's list for a table.
pub fn told_of_list(
    alloc: Global,
    name: &str,
    list: &[u8],
    table: &Table,
    refusal: Refusal,
) -> Result<String, AllocError> {
    told_with(
        alloc,
        name,
        list,
        refusal,
        listed::found(alloc, list, table, refusal)?,
    )
}

fn told_with(
    alloc: Global,
    name: &str,
    text: &[u8],
    refusal: Refusal,
    finding: Finding,
) -> Result<String, AllocError> {
    let mut told = first_line(alloc, name, &finding, refusal)?;
    if let Some(line) = meant(text, refusal) {
        excerpt::add(alloc, &mut told, line, finding.mark)?;
        if line.ends_with(b"\r".as_slice()) && refusal.reason != Reason::NotEnded {
            told.push_str("\n(the line ends with CR and LF; those of a table end with LF alone)")?;
        }
    }
    Ok(told)
}

fn first_line(
    alloc: Global,
    name: &str,
    finding: &Finding,
    refusal: Refusal,
) -> Result<String, AllocError> {
    let (words, line, number) = (
        finding.words.as_str(),
        refusal.line,
        refusal.reason.number(),
    );
    if line == 0 {
        format!(in alloc; "{name}: {words} ({number})")
    } else {
        format!(in alloc; "{name}: line {line}: {words} ({number})")
    }
}

// The line that a refusal is about.
fn meant(text: &[u8], refusal: Refusal) -> Option<&[u8]> {
    if refusal.reason == Reason::NotEnded {
        let line = finding::last_line(text);
        return if line.is_empty() { None } else { Some(line) };
    }
    finding::nth_line(text, refusal.line)
}
