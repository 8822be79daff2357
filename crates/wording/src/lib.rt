// Words and numbers as people see them.
#![tactic(auto)]

use std::alloc::{AllocError, Global};
use std::fmt::Write;

// Any bytes as one line of text that a terminal may show.
pub fn line(alloc: Global, bytes: &[u8]) -> Result<String, AllocError> {
    let text = spelling::spelled_out(alloc, bytes)?;
    String::from_utf8_lossy(alloc, text.as_slice())
}

// A word of a command line, or the name of a file, as people see it.
pub fn word(alloc: Global, word: &[u8]) -> Result<String, AllocError> {
    if word.is_empty() {
        return String::from_str(alloc, "''");
    }
    line(alloc, word)
}

// A number with its thousands parted, as `250,000,000`.
pub fn number(alloc: Global, number: u64) -> Result<String, AllocError> {
    let digits = format!(in alloc; "{number}")?;
    let digits = digits.as_str().as_bytes();
    let mut out = String::new(alloc);
    for (place, digit) in digits.iter().enumerate() {
        if 0 < place && digits.len().saturating_sub(place) % GROUP == 0 {
            out.push(',')?;
        }
        out.push(char::from(*digit))?;
    }
    Ok(out)
}

// So many digits stand together.
const GROUP: usize = 3;

// `1 tick`, `2 ticks`.
pub fn counted(alloc: Global, count: u64, what: &str) -> Result<String, AllocError> {
    let end = if count == 1 { "" } else { "s" };
    format!(in alloc; "{count} {what}{end}")
}
