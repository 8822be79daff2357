// The dossier of a table: one page of HTML that is handed on, with the table as it was read and all that is answered of it. It needs nothing else: no script, no
// font, no picture of another host. It has no date and no name of a file, so of the same table it is the same bytes, whenever and wherever it is made.
#![tactic(auto)]

// Pieces of HTML text.
mod markup;
// The parts of the page, one after the other.
mod sections;
// How the page looks.
mod style;
// What the page says of every table.
mod words;

use crate::markup::Done;
use crate::sections::Subject;
use analysis::rows;
use report::verdicts;
use sha2::{Digest, Sha256};
use std::alloc::{AllocError, Global};
use std::fmt::Write;
use table::Table;
use table::accepted::Accepted;
use texts::refusals::Refusal;

// With what the library was proved, as the command tells it: its number, and the toolchain.
#[derive(Clone, Copy)]
pub struct Proved<'a> {
    pub number: &'a str,
    pub toolchain: &'a str,
}

// A page, and whether every method passes.
#[derive(Drop)]
pub struct Made {
    pub page: String,
    pub passes: bool,
}

// Why there is none.
pub enum Unmade {
    Refused(Refusal),
    NoMemory,
}

impl From<AllocError> for Unmade {
    fn from(_error: AllocError) -> Unmade {
        Unmade::NoMemory
    }
}

// The dossier of a text.
pub fn page(alloc: Global, text: &[u8], proved: Proved<'_>) -> Result<Made, Unmade> {
    let mut table = Table::empty();
    match Accepted::read(text, &mut table) {
        Ok(accepted) => Ok(page_of(alloc, text, accepted, proved)?),
        Err(refusal) => Err(Unmade::Refused(refusal)),
    }
}

fn page_of(
    alloc: Global,
    text: &[u8],
    accepted: Accepted,
    proved: Proved<'_>,
) -> Result<Made, AllocError> {
    let rows = rows::responses(accepted);
    let rows = &rows[..accepted.table.count];
    let digest = digest_of(alloc, text)?;
    let subject = Subject {
        alloc,
        text,
        digest: digest.as_str(),
        verdicts: verdicts::verdicts(rows),
        proved,
    };
    let name = subject.name()?;
    let mut page = String::new(alloc);
    open(alloc, &mut page, name.as_str())?;
    subject.tell_head(&mut page, accepted.table)?;
    subject.tell_table(&mut page)?;
    subject.tell_report(&mut page, accepted.table, rows)?;
    subject.tell_tasks(&mut page, accepted, rows)?;
    subject.tell_growths(&mut page)?;
    subject.tell_equations(&mut page, accepted.table)?;
    subject.tell_proved(&mut page)?;
    close(&mut page)?;
    Ok(Made {
        page,
        passes: subject.verdicts.iter().all(|passes| *passes),
    })
}

// The page of a text that is refused, which has no figures: why it is, in words that tell a table of no name.
pub fn refused_page(alloc: Global, text: &[u8], refusal: Refusal) -> Result<String, AllocError> {
    let why = refused::told(alloc, "this table", text, refusal)?;
    let mut page = String::new(alloc);
    open(alloc, &mut page, "a table that is refused")?;
    page.push_str("<h1>The table is refused</h1>\n")?;
    markup::paragraph(
        &mut page,
        "There are no figures: what was read is no table that can be analysed. This is why, with the number of the refusal.",
    )?;
    // the first line says it, and the line that it is of stands below, with its mark
    let why = why.as_str();
    let (words, excerpt) = match why.split_once('\n') {
        Some((words, excerpt)) => (words, excerpt),
        None => (why, ""),
    };
    markup::element(&mut page, "p class=\"answer\"", "p", words)?;
    if !excerpt.is_empty() {
        markup::element(&mut page, "pre class=\"line\"", "pre", excerpt)?;
    }
    close(&mut page)?;
    Ok(page)
}

// All that stands before the first words.
fn open(alloc: Global, page: &mut String, name: &str) -> Done {
    page.push_str(
        "<!DOCTYPE html>\n<html lang=\"en\">\n<head>\n<meta charset=\"utf-8\">\n<meta name=\"viewport\" content=\"width=device-width, initial-scale=1\">\n",
    )?;
    let title = format!(in alloc; "Worst-case response times of {name}")?;
    markup::element(page, "title", "title", title.as_str())?;
    page.push_str("<style>\n")?;
    for rule in style::RULES {
        page.push_str(rule)?;
        page.push('\n')?;
    }
    // each sheet of paper tells which table it is of, and which sheet it is
    write!(
        page,
        "@page{{size:A4;margin:18mm 16mm 20mm;@bottom-left{{content:\"{title}\";font:8pt sans-serif;color:#4d4d4d}}@bottom-right{{content:counter(page) \" / \" counter(pages);font:8pt sans-serif;color:#4d4d4d}}}}\n"
    )?;
    page.push_str("</style>\n</head>\n<body>\n<main>\n")
}

fn close(page: &mut String) -> Done {
    page.push_str("</main>\n</body>\n</html>\n")
}

// The SHA-256 of a text, in hex digits.
fn digest_of(alloc: Global, text: &[u8]) -> Result<String, AllocError> {
    let digest = Sha256::digest(text);
    let mut digits = String::new(alloc);
    for byte in digest.iter() {
        write!(digits, "{byte:02x}")?;
    }
    Ok(digits)
}
