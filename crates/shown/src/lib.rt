// The report as people see it: an aligned table, in colours or without, over any writer.
#![tactic(auto)]

ghost use Rattle.std.specs.Prelude.{◌≡◌, ◌≤◌, IfOk, IfErr, Ok};
ghost use Rattle.std.specs.Bool.{OnFalse};
ghost use Rattle.std.specs.List.{AllPass};
ghost use Rattle.writing.specs.Printable.{is_printable_byte};
ghost use Rattle.analysis.specs.Analysis.{response_of, numbered};
ghost use Rattle.report.specs.VerdictRows.{answer_under, answers_in};
ghost use Rattle.report.specs.Verdicts.{every_verdict, passes_to};
ghost use Rattle.report.specs.Rows.{Reportable};
ghost use Rattle.aligned.specs.Aligned.{shown_cell, cells_of, shown_lines};
ghost use Rattle.shown.specs.Shown.{cell_of, heading_cells, answer_cell, task_cells, verdict_cell, verdict_cells, report_lines, shown_of, shown_to, bytes_shown, IsWhy, ShowsTo};

use aligned::{Cell, Content, Tone, aligned_bytes};
use analysis::rows;
use analysis::rows::Row;
use endings::{Answered, Ending};
use report::verdicts;
use search::demand::Response;
use std::alloc::{AllocError, Global};
use std::io::Write;
use streams::write_output;
use table::Table;
use table::accepted::Accepted;
use table::tasks::Task;
use texts::refusals::Refusal;

fn heading<'a>(words: &'a [u8]) -> Cell<'a>
    ensures { shown_cell result ≡ cell_of Tone.Heading words.now }
{
    Cell {
        content: Content::Words(words),
        tone: Tone::Heading,
    }
}

// The headings of the columns.
fn headings<'a>() -> [Cell<'a>; 8]
    ensures { cells_of result ≡ heading_cells }
{
    [
        heading(b"task"),
        heading(b"limit"),
        heading(b"none"),
        heading(b"ecb-only"),
        heading(b"ucb-only"),
        heading(b"ucb-union"),
        heading(b"ecb-union"),
        heading(b"combined"),
    ]
}

// A response, or that there is none.
fn answer<'a>(response: Response) -> Cell<'a>
    ensures { shown_cell result ≡ answer_cell response }
{
    match response {
        Response::Within(time) => Cell {
            content: Content::Number(time.0),
            tone: Tone::Plain,
        },
        Response::Unschedulable => Cell {
            content: Content::Words(b"-"),
            tone: Tone::Bad,
        },
    }
}

// A task's name, its limit and its responses.
fn task_cells<'a>(task: &'a Task, row: &Row) -> [Cell<'a>; 8]
    requires { task.now.jitter.0 ≤ task.now.deadline.0 }
    ensures { cells_of result ≡ task_cells task.now (answer_under row.now) }
{
    [
        Cell {
            content: Content::Words(task.name.text()),
            tone: Tone::Plain,
        },
        Cell {
            content: Content::Number(task.deadline.0 - task.jitter.0),
            tone: Tone::Plain,
        },
        answer(row.responses[0]),
        answer(row.responses[1]),
        answer(row.responses[2]),
        answer(row.responses[3]),
        answer(row.responses[4]),
        answer(row.responses[5]),
    ]
}

// Whether a method passes.
fn verdict<'a>(passes: bool) -> Cell<'a>
    ensures { shown_cell result ≡ verdict_cell passes }
{
    if passes {
        Cell {
            content: Content::Words(b"yes"),
            tone: Tone::Good,
        }
    } else {
        Cell {
            content: Content::Words(b"no"),
            tone: Tone::Bad,
        }
    }
}

// Which methods pass.
fn verdict_cells<'a>(passes: &[bool; 6]) -> [Cell<'a>; 8]
    ensures { cells_of result ≡ verdict_cells passes.now }
{
    [
        heading(b"passes"),
        Cell {
            content: Content::Nothing,
            tone: Tone::Plain,
        },
        verdict(passes[0]),
        verdict(passes[1]),
        verdict(passes[2]),
        verdict(passes[3]),
        verdict(passes[4]),
        verdict(passes[5]),
    ]
}

// The lines of the table.
fn lines<'a>(
    alloc: Global,
    table: &'a Table,
    rows: &[Row; 32],
    passes: &[bool; 6],
) -> Result<Vec<[Cell<'a>; 8]>, AllocError>
    requires reportable { Reportable table.now rows.now }
    ensures { IfOk result (λ lines. shown_lines lines.items ≡ report_lines table.now (answers_in rows.now) passes.now) }
{
    let mut lines = Vec::new(alloc);
    lines.push(headings())?;
    for i in 0..table.count {
        lines.push(task_cells(&table.tasks[i], &rows[i]))?;
    }
    lines.push(verdict_cells(passes))?;
    Ok(lines)
}

// Why nothing is shown.
enum Unshown {
    Refused(Refusal),
    NoMemory,
}

impl From<AllocError> for Unshown {
    ghost use Rattle.shown.specs.declared.Unshown.TheVariants.{NoMemory};

    ghost from_gives = { λ _ e. e ≡ NoMemory };

    fn from(_error: AllocError) -> Unshown {
        Unshown::NoMemory
    }
}

// A text's report as people see it, and whether every method passes.
#[derive(Drop)]
struct Shown {
    text: Vec<u8>,
    passes: bool,
}

// The table of a table's report.
fn shown_in(alloc: Global, accepted: Accepted, colours: bool) -> Result<Shown, AllocError>
    ensures text { IfOk result (λ shown. shown.text.items ≡ shown_of colours accepted.entry.table.now) }
    ensures passes { IfOk result (λ shown. shown.passes ≡ every_verdict accepted.entry.table.now.count (λ m. response_of accepted.entry.table.now (numbered m))) }
{
    let table = accepted.table;
    let rows = rows::responses(accepted);
    let passes = verdicts::every_verdict(&rows[..table.count]);
    let lines = lines(
        alloc,
        table,
        &rows,
        &verdicts::verdicts(&rows[..table.count]),
    )?;
    let text = aligned_bytes(alloc, lines.as_slice(), colours)?;
    Ok(Shown { text, passes })
}

// The table of a text's report.
fn report_shown(alloc: Global, text: &[u8], colours: bool) -> Result<Shown, Unshown>
    ensures shown { IfOk result (λ shown. Ok shown.text.items ≡ shown_to colours text.now) }
    ensures passes { IfOk result (λ shown. Ok shown.passes ≡ passes_to text.now) }
    ensures refused { IfErr result (λ unshown. IsWhy text.now unshown) }
{
    let mut table = Table::empty();
    match Accepted::read(text, &mut table) {
        Ok(accepted) => Ok(shown_in(alloc, accepted, colours)?),
        Err(refusal) => Err(Unshown::Refused(refusal)),
    }
}

// Writes the report as people see it, and nothing else. It ends as the report does.
pub fn show<W: Write>(
    alloc: Global,
    text: &[u8],
    colours: bool,
    writer: &mut W,
) -> Result<Answered, AllocError>
    ensures shows { IfOk result (λ answered. ShowsTo colours text.now (W.contents writer.old) (W.contents writer.new) answered) }
    ensures printable { OnFalse colours (AllPass is_printable_byte (bytes_shown colours text.now)) }
{
    match report_shown(alloc, text, colours) {
        Ok(shown) => Ok(Answered {
            ending: Ok(Ending::of_responses(shown.passes)),
            written: write_output(writer, shown.text.as_slice()),
        }),
        Err(Unshown::Refused(refusal)) => Ok(Answered {
            ending: Err(refusal),
            written: write_output(writer, b""),
        }),
        Err(Unshown::NoMemory) => Err(AllocError),
    }
}
