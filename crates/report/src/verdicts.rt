// The verdicts of the methods, and the line that tells them.

ghost use Rattle.std.specs.Prelude.{◌≡◌, ◌+◌, ◌≤◌, ◌<◌, ◌++◌, length};
ghost use Rattle.std.specs.List.{list_all};
ghost use Rattle.writing.specs.declared.writer.TheConstants.{ROOM};
ghost use Rattle.analysis.specs.Verdict.{verdict};
ghost use Rattle.search.specs.Least.{has_response};
ghost use Rattle.report.specs.Verdicts.{every_verdict, verdicts_in, verdict_line};
ghost use Rattle.report.specs.VerdictRows.{answer_under, answers_in};

use analysis::rows::Row;
use search::demand::Response;
use writing::writer::Draft;

// Whether there is a response in a row.
fn responds(row: &Row, m: usize) -> bool
    requires { m < 6 }
    ensures { result ≡ has_response (answer_under row.now m) }
{
    matches!(row.responses[m], Response::Within(_))
}

// Whether each row has a response.
fn all_respond(rows: &[Row], m: usize) -> bool
    requires { m < 6 }
    ensures { result ≡ list_all (λ row. has_response (answer_under row m)) rows.now }
{
    rows.iter().all(|row| responds(row, m))
}

// Whether every task has a response under a method.
fn verdict(rows: &[Row], m: usize) -> bool
    requires { m < 6 }
    ensures { result ≡ verdict (length rows.now) (answers_in rows.now m) }
{
    all_respond(rows, m)
}

// The verdict of each method.
pub fn verdicts(rows: &[Row]) -> [bool; 6]
    ensures { result ≡ verdicts_in (length rows.now) (answers_in rows.now) }
{
    [
        verdict(rows, 0),
        verdict(rows, 1),
        verdict(rows, 2),
        verdict(rows, 3),
        verdict(rows, 4),
        verdict(rows, 5),
    ]
}

// Whether every task has a response under every method.
#[tactic(auto, unfolding(search::specs::Positions::fold_by))]
pub fn every_verdict(rows: &[Row]) -> bool
    ensures { result ≡ every_verdict (length rows.now) (answers_in rows.now) }
{
    verdict(rows, 0)
        & verdict(rows, 1)
        & verdict(rows, 2)
        & verdict(rows, 3)
        & verdict(rows, 4)
        & verdict(rows, 5)
}

// The last line, from the rows of all tasks.
#[tactic(auto, unfolding(crate::specs::Verdicts::verdict_line))]
pub fn write_verdict_line(draft: &mut Draft, rows: &[Row])
    requires { length draft.old + length (verdict_line (length rows.now) (answers_in rows.now)) ≤ ROOM }
    ensures { draft.new ≡ draft.old ++ verdict_line (length rows.now) (answers_in rows.now) }
{
    draft.push(b'V');
    draft.fields(&verdicts(rows));
    draft.push(b'\n');
}
