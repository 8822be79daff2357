// The program crpd-report: standard input is the table text, standard output gets its report or the line of a refusal.
#![tactic(auto)]

ghost use Rattle.std.specs.Prelude.{IfSome};
ghost use Rattle.crpd_report.specs.Runs.{Prints, Reads};

use crpd::Outcome;
use std::io::{self, ErrorKind, Print, Read, Write};
use std::process::ExitCode;
use streams::{read_input, write_output};
use table::Table;
use writing::writer::ROOM;

// Why not all was printed: a read failed, and nothing is written; or a write failed, and a part is.
pub enum Failure {
    Read,
    Write(io::Error),
}

// The whole run: what is printed of all that the reader has is written, and nothing else; and how it went with the text. One byte more than a table may have tells
// that it is too long; what follows is not read.
pub fn run<R: Read, W: Write>(reader: &mut R, writer: &mut W) -> Result<Outcome, Failure>
    ensures written { IfSome (R.remaining reader.old) (λ text. Prints text (W.contents writer.old) (W.contents writer.new) result) }
    ensures read { IfSome (R.remaining reader.old) (λ text. Reads text (R.remaining reader.old) (R.remaining reader.new) result) }
{
    let mut text = [0u8; Table::LONGEST_TEXT + 1];
    let len = match read_input(reader, &mut text) {
        Ok(len) => len,
        Err(_) => return Err(Failure::Read),
    };
    let mut out = [0u8; ROOM];
    let printed = crpd::print(&text[..len], &mut out);
    match write_output(writer, &out[..printed.len]) {
        Ok(()) => Ok(printed.outcome),
        Err(error) => Err(Failure::Write(error)),
    }
}

// The exit statuses: 0 where a report is given in which every task has a response under every method, and these.
const SOME_UNSCHEDULABLE: u8 = 1;

const REFUSED: u8 = 2;

const FAILED: u8 = 4;

// How a program ends that the signal of a closed pipe ends, as a shell tells it.
const CLOSED_PIPE: u8 = 141;

fn main(rt: HostRuntime) -> ExitCode {
    let told: &[u8] = match run(&mut rt.stdin(), &mut rt.stdout()) {
        Ok(Outcome::Passed) => return ExitCode::SUCCESS,
        Ok(Outcome::SomeUnschedulable) => return ExitCode::from(SOME_UNSCHEDULABLE),
        Ok(Outcome::Refused) => return ExitCode::from(REFUSED),
        // Nobody reads any more, so nothing is said: std has the signal ignored that would have ended the program here.
        Err(Failure::Write(error)) if error.kind() == ErrorKind::BrokenPipe => {
            return ExitCode::from(CLOSED_PIPE);
        }
        Err(Failure::Write(_)) => b"crpd-report: cannot write standard output\n",
        Err(Failure::Read) => b"crpd-report: cannot read standard input\n",
    };
    let _ = rt.stderr().write_all(told);
    ExitCode::from(FAILED)
}
