// The parts of the work, each as often as asked, for a benchmark to time apart. specs/Parts.antt says what each gives.
#![tactic(auto)]

ghost use Rattle.std.specs.Prelude.{◌≡◌};
ghost use Rattle.table_text.specs.TableText.{table_text};
ghost use Rattle.table_text.specs.Readable.{Readable};
ghost use Rattle.report.specs.Report.{report_in};
ghost use Rattle.crpd.specs.Codes.{ticks_of};
ghost use Rattle.bench_parts.specs.Parts.{turns, task_count, first_ticks, answered, length_of, Repeated, length_after, buffer_after};

use analysis::rows;
use search::demand::Response;
use table::Table;
use table::accepted::Accepted;
use texts::refusals::Refusal;

fn ticks(response: Response) -> u64
    ensures { result ≡ ticks_of response }
{
    match response {
        Response::Within(time) => time.0,
        Response::Unschedulable => 0,
    }
}

fn written_len(written: Result<usize, Refusal>) -> u64
    ensures { result ≡ length_of written }
{
    match written {
        Ok(len) => len as u64,
        Err(_refusal) => 0,
    }
}

fn answer(accepted: Accepted, times: u64) -> u64
    ensures { result ≡ turns times 0 (first_ticks accepted.entry.table.now) }
{
    let mut first = 0;
    for _ in 0..times {
        let rows = rows::responses(accepted);
        let row = rows[0];
        first = ticks(row.responses[0]);
    }
    first
}

fn write(accepted: Accepted, times: u64, out: &mut [u8]) -> u64
    ensures { Repeated (report_in accepted.entry.table.now) times out.old result out.new }
{
    let table = accepted.table;
    let rows = rows::responses(accepted);
    let mut len = 0;
    for _ in 0..times {
        len = written_len(report::report(table, &rows, out));
    }
    len
}

fn rewrite(table: &Table, times: u64, out: &mut [u8]) -> u64
    requires { Readable table.now }
    ensures { Repeated (table_text table.now) times out.old result out.new }
{
    let mut len = 0;
    for _ in 0..times {
        len = written_len(crpd::write(table, out));
    }
    len
}

// The number of tasks of the table that a text says; 0 where it is refused.
#[unsafe(no_mangle)]
pub extern "C" fn bench_read(text: &[u8]) -> u64
    ensures { result ≡ task_count text.now }
{
    let mut table = Table::empty();
    match table.read(text) {
        Ok(()) => table.count as u64,
        Err(_) => 0,
    }
}

// All answers, `times` over: the last time's answer for the first task without reloads, in ticks; 0 where there is none.
#[unsafe(no_mangle)]
pub extern "C" fn bench_answers(text: &[u8], times: u64) -> u64
    ensures { result ≡ answered text.now times }
{
    let mut table = Table::empty();
    match Accepted::read(text, &mut table) {
        Ok(accepted) => answer(accepted, times),
        Err(_) => 0,
    }
}

// The report, written `times` over at the start of the buffer: its length, or 0 where none is written.
#[unsafe(no_mangle)]
pub extern "C" fn bench_write(text: &[u8], times: u64, out: &mut [u8]) -> u64
    ensures { (result ≡ length_after report_in text.now times out.old) × (out.new ≡ buffer_after report_in text.now times out.old) }
{
    let mut table = Table::empty();
    match Accepted::read(text, &mut table) {
        Ok(accepted) => write(accepted, times, out),
        Err(_) => 0,
    }
}

// The text, written `times` over from its table at the start of the buffer: its length, or 0 where none is written.
#[unsafe(no_mangle)]
pub extern "C" fn bench_rewrite(text: &[u8], times: u64, out: &mut [u8]) -> u64
    ensures { (result ≡ length_after table_text text.now times out.old) × (out.new ≡ buffer_after table_text text.now times out.old) }
{
    let mut table = Table::empty();
    match table.read(text) {
        Ok(()) => rewrite(&table, times, out),
        Err(_) => 0,
    }
}
