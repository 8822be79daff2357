// The lines of a list: `R`, the name of a task, and what is claimed of it, one for each task of a table in its order. specs/Lists.antt says what a list claims, and
// which refusal it is given.

ghost use Rattle.std.specs.Prelude.{◌≡◌, ◌+◌, false, MatchOption, MatchResult, IfOk, Ok, Err, take, codes};
ghost use Rattle.texts.specs.Fields.{has_shape};
ghost use Rattle.texts.specs.Rows.{unless_fault};
ghost use Rattle.table.specs.Tables.{at};
ghost use Rattle.table.specs.Reading.{told, then_read};
ghost use Rattle.claims.specs.Lists.{read_claim, AreListFields, list_line_checked, BeginsWithLine, first_claim, end_of_list_rows, claims_in, NoneFrom};

use cache::units::Ticks;
use search::demand::Response;
use table::Table;
use table::accepted::{Accepted, Pending};
use texts::fields;
use texts::lines::{Fields, first_field, next_line};
use texts::refusals::{Fault, Reason, Refusal};

// What a list line says: of whom, and which response is claimed.
#[derive(Clone, Copy)]
struct Claimed<'a> {
    name: &'a [u8],
    claim: Response,
}

// A number of ticks, or `-` for no response.
#[tactic(auto, unfolding(crate::specs::Lists::read_claim))]
fn read_claim(field: &[u8]) -> Option<Response>
    ensures { result ≡ read_claim field.now }
{
    if field == b"-".as_slice() {
        return Some(Response::Unschedulable);
    }
    Some(Response::Within(Ticks(fields::read_number(field)?)))
}

// The fields of a list line, behind the first.
#[derive(Clone, Copy)]
struct ListFields<'a> {
    name: &'a [u8],
    claim: &'a [u8],
}

fn cut(line: &[u8]) -> Option<ListFields<'_>>
    ensures { MatchOption result (has_shape (codes "R") 3 line.now ≡ false) (AreListFields line.now) }
{
    let mut fields = Fields::of(line);
    if fields.next()? != b"R".as_slice() {
        return None;
    }
    let name = fields.next()?;
    let claim = fields.next()?;
    if fields.is_done() {
        Some(ListFields { name, claim })
    } else {
        None
    }
}

// What the first line of a list says, and the list below it, where it is ended and a list line.
#[tactic(auto, using(std::proofs::lemmas::Bool::Decides::nat_tests), unfolding(texts::specs::Rows::unless_fault))]
fn first_line(list: &[u8]) -> Result<(Claimed<'_>, &[u8]), Fault>
    ensures { MatchResult result (λ first. BeginsWithLine list.now first.0 first.1.now) (λ fault. list_line_checked list.now ≡ Err fault) }
{
    let (line, below) = next_line(list);
    if first_field(line) != b"R".as_slice() {
        return Err(Reason::ListLine.at(0));
    }
    let ListFields { name, claim } = cut(line).ok_or(Reason::ListLine.at(3))?;
    if !fields::is_name(name) {
        return Err(Reason::ListLine.at(1));
    }
    let claim = read_claim(claim).ok_or(Reason::ListLine.at(2))?;
    if list.len() <= line.len() {
        return Err(Reason::ListLine.alone());
    }
    Ok((Claimed { name, claim }, below))
}

// What the first line of a list claims of the task at i, and the list below it, or why it is refused. It is line i + 1 of the whole list.
#[tactic(auto, using(std::proofs::lemmas::Bool::Decides::nat_tests), unfolding(crate::specs::Lists::first_claim, crate::specs::Lists::claim_rows, texts::specs::Rows::unless_fault))]
fn next_claim<'a>(list: &'a [u8], pending: Pending) -> Result<(Response, &'a [u8]), Refusal>
    ensures { first_claim (pending.entry.i + 1) (at pending.entry.table.now pending.entry.i) list.now ≡ then_read result (λ next. Ok (next.0, next.1.now)) }
{
    let line = pending.i as u64 + 1;
    if list.is_empty() {
        return Err(Reason::ListName.alone().on(line));
    }
    let (said, below) = match first_line(list) {
        Ok(first) => first,
        Err(fault) => return Err(fault.on(line)),
    };
    if !fields::same_bytes(said.name, pending.task().name.text()) {
        return Err(Reason::ListName.at(1).on(line));
    }
    Ok((said.claim, below))
}

// Whether a list may end with the line above this one: nothing stands there any more.
#[tactic(auto, using(std::proofs::lemmas::Bool::Decides::nat_tests), unfolding(crate::specs::Lists::end_of_list_rows, texts::specs::Rows::unless_fault))]
fn check_end(list: &[u8], line: u64) -> Result<(), Refusal>
    ensures { result ≡ told line (unless_fault (end_of_list_rows list.now) tt) }
{
    if list.is_empty() {
        return Ok(());
    }
    match first_line(list) {
        Err(fault) => Err(fault.on(line)),
        Ok(_) => Err(Reason::ListName.at(0).on(line)),
    }
}

// What a list claims of each task of a table, at the task's position, and no response in the places without a task; or its first refusal. No more of it is read
// than the table has tasks, and one line.
pub fn read(accepted: Accepted, list: &[u8]) -> Result<[Response; Table::MOST_TASKS], Refusal>
    ensures claimed { then_read result (λ claims. Ok (take accepted.entry.table.now.count claims)) ≡ claims_in accepted.entry.table.now list.now }
    ensures others { IfOk result (λ claims. NoneFrom accepted.entry.table.now.count claims) }
{
    let count = accepted.table.count;
    let mut claims = [Response::Unschedulable; Table::MOST_TASKS];
    let mut rest = list;
    for i in 0..count {
        let (claim, below) = next_claim(rest, accepted.pending(i))?;
        claims[i] = claim;
        rest = below;
    }
    check_end(rest, count as u64 + 1)?;
    Ok(claims)
}
