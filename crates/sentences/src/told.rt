// The sentences of an explanation.

ghost use Rattle.std.specs.Prelude.{◌≡◌, ◌≤◌, ◌++◌, OnOk};
ghost use Rattle.search.specs.Positions.{hp};
ghost use Rattle.table.specs.Tables.{at};
ghost use Rattle.table.specs.Tasks.{limit_of};
ghost use Rattle.report.specs.Explanation.{activations_in, name_at};
ghost use Rattle.report.specs.Explained.{TaskInRange, VictimBelow};
ghost use Rattle.sentences.specs.Sentences.{response_sentence, need_words, no_response_sentence, answer_sentence, union_sentence, blocking_sentence, times_words, hit_words, reload_words, task_sentence, reason_sentences};
ghost use Rattle.sentences.specs.Explained.{Grounds, ToldAbove};

use crate::phrases::{add, add_counted, add_number, add_ticks, method_name, single_name};
use analysis::Method;
use analysis::costs::{Charge, Single};
use analysis::need::Need;
use cache::units::Ticks;
use search::demand::Response;
use std::alloc::AllocError;
use table::accepted::Pending;
use table::tasks::Task;

// The response of the task with this name, and its limit.
#[tactic(auto, unfolding(crate::specs::Sentences::response_sentence))]
fn add_response(
    out: &mut Vec<u8>,
    method: Method,
    name: &[u8],
    time: Ticks,
    limit: Ticks,
) -> Result<(), AllocError>
    ensures { OnOk result (out.new.items ≡ out.old.items ++ response_sentence method name.now time.0 limit.0) }
{
    add(out, b"Under ")?;
    add(out, method_name(method))?;
    add(out, b" the response of ")?;
    add(out, name)?;
    add(out, b" is ")?;
    add_ticks(out, time.0)?;
    add(out, b"; its limit is ")?;
    add_ticks(out, limit.0)?;
    add(out, b".\n")
}

// What is needed, or that it is more than is looked for.
fn add_need(out: &mut Vec<u8>, needed: Response) -> Result<(), AllocError>
    ensures { OnOk result (out.new.items ≡ out.old.items ++ need_words needed) }
{
    match needed {
        Response::Within(time) => add_ticks(out, time.0),
        Response::Unschedulable => {
            add(out, b"more than ")?;
            add_ticks(out, Ticks::LONGEST)
        }
    }
}

// That the task with this name has no response.
#[tactic(auto, unfolding(crate::specs::Sentences::no_response_sentence))]
fn add_no_response(
    out: &mut Vec<u8>,
    method: Method,
    name: &[u8],
    needed: Response,
    limit: Ticks,
) -> Result<(), AllocError>
    ensures { OnOk result (out.new.items ≡ out.old.items ++ no_response_sentence method name.now needed limit.0) }
{
    add(out, b"Under ")?;
    add(out, method_name(method))?;
    add(out, b" ")?;
    add(out, name)?;
    add(out, b" has no response: it needs ")?;
    add_need(out, needed)?;
    add(out, b", and its limit is ")?;
    add_ticks(out, limit.0)?;
    add(out, b".\n")
}

// The answer.
pub(crate) fn add_answer(
    out: &mut Vec<u8>,
    pending: Pending,
    method: Method,
    needed: Response,
    response: Response,
) -> Result<(), AllocError>
    ensures { OnOk result (out.new.items ≡ out.old.items ++ answer_sentence method (name_at pending.entry.table.now pending.entry.i) needed response (limit_of (at pending.entry.table.now pending.entry.i))) }
{
    let name = pending.task().name.text();
    match response {
        Response::Within(time) => add_response(out, method, name, time, pending.limit()),
        Response::Unschedulable => add_no_response(out, method, name, needed, pending.limit()),
    }
}

// By which union combined goes.
pub(crate) fn add_union(out: &mut Vec<u8>, method: Method, union: Single) -> Result<(), AllocError>
    ensures { OnOk result (out.new.items ≡ out.old.items ++ union_sentence method union) }
{
    match method {
        Method::Of(_) => Ok(()),
        Method::Combined => {
            add(out, b"Combined goes by ")?;
            add(out, single_name(union))?;
            add(
                out,
                b" here, whose figure is no larger than the other union's.\n",
            )
        }
    }
}

// For how long an access blocks the task, where one does.
fn add_blocking(out: &mut Vec<u8>, lasts: Ticks) -> Result<(), AllocError>
    ensures { OnOk result (out.new.items ≡ out.old.items ++ blocking_sentence lasts.0) }
{
    if lasts.0 == 0 {
        return Ok(());
    }
    add(out, b"It may be blocked for ")?;
    add_ticks(out, lasts.0)?;
    add(out, b" by an access of a lower task.\n")
}

// How often a task is activated in `r` ticks.
pub(crate) fn activations(task: &Task, r: u64) -> u64
    requires { (r ≤ Ticks.LONGEST) × TaskInRange task.now }
    ensures { result ≡ activations_in r task.now }
{
    let period = task.period.0;
    (r + task.jitter.0 + (period - 1)) / period
}

#[tactic(auto, unfolding(crate::specs::Sentences::times_words))]
fn add_times(out: &mut Vec<u8>, count: u64) -> Result<(), AllocError>
    ensures { OnOk result (out.new.items ≡ out.old.items ++ times_words count) }
{
    match count {
        1 => add(out, b"once, for "),
        2 => add(out, b"twice, each time for "),
        _ => {
            add_number(out, count)?;
            add(out, b" times, each time for ")
        }
    }
}

// The task that a charge hits, where it hits a single one.
fn add_hit(out: &mut Vec<u8>, pending: Pending, charge: Charge) -> Result<(), AllocError>
    requires { VictimBelow pending.table.now.count charge }
    ensures { OnOk result (out.new.items ≡ out.old.items ++ hit_words pending.entry.table.now charge) }
{
    match charge {
        Charge::Victim(hit) => {
            add(out, b" of ")?;
            add(out, pending.table.task(hit.victim).name.text())
        }
        Charge::NoVictim(_) => Ok(()),
    }
}

// The reloads that each activation is charged, where there are some.
#[tactic(auto, unfolding(crate::specs::Sentences::reload_words))]
fn add_reloads(out: &mut Vec<u8>, pending: Pending, charge: Charge) -> Result<(), AllocError>
    requires { VictimBelow pending.table.now.count charge }
    ensures { OnOk result (out.new.items ≡ out.old.items ++ reload_words pending.entry.table.now charge) }
{
    let reloads = charge.count().0;
    if reloads == 0 {
        return Ok(());
    }
    add(out, b" and ")?;
    add_counted(out, reloads, b" block reload")?;
    add_hit(out, pending, charge)?;
    add(out, b" at ")?;
    add_ticks(out, pending.table.brt.0)?;
    if reloads == 1 {
        return Ok(());
    }
    add(out, b" each")
}

// The task at j, above, in `r` ticks.
#[tactic(auto, unfolding(crate::specs::Sentences::task_sentence))]
fn add_task(
    out: &mut Vec<u8>,
    pending: Pending,
    j: usize,
    r: u64,
    charge: Charge,
) -> Result<(), AllocError>
    requires { ToldAbove pending.table.now pending.i j r charge }
    ensures { OnOk result (out.new.items ≡ out.old.items ++ task_sentence pending.entry.table.now r j charge) }
{
    let task = pending.table.task(j);
    add(out, b"Meanwhile ")?;
    add(out, task.name.text())?;
    add(out, b" is activated ")?;
    add_times(out, activations(task, r))?;
    add_ticks(out, task.work.0)?;
    add_reloads(out, pending, charge)?;
    add(out, b".\n")
}

// What makes up a need of `r` ticks.
pub(crate) fn add_reasons(
    out: &mut Vec<u8>,
    pending: Pending,
    need: &Need,
    row: &[Charge; 32],
    r: Ticks,
) -> Result<(), AllocError>
    requires { Grounds pending.table.now need.now pending.i r.0 row.now }
    ensures { OnOk result (out.new.items ≡ out.old.items ++ reason_sentences pending.entry.table.now need.now pending.entry.i (Response.Within r)) }
{
    add_blocking(out, need.blocker.lasts)?;
    for j in 0..pending.i {
        add_task(out, pending, j, r.0, row[j])?;
    }
    Ok(())
}
