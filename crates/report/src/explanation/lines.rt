// The lines of an explanation.
ghost use Rattle.std.specs.Prelude.{◌≡◌, ◌+◌, ◌≤◌, ◌<◌, [], ◌∷◌, ◌++◌, length, flat_map};
ghost use Rattle.search.specs.Positions.{hp};
ghost use Rattle.search.specs.Least.{AnswerInRange};
ghost use Rattle.table.specs.Tables.{at};
ghost use Rattle.analysis.specs.Costs.{charge_under};
ghost use Rattle.writing.specs.Text.{after_tab};
ghost use Rattle.writing.specs.declared.writer.TheConstants.{ROOM};
ghost use Rattle.report.specs.Explanation.{needed_text, method_number, need_line, activations_in, victim_text, reason_line, reason_lines};
ghost use Rattle.report.specs.Explained.{TaskInRange, VictimBelow, Explainable};

use analysis::costs::{Charge, Single};
use analysis::need::Need;
use analysis::{blocked_row, one_row};
use cache::units::Ticks;
use search::demand::Response;
use table::Table;
use table::accepted::Pending;
use table::tasks::Task;
use writing::writer::{Draft, Text};

// What is needed, or `beyond`.
#[derive(Clone, Copy)]
struct Needed(Response);

impl Text for Needed {
    ghost text = { λ n. needed_text n.0 };

    fn write_to(&self, draft: &mut Draft) {
        match self.0 {
            Response::Within(time) => draft.write(&time.0),
            Response::Unschedulable => draft.bytes(b"beyond"),
        }
    }
}

// The number by which a caller names a method.
fn method_number(method: Single) -> u64
    ensures { result ≡ method_number method }
{
    match method {
        Single::None => 0,
        Single::EcbOnly => 1,
        Single::UcbOnly => 2,
        Single::UcbUnion => 3,
        Single::EcbUnion => 4,
    }
}

// The first line.
#[tactic(auto, unfolding(crate::specs::Explanation::need_line))]
pub fn write_need_line(draft: &mut Draft, task: &Task, need: &Need)
    requires limited { task.now.jitter.0 ≤ task.now.deadline.0 }
    requires room { length draft.old + length (need_line task.now need.now) ≤ ROOM }
    ensures { draft.new ≡ draft.old ++ need_line task.now need.now }
{
    draft.push(b'X');
    draft.field(&task.name.text());
    draft.field(&method_number(need.method));
    draft.field(&Needed(need.time));
    draft.fields(&[
        task.deadline.0 - task.jitter.0,
        task.work.0,
        need.blocker.lasts.0,
    ]);
    draft.push(b'\n');
}

// How often a task is activated in `r` ticks.
fn activations(task: &Task, r: u64) -> u64
    requires { (r ≤ Ticks.LONGEST) × TaskInRange task.now }
    ensures { (result ≡ activations_in r task.now) × (result ≤ 500000000) }
{
    let period = task.period.0;
    (r + task.jitter.0 + (period - 1)) / period
}

// A tab and the name of the task that a charge hits, or `-` where it hits no single one.
fn write_victim(draft: &mut Draft, table: &Table, charge: Charge)
    requires held { (table.now.count ≤ Table.MOST_TASKS) × VictimBelow table.now.count charge }
    requires room { length draft.old + length (after_tab (victim_text table.now charge)) ≤ ROOM }
    ensures { draft.new ≡ draft.old ++ after_tab (victim_text table.now charge) }
{
    draft.push(b'\t');
    match charge {
        Charge::Victim(hit) => draft.write(&table.task(hit.victim).name.text()),
        Charge::NoVictim(_) => draft.push(b'-'),
    }
}

// The line of the task at j, above.
#[tactic(auto, unfolding(crate::specs::Explanation::reason_line))]
fn write_reason_line(draft: &mut Draft, table: &Table, j: usize, r: u64, charge: Charge)
    requires held { (j < table.now.count) × (table.now.count ≤ Table.MOST_TASKS) × VictimBelow table.now.count charge }
    requires in_range { (r ≤ Ticks.LONGEST) × TaskInRange (at table.now j) }
    requires room { length draft.old + length (reason_line table.now r j charge) ≤ ROOM }
    ensures { draft.new ≡ draft.old ++ reason_line table.now r j charge }
{
    let task = table.task(j);
    draft.push(b'I');
    draft.field(&task.name.text());
    draft.field(&activations(task, r));
    draft.field(&charge.count().0);
    write_victim(draft, table, charge);
    draft.push(b'\n');
}

// The lines of the tasks above i, where what is needed is `r`.
fn write_reason_lines(draft: &mut Draft, table: &Table, need: &Need, i: usize, r: u64)
    requires grounds { (r ≤ Ticks.LONGEST) × Explainable table.now need.now i }
    requires room { length draft.old + length (flat_map (λ j. reason_line table.now r j (charge_under table.now need.now.blocker need.now.method i j)) (hp i)) ≤ ROOM }
    ensures { draft.new ≡ draft.old ++ flat_map (λ j. reason_line table.now r j (charge_under table.now need.now.blocker need.now.method i j)) (hp i) }
{
    let pending = Pending { table, i };
    let mut row = one_row::charged(pending, need.method);
    blocked_row::join(pending, need.method, &need.blocker, &mut row);
    for j in 0..i {
        write_reason_line(draft, table, j, r, row[j]);
    }
}

// The same for any need: there are no reasons for what is beyond.
pub fn write_reasons(draft: &mut Draft, table: &Table, need: &Need, i: usize)
    requires grounds { AnswerInRange need.now.time × Explainable table.now need.now i }
    requires room { length draft.old + length (reason_lines table.now need.now.blocker need.now.method i need.now.time) ≤ ROOM }
    ensures { draft.new ≡ draft.old ++ reason_lines table.now need.now.blocker need.now.method i need.now.time }
{
    match need.time {
        Response::Within(time) => write_reason_lines(draft, table, need, i, time.0),
        Response::Unschedulable => {}
    }
}
