// The parts of a need, as a sum.

ghost use Rattle.std.specs.Prelude.{◌≡◌, IfOk, OnOk, ◌++◌, codes};
ghost use Rattle.table.specs.Tables.{at};
ghost use Rattle.report.specs.Explanation.{name_at};
ghost use Rattle.search.specs.Demand.{work_of};
ghost use Rattle.analysis.specs.Costs.{reloads_in, term_with};
ghost use Rattle.sentences.specs.Sums.{told_part, told_parts};
ghost use Rattle.sentences.specs.Explained.{sum_part, product_words, need_parts, Grounds, ToldAbove};

use crate::phrases::{add, add_number};
use crate::sums::{Part, Sum};
use crate::told::activations;
use analysis::costs::{self, Charge};
use analysis::need::Need;
use cache::units::Ticks;
use std::alloc::{AllocError, Global};
use table::accepted::Pending;

// A part of a sum.
fn part(alloc: Global, name: &[u8], words: &[u8], ticks: u64) -> Result<Part, AllocError>
    ensures { IfOk result (λ part. told_part part ≡ sum_part name.now words.now ticks) }
{
    let name = Vec::from_slice(alloc, name)?;
    let words = Vec::from_slice(alloc, words)?;
    Ok(Part { name, words, ticks })
}

// How many activations the task at j has in `r` ticks, and what each adds.
#[tactic(auto, unfolding(crate::specs::Explained::product_words))]
fn add_product(
    out: &mut Vec<u8>,
    pending: Pending,
    j: usize,
    r: u64,
    charge: Charge,
) -> Result<(), AllocError>
    requires { ToldAbove pending.table.now pending.i j r charge }
    ensures { OnOk result (out.new.items ≡ out.old.items ++ product_words pending.entry.table.now r j charge) }
{
    let task = pending.table.task(j);
    add_number(out, activations(task, r))?;
    add(out, b" x (")?;
    add_number(out, task.work.0)?;
    add(out, b" + ")?;
    add_number(out, charge.count().0)?;
    add(out, b" x ")?;
    add_number(out, pending.table.brt.0)?;
    add(out, b")")
}

// What the task at j adds.
fn task_part(
    alloc: Global,
    pending: Pending,
    j: usize,
    r: u64,
    charge: Charge,
) -> Result<Part, AllocError>
    requires { ToldAbove pending.table.now pending.i j r charge }
    ensures { IfOk result (λ part. told_part part ≡ sum_part (name_at pending.entry.table.now j) (product_words pending.entry.table.now r j charge) (work_of r (term_with pending.entry.table.now j (reloads_in charge)))) }
{
    let mut product = Vec::new(alloc);
    add_product(&mut product, pending, j, r, charge)?;
    let adds = costs::term(pending, j, charge.count()).work(r);
    let name = pending.table.task(j).name.text();
    part(alloc, name, product.as_slice(), adds)
}

// All parts of a need of `r` ticks.
fn parts_of(
    alloc: Global,
    pending: Pending,
    need: &Need,
    row: &[Charge; 32],
    r: Ticks,
) -> Result<Vec<Part>, AllocError>
    requires { Grounds pending.table.now need.now pending.i r.0 row.now }
    ensures { IfOk result (λ parts. told_parts parts.items ≡ need_parts pending.entry.table.now need.now pending.entry.i r.0) }
{
    let task = pending.task();
    let mut parts = Vec::new(alloc);
    parts.push(part(alloc, task.name.text(), b"its own execution", task.work.0)?)?;
    parts.push(part(alloc, b"", b"blocking", need.blocker.lasts.0)?)?;
    for j in 0..pending.i {
        parts.push(task_part(alloc, pending, j, r.0, row[j])?)?;
    }
    Ok(parts)
}

// A need of `r` ticks as a sum.
pub(crate) fn sum_of(
    alloc: Global,
    pending: Pending,
    need: &Need,
    row: &[Charge; 32],
    r: Ticks,
) -> Result<Sum, AllocError>
    requires { Grounds pending.table.now need.now pending.i r.0 row.now }
    ensures parts { IfOk result (λ sum. told_parts sum.parts.items ≡ need_parts pending.entry.table.now need.now pending.entry.i r.0) }
    ensures whole { IfOk result (λ sum. sum.whole ≡ r.0) }
{
    let parts = parts_of(alloc, pending, need, row, r)?;
    Ok(Sum { parts, whole: r.0 })
}
