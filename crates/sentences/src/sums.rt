// Sums: parts, and what they come to.

ghost use Rattle.std.specs.Prelude.{◌≡◌, ◌++◌, flat_map, replicate, IfOk, OnOk};
ghost use Rattle.writing.specs.Text.{spelled};
ghost use Rattle.sentences.specs.Sums.{told_part, told_parts, widened_by, sum_widths, to_the_left, to_the_right, sum_line, part_line, sum_text};

use crate::phrases::{add, add_number};
use std::alloc::{AllocError, Global};
use writing::writer::digits_in;

// A part of a sum: whose it is, what it is, and its ticks.
#[derive(Drop)]
pub struct Part {
    pub name: Vec<u8>,
    pub words: Vec<u8>,
    pub ticks: u64,
}

// Parts, and what they come to.
#[derive(Drop)]
pub struct Sum {
    pub parts: Vec<Part>,
    pub whole: u64,
}

const TOGETHER: &[u8] = b"together";

// How wide the columns are.
#[derive(Clone, Copy)]
struct Widths {
    name: usize,
    words: usize,
    ticks: usize,
}

impl Widths {
    // Wide enough for all parts, and for what they come to.
    fn of(parts: &[Part], whole: u64) -> Widths
        ensures { result ≡ sum_widths (told_parts parts.now) whole }
    {
        let mut widths = Widths {
            name: TOGETHER.len(),
            words: 0,
            ticks: digits_in(whole),
        };
        for part in parts {
            widths = widths.widened_by(part);
        }
        widths
    }

    fn widened_by(self, part: &Part) -> Widths
        ensures { result ≡ widened_by self (told_part part.now) }
    {
        Widths {
            name: self.name.max(part.name.len()),
            words: self.words.max(part.words.len()),
            ticks: self.ticks,
        }
    }
}

// The same byte so many times.
fn add_many(out: &mut Vec<u8>, byte: u8, count: usize) -> Result<(), AllocError>
    ensures { OnOk result (out.new.items ≡ out.old.items ++ replicate count byte) }
{
    for k in 0..count {
        out.push(byte)?;
    }
    Ok(())
}

// A text at the left of its column.
fn add_left(out: &mut Vec<u8>, width: usize, text: &[u8]) -> Result<(), AllocError>
    ensures { OnOk result (out.new.items ≡ out.old.items ++ to_the_left width text.now) }
{
    add(out, b"  ")?;
    add(out, text)?;
    add_many(out, b' ', width.saturating_sub(text.len()))
}

// A text at the right of its column.
fn add_right(out: &mut Vec<u8>, width: usize, text: &[u8]) -> Result<(), AllocError>
    ensures { OnOk result (out.new.items ≡ out.old.items ++ to_the_right width text.now) }
{
    add(out, b"  ")?;
    add_many(out, b' ', width.saturating_sub(text.len()))?;
    add(out, text)
}

// A line of a sum.
#[tactic(auto, unfolding(crate::specs::Sums::sum_line))]
fn add_line(
    out: &mut Vec<u8>,
    widths: Widths,
    name: &[u8],
    words: &[u8],
    ticks: &[u8],
) -> Result<(), AllocError>
    ensures { OnOk result (out.new.items ≡ out.old.items ++ sum_line widths name.now words.now ticks.now) }
{
    add_left(out, widths.name, name)?;
    add_left(out, widths.words, words)?;
    add_right(out, widths.ticks, ticks)?;
    add(out, b"\n")
}

// A number in decimal.
fn number(alloc: Global, number: u64) -> Result<Vec<u8>, AllocError>
    ensures { IfOk result (λ text. text.items ≡ spelled number) }
{
    let mut text = Vec::new(alloc);
    add_number(&mut text, number)?;
    Ok(text)
}

fn add_part(out: &mut Vec<u8>, widths: Widths, part: &Part) -> Result<(), AllocError>
    ensures { OnOk result (out.new.items ≡ out.old.items ++ part_line widths (told_part part.now)) }
{
    let ticks = number(*out.allocator(), part.ticks)?;
    add_line(
        out,
        widths,
        part.name.as_slice(),
        part.words.as_slice(),
        ticks.as_slice(),
    )
}

// A rule, as long as a number.
fn rule(alloc: Global, length: usize) -> Result<Vec<u8>, AllocError>
    ensures { IfOk result (λ text. text.items ≡ replicate length 45) }
{
    let mut text = Vec::new(alloc);
    add_many(&mut text, b'-', length)?;
    Ok(text)
}

// Parts one below the other, and what they come to, below an empty line.
pub fn add_sum(out: &mut Vec<u8>, parts: &[Part], whole: u64) -> Result<(), AllocError>
    ensures { OnOk result (out.new.items ≡ out.old.items ++ sum_text (told_parts parts.now) whole) }
{
    let widths = Widths::of(parts, whole);
    add(out, b"\n")?;
    add_parts(out, widths, parts)?;
    let alloc = *out.allocator();
    let rule = rule(alloc, digits_in(whole))?;
    add_line(out, widths, b"", b"", rule.as_slice())?;
    let whole = number(alloc, whole)?;
    add_line(out, widths, TOGETHER, b"", whole.as_slice())
}

fn add_parts(out: &mut Vec<u8>, widths: Widths, parts: &[Part]) -> Result<(), AllocError>
    ensures { OnOk result (out.new.items ≡ out.old.items ++ flat_map (part_line widths) (told_parts parts.now)) }
{
    for part in parts {
        add_part(out, widths, part)?;
    }
    Ok(())
}
