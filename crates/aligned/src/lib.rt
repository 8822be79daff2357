// Tables of cells whose columns are aligned, in colours or without. specs/Aligned.antt says how.
#![tactic(auto)]

ghost use Rattle.std.specs.Prelude.{◌≡◌, ℕ, ◌-◌, ◌<◌, ◌++◌, length, IfOk, OnOk, replicate};
ghost use Rattle.aligned.specs.Aligned.{content_text, tone_code, padded, shown_cell, cell_text, cells_of, shown_lines, widened, widths_of, aligned_line, aligned_text};

use std::alloc::{AllocError, Global};
use writing::writer::{Draft, digits_in};

// What stands in a cell.
#[derive(Clone, Copy)]
pub enum Content<'a> {
    Nothing,
    Number(u64),
    Words(&'a [u8]),
}

// How a cell is told apart from the others where there are colours.
#[derive(Clone, Copy)]
pub enum Tone {
    Plain,
    Heading,
    Good,
    Bad,
}

#[derive(Clone, Copy)]
pub struct Cell<'a> {
    pub content: Content<'a>,
    pub tone: Tone,
}

impl Tone {
    // What makes a terminal show the tone.
    fn code(self) -> &'static [u8]
        ensures { result.now ≡ tone_code self }
    {
        match self {
            Tone::Plain => b"",
            Tone::Heading => b"\x1b[1m",
            Tone::Good => b"\x1b[32m",
            Tone::Bad => b"\x1b[1;31m",
        }
    }
}

impl<'a> Content<'a> {
    fn width(self) -> usize
        ensures { result ≡ length (content_text self.entry) }
    {
        match self {
            Content::Nothing => 0,
            Content::Number(number) => digits_in(number),
            Content::Words(words) => words.len(),
        }
    }

    fn add_to(self, out: &mut Vec<u8>) -> Result<(), AllocError>
        ensures { OnOk result (out.new.items ≡ out.old.items ++ content_text self.entry) }
    {
        match self {
            Content::Nothing => Ok(()),
            Content::Number(number) => {
                let mut draft = Draft::new();
                draft.write(&number);
                out.extend_from_slice(draft.text())
            }
            Content::Words(words) => out.extend_from_slice(words),
        }
    }
}

fn add_spaces(out: &mut Vec<u8>, count: usize) -> Result<(), AllocError>
    ensures { OnOk result (out.new.items ≡ out.old.items ++ replicate count 32) }
{
    for k in 0..count {
        out.push(b' ')?;
    }
    Ok(())
}

// What stands in a cell, as wide as its column: to the left in the first, to the right in the others, after a gap.
fn add_padded(
    out: &mut Vec<u8>,
    content: Content<'_>,
    column: usize,
    width: usize,
) -> Result<(), AllocError>
    ensures { OnOk result (out.new.items ≡ out.old.items ++ padded column width (content_text content.entry)) }
{
    let room = width.saturating_sub(content.width());
    if column == 0 {
        content.add_to(out)?;
        return add_spaces(out, room);
    }
    add_spaces(out, 2)?;
    add_spaces(out, room)?;
    content.add_to(out)
}

// A cell, in its tone where there are colours.
fn add_cell(
    out: &mut Vec<u8>,
    cell: Cell<'_>,
    column: usize,
    width: usize,
    colours: bool,
) -> Result<(), AllocError>
    ensures { OnOk result (out.new.items ≡ out.old.items ++ cell_text colours column width (shown_cell cell.entry)) }
{
    let code = cell.tone.code();
    if !colours || code.is_empty() {
        return add_padded(out, cell.content, column, width);
    }
    out.extend_from_slice(code)?;
    add_padded(out, cell.content, column, width)?;
    out.extend_from_slice(b"\x1b[0m")
}

// Makes the columns wide enough for a line.
fn widen(widths: &mut [usize; 8], line: &[Cell<'_>; 8])
    ensures { widths.new ≡ widened widths.old (cells_of line.now) }
{
    *widths = [
        widths[0].max(line[0].content.width()),
        widths[1].max(line[1].content.width()),
        widths[2].max(line[2].content.width()),
        widths[3].max(line[3].content.width()),
        widths[4].max(line[4].content.width()),
        widths[5].max(line[5].content.width()),
        widths[6].max(line[6].content.width()),
        widths[7].max(line[7].content.width()),
    ];
}

// How wide the columns are for all lines.
fn widths_of(lines: &[[Cell<'_>; 8]]) -> [usize; 8]
    ensures { result ≡ widths_of (shown_lines lines.now) }
{
    let mut widths = [0; 8];
    for line in lines {
        widen(&mut widths, line);
    }
    widths
}

fn add_line(
    out: &mut Vec<u8>,
    line: &[Cell<'_>; 8],
    widths: &[usize; 8],
    colours: bool,
) -> Result<(), AllocError>
    ensures { OnOk result (out.new.items ≡ out.old.items ++ aligned_line colours widths.now (cells_of line.now)) }
{
    for k in 0..8 {
        add_cell(out, line[k], k, widths[k], colours)?;
    }
    out.push(b'\n')?;
    Ok(())
}

// The lines, with their columns aligned.
pub fn aligned_bytes(
    alloc: Global,
    lines: &[[Cell<'_>; 8]],
    colours: bool,
) -> Result<Vec<u8>, AllocError>
    ensures { IfOk result (λ out. out.items ≡ aligned_text colours (shown_lines lines.now)) }
{
    let widths = widths_of(lines);
    let mut out = Vec::new(alloc);
    for line in lines {
        add_line(&mut out, line, &widths, colours)?;
    }
    Ok(out)
}
