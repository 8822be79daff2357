// A line of a text as a terminal may show it, with a mark below.
use std::alloc::{AllocError, Global};
use std::fmt::Write;

// A part of a line, from a byte to another.
#[derive(Clone, Copy)]
pub struct Part {
    pub start: usize,
    pub end: usize,
}

const WIDEST: usize = 79; // columns, so that no terminal breaks the line

const FROM_START: usize = 56; // a mark up to here is shown with all that stands before it

const BEFORE: usize = 32; // columns that are shown before a later mark

const TAB: usize = 8; // columns from one tab stop to the next

const DOTS: &str = "..."; // for what is not shown

// A line, and below it a line with a mark under a part of it, each after a line end. Of a long line only what stands around the mark is shown.
pub fn add(
    alloc: Global,
    out: &mut String,
    line: &[u8],
    mark: Option<Part>,
) -> Result<(), AllocError> {
    let place = match mark {
        Some(mark) => mark.start.min(line.len()),
        None => 0,
    };
    let shown = window(alloc, line, place)?;
    let before = if shown.start > 0 { DOTS } else { "" };
    let after = if shown.end < line.len() { DOTS } else { "" };
    out.push('\n')?;
    out.push_str(before)?;
    for byte in line.iter().take(shown.end).skip(shown.start) {
        put(out, *byte)?;
    }
    out.push_str(after)?;
    if let Some(mark) = mark {
        out.push('\n')?;
        for _ in 0..before.len() {
            out.push(' ')?;
        }
        add_marks(out, line, shown, mark)?;
    }
    Ok(())
}

// A byte as it is shown. A table has plain letters and tabs alone; what else stands in a line is spelled out, as it may be wider than a column, or turn
// the terminal upside down.
fn put(out: &mut String, byte: u8) -> Result<(), AllocError> {
    if is_plain(byte) || byte == b'\t' {
        return out.push(char::from(byte));
    }
    write!(out, "\\x{byte:02x}")
}

fn is_plain(byte: u8) -> bool {
    matches!(byte, b' '..=b'~')
}

fn width(byte: u8) -> usize {
    if is_plain(byte) || byte == b'\t' {
        1
    } else {
        4
    }
}

// The column after a byte that stands at a column.
fn after(column: usize, byte: u8) -> usize {
    if byte == b'\t' {
        (column / TAB).saturating_add(1).saturating_mul(TAB)
    } else {
        column.saturating_add(width(byte))
    }
}

// How many bytes, one after the other, end at a column or before it, from another one on.
fn fitting(bytes: &[u8], from: usize, to: usize) -> usize {
    let mut column = from;
    for (at, byte) in bytes.iter().enumerate() {
        column = after(column, *byte);
        if to < column {
            return at;
        }
    }
    bytes.len()
}

// Which part of a line is shown: all of it where there is room, or what stands around a place.
fn window(alloc: Global, line: &[u8], place: usize) -> Result<Part, AllocError> {
    if fitting(line, 0, WIDEST) == line.len() {
        return Ok(Part {
            start: 0,
            end: line.len(),
        });
    }
    let before = line.get(..place).unwrap_or(line);
    let (start, column) = if fitting(before, 0, FROM_START) == place {
        (0, 0)
    } else {
        let mut turned = Vec::from_slice(alloc, before)?;
        turned.as_mut_slice().reverse();
        let shown = fitting(turned.as_slice(), 0, BEFORE);
        (place.saturating_sub(shown), DOTS.len())
    };
    let rest = line.get(start..).unwrap_or(&[]);
    let end = start.saturating_add(fitting(rest, column, WIDEST - 3));
    Ok(Part { start, end })
}

// The line of the mark: tabs as in the line above, so that a terminal puts the mark under what it marks. An empty part has one mark, where it would
// stand.
fn add_marks(out: &mut String, line: &[u8], shown: Part, mark: Part) -> Result<(), AllocError> {
    let end = shown.end.min(mark.end);
    for (at, byte) in line.iter().enumerate() {
        if at < shown.start || end <= at {
            continue;
        }
        if *byte == b'\t' {
            out.push('\t')?;
            continue;
        }
        for _ in 0..width(*byte) {
            out.push(if at < mark.start { ' ' } else { '^' })?;
        }
    }
    if mark.end <= mark.start {
        out.push('^')?;
    }
    Ok(())
}
