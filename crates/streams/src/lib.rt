// Reading and writing over any reader and any writer: all that a reader has, up to as many bytes as there is room for, the text of a table, and all bytes of a text. A
// call that a signal interrupts is tried again.
#![tactic(auto)]

ghost use Rattle.std.specs.Prelude.{◌≡◌, ◌≤◌, length, take, IfOk, OnOk, OnErr, IfSome};
ghost use Rattle.std.specs.Io.{ReadsAtMost};
ghost use Rattle.std.specs.Io.KnownBytes.{Appends, Consumes, ReadConsumes, WriteAppends};
ghost use Rattle.streams.specs.Bytes.{ConsumesLess, AppendsPart, IsReadOf};

use std::alloc::Global;
use std::io::{self, ErrorKind, Read, Write};
use table::Table;

// One read. One that a signal interrupts is tried again; the tries are counted since a loop has to end.
fn read_some<R: Read>(input: &mut R, buf: &mut [u8]) -> io::Result<usize>
    ensures bound { ReadsAtMost result buf.new }
    ensures bytes { ReadConsumes (R.remaining input.old) (R.remaining input.new) result buf.new }
{
    for _ in 0..u64::MAX {
        match input.read(buf) {
            Ok(len) => return Ok(len),
            Err(error) => {
                if error.kind() != ErrorKind::Interrupted {
                    return Err(error);
                }
            }
        }
    }
    input.read(buf)
}

// Reads until the input ends or buf is full, and tells how many bytes came: all that the input has, or as many as buf holds, and no
// byte is lost. Fails where a read fails, since there may be more.
pub fn read_input<R: Read>(input: &mut R, buf: &mut [u8]) -> io::Result<usize>
    ensures within { IfOk result (λ len. len ≤ length buf.new) }
    ensures bytes { IfOk result (λ len. IfSome (R.remaining input.old) (λ bytes. take len buf.new ≡ take (length buf.new) bytes)) }
    ensures consumed { IfOk result (λ len. Consumes (R.remaining input.old) (R.remaining input.new) (take len buf.new)) }
    ensures failed { OnErr result (ConsumesLess (length buf.old) (R.remaining input.old) (R.remaining input.new)) }
{
    let mut len = 0;
    while len < buf.len() {
        let more = read_some(input, &mut buf[len..])?;
        if more == 0 {
            return Ok(len);
        }
        len += more;
    }
    Ok(len)
}

// The text of a table that a reader has: all of it, or as many bytes as tell that it is too long. What follows is not read.
pub fn read_text<R: Read>(alloc: Global, reader: &mut R) -> io::Result<Vec<u8>>
    ensures text { IfOk result (λ text. IsReadOf (R.remaining reader.old) text.items) }
    ensures taken { IfOk result (λ text. Consumes (R.remaining reader.old) (R.remaining reader.new) text.items) }
{
    let mut buf = [0u8; Table::LONGEST_TEXT + 1];
    let len = read_input(reader, &mut buf)?;
    Ok(Vec::from_slice(alloc, &buf[..len])?)
}

// One write, which takes some of the bytes. One that a signal interrupts is tried again, as is a read; one that takes none has failed.
fn write_some<W: Write>(output: &mut W, bytes: &[u8]) -> io::Result<usize>
    ensures some { IfOk result (λ len. (1 ≤ len) × (len ≤ length bytes.now)) }
    ensures bytes { WriteAppends (W.contents output.old) (W.contents output.new) result bytes.now }
{
    for _ in 0..u64::MAX {
        match output.write(bytes) {
            Ok(0) => return Err(ErrorKind::WriteZero.into()),
            Ok(len) => return Ok(len),
            Err(failure) => {
                if failure.kind() != ErrorKind::Interrupted {
                    return Err(failure);
                }
            }
        }
    }
    Err(ErrorKind::Interrupted.into())
}

// Writes all the bytes. Where a write fails some of them may have been written, and not all.
pub fn write_output<W: Write>(output: &mut W, bytes: &[u8]) -> io::Result<()>
    ensures whole { OnOk result (Appends (W.contents output.old) (W.contents output.new) bytes.now) }
    ensures part { OnErr result (AppendsPart (W.contents output.old) (W.contents output.new) bytes.now) }
{
    let mut len = 0;
    while len < bytes.len() {
        len += write_some(output, &bytes[len..])?;
    }
    Ok(())
}
