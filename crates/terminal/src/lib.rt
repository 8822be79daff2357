// What people at a terminal are told, over any writer: no character that controls reaches it, whatever a text or a name holds.
#![tactic(auto)]

ghost use Rattle.std.specs.Prelude.{◌≡◌, ◌++◌, IfOk, OnOk, OnErr, IsTrue, All};
ghost use Rattle.std.specs.Io.KnownBytes.{Appends};
ghost use Rattle.streams.specs.Bytes.{AppendsPart};
ghost use Rattle.spelling.specs.Spelling.{cleaned, is_clean, IsPlain};
ghost use Rattle.terminal.specs.Terminal.{message_line};

use std::alloc::{AllocError, Global};
use std::io::{self, Write};
use streams::write_output;

// Writes a text: as it is where it is clean, and else cleaned.
#[tactic(auto, using(spelling::proofs::Clean::clean_stays, spelling::proofs::Plain::clean_plain, crate::proofs::Written::nothing_written))]
pub fn print<W: Write>(alloc: Global, text: &[u8], writer: &mut W) -> io::Result<()>
    ensures whole { OnOk result (Appends (W.contents writer.old) (W.contents writer.new) (cleaned text.now)) }
    ensures part { OnErr result (AppendsPart (W.contents writer.old) (W.contents writer.new) (cleaned text.now)) }
    ensures clean { IsTrue (is_clean (cleaned text.now)) }
    ensures plain { All IsPlain (cleaned text.now) }
    ensures as_it_is { IsTrue (is_clean text.now) → cleaned text.now ≡ text.now }
{
    if spelling::is_clean(text) {
        return write_output(writer, text);
    }
    let clean = spelling::cleaned(alloc, text)?;
    write_output(writer, clean.as_slice())
}

// A message as a line of the program `crpd`.
fn message_line(alloc: Global, message: &[u8]) -> Result<Vec<u8>, AllocError>
    ensures { IfOk result (λ line. line.items ≡ message_line message.now) }
{
    let mut line = Vec::new(alloc);
    line.extend_from_slice(b"crpd: ")?;
    line.extend_from_slice(message)?;
    line.push(b'\n')?;
    Ok(line)
}

// Writes a message as a line, cleaned.
#[tactic(auto, using(spelling::proofs::Clean::clean_stays, spelling::proofs::Plain::clean_plain, crate::proofs::Written::nothing_told))]
pub fn tell<W: Write>(alloc: Global, message: &[u8], writer: &mut W) -> io::Result<()>
    ensures whole { OnOk result (Appends (W.contents writer.old) (W.contents writer.new) (cleaned (message_line message.now))) }
    ensures part { OnErr result (AppendsPart (W.contents writer.old) (W.contents writer.new) (cleaned (message_line message.now))) }
    ensures clean { IsTrue (is_clean (cleaned (message_line message.now))) }
    ensures plain { All IsPlain (cleaned (message_line message.now)) }
    ensures as_it_is { IsTrue (is_clean (message_line message.now)) → cleaned (message_line message.now) ≡ message_line message.now }
{
    let line = message_line(alloc, message)?;
    print(alloc, line.as_slice(), writer)
}
