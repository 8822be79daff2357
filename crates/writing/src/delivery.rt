// Whole texts put at the start of a buffer, and the line of a refusal.

ghost use Rattle.std.specs.Prelude.{◌≡◌, ◌+◌, ◌≤◌, ◌++◌, length};
ghost use Rattle.writing.specs.declared.writer.TheConstants.{ROOM};
ghost use Rattle.writing.specs.Delivery.{PutsText, PutsTextAt, DeliversText};
ghost use Rattle.writing.specs.Error.{error_text};

use crate::writer::Draft;
use texts::refusals::{Reason, Refusal};

// A text at the start of a buffer: how long it is.
pub fn put(text: &[u8], out: &mut [u8]) -> usize
    requires { length text.now ≤ length out.old }
    ensures { PutsText text.now out.old result out.new }
{
    out[..text.len()].copy_from_slice(text);
    text.len()
}

// A text in its place in a buffer, behind what stands there already: where the next one begins.
pub fn put_at(text: &[u8], at: usize, out: &mut [u8]) -> usize
    requires { at + length text.now ≤ length out.old }
    ensures { PutsTextAt text.now at out.old result out.new }
{
    let end = at + text.len();
    out[at..end].copy_from_slice(text);
    end
}

// All of a text, or nothing where the buffer is too short.
pub fn deliver(text: &[u8], out: &mut [u8]) -> Result<usize, Refusal>
    ensures { DeliversText text.now out.old result out.new }
{
    if out.len() < text.len() {
        return Err(Refusal::untold(Reason::ShortBuffer));
    }
    Ok(put(text, out))
}

// The line of a refusal.
#[tactic(auto, unfolding(crate::specs::Error::error_text))]
pub fn write_error(draft: &mut Draft, refusal: Refusal)
    requires { length draft.old + length (error_text refusal) ≤ ROOM }
    ensures { draft.new ≡ draft.old ++ error_text refusal }
{
    draft.push(b'E');
    draft.field(&refusal.reason.number());
    draft.field(&refusal.line);
    draft.push(b'\n');
}
