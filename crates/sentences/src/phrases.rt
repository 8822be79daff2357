// Phrases of sentences: the names of the methods, and numbers of things.

ghost use Rattle.std.specs.Prelude.{◌≡◌, ◌++◌, OnOk};
ghost use Rattle.writing.specs.Text.{spelled};
ghost use Rattle.methods.specs.Methods.{single_name, method_name};
ghost use Rattle.sentences.specs.Phrases.{counted_words, ticks_words};

use analysis::Method;
use analysis::costs::Single;
use std::alloc::AllocError;
use writing::writer::Draft;

pub(crate) fn single_name(method: Single) -> &'static [u8]
    ensures { result.now ≡ single_name method }
{
    methods::single_name(method).as_bytes()
}

pub(crate) fn method_name(method: Method) -> &'static [u8]
    ensures { result.now ≡ method_name method }
{
    methods::method_name(method).as_bytes()
}

pub(crate) fn add(out: &mut Vec<u8>, text: &[u8]) -> Result<(), AllocError>
    ensures { OnOk result (out.new.items ≡ out.old.items ++ text.now) }
{
    out.extend_from_slice(text)
}

pub(crate) fn add_number(out: &mut Vec<u8>, number: u64) -> Result<(), AllocError>
    ensures { OnOk result (out.new.items ≡ out.old.items ++ spelled number) }
{
    let mut draft = Draft::new();
    draft.write(&number);
    out.extend_from_slice(draft.text())
}

// So many things of a kind.
#[tactic(auto, unfolding(crate::specs::Phrases::counted_words))]
pub(crate) fn add_counted(out: &mut Vec<u8>, count: u64, what: &[u8]) -> Result<(), AllocError>
    ensures { OnOk result (out.new.items ≡ out.old.items ++ counted_words count what.now) }
{
    add_number(out, count)?;
    add(out, what)?;
    if count == 1 {
        return Ok(());
    }
    add(out, b"s")
}

pub(crate) fn add_ticks(out: &mut Vec<u8>, count: u64) -> Result<(), AllocError>
    ensures { OnOk result (out.new.items ≡ out.old.items ++ ticks_words count) }
{
    add_counted(out, count, b" tick")
}
