// The list of builds: what became of each, one line for each; and lists put together.
#![tactic(auto)]

ghost use Rattle.std.specs.Prelude.{◌≡◌, ℕ, ◌+◌, ◌≤◌, List, [], ◌∷◌, ◌++◌, length, map, flat_map, IsPermutation, IfOk, OnOk};
ghost use Rattle.writing.specs.declared.writer.TheConstants.{ROOM};
ghost use Rattle.texts.specs.Cut.{lines};
ghost use Rattle.lists.specs.Lists.{fate_text, list_line};
ghost use Rattle.lists.specs.Together.{lent_of, texts_of, together};

use std::alloc::{AllocError, Global};
use texts::lines::Lines;
use texts::refusals::Refusal;
use writing::delivery;
use writing::writer::Draft;

// What became of a build: the verdicts of its report, or why there are none.
#[derive(Clone, Copy)]
pub enum Fate {
    // Its table could not be read.
    Unread,
    // Its report could not be written.
    Unwritten,
    // Its text is refused.
    Refused(Refusal),
    // Whether each task has a response, under the methods 0 to 5.
    Judged([bool; 6]),
}

// The last line of a build's report, or what stands in its place.
#[tactic(auto, unfolding(crate::specs::Lists::fate_text))]
fn write_fate(draft: &mut Draft, fate: Fate)
    requires { draft.old ≡ [] }
    ensures { draft.new ≡ fate_text fate }
{
    match fate {
        Fate::Unread => draft.bytes(b"F\tread\n"),
        Fate::Unwritten => draft.bytes(b"F\twrite\n"),
        Fate::Refused(refusal) => delivery::write_error(draft, refusal),
        Fate::Judged(verdicts) => {
            draft.push(b'V');
            draft.fields(&verdicts);
            draft.push(b'\n');
        }
    }
}

// The line of a build in the list: its name, spelled out, and what became of it.
pub fn line(alloc: Global, name: &[u8], fate: Fate) -> Result<Vec<u8>, AllocError>
    ensures { IfOk result (λ line. line.items ≡ list_line name.now fate) }
{
    let mut line = Vec::new(alloc);
    line.extend_from_slice(name)?;
    line.push(b'\t')?;
    let mut draft = Draft::new();
    write_fate(&mut draft, fate);
    line.extend_from_slice(draft.text())?;
    Ok(line)
}

// The lines of a list, after those of the lists before it.
fn add_lines<'a>(found: &mut Vec<&'a [u8]>, list: &'a [u8]) -> Result<(), AllocError>
    ensures { OnOk result (lent_of found.new.items ≡ lent_of found.old.items ++ lines list.now) }
{
    for line in Lines::of(list) {
        found.push(line)?;
    }
    Ok(())
}

// One list of the lines of lists, in order, whatever the order of the lists is.
pub fn put_together(alloc: Global, lists: &[Vec<u8>]) -> Result<Vec<u8>, AllocError>
    ensures list { IfOk result (λ list. list.items ≡ together (texts_of lists.now)) }
    ensures any_order { IfOk result (λ list. (shuffled : List (List ℕ)) → IsPermutation (texts_of lists.now) shuffled → list.items ≡ together shuffled) }
    ensures of_parts { IfOk result (λ list. (all : List (List ℕ)) (parts : List (List (List ℕ))) → IsPermutation all (flat_map (λ p. p) parts) → texts_of lists.now ≡ map together parts → list.items ≡ together all) }
{
    let mut found = Vec::new(alloc);
    for list in lists {
        add_lines(&mut found, list.as_slice())?;
    }
    found.sort()?;
    let mut list = Vec::new(alloc);
    for line in found.iter() {
        list.extend_from_slice(line)?;
        list.push(b'\n')?;
    }
    Ok(list)
}
