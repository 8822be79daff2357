// Any bytes as a terminal may show them: as one field, spelled so that different bytes are spelled differently, and as a text of lines.
#![tactic(auto)]

ghost use Rattle.std.specs.Prelude.{◌≡◌, ℕ, ◌<◌, List, ◌++◌, IfOk, OnOk, IsTrue, All, slice_index_or};
ghost use Rattle.spelling.specs.Spelling.{byte_in, is_later, is_seen, first_character, is_kept, kept_bytes, kept_now, escaped, spelled_from, spelled_out, cleaned, is_clean_from, is_clean, IsPlain};

use std::alloc::{AllocError, Global};
use writing::writer::hex_byte;

// A character: how many bytes it has as UTF-8, none where there is no character, and its number.
#[derive(Clone, Copy)]
struct Character {
    bytes: usize,
    code: u32,
}

// The byte at a place, 0 behind the last.
fn byte_in(text: &[u8], place: usize) -> u32
    ensures { result ≡ byte_in text.now place }
{
    if place < text.len() {
        text[place] as u32
    } else {
        0
    }
}

// Whether a byte is one of a character that is not its first.
fn is_later(byte: u32) -> bool
    ensures { result ≡ is_later byte }
{
    (0x80 <= byte) & (byte < 0xc0)
}

// The characters that control, are not seen, or turn others round: from the first to the last of each range.
const UNSEEN: [(u32, u32); 10] = [
    (0, 0x1f),
    (0x7f, 0x9f),
    (0xad, 0xad),
    (0x61c, 0x61c),
    (0x180e, 0x180e),
    (0x200b, 0x200f),
    (0x2028, 0x202e),
    (0x2060, 0x206f),
    (0xfeff, 0xfeff),
    (0xfff9, 0xfffb),
];

// Whether people see a character.
#[tactic(auto, unfolding(crate::specs::Spelling::is_seen))]
fn is_seen(code: u32) -> bool
    ensures { result ≡ is_seen code }
{
    for range in UNSEEN.iter() {
        if (range.0 <= code) & (code <= range.1) {
            return false;
        }
    }
    true
}

// The character at a text's start.
#[tactic(auto, unfolding(crate::specs::Spelling::first_character))]
fn first_character(text: &[u8]) -> Character
    ensures { result ≡ first_character text.now }
{
    let none = Character { bytes: 0, code: 0 };
    let first = byte_in(text, 0);
    if first < 0x80 {
        return Character {
            bytes: 1,
            code: first,
        };
    }
    let second = byte_in(text, 1);
    if !is_later(second) {
        return none;
    }
    if (0xc2 <= first) & (first < 0xe0) {
        return Character {
            bytes: 2,
            code: first % 32 * 64 + second % 64,
        };
    }
    let third = byte_in(text, 2);
    if !is_later(third) {
        return none;
    }
    if (0xe0 <= first) & (first < 0xf0) {
        let code = first % 16 * 4096 + second % 64 * 64 + third % 64;
        if (code < 0x800) | (0xd800 <= code) & (code < 0xe000) {
            return none;
        }
        return Character { bytes: 3, code };
    }
    let fourth = byte_in(text, 3);
    if !is_later(fourth) | ((first < 0xf0) | (0xf8 <= first)) {
        return none;
    }
    let code = first % 16 * 262144 + second % 64 * 4096 + third % 64 * 64 + fourth % 64;
    if (code < 0x10000) | (0x110000 <= code) {
        return none;
    }
    Character { bytes: 4, code }
}

// What is spelled: one field, or a text of lines.
#[derive(Clone, Copy)]
enum Kind {
    Field,
    Text,
}

// Whether a character is kept as it is. In a field the backslash is not: it stands before what is spelled out. In a text line ends and tabs are.
fn is_kept(kind: Kind, code: u32) -> bool
    ensures { result ≡ is_kept kind code }
{
    match kind {
        Kind::Field => is_seen(code) & (code != 0x5c),
        Kind::Text => is_seen(code) | ((code == 0x0a) | (code == 0x09)),
    }
}

// How many bytes the character at a text's start has, where it is kept as it is.
#[tactic(auto, unfolding(crate::specs::Spelling::kept_bytes))]
fn kept_bytes(kind: Kind, text: &[u8]) -> usize
    ensures { result ≡ kept_bytes kind text.now }
{
    let character = first_character(text);
    if is_kept(kind, character.code) {
        character.bytes
    } else {
        0
    }
}

// How many bytes are kept from here on, where so many are left of a character that began before.
fn kept_now(kind: Kind, left: usize, text: &[u8]) -> usize
    ensures { result ≡ kept_now kind left text.now }
{
    if left == 0 {
        kept_bytes(kind, text)
    } else {
        left
    }
}

// A byte, spelled out.
#[tactic(auto, unfolding(crate::specs::Spelling::escaped))]
fn add_escaped(out: &mut Vec<u8>, byte: u8) -> Result<(), AllocError>
    ensures { OnOk result (out.new.items ≡ out.old.items ++ escaped byte) }
{
    match byte {
        b'\n' => out.extend_from_slice(b"\\n"),
        b'\t' => out.extend_from_slice(b"\\t"),
        b'\\' => out.extend_from_slice(b"\\\\"),
        _ => {
            out.extend_from_slice(b"\\x")?;
            out.push(hex_byte(byte as u64 / 16))?;
            out.push(hex_byte(byte as u64 % 16))?;
            Ok(())
        }
    }
}

// Characters that are kept as they are, and all other bytes spelled out.
#[tactic(auto, unfolding(crate::specs::Spelling::spelled_from))]
fn spelled(alloc: Global, kind: Kind, text: &[u8]) -> Result<Vec<u8>, AllocError>
    ensures { IfOk result (λ out. out.items ≡ spelled_from kind 0 text.now) }
{
    let mut out = Vec::new(alloc);
    let mut kept = 0; // how many bytes are left of a character that is kept
    for place in 0..text.len() {
        kept = kept_now(kind, kept, &text[place..]);
        if kept == 0 {
            add_escaped(&mut out, text[place])?;
        } else {
            out.push(text[place])?;
            kept -= 1;
        }
    }
    Ok(out)
}

// Bytes as one field: characters that people see as they are but the backslash, and all other bytes spelled out.
pub fn spelled_out(alloc: Global, text: &[u8]) -> Result<Vec<u8>, AllocError>
    ensures spelled { IfOk result (λ out. out.items ≡ spelled_out text.now) }
    ensures apart { IfOk result (λ out. (other : List ℕ) → spelled_out other ≡ out.items → other ≡ text.now) }
{
    spelled(alloc, Kind::Field, text)
}

// Bytes as a text: characters that people see, line ends and tabs as they are, and all other bytes spelled out.
pub fn cleaned(alloc: Global, text: &[u8]) -> Result<Vec<u8>, AllocError>
    ensures cleaned { IfOk result (λ out. out.items ≡ cleaned text.now) }
    ensures clean { IfOk result (λ out. IsTrue (is_clean out.items)) }
    ensures plain { IfOk result (λ out. All IsPlain out.items) }
    ensures kept { IfOk result (λ out. IsTrue (is_clean text.now) → out.items ≡ text.now) }
{
    spelled(alloc, Kind::Text, text)
}

// Whether each character of a text is one that people see, a line end or a tab.
#[tactic(auto, unfolding(crate::specs::Spelling::is_clean_from))]
pub fn is_clean(text: &[u8]) -> bool
    ensures { result ≡ is_clean text.now }
{
    let mut kept = 0; // how many bytes are left of a character that is gone by
    for place in 0..text.len() {
        kept = kept_now(Kind::Text, kept, &text[place..]);
        if kept == 0 {
            return false;
        }
        kept -= 1;
    }
    true
}
