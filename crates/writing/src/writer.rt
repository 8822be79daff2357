// Drafts: texts that are made piece by piece, and what may be written in one.

ghost use Rattle.std.specs.Prelude.{◌≡◌, ℕ, ◌+◌, ◌≤◌, ◌<◌, List, [], ◌∷◌, ◌++◌, length, take, flat_map};
ghost use Rattle.writing.specs.Text.{spelled, hex_byte, hex_digits, after_tab, yes_no};

use std::marker::Model;

// The room of a draft: no text that is written at once is longer than the longest report.
pub const ROOM: usize = 2746;

// A text in the making.
#[derive(Drop)]
pub struct Draft {
    bytes: [u8; ROOM],
    len: usize,
}

impl Model for Draft {
    ghost use Rattle.std.specs.Prelude.{◌≡◌, ℕ, ◌≤◌, List, length, take};
    ghost use Rattle.writing.specs.declared.writer.TheConstants.{ROOM};

    ghost Value = { List ℕ };

    ghost view = { λ d. take d.len d.bytes };

    ghost invariant = { λ d. (d.len ≤ ROOM) × (length d.bytes ≡ ROOM) };
}

impl Draft {
    pub fn new() -> Self
        ensures { result ≡ [] }
    {
        Draft {
            bytes: [0; ROOM],
            len: 0,
        }
    }

    // The text so far.
    pub fn text(&self) -> &[u8]
        ensures { result.now ≡ self.now }
    {
        &self.bytes[..self.len]
    }

    pub fn push(&mut self, byte: u8)
        requires { length self.old < ROOM }
        ensures { self.new ≡ self.old ++ byte ∷ [] }
    {
        self.bytes[self.len] = byte;
        self.len += 1;
    }

    pub fn bytes(&mut self, text: &[u8])
        requires { length self.old + length text.now ≤ ROOM }
        ensures { self.new ≡ self.old ++ text.now }
    {
        let end = self.len + text.len();
        self.bytes[self.len..end].copy_from_slice(text);
        self.len = end;
    }

    // A number in decimal.
    fn number(&mut self, n: u64)
        requires { length self.old + length (spelled n) ≤ ROOM }
        ensures { self.new ≡ self.old ++ spelled n }
    {
        let end = self.len + digits_in(n);
        fill_decimal(&mut self.bytes[self.len..end], n);
        self.len = end;
    }

    // The lowest hex digits of a word, so many of them.
    pub fn hex(&mut self, word: u64, digits: usize)
        requires digits_bound { digits ≤ 16 }
        requires room { length self.old + digits ≤ ROOM }
        ensures { self.new ≡ self.old ++ hex_digits digits word }
    {
        let end = self.len + digits;
        fill_hex(&mut self.bytes[self.len..end], word);
        self.len = end;
    }

    pub fn write<T: Text>(&mut self, item: &T)
        requires { length self.old + length (T.text item.now) ≤ ROOM }
        ensures { self.new ≡ self.old ++ T.text item.now }
    {
        item.write_to(self);
    }

    // A tab, and then an item.
    pub fn field<T: Text>(&mut self, item: &T)
        requires { length self.old + length (after_tab (T.text item.now)) ≤ ROOM }
        ensures { self.new ≡ self.old ++ after_tab (T.text item.now) }
    {
        self.push(b'\t');
        item.write_to(self);
    }

    // Each item after a tab.
    pub fn fields<T: Text>(&mut self, items: &[T])
        requires { length self.old + length (flat_map (λ x. after_tab (T.text x)) items.now) ≤ ROOM }
        ensures { self.new ≡ self.old ++ flat_map (λ x. after_tab (T.text x)) items.now }
    {
        for item in items {
            self.field(item);
        }
    }
}

// How many decimal digits a number has.
pub fn digits_in(n: u64) -> usize
    ensures { result ≡ length (spelled n) }
{
    if n < 10 { 1 } else { 1 + digits_in(n / 10) }
}

// The decimal digits of a number, where there is a place for each. The last is filled first.
#[tactic(auto, using(crate::proofs::Spelling::spelled_digits))]
fn fill_decimal(places: &mut [u8], n: u64)
    requires { length places.old ≡ length (spelled n) }
    ensures { places.new ≡ spelled n }
{
    let mut left = n;
    for k in (0..places.len()).rev() {
        places[k] = b'0' + (left % 10) as u8;
        left /= 10;
    }
}

// The byte of a hex digit.
#[tactic(auto, unfolding(crate::specs::Text::hex_byte))]
pub fn hex_byte(digit: u64) -> u8
    requires { digit < 16 }
    ensures { result ≡ hex_byte digit }
{
    if digit < 10 {
        b'0' + digit as u8
    } else {
        b'a' - 10 + digit as u8
    }
}

// The lowest hex digits of a word, as many as there are places. Each is told by its place alone, so that several are worked out at once.
fn fill_hex(places: &mut [u8], word: u64)
    requires { length places.old ≤ 16 }
    ensures { places.new ≡ hex_digits (length places.old) word }
{
    let digits = places.len();
    for k in 0..digits {
        let below = digits - 1 - k;
        places[k] = hex_byte((word >> 4 * below) % 16);
    }
}

// What may be written in a draft.
pub trait Text {
    ghost text: { Self → List ℕ };

    fn write_to(&self, draft: &mut Draft)
        requires { length draft.old + length (text self.now) ≤ ROOM }
        ensures { draft.new ≡ draft.old ++ text self.now };
}

impl Text for u64 {
    ghost text = { spelled };

    fn write_to(&self, draft: &mut Draft) {
        draft.number(*self);
    }
}

impl Text for bool {
    ghost text = { yes_no };

    fn write_to(&self, draft: &mut Draft) {
        if *self {
            draft.bytes(b"yes");
        } else {
            draft.bytes(b"no");
        }
    }
}

impl<'a> Text for &'a [u8] {
    ghost text = { λ s. s.now };

    fn write_to(&self, draft: &mut Draft) {
        draft.bytes(*self);
    }
}
