// The parts of a text: its lines, and the fields of a line, as specs/Cut.antt has them.

ghost use Rattle.std.specs.Prelude.{◌≡◌, ◌∷◌, [], ◌==◌, ◌↔◌, IsTrue, IfNone, IfSome, OnSome, position};
ghost use Rattle.std.specs.Iterator.{YieldsFirstRef, item_count};
ghost use Rattle.texts.specs.Cut.{up_to, after, lines, field, fields};

use std::marker::Model;

// Where the first c stands.
fn find(s: &[u8], c: u8) -> Option<usize>
    ensures { result ≡ position (λ b. b == c) s.now }
{
    memchr::memchr(c, s)
}

// Where the first tab stands. Most fields are short, so that a plain loop is quicker than `find`, by four bytes a turn.
fn find_tab(s: &[u8]) -> Option<usize>
    ensures { result ≡ position (λ b. b == 9) s.now }
{
    let n = s.len();
    let mut i = 0;
    while 4 <= n - i {
        if s[i] == b'\t' {
            return Some(i);
        }
        if s[i + 1] == b'\t' {
            return Some(i + 1);
        }
        if s[i + 2] == b'\t' {
            return Some(i + 2);
        }
        if s[i + 3] == b'\t' {
            return Some(i + 3);
        }
        i += 4;
    }
    for k in i..n {
        if s[k] == b'\t' {
            return Some(k);
        }
    }
    None
}

// The first line of a text, and the text below it.
pub fn next_line(text: &[u8]) -> (&[u8], &[u8])
    ensures line { result.0.now ≡ up_to 10 text.now }
    ensures below { result.1.now ≡ after 10 text.now }
{
    match find(text, b'\n') {
        Some(end) => (&text[..end], &text[end + 1..]),
        None => (text, &[]),
    }
}

// The lines of a text that are still to come.
#[derive(Drop)]
pub struct Lines<'a> {
    rest: &'a [u8],
}

impl<'a> Model for Lines<'a> {
    ghost use Rattle.std.specs.Prelude.{ℕ, List};
    ghost use Rattle.texts.specs.Cut.{lines};

    ghost Value = { List (List ℕ) };

    ghost view = { λ l. lines l.rest.now };
}

impl<'a> Lines<'a> {
    pub fn of(text: &'a [u8]) -> Lines<'a>
        ensures { result ≡ lines text.now }
    {
        Lines { rest: text }
    }
}

impl<'a> Iterator for Lines<'a> {
    type Item = &'a [u8];

    ghost next_gives = { YieldsFirstRef (λ lines. lines) };

    ghost remaining = { item_count (λ lines. lines) };

    fn next(&mut self) -> Option<&'a [u8]> {
        if self.rest.is_empty() {
            return None;
        }
        let (line, below) = next_line(self.rest);
        self.rest = below;
        Some(line)
    }
}

// The first field of a line, which tells what the line is.
pub fn first_field(line: &[u8]) -> &[u8]
    ensures { result.now ≡ field 0 line.now }
{
    match find_tab(line) {
        Some(end) => &line[..end],
        None => line,
    }
}

// The fields of a line that are still to come.
#[derive(Drop)]
pub struct Fields<'a> {
    rest: Option<&'a [u8]>,
}

impl<'a> Model for Fields<'a> {
    ghost use Rattle.std.specs.Prelude.{ℕ, List, []};
    ghost use Rattle.std.specs.Option.{option_map_or};
    ghost use Rattle.texts.specs.Cut.{fields};

    ghost Value = { List (List ℕ) };

    ghost view = { λ f. option_map_or (λ line. fields line.now) f.rest [] };
}

impl<'a> Fields<'a> {
    pub fn of(line: &'a [u8]) -> Fields<'a>
        ensures { result ≡ fields line.now }
    {
        Fields { rest: Some(line) }
    }

    pub fn is_done(&self) -> bool
        ensures { IsTrue result ↔ (self.now ≡ []) }
    {
        self.rest.is_none()
    }
}

impl<'a> Iterator for Fields<'a> {
    type Item = &'a [u8];

    ghost next_gives = { YieldsFirstRef (λ fields. fields) };

    ghost remaining = { item_count (λ fields. fields) };

    fn next(&mut self) -> Option<&'a [u8]> {
        let line = self.rest?;
        match find_tab(line) {
            Some(end) => {
                self.rest = Some(&line[end + 1..]);
                Some(&line[..end])
            }
            None => {
                self.rest = None;
                Some(line)
            }
        }
    }
}
