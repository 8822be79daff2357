// What may block one task. specs/Analysis.antt says which accesses they are.

ghost use Rattle.std.specs.Prelude.{◌≡◌, ◌∷◌, [], MatchOption, length, nat_le};
ghost use Rattle.std.specs.Iterator.{YieldsFirstRef, item_count};
ghost use Rattle.table.specs.Accesses.{blocking, or_else};
ghost use Rattle.table.specs.Tables.{accesses_of};
ghost use Rattle.analysis.specs.Analysis.{OneInFront, OneThatBlocks};

use std::marker::Model;
use table::Table;
use table::accesses::Access;

// Those of some accesses that may block a task, in their order.
#[derive(Drop)]
pub struct Blocking<'a> {
    position: usize,
    rest: &'a [Access],
}

impl<'a> Model for Blocking<'a> {
    ghost use Rattle.std.specs.Prelude.{List};
    ghost use Rattle.table.specs.declared.accesses.Access.{Access as AccessOf};
    ghost use Rattle.table.specs.Accesses.{blocking};

    ghost Value = { List AccessOf };

    ghost view = { λ b. blocking b.position b.rest.now };
}

// The first of these that may block the task at i, and those behind it.
fn next_blocking(accesses: &[Access], i: usize) -> Option<(&Access, &[Access])>
    ensures { MatchOption result (blocking i accesses.now ≡ []) (λ next. blocking i accesses.now ≡ next.0.now ∷ blocking i next.1.now) }
{
    let mut rest = accesses;
    while let Some((access, behind)) = rest.split_first() {
        if access.may_block(i) {
            return Some((access, behind));
        }
        rest = behind;
    }
    None
}

impl<'a> Blocking<'a> {
    pub fn of(accesses: &'a [Access], i: usize) -> Blocking<'a>
        ensures { result ≡ blocking i accesses.now }
    {
        Blocking {
            position: i,
            rest: accesses,
        }
    }
}

impl<'a> Iterator for Blocking<'a> {
    type Item = &'a Access;

    ghost next_gives = { YieldsFirstRef (λ blocking. blocking) };

    ghost remaining = { item_count (λ blocking. blocking) };

    fn next(&mut self) -> Option<&'a Access> {
        let (access, behind) = next_blocking(self.rest, self.position)?;
        self.rest = behind;
        Some(access)
    }
}

// Whether two or more of these may block the task at i.
pub fn are_several(accesses: &[Access], i: usize) -> bool
    ensures { result ≡ nat_le 2 (length (blocking i accesses.now)) }
{
    let mut blocking = Blocking::of(accesses, i);
    blocking.next().is_some() && blocking.next().is_some()
}

// Where the longest of these stands that may block the task at i, if any may: the first of them.
pub fn longest(accesses: &[Access], i: usize) -> Option<usize>
    ensures { OneThatBlocks accesses.now i result }
{
    let mut found: Option<usize> = None;
    let mut most: u64 = 0;
    for n in 0..accesses.len() {
        let access = &accesses[n];
        if access.may_block(i) & (found.is_none() | (most < access.lasts.0)) {
            found = Some(n);
            most = access.lasts.0;
        }
    }
    found
}

// All that may block a task, the longest in front: what is found while it blocks is likely the latest, and then no other one is searched for.
#[derive(Drop)]
pub struct Blockers<'a> {
    first: Option<&'a Access>,
    before: Blocking<'a>,
    behind: Blocking<'a>,
}

impl<'a> Model for Blockers<'a> {
    ghost use Rattle.std.specs.Prelude.{List, ◌∷◌, ◌++◌};
    ghost use Rattle.std.specs.Option.{option_map_or};
    ghost use Rattle.table.specs.declared.accesses.Access.{Access as AccessOf};

    ghost Value = { List AccessOf };

    ghost view = { λ b. option_map_or (λ first. first.now ∷ (b.before ++ b.behind)) b.first (b.before ++ b.behind) };
}

impl<'a> Blockers<'a> {
    // Where none may, `otherwise` is all.
    pub fn of(table: &'a Table, i: usize, otherwise: &'a Access) -> Blockers<'a>
        ensures { OneInFront (or_else otherwise.now (blocking i (accesses_of table.now))) result }
    {
        let accesses = table.accesses();
        match longest(accesses, i) {
            Some(n) => Blockers {
                first: Some(&accesses[n]),
                before: Blocking::of(&accesses[..n], i),
                behind: Blocking::of(&accesses[n + 1..], i),
            },
            None => Blockers {
                first: Some(otherwise),
                before: Blocking::of(&accesses[..0], i),
                behind: Blocking::of(&accesses[..0], i),
            },
        }
    }
}

impl<'a> Iterator for Blockers<'a> {
    type Item = &'a Access;

    ghost next_gives = { YieldsFirstRef (λ blockers. blockers) };

    ghost remaining = { item_count (λ blockers. blockers) };

    fn next(&mut self) -> Option<&'a Access> {
        if let Some(first) = self.first {
            self.first = None;
            return Some(first);
        }
        if let Some(access) = self.before.next() {
            return Some(access);
        }
        self.behind.next()
    }
}
