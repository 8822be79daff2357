// Any order gives the same. proofs/AnyOrder.antt has the laws over the definitions. Here those of cache sets are promised of what the code returns: three
// functions work one set out in two ways, and a fourth has the sizes of what useful blocks share with evicting sets.

ghost use Rattle.std.specs.Prelude.{◌≤◌};
ghost use Rattle.cache.specs.Sets.{◌∪◌};
ghost use Rattle.cache.specs.Levels.{counts};
ghost use Rattle.cache.specs.Words.{members};
ghost use Rattle.laws.specs.CacheSets.{BothGive, SizesOf};

use cache::sets::CacheSet;
use cache::units::Reloads;
use cache::useful::Useful;

// A set that was worked out in two ways.
#[derive(Clone, Copy)]
pub struct TwoWays {
    pub one: CacheSet,
    pub other: CacheSet,
}

// Of useful blocks and two evicting sets A and B: how many there are in A ∪ B, in A ∩ B, in A and in B.
#[derive(Clone, Copy)]
pub struct Sizes {
    pub either: Reloads,
    pub both: Reloads,
    pub first: Reloads,
    pub second: Reloads,
}

// Union is commutative.
pub fn either_way_round(a: CacheSet, b: CacheSet) -> TwoWays
    ensures { BothGive (members a ∪ members b) result }
{
    TwoWays {
        one: a.union(b),
        other: b.union(a),
    }
}

// Union is associative.
pub fn either_grouping(a: CacheSet, b: CacheSet, c: CacheSet) -> TwoWays
    ensures { BothGive (members a ∪ members b ∪ members c) result }
{
    let left = a.union(b);
    let right = b.union(c);
    TwoWays {
        one: left.union(c),
        other: a.union(right),
    }
}

// Union is idempotent.
pub fn with_itself(a: CacheSet) -> TwoWays
    ensures { BothGive (members a) result }
{
    TwoWays {
        one: a.union(a),
        other: a,
    }
}

// The sizes of what is shared add up, whatever the useful blocks count.
pub fn shared_sizes(useful: &Useful, a: CacheSet, b: CacheSet, ways: u64) -> Sizes
    requires { ways ≤ 8 }
    ensures { SizesOf (counts ways useful.now) (members a) (members b) result }
{
    let union = a.union(b);
    let intersection = a.intersection(b);
    Sizes {
        either: useful.size_in(union, ways),
        both: useful.size_in(intersection, ways),
        first: useful.size_in(a, ways),
        second: useful.size_in(b, ways),
    }
}
