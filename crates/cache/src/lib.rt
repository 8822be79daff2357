// What a cache costs: ticks and block reloads, sets of cache sets, useful blocks, and the digits of a field.
#![tactic(auto)]

// The number that hex digits say.
pub mod hex_digits;
// Sets of cache sets.
pub mod sets;
// Ticks and block reloads.
pub mod units;
// Useful blocks, counted, of cache sets with ways.
pub mod useful;
