// Texts: written into a buffer, and delivered or refused.
#![tactic(auto)]

// A whole text delivered or refused, and the line of a refusal.
pub mod delivery;
// Sets as the hex digits of a field, and whether a field can hold one.
pub mod marks;
// Texts appended to a draft.
pub mod writer;
