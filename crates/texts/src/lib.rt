// Texts: their lines and fields, what a field says, and why something is refused.
#![tactic(auto)]

// Numbers and names: what a field says.
pub mod fields;
// Lines and fields of a text.
pub mod lines;
// Why a text or a call is refused.
pub mod refusals;
