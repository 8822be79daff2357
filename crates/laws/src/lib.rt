// What users rest on, as promises of functions. Each contract here is a law; the function works out what the law speaks of, by the public functions of the
// crates below. A law that holds of a function's answer on its own stands beside the equation that says which answer that is.
#![tactic(auto)]

// With a task more no other is answered sooner.
pub mod added;
// Any order of the tasks gives the same response.
pub mod any_order;
// The same of any text, where nothing is asked of the caller.
pub mod any_text;
// Any worker gets the same answer.
pub mod any_worker;
// What is found of claimed responses, beside our own.
pub mod claimed;
// Which of the methods never answers later than which.
pub mod dominance;
pub mod explanations;
pub mod figures;
pub mod orders;
pub mod solutions;
