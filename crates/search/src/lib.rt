// The demand of a task, and the search for its smallest solution.
#![tactic(auto)]

// The demand of a task, and its smallest solution.
pub mod demand;
// How rounds are chosen, in which releases come again.
pub mod grouping;
// The search for the smallest solution where it is slow.
pub mod hasten;
// The search for the smallest solution.
pub mod response;
// What is asked for in a round, at the least, in each of its windows.
pub mod rounds;
// Shares of the processor.
pub mod shares;
