// What people are told in words: what is found of claims, an overrun, and what moved between tables.
#![tactic(auto)]

// What is found of a partner's claims.
pub mod claimed;
// What moved between two tables, build by build.
pub mod moved;
// Earliest deadline first: the first time at which too much is asked for.
pub mod overrun;

use std::alloc::{AllocError, Global};

type Done = Result<(), AllocError>;

fn name_of(method: u64) -> &'static str {
    let method = usize::try_from(method).unwrap_or(methods::COUNT);
    methods::name_by_number(method)
}

fn word(alloc: Global, name: &[u8]) -> Result<String, AllocError> {
    String::from_utf8_lossy(alloc, name)
}

fn ticks(alloc: Global, count: u64) -> Result<String, AllocError> {
    wording::counted(alloc, count, "tick")
}
