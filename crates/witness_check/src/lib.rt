//! Whether every run of an automaton on every play of a machine has a count of at most a bound.
#![tactic(auto)]

mod choices;
mod levels;
mod products;
mod sides;

pub use levels::keeps;
use std::alloc::AllocError;

/// Want of memory.
pub type Memory = AllocError;

#[cfg(test)]
mod tests;
