//! The machine of a solved game.
#![tactic(auto)]

mod laws;
mod lines;
mod machines;
mod nexts;
mod picks;
mod restrictions;
mod walks;

pub use laws::machine_is_one;
pub use machines::extract;

#[cfg(test)]
mod tests;
