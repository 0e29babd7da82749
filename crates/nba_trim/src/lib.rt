//! Automata without the states that no accepting run needs.
#![tactic(auto)]

mod lives;
mod numbers;
mod reaches;
mod searches;
mod trims;

pub use trims::trim;
