//! Automata whose states of equal futures are one.
#![tactic(auto)]

mod classes;
mod quotients;
mod ways;

pub use quotients::quotient;
