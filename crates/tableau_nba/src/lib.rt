//! The automaton of a formula, which accepts the lassos on which the formula holds.
#![tactic(auto)]

mod cubes;
mod laws;
mod lists;
mod places;
mod tableaux;
mod walks;

pub use laws::accepts_by_truth;
pub use tableaux::{TableauError, tableau};
