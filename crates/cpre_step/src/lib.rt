//! One step of the game backwards: the part below a vector from which the player can stay in a set.
#![tactic(auto)]

mod refines;
mod shrinks;

pub use refines::{Refined, pre_below};
