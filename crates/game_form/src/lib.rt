//! Safety games over counter vectors: lanes, actions, classes, and what holds of them pointwise.
//!
//! No call of this crate takes memory.
#![tactic(auto)]

mod actions;
mod classes;
mod games;

pub use actions::{Action, Row, Step};
pub use classes::Class;
pub use games::Game;
