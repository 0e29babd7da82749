//! The texts of machines and lassos.
#![tactic(auto)]

mod errors;
mod fields;
mod lassos;
mod lines;
mod printing;
mod reading;

pub use errors::{LassoError, MachineError, Memory};
pub use lassos::{print_lasso, read_lasso};
pub use printing::{player_word, print_machine};
pub use reading::read_machine;

#[cfg(test)]
mod tests;
