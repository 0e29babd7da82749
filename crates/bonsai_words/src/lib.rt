//! The words of a command line as an order.
#![tactic(auto)]

mod commands;
mod orders;
mod readers;
#[cfg(test)]
mod tests;
mod values;

pub use orders::{Order, WordsError};
pub use readers::read_words;
