//! From the text of a specification, in the basic format, to its names and its formula.
#![tactic(auto)]

mod compositions;
mod copies;
mod faults;
mod formulas;
mod headings;
mod laws;
mod mains;
mod signals;
mod specifications;
mod stops;
mod symbols;
mod words;

pub use faults::{Part, TextError, TextFault};
pub use laws::one_answer;
pub use specifications::{Spec, read_spec};

#[cfg(test)]
mod tests;
