//! The top call: from the words of an order to a status, the bytes of its answer and the line of a fault.
//!
//! The whole answer is made before its first byte is written, and writing takes no memory.
#![tactic(auto)]

mod answers;
mod checks;
mod downsets;
mod errors;
mod faults;
mod generations;
mod laws;
mod orders;
mod runs;
#[cfg(test)]
mod tests;
mod texts;
mod verdicts;
mod writing;

pub use laws::{answer_is_one, verdict_is_one};
pub use runs::run_alone;
