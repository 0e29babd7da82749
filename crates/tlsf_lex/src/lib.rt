//! From the bytes of a specification to its tokens.
#![tactic(auto)]

mod bytes;
mod lexing;
mod steps;
mod tokens;

pub use lexing::lex;
pub use tokens::{Kin, LexError, LexFault, Token};

#[cfg(test)]
mod tests;
