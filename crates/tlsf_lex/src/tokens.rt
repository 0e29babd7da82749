//! Tokens, and why a text has none.

ghost use Rattle.std.specs.Prelude.{◌≡◌};
ghost use Rattle.tlsf_lex.specs.declared.tokens.LexError.TheVariants.{Memory};

use std::alloc::{AllocError, AllocFailed};
use thiserror::Error;

/// What is wrong with a text before its grammar is looked at.
#[derive(Debug, Clone, Copy, PartialEq, Eq)]
pub enum LexFault {
    /// No token, blank or comment begins with this byte.
    BadByte,
    /// No `*/` stands after this `/*`.
    OpenComment,
    /// This `/*` stands inside a comment.
    NestedComment,
    /// No second `"` stands after this one.
    OpenString,
}

/// Why a text has no tokens.
#[derive(Debug, Drop, Error)]
pub enum LexError {
    /// The first fault, and the byte at which it stands.
    #[error("byte {place}: {what:?}")]
    Fault { what: LexFault, place: usize },
    #[error("out of memory")]
    Memory,
}

impl From<AllocError> for LexError {
    ghost from_gives = { λ _ e. e ≡ Memory };

    fn from(_error: AllocError) -> LexError {
        LexError::Memory
    }
}

impl<T: Drop> From<AllocFailed<T>> for LexError {
    ghost from_gives = { λ _ e. e ≡ Memory };

    fn from(_error: AllocFailed<T>) -> LexError {
        LexError::Memory
    }
}

/// What a token is.
#[derive(Debug, Clone, Copy, PartialEq, Eq)]
pub enum Kin {
    /// A word of the basic format: reserved, or a name.
    Word,
    /// A string in `"`.
    Text,
    /// One of `{` `}` `(` `)` `;` `:` `,` `!` `&&` `||` `->` `<->`.
    Mark,
    /// What the full format has, and the basic format hasn't.
    Full,
}

/// A token, and where its bytes stand: from a place up to another, which isn't its own.
#[derive(Debug, Clone, Copy, PartialEq, Eq)]
pub struct Token {
    pub kin: Kin,
    pub from: usize,
    pub to: usize,
}
