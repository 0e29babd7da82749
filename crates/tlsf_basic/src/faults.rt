//! Why a text is no specification.

ghost use Rattle.std.specs.Prelude.{◌≡◌};
ghost use Rattle.tlsf_basic.specs.Specification.{text_error};
ghost use Rattle.tlsf_basic.specs.declared.faults.TextError.TheVariants.{Memory};

use std::alloc::{AllocError, AllocFailed};
use thiserror::Error;
use tlsf_lex::{LexError, LexFault};

/// A part that a specification must have.
#[derive(Debug, Clone, Copy, PartialEq, Eq)]
pub enum Part {
    Info,
    Main,
    Semantics,
    Target,
    Inputs,
    Outputs,
}

/// What is wrong with a text.
#[derive(Debug, Clone, Copy, PartialEq, Eq)]
pub enum TextFault {
    /// It has no tokens.
    Lex(LexFault),
    /// The grammar doesn't go on with this token, or with the end.
    Expected,
    /// This operator can't stand beside the one before its operand without parentheses.
    NeedsParens,
    /// The nesting in an entry passes 256 here.
    TooDeep,
    /// The grammar doesn't go on with this token, which the full format has.
    FullFormat,
    /// The part doesn't stand where it has to stand at the latest.
    MissingPart(Part),
    /// This name is declared before.
    DuplicateSignal,
    /// This name isn't declared.
    UnknownSignal,
    /// The target differs from the kind of the semantics.
    MixedTarget,
    /// This is the 41st signal.
    TooManySignals,
}

/// Why a text gives no specification.
#[derive(Debug, Drop, Error)]
pub enum TextError {
    /// The one fault, and the byte at which it stands.
    #[error("byte {place}: {what:?}")]
    Fault { what: TextFault, place: usize },
    #[error("out of memory")]
    Memory,
}

impl From<AllocError> for TextError {
    ghost from_gives = { λ _ e. e ≡ Memory };

    fn from(_error: AllocError) -> TextError {
        TextError::Memory
    }
}

impl<T: Drop> From<AllocFailed<T>> for TextError {
    ghost from_gives = { λ _ e. e ≡ Memory };

    fn from(_error: AllocFailed<T>) -> TextError {
        TextError::Memory
    }
}

impl From<LexError> for TextError {
    ghost from_gives = { λ error e. e ≡ text_error error };

    fn from(error: LexError) -> TextError {
        match error {
            LexError::Fault { what, place } => {
                let what = TextFault::Lex(what);
                TextError::Fault { what, place }
            }
            LexError::Memory => TextError::Memory,
        }
    }
}
