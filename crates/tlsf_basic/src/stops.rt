//! How reading goes on from a list of tokens, and how it stops.

ghost use Rattle.std.specs.Prelude.{◌≡◌, drop};
ghost use Rattle.tlsf_basic.specs.Reads.{Gives, front, expected, misplaced, missing};
ghost use Rattle.tlsf_basic.specs.Marks.{mark, closing, is_open_brace, is_close_brace, is_semicolon, is_colon, is_comma, is_close, is_text, is_and, is_or, in_braces, is_declared, is_info, is_main, end, part_word};
ghost use Rattle.tlsf_basic.specs.declared.stops.Stop.TheVariants.{Memory};

use crate::faults::{Part, TextFault};
use crate::symbols::{Lexeme, Symbol};
use std::alloc::{AllocError, AllocFailed};

/// Why reading stopped.
#[derive(Debug, Drop)]
pub enum Stop<'a> {
    /// A fault at the first of these tokens, or at the end where there is none.
    Fault(TextFault, &'a [Lexeme]),
    Memory,
}

/// What was read, and the tokens behind it.
pub type Read<'a, T> = Result<(T, &'a [Lexeme]), Stop<'a>>;

/// The tokens behind what has no value.
pub type Past<'a> = Result<&'a [Lexeme], Stop<'a>>;

impl<'a> From<AllocError> for Stop<'a> {
    ghost from_gives = { λ _ e. e ≡ Memory };

    fn from(_error: AllocError) -> Stop<'a> {
        Stop::Memory
    }
}

impl<'a, T: Drop> From<AllocFailed<T>> for Stop<'a> {
    ghost from_gives = { λ _ e. e ≡ Memory };

    fn from(_error: AllocFailed<T>) -> Stop<'a> {
        Stop::Memory
    }
}

/// The symbol of the first token, or the end.
pub fn front(tokens: &[Lexeme]) -> Symbol
    ensures { result ≡ front tokens.now }
{
    match tokens {
        [] => Symbol::End,
        [first, ..] => first.symbol,
    }
}

/// The tokens behind the first one.
pub fn behind(tokens: &[Lexeme]) -> &[Lexeme]
    ensures { result.now ≡ drop 1 tokens.now }
{
    match tokens {
        [] => tokens,
        [_, rest @ ..] => rest,
    }
}

/// The fault where the grammar doesn't go on with these tokens.
pub fn expected(tokens: &[Lexeme]) -> TextFault
    ensures { result ≡ expected tokens.now }
{
    match front(tokens) {
        Symbol::Full => TextFault::FullFormat,
        _ => TextFault::Expected,
    }
}

/// The same, right behind a whole operand.
pub fn misplaced(tokens: &[Lexeme]) -> TextFault
    ensures { result ≡ misplaced tokens.now }
{
    match front(tokens) {
        Symbol::Full => TextFault::FullFormat,
        Symbol::And | Symbol::Or | Symbol::Arrow | Symbol::Lone(_) => TextFault::NeedsParens,
        _ => TextFault::Expected,
    }
}

/// The same, where the part alone may stand.
pub fn missing(part: Part, tokens: &[Lexeme]) -> TextFault
    ensures { result ≡ missing part tokens.now }
{
    match front(tokens) {
        Symbol::Full => TextFault::FullFormat,
        _ => TextFault::MissingPart(part),
    }
}

pub fn is_and(symbol: Symbol) -> bool
    ensures { result ≡ is_and symbol }
{
    matches!(symbol, Symbol::And)
}

pub fn is_or(symbol: Symbol) -> bool
    ensures { result ≡ is_or symbol }
{
    matches!(symbol, Symbol::Or)
}

/// Whether a list in braces goes on with this symbol.
pub fn in_braces(symbol: Symbol) -> bool
    ensures { result ≡ in_braces symbol }
{
    !matches!(symbol, Symbol::CloseBrace)
}

pub fn is_comma(symbol: Symbol) -> bool
    ensures { result ≡ is_comma symbol }
{
    matches!(symbol, Symbol::Comma)
}

#[tactic(auto, unfolding(crate::specs::Marks::mark))]
pub fn open_brace<'a>(tokens: &'a [Lexeme]) -> Past<'a>
    ensures { Gives (λ r. r.now) result (mark is_open_brace tokens.now) }
{
    match front(tokens) {
        Symbol::OpenBrace => Ok(behind(tokens)),
        _ => Err(Stop::Fault(expected(tokens), tokens)),
    }
}

#[tactic(auto, unfolding(crate::specs::Marks::mark))]
pub fn close_brace<'a>(tokens: &'a [Lexeme]) -> Past<'a>
    ensures { Gives (λ r. r.now) result (mark is_close_brace tokens.now) }
{
    match front(tokens) {
        Symbol::CloseBrace => Ok(behind(tokens)),
        _ => Err(Stop::Fault(expected(tokens), tokens)),
    }
}

#[tactic(auto, unfolding(crate::specs::Marks::mark))]
pub fn semicolon<'a>(tokens: &'a [Lexeme]) -> Past<'a>
    ensures { Gives (λ r. r.now) result (mark is_semicolon tokens.now) }
{
    match front(tokens) {
        Symbol::Semicolon => Ok(behind(tokens)),
        _ => Err(Stop::Fault(expected(tokens), tokens)),
    }
}

#[tactic(auto, unfolding(crate::specs::Marks::mark))]
pub fn colon<'a>(tokens: &'a [Lexeme]) -> Past<'a>
    ensures { Gives (λ r. r.now) result (mark is_colon tokens.now) }
{
    match front(tokens) {
        Symbol::Colon => Ok(behind(tokens)),
        _ => Err(Stop::Fault(expected(tokens), tokens)),
    }
}

#[tactic(auto, unfolding(crate::specs::Marks::mark))]
pub fn comma<'a>(tokens: &'a [Lexeme]) -> Past<'a>
    ensures { Gives (λ r. r.now) result (mark is_comma tokens.now) }
{
    match front(tokens) {
        Symbol::Comma => Ok(behind(tokens)),
        _ => Err(Stop::Fault(expected(tokens), tokens)),
    }
}

/// A string.
#[tactic(auto, unfolding(crate::specs::Marks::mark))]
pub fn string<'a>(tokens: &'a [Lexeme]) -> Past<'a>
    ensures { Gives (λ r. r.now) result (mark is_text tokens.now) }
{
    match front(tokens) {
        Symbol::Text => Ok(behind(tokens)),
        _ => Err(Stop::Fault(expected(tokens), tokens)),
    }
}

/// The `)` behind a formula.
#[tactic(auto, unfolding(crate::specs::Marks::closing))]
pub fn close<'a>(tokens: &'a [Lexeme]) -> Past<'a>
    ensures { Gives (λ r. r.now) result (closing is_close tokens.now) }
{
    match front(tokens) {
        Symbol::Close => Ok(behind(tokens)),
        _ => Err(Stop::Fault(misplaced(tokens), tokens)),
    }
}

/// The `;` behind a formula.
#[tactic(auto, unfolding(crate::specs::Marks::closing))]
pub fn entry_end<'a>(tokens: &'a [Lexeme]) -> Past<'a>
    ensures { Gives (λ r. r.now) result (closing is_semicolon tokens.now) }
{
    match front(tokens) {
        Symbol::Semicolon => Ok(behind(tokens)),
        _ => Err(Stop::Fault(misplaced(tokens), tokens)),
    }
}

/// A name that is declared.
#[tactic(auto, unfolding(crate::specs::Marks::mark))]
pub fn declared<'a>(tokens: &'a [Lexeme]) -> Past<'a>
    ensures { Gives (λ r. r.now) result (mark is_declared tokens.now) }
{
    match front(tokens) {
        Symbol::Declared(_) => Ok(behind(tokens)),
        _ => Err(Stop::Fault(expected(tokens), tokens)),
    }
}

/// The end of the text.
#[tactic(auto, unfolding(crate::specs::Marks::end))]
pub fn end<'a>(tokens: &'a [Lexeme]) -> Past<'a>
    ensures { Gives (λ r. r.now) result (end tokens.now) }
{
    match tokens {
        [] => Ok(tokens),
        [_, ..] => Err(Stop::Fault(expected(tokens), tokens)),
    }
}

/// The word of the first part.
#[tactic(auto, unfolding(crate::specs::Marks::part_word))]
pub fn info_word<'a>(tokens: &'a [Lexeme]) -> Past<'a>
    ensures { Gives (λ r. r.now) result (part_word is_info Part.Info tokens.now) }
{
    match front(tokens) {
        Symbol::Info => Ok(behind(tokens)),
        _ => Err(Stop::Fault(missing(Part::Info, tokens), tokens)),
    }
}

/// The word of the second part.
#[tactic(auto, unfolding(crate::specs::Marks::part_word))]
pub fn main_word<'a>(tokens: &'a [Lexeme]) -> Past<'a>
    ensures { Gives (λ r. r.now) result (part_word is_main Part.Main tokens.now) }
{
    match front(tokens) {
        Symbol::Main => Ok(behind(tokens)),
        _ => Err(Stop::Fault(missing(Part::Main, tokens), tokens)),
    }
}
