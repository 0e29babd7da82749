//! What the tokens of a text are to the grammar.

ghost use Rattle.std.specs.Prelude.{◌≡◌, All, IfOk, length, map};
ghost use Rattle.tlsf_lex.specs.Tokens.{IsWithin};
ghost use Rattle.tlsf_basic.specs.Words.{look_up, word_symbol, symbol_of, zone_after, name_in, in_zone, lexemes_of, SpanWithin};
ghost use Rattle.tlsf_basic.specs.Signals.{IsFresh};
ghost use Rattle.tlsf_basic.specs.declared.words.Zone.TheVariants.{Heading};

use crate::symbols::{Lexeme, Lone, Section, Side, Symbol, Unary};
use std::alloc::{AllocError, Global};
use tlsf_lex::{Kin, Token};
use word_core::Target;

/// The reserved words, the marks, and the names of the first part.
const WORDS: [(&[u8], Symbol); 42] = [
    (b"INFO", Symbol::Info),
    (b"MAIN", Symbol::Main),
    (b"TITLE", Symbol::Title),
    (b"DESCRIPTION", Symbol::Description),
    (b"SEMANTICS", Symbol::Semantics),
    (b"TARGET", Symbol::Target),
    (b"TAGS", Symbol::Tags),
    (b"INPUTS", Symbol::Inputs),
    (b"OUTPUTS", Symbol::Outputs),
    (b"INITIALLY", Symbol::Section(Section::Initially)),
    (b"PRESET", Symbol::Section(Section::Preset)),
    (b"REQUIRE", Symbol::Section(Section::Require)),
    (b"REQUIREMENTS", Symbol::Section(Section::Require)),
    (b"ASSERT", Symbol::Section(Section::Assert)),
    (b"INVARIANTS", Symbol::Section(Section::Assert)),
    (b"ASSUME", Symbol::Section(Section::Assume)),
    (b"ASSUMPTIONS", Symbol::Section(Section::Assume)),
    (b"GUARANTEE", Symbol::Section(Section::Guarantee)),
    (b"GUARANTEES", Symbol::Section(Section::Guarantee)),
    (b"Mealy", Symbol::Kind(Target::Mealy)),
    (b"Moore", Symbol::Kind(Target::Moore)),
    (b"Strict", Symbol::Strict),
    (b"true", Symbol::True),
    (b"false", Symbol::False),
    (b"!", Symbol::Unary(Unary::Not)),
    (b"X", Symbol::Unary(Unary::Next)),
    (b"F", Symbol::Unary(Unary::Finally)),
    (b"G", Symbol::Unary(Unary::Globally)),
    (b"&&", Symbol::And),
    (b"||", Symbol::Or),
    (b"->", Symbol::Arrow),
    (b"<->", Symbol::Lone(Lone::Equiv)),
    (b"U", Symbol::Lone(Lone::Until)),
    (b"R", Symbol::Lone(Lone::Release)),
    (b"W", Symbol::Lone(Lone::Weak)),
    (b"{", Symbol::OpenBrace),
    (b"}", Symbol::CloseBrace),
    (b"(", Symbol::Open),
    (b")", Symbol::Close),
    (b";", Symbol::Semicolon),
    (b":", Symbol::Colon),
    (b",", Symbol::Comma),
];

/// Where in a text a name stands, by the last word that said so.
#[derive(Debug, Clone, Copy, PartialEq, Eq)]
pub enum Zone {
    /// No word of the second part has come yet.
    Heading,
    /// Behind `INPUTS` or `OUTPUTS`.
    Declared(Side),
    /// Behind the name of a section.
    Entries,
}

fn look_up(words: &[(&[u8], Symbol)], bytes: &[u8]) -> Symbol
    ensures { result ≡ look_up (map (λ p. (p.0.now, p.1)) words.now) bytes.now }
{
    for (word, symbol) in words {
        if *word == bytes {
            return *symbol;
        }
    }
    Symbol::Name
}

/// What a word or a mark is. A word that isn't reserved is a name.
#[tactic(auto, unfolding(crate::specs::Words::word_symbol))]
fn word_symbol(bytes: &[u8]) -> Symbol
    ensures { result ≡ word_symbol bytes.now }
{
    look_up(&WORDS, bytes)
}

fn symbol_of(kin: Kin, bytes: &[u8]) -> Symbol
    ensures { result ≡ symbol_of kin bytes.now }
{
    match kin {
        Kin::Text => Symbol::Text,
        Kin::Full => Symbol::Full,
        Kin::Word | Kin::Mark => word_symbol(bytes),
    }
}

fn zone_after(zone: Zone, symbol: Symbol) -> Zone
    ensures { result ≡ zone_after zone symbol }
{
    match symbol {
        Symbol::Inputs => Zone::Declared(Side::Input),
        Symbol::Outputs => Zone::Declared(Side::Output),
        Symbol::Section(_) => Zone::Entries,
        _ => zone,
    }
}

/// What a name in a zone is.
fn name_in(zone: Zone, name: Symbol) -> Symbol
    ensures { result ≡ name_in zone name }
{
    match zone {
        Zone::Heading => name,
        Zone::Declared(side) => Symbol::Declared(side),
        Zone::Entries => Symbol::Unknown,
    }
}

fn in_zone(zone: Zone, symbol: Symbol) -> Symbol
    ensures { result ≡ in_zone zone symbol }
{
    match symbol {
        Symbol::Name | Symbol::Kind(_) | Symbol::Strict => name_in(zone, symbol),
        _ => symbol,
    }
}

/// The symbols of the tokens, where no name of a formula is known to be declared.
pub fn lexemes_of(alloc: Global, text: &[u8], tokens: &[Token]) -> Result<Vec<Lexeme>, AllocError>
    requires { All (IsWithin (length text.now)) tokens.now }
    ensures value { IfOk result (λ w. w.items ≡ lexemes_of text.now Heading tokens.now) }
    ensures within { IfOk result (λ w. All (SpanWithin (length text.now)) w.items) }
    ensures fresh { IfOk result (λ w. All IsFresh w.items) }
{
    let mut lexemes = Vec::new(alloc);
    let mut zone = Zone::Heading;
    for token in tokens {
        let symbol = symbol_of(token.kin, &text[token.from..token.to]);
        zone = zone_after(zone, symbol);
        lexemes.push(Lexeme {
            symbol: in_zone(zone, symbol),
            from: token.from,
            to: token.to,
        })?;
    }
    Ok(lexemes)
}
