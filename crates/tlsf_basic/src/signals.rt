//! Declared names, and their numbers in formulas.

ghost use Rattle.std.specs.Prelude.{◌≡◌, ℕ, ◌<◌, ◌≤◌, ◌+◌, All, IfOk, IfSome, IfNone, OnOk, filter, length, slice_range, vec_len, string_bytes, encode_utf8_all};
ghost use Rattle.std.specs.Prelude.{map, position, fold, Bool, true, false, ◌&&◌, ◌++◌, ◌∷◌, []};
ghost use Rattle.std.specs.List.{list_any};
ghost use Rattle.std.specs.Str.{bytes_eq};
ghost use Rattle.indexmap.specs.IndexSet.{index_set_len, keys};
ghost use Rattle.tlsf_basic.specs.Words.{SpanWithin};
ghost use Rattle.tlsf_basic.specs.Marks.{is_declared};
ghost use Rattle.tlsf_basic.specs.declared.symbols.Lexeme.{Lexeme as Token};
ghost use Rattle.tlsf_basic.specs.Signals.{is_input, is_output, is_unknown, inputs_of, outputs_of, name_of, with_name, numbered_by, numbered, signal_at, IsFirst, IsNever, names_among, is_repeated, is_undeclared, IsSymbolBelow, IsSignalBelow, IsFresh, IsKnown};

use crate::symbols::{Lexeme, Side, Symbol};
use indexmap::IndexSet;
use std::alloc::{AllocError, Global};

/// The declared names, each side in order of place.
#[derive(Debug, Drop)]
pub struct Declared {
    pub inputs: Vec<Lexeme>,
    pub outputs: Vec<Lexeme>,
}

fn is_input(symbol: Symbol) -> bool
    ensures { result ≡ is_input symbol }
{
    matches!(symbol, Symbol::Declared(Side::Input))
}

fn is_output(symbol: Symbol) -> bool
    ensures { result ≡ is_output symbol }
{
    matches!(symbol, Symbol::Declared(Side::Output))
}

/// The declared names among the lexemes.
pub fn declared_names(alloc: Global, lexemes: &[Lexeme]) -> Result<Declared, AllocError>
    ensures inputs { IfOk result (λ d. d.inputs.items ≡ filter (λ l. is_input l.symbol) lexemes.now) }
    ensures outputs { IfOk result (λ d. d.outputs.items ≡ filter (λ l. is_output l.symbol) lexemes.now) }
{
    let inputs = inputs_of(alloc, lexemes)?;
    let outputs = outputs_of(alloc, lexemes)?;
    Ok(Declared { inputs, outputs })
}

fn inputs_of(alloc: Global, lexemes: &[Lexeme]) -> Result<Vec<Lexeme>, AllocError>
    ensures { IfOk result (λ v. v.items ≡ filter (λ l. is_input l.symbol) lexemes.now) }
{
    lexemes
        .iter()
        .copied()
        .filter(|l| is_input(l.symbol))
        .collect(alloc)
}

fn outputs_of(alloc: Global, lexemes: &[Lexeme]) -> Result<Vec<Lexeme>, AllocError>
    ensures { IfOk result (λ v. v.items ≡ filter (λ l. is_output l.symbol) lexemes.now) }
{
    lexemes
        .iter()
        .copied()
        .filter(|l| is_output(l.symbol))
        .collect(alloc)
}

/// The bytes of a lexeme.
pub fn bytes_of<'a>(text: &'a [u8], lexeme: Lexeme) -> &'a [u8]
    requires { SpanWithin (length text.now) lexeme }
    ensures { result.now ≡ slice_range text.now lexeme.from lexeme.to }
{
    &text[lexeme.from..lexeme.to]
}

/// Names in order, each once.
type NameSet<'a> = IndexSet<&'a [u8]>;

fn add_names<'a>(
    names: &mut NameSet<'a>,
    text: &'a [u8],
    lexemes: &[Lexeme],
) -> Result<(), AllocError>
    requires { All (SpanWithin (length text.now)) lexemes.now }
    ensures len { OnOk result (index_set_len names.new ≤ index_set_len names.old + length lexemes.now) }
    ensures names { OnOk result (map (λ k. k.now) (keys names.new) ≡ fold with_name (map (λ k. k.now) (keys names.old)) (map (name_of text.now) lexemes.now)) }
{
    for lexeme in lexemes {
        let _ = names.insert_full(bytes_of(text, *lexeme))?;
    }
    Ok(())
}

/// The lexemes, in which each declared name of a formula has its number: the inputs are numbered first.
pub fn numbered(
    alloc: Global,
    text: &[u8],
    declared: &Declared,
    lexemes: &[Lexeme],
) -> Result<Vec<Lexeme>, AllocError>
    requires inputs { All (SpanWithin (length text.now)) declared.now.inputs.items }
    requires outputs { All (SpanWithin (length text.now)) declared.now.outputs.items }
    requires all { All (SpanWithin (length text.now)) lexemes.now }
    requires fresh { All IsFresh lexemes.now }
    requires are_inputs { declared.now.inputs.items ≡ inputs_of lexemes.now }
    requires are_outputs { declared.now.outputs.items ≡ outputs_of lexemes.now }
    ensures value { IfOk result (λ w. w.items ≡ numbered text.now lexemes.now) }
    ensures within { IfOk result (λ w. All (SpanWithin (length text.now)) w.items) }
    ensures below { IfOk result (λ w. All (IsSignalBelow (vec_len declared.now.inputs + vec_len declared.now.outputs)) w.items) }
{
    let mut names = IndexSet::new(alloc);
    add_names(&mut names, text, &declared.inputs)?;
    add_names(&mut names, text, &declared.outputs)?;
    numbered_by(alloc, text, &names, lexemes)
}

fn numbered_by<'a>(
    alloc: Global,
    text: &'a [u8],
    names: &NameSet<'a>,
    lexemes: &[Lexeme],
) -> Result<Vec<Lexeme>, AllocError>
    requires within { All (SpanWithin (length text.now)) lexemes.now }
    requires fresh { All IsFresh lexemes.now }
    ensures value { IfOk result (λ w. w.items ≡ map (numbered_by text.now (map (λ k. k.now) (keys names.now))) lexemes.now) }
    ensures within { IfOk result (λ w. All (SpanWithin (length text.now)) w.items) }
    ensures below { IfOk result (λ w. All (IsSignalBelow (index_set_len names.now)) w.items) }
{
    let mut out = Vec::new(alloc);
    for lexeme in lexemes {
        out.push(numbered_one(text, names, *lexeme))?;
    }
    Ok(out)
}

fn numbered_one<'a>(text: &'a [u8], names: &NameSet<'a>, lexeme: Lexeme) -> Lexeme
    requires within { SpanWithin (length text.now) lexeme }
    requires fresh { IsFresh lexeme }
    ensures value { result ≡ numbered_by text.now (map (λ k. k.now) (keys names.now)) lexeme }
    ensures within { SpanWithin (length text.now) result }
    ensures below { IsSignalBelow (index_set_len names.now) result }
{
    match lexeme.symbol {
        Symbol::Unknown => {
            let Lexeme { from, to, .. } = lexeme;
            let symbol = symbol_of(names, bytes_of(text, lexeme));
            Lexeme { symbol, from, to }
        }
        _ => lexeme,
    }
}

/// What a name in a formula is.
fn symbol_of<'a>(names: &NameSet<'a>, name: &'a [u8]) -> Symbol
    ensures value { result ≡ signal_at (position (bytes_eq name.now) (map (λ k. k.now) (keys names.now))) }
    ensures below { IsSymbolBelow (index_set_len names.now) result }
{
    match names.get_index_of(&name) {
        Some(index) => Symbol::Signal(u32::try_from(index).unwrap_or(u32::MAX)),
        None => Symbol::Unknown,
    }
}

fn is_declared(symbol: Symbol) -> bool
    ensures { result ≡ is_declared symbol }
{
    matches!(symbol, Symbol::Declared(_))
}

/// Whether a declared name is one of these. If it isn't, it becomes one.
fn repeats<'a>(names: &mut NameSet<'a>, text: &'a [u8], lexeme: Lexeme) -> Result<bool, AllocError>
    requires { SpanWithin (length text.now) lexeme }
    ensures found { IfOk result (λ b. b ≡ (is_declared lexeme.symbol && list_any (bytes_eq (name_of text.now lexeme)) (map (λ k. k.now) (keys names.old)))) }
    ensures names { IfOk result (λ b. b ≡ false → map (λ k. k.now) (keys names.new) ≡ map (λ k. k.now) (keys names.old) ++ names_among text.now (lexeme ∷ [])) }
{
    if !is_declared(lexeme.symbol) {
        return Ok(false);
    }
    let (_, is_new) = names.insert_full(bytes_of(text, lexeme))?;
    Ok(!is_new)
}

/// The first name, in order of place, that is declared before it.
pub fn first_duplicate(
    alloc: Global,
    text: &[u8],
    lexemes: &[Lexeme],
) -> Result<Option<usize>, AllocError>
    requires { All (SpanWithin (length text.now)) lexemes.now }
    ensures place { IfOk result (λ found. IfSome found (λ place. place < length text.now)) }
    ensures some { IfOk result (λ found. IfSome found (λ place. (l : Token) × IsFirst (is_repeated text.now) lexemes.now l × (place ≡ l.from))) }
    ensures none { IfOk result (λ found. IfNone found (IsNever (is_repeated text.now) lexemes.now)) }
{
    let mut names = IndexSet::new(alloc);
    for lexeme in lexemes {
        if repeats(&mut names, text, *lexeme)? {
            return Ok(Some(lexeme.from));
        }
    }
    Ok(None)
}

fn is_unknown(symbol: Symbol) -> bool
    ensures { result ≡ is_unknown symbol }
{
    matches!(symbol, Symbol::Unknown)
}

/// The first name in a formula, in order of place, that isn't declared.
pub fn first_unknown(lexemes: &[Lexeme]) -> Option<usize>
    ensures none { IfNone result (All IsKnown lexemes.now) }
    ensures never { IfNone result (IsNever is_undeclared lexemes.now) }
    ensures first { IfSome result (λ place. (l : Token) × IsFirst is_undeclared lexemes.now l × (place ≡ l.from)) }
    ensures some { (len : ℕ) → All (SpanWithin len) lexemes.now → IfSome result (λ place. place < len) }
{
    for lexeme in lexemes {
        if is_unknown(lexeme.symbol) {
            return Some(lexeme.from);
        }
    }
    None
}

fn string_of(alloc: Global, bytes: &[u8]) -> Result<String, AllocError>
    ensures { IfOk result (λ s. string_bytes s ≡ encode_utf8_all bytes.now) }
{
    bytes.iter().map(|b| char::from(*b)).collect(alloc)
}

/// The names as strings.
pub fn strings_of(alloc: Global, text: &[u8], lexemes: &[Lexeme]) -> Result<Vec<String>, AllocError>
    requires { All (SpanWithin (length text.now)) lexemes.now }
    ensures len { IfOk result (λ v. vec_len v ≡ length lexemes.now) }
    ensures names { IfOk result (λ v. map string_bytes v.items ≡ map encode_utf8_all (map (name_of text.now) lexemes.now)) }
{
    let mut names = Vec::new(alloc);
    for lexeme in lexemes {
        names.push(string_of(alloc, bytes_of(text, *lexeme))?)?;
    }
    Ok(names)
}
