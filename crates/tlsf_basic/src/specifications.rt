//! From a text to its specification.

ghost use Rattle.std.specs.Prelude.{◌++◌, map, string_bytes, encode_utf8_all};
ghost use Rattle.std.specs.Prelude.{◌≡◌, ℕ, ◌≤◌, ◌+◌, All, IfOk, IfErr, OnOk, vec_len, length, true};
ghost use Rattle.ltl_form.specs.Formula.{signals_below};
ghost use Rattle.tlsf_basic.specs.Words.{SpanWithin};
ghost use Rattle.tlsf_basic.specs.Signals.{IsKnown, name_of};
ghost use Rattle.tlsf_basic.specs.Mains.{read_text};
ghost use Rattle.tlsf_basic.specs.Specification.{signal_count, place_of, GivesPlaced, IsPlaced, Agrees, AreNamed, IsSpec, IsRefused, IsNameRefused, IsTargetRefused, IsNumberRefused};
ghost use Rattle.tlsf_basic.specs.declared.faults.TextError.TheVariants.{Memory};

use crate::compositions::formula_of;
use crate::faults::{TextError, TextFault};
use crate::headings::{Heading, PlacedTarget};
use crate::mains::{Sections, read_text};
use crate::signals::{
    Declared, declared_names, first_duplicate, first_unknown, numbered, strings_of,
};
use crate::stops::Stop;
use crate::symbols::Lexeme;
use crate::words::lexemes_of;
use ltl_form::Ltl;
use std::alloc::Global;
use tlsf_lex::lex;
use word_core::{Names, Target};

/// A specification: the signals by name, the inputs numbered first, and the formula over their numbers.
#[derive(Debug, Drop)]
pub struct Spec {
    pub names: Names,
    pub formula: Ltl,
}

/// The most signals of a specification.
const MOST_SIGNALS: usize = 40;

/// The specification of a text, or the first fault by the order of refusals.
///
/// A target that differs from the semantics is no fault where `as_written` is true.
pub fn read_spec(alloc: Global, text: &[u8], as_written: bool) -> Result<Spec, TextError>
    ensures few { IfOk result (λ spec. signal_count spec.names ≤ 40) }
    ensures numbered { IfOk result (λ spec. signals_below (signal_count spec.names) spec.formula ≡ true) }
    ensures place { IfErr result (IsPlaced (length text.now)) }
    ensures spec { IfOk result (IsSpec text.now as_written) }
    ensures fault { IfErr result (IsRefused text.now as_written) }
{
    let tokens = lex(alloc, text)?;
    let lexemes = lexemes_of(alloc, text, &tokens)?;
    let declared = declared_names(alloc, &lexemes)?;
    let lexemes = numbered(alloc, text, &declared, &lexemes)?;
    let (heading, sections) = whole_text(alloc, text.len(), &lexemes)?;
    check_names(alloc, text, &lexemes)?;
    check_target(heading, as_written)?;
    check_count(&declared)?;
    let names = names_of(alloc, text, &declared, heading.target.target)?;
    let formula = formula_of(alloc, heading.semantics.strict, sections)?;
    Ok(Spec { names, formula })
}

/// What the grammar reads, a stop being a fault at its place in a text of `len` bytes.
fn whole_text(
    alloc: Global,
    len: usize,
    lexemes: &[Lexeme],
) -> Result<(Heading, Sections), TextError>
    requires { All (SpanWithin len) lexemes.now }
    ensures value { GivesPlaced len result (read_text 256 lexemes.now) }
    ensures place { IfErr result (IsPlaced len) }
{
    match read_text(alloc, lexemes) {
        Ok(found) => Ok(found),
        Err(Stop::Memory) => Err(TextError::Memory),
        Err(Stop::Fault(what, rest)) => {
            let place = place_of(len, rest);
            Err(TextError::Fault { what, place })
        }
    }
}

/// Where these tokens begin in a text of `len` bytes.
fn place_of(len: usize, rest: &[Lexeme]) -> usize
    ensures { result ≡ place_of len rest.now }
{
    match rest {
        [] => len,
        [first, ..] => first.from,
    }
}

/// Each name is declared once, and each name of a formula is declared.
fn check_names(alloc: Global, text: &[u8], lexemes: &[Lexeme]) -> Result<(), TextError>
    requires { All (SpanWithin (length text.now)) lexemes.now }
    ensures known { OnOk result (All IsKnown lexemes.now) }
    ensures named { OnOk result (AreNamed text.now lexemes.now) }
    ensures fault { IfErr result (IsNameRefused text.now lexemes.now) }
    ensures place { IfErr result (IsPlaced (length text.now)) }
{
    if let Some(place) = first_duplicate(alloc, text, lexemes)? {
        let what = TextFault::DuplicateSignal;
        return Err(TextError::Fault { what, place });
    }
    if let Some(place) = first_unknown(lexemes) {
        let what = TextFault::UnknownSignal;
        return Err(TextError::Fault { what, place });
    }
    Ok(())
}

/// The target is the kind of the semantics, unless the text is read as it is written.
fn check_target(heading: Heading, as_written: bool) -> Result<(), TextError>
    ensures place { IfErr result (IsPlaced heading.target.place) }
    ensures agrees { OnOk result (Agrees as_written heading) }
    ensures fault { IfErr result (IsTargetRefused as_written heading) }
{
    let PlacedTarget { target, place } = heading.target;
    if target != heading.semantics.kind && !as_written {
        let what = TextFault::MixedTarget;
        return Err(TextError::Fault { what, place });
    }
    Ok(())
}

/// There are at most 40 signals.
fn check_count(declared: &Declared) -> Result<(), TextError>
    ensures few { OnOk result (vec_len declared.now.inputs + vec_len declared.now.outputs ≤ 40) }
    ensures fault { IfErr result (IsNumberRefused (declared.now.inputs.items ++ declared.now.outputs.items)) }
    ensures place { (len : ℕ) → All (SpanWithin len) declared.now.inputs.items → All (SpanWithin len) declared.now.outputs.items → IfErr result (IsPlaced len) }
{
    let what = TextFault::TooManySignals;
    let inputs = declared.inputs.len();
    if inputs > MOST_SIGNALS {
        let place = declared.inputs[MOST_SIGNALS].from;
        return Err(TextError::Fault { what, place });
    }
    if declared.outputs.len() > MOST_SIGNALS - inputs {
        let place = declared.outputs[MOST_SIGNALS - inputs].from;
        return Err(TextError::Fault { what, place });
    }
    Ok(())
}

fn names_of(
    alloc: Global,
    text: &[u8],
    declared: &Declared,
    target: Target,
) -> Result<Names, TextError>
    requires inputs { All (SpanWithin (length text.now)) declared.now.inputs.items }
    requires outputs { All (SpanWithin (length text.now)) declared.now.outputs.items }
    ensures inputs { IfOk result (λ names. map string_bytes names.inputs.items ≡ map encode_utf8_all (map (name_of text.now) declared.now.inputs.items)) }
    ensures outputs { IfOk result (λ names. map string_bytes names.outputs.items ≡ map encode_utf8_all (map (name_of text.now) declared.now.outputs.items)) }
    ensures count { IfOk result (λ names. signal_count names ≡ vec_len declared.now.inputs + vec_len declared.now.outputs) }
    ensures target { IfOk result (λ names. names.target ≡ target) }
    ensures memory { IfErr result (λ e. e ≡ Memory) }
{
    let inputs = strings_of(alloc, text, &declared.inputs)?;
    let outputs = strings_of(alloc, text, &declared.outputs)?;
    Ok(Names {
        inputs,
        outputs,
        target,
    })
}
