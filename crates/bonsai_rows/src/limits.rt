//! Worked answers at the limits of covers and of states, each from both sides.

use cover_sets::{CoverError, covers};
use dual_game::normal_of;
use std::alloc::{AllocError, Global};
use std::test::Fail;
use tableau_nba::{TableauError, tableau};
use tlsf_basic::read_spec;
use word_core::Player;

/// The specification with this guarantee over the input `a` and the output `b`.
fn framed(alloc: Global, guarantee: &[u8]) -> Result<Vec<u8>, AllocError> {
    let mut text = Vec::new(alloc);
    text.extend_from_slice(b"INFO{SEMANTICS:Mealy TARGET:Mealy}MAIN{INPUTS{a;}OUTPUTS{b;}")?;
    text.extend_from_slice(b"GUARANTEE{")?;
    text.extend_from_slice(guarantee)?;
    text.extend_from_slice(b";}}")?;
    Ok(text)
}

/// Puts so many times the next step, then a formula.
fn push_later(text: &mut Vec<u8>, steps: u32, formula: &[u8]) -> Result<(), AllocError> {
    for _ in 0..steps {
        text.extend_from_slice(b"X ")?;
    }
    text.extend_from_slice(formula)
}

/// At each of ten pairs of steps `a` holds at one of the two.
fn ten_choices(alloc: Global) -> Result<Vec<u8>, AllocError> {
    let mut text = Vec::new(alloc);
    for i in 0..10_u32 {
        if i > 0 {
            text.extend_from_slice(b" && ")?;
        }
        text.push(b'(')?;
        push_later(&mut text, 2 * i + 1, b"a || ")?;
        push_later(&mut text, 2 * i + 2, b"a)")?;
    }
    Ok(text)
}

/// Each `a` is followed by `b` so many steps later.
fn delayed(alloc: Global, steps: u32) -> Result<Vec<u8>, AllocError> {
    let mut text = Vec::new(alloc);
    text.extend_from_slice(b"G (a -> ")?;
    push_later(&mut text, steps, b"b)")?;
    Ok(text)
}

/// How many covers the guarantee has, or none where a list is too wide.
fn cover_count(alloc: Global, guarantee: &[u8]) -> Result<Option<usize>, Fail> {
    let text = framed(alloc, guarantee)?;
    let spec = read_spec(alloc, &text, false)?;
    let normal = normal_of(alloc, &spec, Player::Environment)?;
    match covers(alloc, &normal, &[normal.root()]) {
        Ok(found) => Ok(Some(found.len())),
        Err(CoverError::TooWide) => Ok(None),
        Err(error) => Err(error.into()),
    }
}

/// How many states the guarantee's tableau has, or none where there are too many.
fn state_count(alloc: Global, guarantee: &[u8]) -> Result<Option<usize>, Fail> {
    let text = framed(alloc, guarantee)?;
    let spec = read_spec(alloc, &text, false)?;
    let signals = spec.names.inputs.len() as u32 + spec.names.outputs.len() as u32;
    let normal = normal_of(alloc, &spec, Player::Environment)?;
    match tableau(alloc, &normal, signals) {
        Ok(automaton) => Ok(Some(automaton.states().len())),
        Err(TableauError::TooManyStates) => Ok(None),
        Err(error) => Err(error.into()),
    }
}

#[test]
fn as_many_covers_as_a_list_can_have(rt: HostRuntime) -> Result<(), Fail> {
    let alloc = rt.alloc();
    let choices = ten_choices(alloc)?;
    assert_eq!(rt; cover_count(alloc, &choices)?, Some(1024));
    Ok(())
}

#[test]
fn one_cover_more(rt: HostRuntime) -> Result<(), Fail> {
    let alloc = rt.alloc();
    let mut text = Vec::new(alloc);
    text.push(b'(')?;
    text.extend_from_slice(&ten_choices(alloc)?)?;
    text.extend_from_slice(b") || ")?;
    push_later(&mut text, 21, b"a")?;
    assert_eq!(rt; cover_count(alloc, &text)?, None);
    Ok(())
}

#[test]
fn as_many_states_as_an_automaton_can_have(rt: HostRuntime) -> Result<(), Fail> {
    let alloc = rt.alloc();
    let twelve = delayed(alloc, 12)?;
    assert_eq!(rt; state_count(alloc, &twelve)?, Some(4096));
    Ok(())
}

#[test]
fn one_step_more(rt: HostRuntime) -> Result<(), Fail> {
    let alloc = rt.alloc();
    let thirteen = delayed(alloc, 13)?;
    assert_eq!(rt; state_count(alloc, &thirteen)?, None);
    Ok(())
}
