//! The maximal vectors that a player holds, as an answer.

ghost use Rattle.std.specs.Prelude.{◌≡◌, ◌++◌, ◌≤◌, ℕ, Bool, List, Option, ℤ, codes, decimal, IfOk, IfErr, OnOk, true, map};
ghost use Rattle.std.specs.Fmt.{signed_decimal};
ghost use Rattle.ltl_form.specs.Formula.{signals_below};
ghost use Rattle.tlsf_basic.specs.Specification.{signal_count};
ghost use Rattle.bonsai_words.specs.Ordered.Asked.{downset};
ghost use Rattle.bonsai_run.specs.Answers.{IsAnswer, downset_text, vector_line, vector_lines, spaced};
ghost use Rattle.dual_game.specs.Automata.{IsLimitOf};
ghost use Rattle.bonsai_run.specs.Causes.{ByLimit};
ghost use Rattle.bonsai_run.specs.Texts.{IsSpecOf};
ghost use Rattle.shelf_io.specs.Texts.{Texts};

use crate::answers::{Answer, push_number};
use crate::faults::Fault;
use crate::verdicts::ascends;
use antichain_list::{Downset, ListDownset};
use counter_vec::Counters;
use dual_game::{automaton, game};
use game_core::{Solved, solve};
use itoa::Buffer;
use machine_text::player_word;
use std::alloc::{AllocError, Global};
use tlsf_basic::Spec;
use word_core::Player;

/// The maximal vectors that the player holds at a bound, at most 10,000, for a specification of at
/// most 40 signals.
pub fn downset_answer(
    alloc: Global,
    spec: &Spec,
    player: Player,
    bound: u32,
) -> Result<Answer, Fault>
    requires bound { bound ≤ 10000 }
    requires few { signal_count spec.now.names ≤ 40 }
    requires numbered { signals_below (signal_count spec.now.names) spec.now.formula ≡ true }
    ensures answer { (texts : Option Texts) (name : List ℕ) (as_written : Bool) → IsSpecOf texts name as_written spec.now → IfOk result (λ a. IsAnswer texts (downset name player bound as_written) a.status a.text.items) }
    ensures fault { IfErr result (ByLimit (IsLimitOf spec.now player)) }
{
    let a = automaton(alloc, spec, player)?;
    let g = game(alloc, &a, &spec.names, player, bound)?;
    g.known();
    match solve(alloc, &g, true)? {
        Solved::Held(list) => {
            ascends(&list);
            Ok(held_answer(alloc, player, bound, g.lanes(), &list)?)
        }
        Solved::Lost => unreachable!(),
    }
}

/// The answer of these maximal vectors.
fn held_answer(
    alloc: Global,
    player: Player,
    bound: u32,
    lanes: usize,
    list: &ListDownset<Counters>,
) -> Result<Answer, AllocError>
    ensures status { IfOk result (λ a. a.status ≡ 0) }
    ensures text { IfOk result (λ a. a.text.items ≡ downset_text player bound lanes list.now) }
{
    let text = downset_text(alloc, player, bound, lanes, list)?;
    Ok(Answer { status: 0, text })
}

fn downset_text(
    alloc: Global,
    player: Player,
    bound: u32,
    lanes: usize,
    list: &ListDownset<Counters>,
) -> Result<Vec<u8>, AllocError>
    ensures { IfOk result (λ text. text.items ≡ downset_text player bound lanes list.now) }
{
    let mut text = Vec::from_slice(alloc, b"downset ")?;
    text.extend_from_slice(player_word(player))?;
    text.extend_from_slice(b" bound ")?;
    push_number(&mut text, u64::from(bound))?;
    text.extend_from_slice(b" lanes ")?;
    push_number(&mut text, lanes as u64)?;
    text.extend_from_slice(b" entries ")?;
    push_number(&mut text, list.len() as u64)?;
    text.push(b'\n')?;
    push_vectors(&mut text, list.entries())?;
    Ok(text)
}

fn push_vectors(text: &mut Vec<u8>, vectors: &[Counters]) -> Result<(), AllocError>
    ensures { OnOk result (text.new.items ≡ text.old.items ++ vector_lines vectors.now) }
{
    for vector in vectors {
        push_vector(text, vector.lanes())?;
    }
    Ok(())
}

fn push_vector(text: &mut Vec<u8>, lanes: &[i16]) -> Result<(), AllocError>
    ensures { OnOk result (text.new.items ≡ text.old.items ++ vector_line lanes.now) }
{
    match lanes {
        [] => text.extend_from_slice(b".\n"),
        [first, rest @ ..] => {
            push_signed(text, *first)?;
            push_spaced(text, rest)?;
            text.extend_from_slice(b"\n")
        }
    }
}

fn push_spaced(text: &mut Vec<u8>, lanes: &[i16]) -> Result<(), AllocError>
    ensures { OnOk result (text.new.items ≡ text.old.items ++ spaced lanes.now) }
{
    for lane in lanes {
        text.push(b' ')?;
        push_signed(text, *lane)?;
    }
    Ok(())
}

fn push_signed(text: &mut Vec<u8>, number: i16) -> Result<(), AllocError>
    ensures { OnOk result (text.new.items ≡ text.old.items ++ signed_decimal number) }
{
    let mut digits = Buffer::new();
    text.extend_from_slice(digits.format(number).as_bytes())
}
