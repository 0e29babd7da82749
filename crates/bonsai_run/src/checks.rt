//! The checks of machines and lassos.

ghost use Rattle.std.specs.Prelude.{◌≡◌, ◌≤◌, ℕ, Bool, List, Option, IfOk, IfErr, true, false, length, codes};
ghost use Rattle.shelf_io.specs.Texts.{Texts};
ghost use Rattle.ltl_form.specs.Formula.{signals_below};
ghost use Rattle.tlsf_basic.specs.Specification.{signal_count};
ghost use Rattle.bonsai_words.specs.Ordered.Asked.{check, eval};
ghost use Rattle.bonsai_run.specs.Answers.{IsAnswer, IsWord};
ghost use Rattle.bonsai_run.specs.Causes.{IsCheckFault, IsEvalFault};
ghost use Rattle.bonsai_run.specs.Texts.{IsUnder, IsSpecOf};

use crate::answers::{Answer, word_answer};
use crate::faults::Fault;
use dual_game::{automaton, normal_of};
use ltl_form::holds;
use machine_text::{read_lasso, read_machine};
use std::alloc::{AllocError, Global};
use tlsf_basic::Spec;
use witness_check::keeps;
use word_core::Player;

/// Whether the machine of a text, of at most 1,048,576 bytes, keeps the bound on its player's
/// automaton.
pub fn check_answer(alloc: Global, spec: &Spec, text: &[u8], bound: u32) -> Result<Answer, Fault>
    requires short { length text.now ≤ 1048576 }
    requires few { signal_count spec.now.names ≤ 40 }
    requires numbered { signals_below (signal_count spec.now.names) spec.now.formula ≡ true }
    ensures answer { (texts : Option Texts) (name machine : List ℕ) (as_written : Bool) → IsSpecOf texts name as_written spec.now → IsUnder texts machine text.now → IfOk result (λ a. IsAnswer texts (check name machine bound as_written) a.status a.text.items) }
    ensures fault { IfErr result (IsCheckFault spec.now text.now) }
{
    let machine = read_machine(alloc, text, &spec.names)?;
    let _ = machine.states();
    let a = automaton(alloc, spec, machine.player())?;
    let kept = keeps(alloc, &a, &machine, bound)?;
    Ok(kept_answer(alloc, kept)?)
}

/// Whether the formula holds on the lasso of a text, of at most 1,048,576 bytes.
pub fn eval_answer(alloc: Global, spec: &Spec, text: &[u8]) -> Result<Answer, Fault>
    requires short { length text.now ≤ 1048576 }
    requires few { signal_count spec.now.names ≤ 40 }
    requires numbered { signals_below (signal_count spec.now.names) spec.now.formula ≡ true }
    ensures answer { (texts : Option Texts) (name lasso : List ℕ) (as_written : Bool) → IsSpecOf texts name as_written spec.now → IsUnder texts lasso text.now → IfOk result (λ a. IsAnswer texts (eval name lasso as_written) a.status a.text.items) }
    ensures fault { IfErr result (IsEvalFault spec.now text.now) }
{
    let signals = signals_of(spec);
    let lasso = read_lasso(alloc, text, signals)?;
    let normal = normal_of(alloc, spec, Player::Environment)?;
    let held = holds(alloc, &normal, &lasso)?;
    Ok(held_answer(alloc, held)?)
}

/// The number of signals.
fn signals_of(spec: &Spec) -> u32
    requires { signal_count spec.now.names ≤ 40 }
    ensures { result ≡ signal_count spec.now.names }
{
    spec.names.inputs.len() as u32 + spec.names.outputs.len() as u32
}

/// Whether a bound was kept, in words.
fn kept_answer(alloc: Global, kept: bool) -> Result<Answer, AllocError>
    ensures valid { kept ≡ true → IfOk result (IsWord 0 (codes "VALID")) }
    ensures over { kept ≡ false → IfOk result (IsWord 40 (codes "OVER")) }
{
    if kept {
        word_answer(alloc, 0, b"VALID")
    } else {
        word_answer(alloc, 40, b"OVER")
    }
}

/// Whether a formula held, in words.
fn held_answer(alloc: Global, held: bool) -> Result<Answer, AllocError>
    ensures holds { held ≡ true → IfOk result (IsWord 0 (codes "HOLDS")) }
    ensures fails { held ≡ false → IfOk result (IsWord 40 (codes "FAILS")) }
{
    if held {
        word_answer(alloc, 0, b"HOLDS")
    } else {
        word_answer(alloc, 40, b"FAILS")
    }
}
