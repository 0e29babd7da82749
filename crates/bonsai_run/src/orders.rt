//! The answers of orders.

ghost use Rattle.std.specs.Prelude.{◌≡◌, ℕ, ◌<◌, ◌≤◌, Bool, true, Option, List, [], length, IfOk, IfErr};
ghost use Rattle.ltl_form.specs.Formula.{signals_below};
ghost use Rattle.shelf_io.specs.Texts.{Texts};
ghost use Rattle.tlsf_basic.specs.Specification.{signal_count};
ghost use Rattle.bonsai_words.specs.Order.{IsInRange, AreBounds, IsWithin};
ghost use Rattle.bonsai_words.specs.Ordered.{asked};
ghost use Rattle.bonsai_words.specs.Ordered.Asked.{synth, downset, check, eval};
ghost use Rattle.bonsai_run.specs.Answers.{IsAnswer};
ghost use Rattle.dual_game.specs.Automata.{IsLimitOfPair};
ghost use Rattle.bonsai_run.specs.Causes.{ByLimit, HasLimitFor, IsCause, IsCauseOf, IsCauseOfTwo, IsCheckFault, IsEvalFault};
ghost use Rattle.bonsai_run.specs.Faults.{Blames};
ghost use Rattle.bonsai_run.specs.Runs.{first_name, second_name};
ghost use Rattle.bonsai_run.specs.Texts.{IsSpecOf};

use crate::answers::{Answer, verdict_answer};
use crate::checks::{check_answer, eval_answer};
use crate::downsets::downset_answer;
use crate::faults::{Fault, Source};
use crate::generations::generated_answer;
use crate::texts::{specification, text_of};
use crate::verdicts::decide;
use bonsai_words::Order;
use dual_game::Bounds;
use shelf_io::Shelf;
use std::alloc::Global;
use tlsf_basic::Spec;
use word_core::Player;

/// What an order asks for.
pub fn answer_of<H: Shelf>(alloc: Global, order: &Order, shelf: &mut H) -> Result<Answer, Fault>
    requires { IsInRange order.now }
    ensures answer { IfOk result (λ a. IsAnswer (H.texts shelf.old) (asked order.now) a.status a.text.items) }
    ensures cause { IfErr result (IsCauseOf (H.texts shelf.old) (asked order.now)) }
    ensures blames { IfErr result (Blames (H.faults shelf.old) (H.faults shelf.new) (H.last_failed shelf.new) (first_name order.now) (second_name order.now)) }
{
    match order {
        Order::Synth {
            name,
            bounds,
            as_written,
            ..
        } => { synth(alloc, shelf, name.as_str(), *bounds, *as_written) }
        Order::Downset {
            name,
            player,
            bound,
            as_written,
        } => { downset(alloc, shelf, name.as_str(), *player, *bound, *as_written) }
        Order::Check {
            name,
            machine,
            bound,
            as_written,
        } => {
            check(
                alloc,
                shelf,
                name.as_str(),
                machine.as_str(),
                *bound,
                *as_written,
            )
        }
        Order::Eval {
            name,
            lasso,
            as_written,
        } => { eval(alloc, shelf, name.as_str(), lasso.as_str(), *as_written) }
        Order::Gen { clients, .. } => generated_answer(alloc, *clients),
    }
}

/// The verdict, with the bound and the machine.
fn synth<H: Shelf>(
    alloc: Global,
    shelf: &mut H,
    name: &str,
    bounds: (u32, u32, u32),
    as_written: bool,
) -> Result<Answer, Fault>
    requires named { 0 < length name.now }
    requires bounds { AreBounds bounds }
    ensures answer { IfOk result (λ a. (workers : ℕ) → IsAnswer (H.texts shelf.old) (synth name.now bounds workers as_written) a.status a.text.items) }
    ensures blames { IfErr result (Blames (H.faults shelf.old) (H.faults shelf.new) (H.last_failed shelf.new) name.now []) }
    ensures cause { IfErr result (IsCause (H.texts shelf.old) name.now as_written (λ spec. ByLimit (IsLimitOfPair spec))) }
{
    let spec = specification(alloc, shelf, name, "", as_written)?;
    decided_answer(alloc, &spec, bounds)
}

/// The verdict on a specification, as an answer.
fn decided_answer(alloc: Global, spec: &Spec, bounds: (u32, u32, u32)) -> Result<Answer, Fault>
    requires bounds { AreBounds bounds }
    requires few { signal_count spec.now.names ≤ 40 }
    requires numbered { signals_below (signal_count spec.now.names) spec.now.formula ≡ true }
    ensures answer { (texts : Option Texts) (name : List ℕ) (workers : ℕ) (as_written : Bool) → IsSpecOf texts name as_written spec.now → IfOk result (λ a. IsAnswer texts (synth name bounds workers as_written) a.status a.text.items) }
    ensures fault { IfErr result (ByLimit (IsLimitOfPair spec.now)) }
{
    let (first, step, last) = bounds;
    let verdict = decide(alloc, spec, Bounds { first, step, last })?;
    Ok(verdict_answer(alloc, &verdict, &spec.names)?)
}

/// The maximal vectors that a player holds.
fn downset<H: Shelf>(
    alloc: Global,
    shelf: &mut H,
    name: &str,
    player: Player,
    bound: u32,
    as_written: bool,
) -> Result<Answer, Fault>
    requires named { 0 < length name.now }
    requires bound { bound ≤ 10000 }
    ensures answer { IfOk result (λ a. IsAnswer (H.texts shelf.old) (downset name.now player bound as_written) a.status a.text.items) }
    ensures blames { IfErr result (Blames (H.faults shelf.old) (H.faults shelf.new) (H.last_failed shelf.new) name.now []) }
    ensures cause { IfErr result (IsCause (H.texts shelf.old) name.now as_written (HasLimitFor player)) }
{
    let spec = specification(alloc, shelf, name, "", as_written)?;
    downset_answer(alloc, &spec, player, bound)
}

/// Whether a machine keeps a bound.
fn check<H: Shelf>(
    alloc: Global,
    shelf: &mut H,
    name: &str,
    machine: &str,
    bound: u32,
    as_written: bool,
) -> Result<Answer, Fault>
    requires named { 0 < length name.now }
    requires other { 0 < length machine.now }
    ensures answer { IfOk result (λ a. IsAnswer (H.texts shelf.old) (check name.now machine.now bound as_written) a.status a.text.items) }
    ensures blames { IfErr result (Blames (H.faults shelf.old) (H.faults shelf.new) (H.last_failed shelf.new) name.now machine.now) }
    ensures cause { IfErr result (IsCauseOfTwo (H.texts shelf.old) name.now machine.now as_written IsCheckFault) }
{
    let spec = specification(alloc, shelf, name, machine, as_written)?;
    match text_of(alloc, shelf, name, machine, Source::Other) {
        Ok(text) => check_answer(alloc, &spec, &text, bound),
        Err(fault) => Err(fault),
    }
}

/// Whether the formula holds on a lasso.
fn eval<H: Shelf>(
    alloc: Global,
    shelf: &mut H,
    name: &str,
    lasso: &str,
    as_written: bool,
) -> Result<Answer, Fault>
    requires named { 0 < length name.now }
    requires other { 0 < length lasso.now }
    ensures answer { IfOk result (λ a. IsAnswer (H.texts shelf.old) (eval name.now lasso.now as_written) a.status a.text.items) }
    ensures blames { IfErr result (Blames (H.faults shelf.old) (H.faults shelf.new) (H.last_failed shelf.new) name.now lasso.now) }
    ensures cause { IfErr result (IsCauseOfTwo (H.texts shelf.old) name.now lasso.now as_written IsEvalFault) }
{
    let spec = specification(alloc, shelf, name, lasso, as_written)?;
    match text_of(alloc, shelf, name, lasso, Source::Other) {
        Ok(text) => eval_answer(alloc, &spec, &text),
        Err(fault) => Err(fault),
    }
}
