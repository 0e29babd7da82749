//! The text of an arbiter with its answer.

ghost use Rattle.std.specs.Prelude.{◌≡◌, ◌++◌, ◌≤◌, ℕ, Option, IfOk, IfErr, OnOk};
ghost use Rattle.bonsai_words.specs.Ordered.Asked.{gen};
ghost use Rattle.shelf_io.specs.Texts.{Texts};
ghost use Rattle.bonsai_run.specs.Answers.{IsAnswer, won_comment, unknown_comment, verdict_comment};
ghost use Rattle.bonsai_run.specs.Causes.{IsGenFault};
ghost use Rattle.bonsai_run.specs.Faults.{IsInner};

use crate::answers::{Answer, push_number, verdict_word};
use crate::faults::Fault;
use crate::verdicts::{Verdict, decide};
use dual_game::Bounds;
use spec_gen::arbiter;
use std::alloc::{AllocError, Global};
use tlsf_basic::read_spec;
use word_core::Machine;

/// The bounds that `synth` tries where none is given.
const DEFAULT_BOUNDS: Bounds = Bounds {
    first: 0,
    step: 1,
    last: 8,
};

/// The specification of an arbiter for 1 to 8 clients, with the verdict on it in its last line.
pub fn generated_answer(alloc: Global, clients: u32) -> Result<Answer, Fault>
    requires some { 1 ≤ clients }
    requires few { clients ≤ 8 }
    ensures answer { IfOk result (λ a. (texts : Option Texts) (workers : ℕ) → IsAnswer texts (gen clients workers) a.status a.text.items) }
    ensures fault { IfErr result IsInner }
    ensures cause { IfErr result (IsGenFault clients) }
{
    let text = arbiter(alloc, clients)?;
    let spec = read_spec(alloc, &text, false)?;
    let verdict = decide(alloc, &spec, DEFAULT_BOUNDS)?;
    Ok(commented(text, &verdict)?)
}

/// A text with a comment on the verdict.
fn commented(text: Vec<u8>, verdict: &Verdict) -> Result<Answer, AllocError>
    ensures status { IfOk result (λ a. a.status ≡ 0) }
    ensures text { IfOk result (λ a. a.text.items ≡ text.items ++ verdict_comment verdict.now) }
{
    let mut text = text;
    push_comment(&mut text, verdict)?;
    Ok(Answer { status: 0, text })
}

fn push_comment(text: &mut Vec<u8>, verdict: &Verdict) -> Result<(), AllocError>
    ensures { OnOk result (text.new.items ≡ text.old.items ++ verdict_comment verdict.now) }
{
    match verdict {
        Verdict::Won { bound, machine } => push_won(text, *bound, machine),
        Verdict::Unknown { bound } => push_unknown(text, *bound),
    }
}

fn push_won(text: &mut Vec<u8>, bound: u32, machine: &Machine) -> Result<(), AllocError>
    ensures { OnOk result (text.new.items ≡ text.old.items ++ won_comment bound machine.now) }
{
    text.extend_from_slice(b"// ")?;
    text.extend_from_slice(verdict_word(machine.player()))?;
    text.extend_from_slice(b" bound ")?;
    push_number(text, u64::from(bound))?;
    text.extend_from_slice(b" states ")?;
    push_number(text, machine.states().len() as u64)?;
    text.push(b'\n')?;
    Ok(())
}

fn push_unknown(text: &mut Vec<u8>, bound: u32) -> Result<(), AllocError>
    ensures { OnOk result (text.new.items ≡ text.old.items ++ unknown_comment bound) }
{
    text.extend_from_slice(b"// UNKNOWN bound ")?;
    push_number(text, u64::from(bound))?;
    text.push(b'\n')?;
    Ok(())
}
