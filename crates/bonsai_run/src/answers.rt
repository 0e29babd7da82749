//! Answers, made before their first byte is written.

ghost use Rattle.std.specs.Prelude.{◌≡◌, ◌++◌, codes, decimal, IfOk, OnOk};
ghost use Rattle.bonsai_run.specs.Answers.{verdict_of, verdict_text, bound_line, verdict_word, verdict_status, won_text, unknown_text};

use crate::verdicts::Verdict;
use itoa::Buffer;
use machine_text::print_machine;
use std::alloc::{AllocError, Global};
use word_core::{Machine, Names, Player};

/// A status with the text that goes with it.
#[derive(Debug, Drop)]
pub struct Answer {
    pub status: u8,
    pub text: Vec<u8>,
}

/// The answer of one word.
pub fn word_answer(alloc: Global, status: u8, word: &[u8]) -> Result<Answer, AllocError>
    ensures status { IfOk result (λ a. a.status ≡ status) }
    ensures text { IfOk result (λ a. a.text.items ≡ word.now ++ codes "\n") }
{
    let mut text = Vec::from_slice(alloc, word)?;
    text.push(b'\n')?;
    Ok(Answer { status, text })
}

/// The answer with a verdict, its bound and its machine.
pub fn verdict_answer(alloc: Global, verdict: &Verdict, names: &Names) -> Result<Answer, AllocError>
    ensures status { IfOk result (λ a. a.status ≡ verdict_of verdict.now) }
    ensures text { IfOk result (λ a. a.text.items ≡ verdict_text names.now verdict.now) }
{
    match verdict {
        Verdict::Won { bound, machine } => won_answer(alloc, *bound, machine, names),
        Verdict::Unknown { bound } => unknown_answer(alloc, *bound),
    }
}

fn won_answer(
    alloc: Global,
    bound: u32,
    machine: &Machine,
    names: &Names,
) -> Result<Answer, AllocError>
    ensures status { IfOk result (λ a. a.status ≡ verdict_status machine.now.player) }
    ensures text { IfOk result (λ a. a.text.items ≡ won_text names.now bound machine.now) }
{
    let mut text = Vec::from_slice(alloc, verdict_word(machine.player()))?;
    text.push(b'\n')?;
    push_bound_line(&mut text, bound)?;
    text.extend_from_slice(&print_machine(alloc, machine, names)?)?;
    Ok(Answer {
        status: verdict_status(machine.player()),
        text,
    })
}

fn unknown_answer(alloc: Global, bound: u32) -> Result<Answer, AllocError>
    ensures status { IfOk result (λ a. a.status ≡ 30) }
    ensures text { IfOk result (λ a. a.text.items ≡ unknown_text bound) }
{
    let mut text = Vec::from_slice(alloc, b"UNKNOWN\n")?;
    push_bound_line(&mut text, bound)?;
    Ok(Answer { status: 30, text })
}

/// The verdict of the player whose machine wins.
pub fn verdict_word(player: Player) -> &'static [u8]
    ensures { result.now ≡ verdict_word player }
{
    match player {
        Player::System => b"REALIZABLE",
        Player::Environment => b"UNREALIZABLE",
    }
}

fn verdict_status(player: Player) -> u8
    ensures { result ≡ verdict_status player }
{
    match player {
        Player::System => 10,
        Player::Environment => 20,
    }
}

fn push_bound_line(text: &mut Vec<u8>, bound: u32) -> Result<(), AllocError>
    ensures { OnOk result (text.new.items ≡ text.old.items ++ bound_line bound) }
{
    text.extend_from_slice(b"bound ")?;
    push_number(text, u64::from(bound))?;
    text.push(b'\n')?;
    Ok(())
}

/// Puts a number behind a text.
pub fn push_number(text: &mut Vec<u8>, number: u64) -> Result<(), AllocError>
    ensures { OnOk result (text.new.items ≡ text.old.items ++ decimal number) }
{
    let mut digits = Buffer::new();
    text.extend_from_slice(digits.format(number).as_bytes())
}
