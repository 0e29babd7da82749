//! What stands at the front of a text.

ghost use Rattle.std.specs.Prelude.{◌≡◌, ◌<◌, ◌+◌, length};
ghost use Rattle.tlsf_lex.specs.Bytes.{front_len, is_in_word};
ghost use Rattle.tlsf_lex.specs.Steps.{comment_step, slash_step, string_step, word_step, mark_step, step};
ghost use Rattle.tlsf_lex.specs.StepBounds.{IsWithin};

use crate::bytes::{
    digits_len, is_blank, is_digit, is_full_mark, is_full_word, is_mark, line_len, pair_place,
    place_of, starts_word, word_len,
};
use crate::tokens::{Kin, LexFault};

/// What stands at the front of a text.
#[derive(Debug, Clone, Copy, PartialEq, Eq)]
pub enum Step {
    /// A blank or a comment of so many bytes.
    Skip(usize),
    /// A token of so many bytes.
    Take(Kin, usize),
    /// A fault, so many bytes behind the front.
    Bad(LexFault, usize),
}

/// The step at the front of a text that isn't empty.
pub fn first_step(text: &[u8]) -> Step
    requires { 0 < length text.now }
    ensures value { result ≡ step text.now }
    ensures within { IsWithin (length text.now) result }
{
    let first = text[0];
    if is_blank(first) {
        Step::Skip(1)
    } else if first == b'/' {
        slash_step(&text[1..])
    } else if first == b'"' {
        string_step(&text[1..])
    } else if starts_word(first) {
        word_step(text)
    } else if is_digit(first) {
        Step::Take(Kin::Full, digits_len(text))
    } else {
        mark_step(text)
    }
}

/// The step at a `/`, by the text behind it.
fn slash_step(text: &[u8]) -> Step
    ensures value { result ≡ slash_step text.now }
    ensures within { IsWithin (length text.now + 1) result }
{
    if text.starts_with(b"/") {
        Step::Skip(1 + line_len(text))
    } else if text.starts_with(b"*") {
        comment_step(&text[1..])
    } else {
        Step::Bad(LexFault::BadByte, 0)
    }
}

/// The step at a `/*`, by the text behind it.
fn comment_step(text: &[u8]) -> Step
    ensures value { result ≡ comment_step text.now }
    ensures within { IsWithin (length text.now + 2) result }
{
    let Some(close) = pair_place(b'*', b'/', text) else {
        return Step::Bad(LexFault::OpenComment, 0);
    };
    match pair_place(b'/', b'*', &text[..close + 1]) {
        Some(inner) => Step::Bad(LexFault::NestedComment, inner + 2),
        None => Step::Skip(close + 4),
    }
}

/// The step at a `"`, by the text behind it.
fn string_step(text: &[u8]) -> Step
    ensures value { result ≡ string_step text.now }
    ensures within { IsWithin (length text.now + 1) result }
{
    match place_of(b'"', text) {
        Some(end) => Step::Take(Kin::Text, end + 2),
        None => Step::Bad(LexFault::OpenString, 0),
    }
}

/// The step at the first byte of a word.
fn word_step(text: &[u8]) -> Step
    requires { 0 < front_len is_in_word text.now }
    ensures value { result ≡ word_step text.now }
    ensures within { IsWithin (length text.now) result }
{
    let len = word_len(text);
    if is_full_word(&text[..len]) {
        Step::Take(Kin::Full, len)
    } else {
        Step::Take(Kin::Word, len)
    }
}

/// The step at a mark, or at a byte that nothing begins with.
fn mark_step(text: &[u8]) -> Step
    requires { 0 < length text.now }
    ensures value { result ≡ mark_step text.now }
    ensures within { IsWithin (length text.now) result }
{
    if is_mark(text[0]) {
        Step::Take(Kin::Mark, 1)
    } else if is_full_mark(text[0]) {
        Step::Take(Kin::Full, 1)
    } else if text.starts_with(b"&&") || text.starts_with(b"||") || text.starts_with(b"->") {
        Step::Take(Kin::Mark, 2)
    } else if text.starts_with(b"<->") {
        Step::Take(Kin::Mark, 3)
    } else {
        Step::Bad(LexFault::BadByte, 0)
    }
}
