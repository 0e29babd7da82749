//! The scan of a whole text.

ghost use Rattle.std.specs.Prelude.{◌≡◌, ◌<◌, ◌≤◌, All, AllPairs, length, drop, Ok, IfOk, IfErr, MatchResult};
ghost use Rattle.tlsf_lex.specs.Tokens.{tokens_of, Tells, IsWithin, IsBefore, IsPlaced};

use crate::steps::{Step, first_step};
use crate::tokens::{LexError, Token};
use std::alloc::Global;

/// The tokens of a text, in order, or its first fault.
///
/// A token's text is the slice of its span.
pub fn lex(alloc: Global, text: &[u8]) -> Result<Vec<Token>, LexError>
    ensures value { MatchResult result (λ ts. tokens_of text.now ≡ Ok ts.items) (λ e. Tells e (tokens_of text.now)) }
    ensures within { IfOk result (λ ts. All (IsWithin (length text.now)) ts.items) }
    ensures ordered { IfOk result (λ ts. AllPairs IsBefore ts.items) }
    ensures place { IfErr result (IsPlaced (length text.now)) }
{
    let mut tokens = Vec::new(alloc);
    let mut at = 0;
    while at < text.len() {
        match first_step(behind(text, at)) {
            Step::Skip(len) => at += len,
            Step::Take(kin, len) => {
                tokens.push(Token {
                    kin,
                    from: at,
                    to: at + len,
                })?;
                at += len;
            }
            Step::Bad(what, past) => {
                return Err(LexError::Fault {
                    what,
                    place: at + past,
                });
            }
        }
    }
    Ok(tokens)
}

/// The text from a place on.
fn behind(text: &[u8], at: usize) -> &[u8]
    requires { at ≤ length text.now }
    ensures { result.now ≡ drop at text.now }
{
    &text[at..]
}
