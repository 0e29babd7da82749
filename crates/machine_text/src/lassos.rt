//! Lassos from their texts, and back.

ghost use Rattle.std.specs.Prelude.{◌≡◌, ℕ, ◌+◌, ◌-◌, ◌<◌, ◌≤◌, ◌^◌, [], ◌∷◌, ◌++◌, length, codes, IfOk, IfErr, OnOk, MatchOption};
ghost use Rattle.std.specs.List.{All};
ghost use Rattle.word_core.specs.Lasso.{LassoData};
ghost use Rattle.machine_text.specs.declared.errors.LassoError.TheVariants.{Memory};
ghost use Rattle.machine_text.specs.Fields.{valuation};
ghost use Rattle.machine_text.specs.Lassos.{lasso_text, letter_lines, AreLetters, IsLasso, HasLassoFault, HasStemFault, HasCycleFault, IsLetterLine};
ghost use Rattle.machine_text.specs.Lines.{joined, NextIsNone};

use crate::errors::{BadLine, LassoError, Memory};
use crate::fields::read_valuation;
use crate::lines::Lines;
use crate::printing::push_valuation;
use std::alloc::Global;
use word_core::{Lasso, Letter};

/// The lasso of a text over so many signals, at most 64. The text has fewer than 2^32 - 1 bytes.
pub fn read_lasso(alloc: Global, text: &[u8], signals: u32) -> Result<Lasso, LassoError>
    requires narrow { signals ≤ 64 }
    requires short { length text.now < 2 ^ 32 - 1 }
    ensures value { IfOk result (λ w. IsLasso signals w × (text.now ≡ lasso_text signals w)) }
    ensures fault { IfErr result (HasLassoFault signals text.now) }
    ensures back { (w : LassoData) → IsLasso signals w → text.now ≡ lasso_text signals w → IfOk result (λ v. v ≡ w) × IfErr result (λ e. e ≡ Memory) }
{
    let mut lines = Lines::of(text);
    read_stem_line(&mut lines)?;
    let stem = read_stem(alloc, &mut lines, signals)?;
    let cycle = read_cycle(alloc, &mut lines, signals)?;
    match Lasso::make(stem, cycle) {
        Some(lasso) => Ok(lasso),
        None => unreachable!(),
    }
}

/// The line `stem`.
fn read_stem_line(lines: &mut Lines<'_>) -> Result<(), BadLine>
    ensures line { OnOk result (lines.old.rest.now ≡ codes "stem" ++ 10 ∷ lines.new.rest.now) }
    ensures taken { OnOk result (lines.new.taken ≡ lines.old.taken + 1) }
    ensures bad { IfErr result (λ e. (e.0 ≡ lines.old.taken + 1) × NextIsNone (λ line. line ≡ codes "stem") lines.old.rest.now) }
{
    let line = lines.next()?;
    if line == b"stem".as_slice() {
        Ok(())
    } else {
        Err(BadLine(lines.taken))
    }
}

/// The letters up to the line `cycle`, which is taken too.
fn read_stem(alloc: Global, lines: &mut Lines<'_>, signals: u32) -> Result<Vec<Letter>, LassoError>
    requires { signals ≤ 64 }
    ensures ranged { IfOk result (λ letters. AreLetters signals letters.items) }
    ensures text { IfOk result (λ letters. lines.old.rest.now ≡ joined (letter_lines signals letters.items) ++ (codes "cycle" ++ 10 ∷ lines.new.rest.now)) }
    ensures taken { IfOk result (λ letters. lines.new.taken ≡ lines.old.taken + length letters.items + 1) }
    ensures fault { IfErr result (HasStemFault signals lines.old.taken lines.old.rest.now) }
{
    let mut letters = Vec::new(alloc);
    loop {
        let line = lines.next()?;
        if line == b"cycle".as_slice() {
            return Ok(letters);
        }
        let Some(letter) = letter_of(line, signals) else {
            return Err(LassoError::Line(lines.taken));
        };
        letters.push(letter)?;
    }
}

/// The letters up to the end of the text, at least one.
fn read_cycle(alloc: Global, lines: &mut Lines<'_>, signals: u32) -> Result<Vec<Letter>, LassoError>
    requires { signals ≤ 64 }
    ensures some { IfOk result (λ letters. 0 < length letters.items) }
    ensures ranged { IfOk result (λ letters. AreLetters signals letters.items) }
    ensures text { IfOk result (λ letters. lines.old.rest.now ≡ joined (letter_lines signals letters.items)) }
    ensures fault { IfErr result (HasCycleFault signals lines.old.taken lines.old.rest.now) }
{
    let mut letters = Vec::new(alloc);
    loop {
        let line = lines.next()?;
        let Some(letter) = letter_of(line, signals) else {
            return Err(LassoError::Line(lines.taken));
        };
        letters.push(letter)?;
        if lines.rest.is_empty() {
            return Ok(letters);
        }
    }
}

/// The letter that a line is.
fn letter_of(line: &[u8], signals: u32) -> Option<Letter>
    requires { signals ≤ 64 }
    ensures { MatchOption result (IsLetterLine signals line.now → ⊥) (λ x. (x.0 < 2 ^ signals) × (line.now ≡ valuation signals x.0)) }
{
    let (bits, rest) = read_valuation(line, signals)?;
    if rest.is_empty() {
        Some(Letter(bits))
    } else {
        None
    }
}

/// The text of a lasso over so many signals.
#[tactic(auto, using(crate::proofs::LineLaws::joined_append))]
pub fn print_lasso(alloc: Global, w: &Lasso, signals: u32) -> Result<Vec<u8>, Memory>
    requires { signals ≤ 64 }
    ensures { IfOk result (λ text. text.items ≡ lasso_text signals w.now) }
{
    let mut text = Vec::new(alloc);
    push_part(&mut text, b"stem", signals, w.stem())?;
    push_part(&mut text, b"cycle", signals, w.cycle())?;
    Ok(text)
}

/// The line of a word, and then those of letters.
fn push_part(
    text: &mut Vec<u8>,
    word: &[u8],
    signals: u32,
    letters: &[Letter],
) -> Result<(), Memory>
    ensures { OnOk result (text.new.items ≡ text.old.items ++ joined (word.now ∷ letter_lines signals letters.now)) }
{
    text.extend_from_slice(word)?;
    text.push(b'\n')?;
    push_letters(text, signals, letters)
}

fn push_letters(text: &mut Vec<u8>, signals: u32, letters: &[Letter]) -> Result<(), Memory>
    ensures { OnOk result (text.new.items ≡ text.old.items ++ joined (letter_lines signals letters.now)) }
{
    for letter in letters {
        push_valuation(text, signals, letter.0)?;
        text.push(b'\n')?;
    }
    Ok(())
}
