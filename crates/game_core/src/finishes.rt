//! A board that one thread finishes, and the journal of that.

ghost use Rattle.std.specs.Prelude.{◌≡◌, IfOk};
ghost use Rattle.game_form.specs.Covering.{CoversLetters};
ghost use Rattle.game_form.specs.Letters.{HasLetters};
ghost use Rattle.game_core.specs.Journal.{AnswerOf, IsJournal};
ghost use Rattle.game_core.specs.Rounds.{Stopped};
ghost use Rattle.game_core.specs.Solved.{Covers, IsSolution};

use crate::boards::Board;
use crate::rounds::run;
use crate::solvers::Solved;
use crate::steps::Step;
use game_form::Game;
use std::alloc::{AllocError, Global};
use std::sync::Arc;

/// The answer of a board at the end of a run.
fn answer_of(alloc: Global, b: &Board, whole: bool, lost: bool) -> Result<Solved, AllocError>
    requires { Stopped whole lost b.now }
    ensures answer { IfOk result (AnswerOf b.now) }
    ensures solution { IfOk result (λ s. Covers b.now.game b.now.list → IsSolution b.now.game whole s) }
{
    b.known();
    b.game().known();
    if lost {
        return Ok(Solved::Lost);
    }
    Ok(Solved::Held(b.entries().copy(alloc)?))
}

/// The maximal held vectors, from a board on; where `whole` is false and the initial vector isn't held, Lost instead.
/// It is an answer of `solve` for the board's game, if the game's classes and options are those of its letters, or if
/// the board's list is at or above every closed list, as that of `Board::open` is.
pub fn finish(alloc: Global, b: Board, whole: bool) -> Result<Solved, AllocError>
    ensures held { IfOk result (λ s. HasLetters b.game → CoversLetters b.game → IsSolution b.game whole s) }
    ensures solution { IfOk result (λ s. Covers b.game b.list → IsSolution b.game whole s) }
{
    b.known();
    b.game().known();
    let mut b = b;
    let mut steps = Vec::new(alloc);
    let lost = run(alloc, &mut b, whole, false, &mut steps)?;
    answer_of(alloc, &b, whole, lost)
}

/// An answer of `solve`, with the journal of the game: the steps of the run that claims with number 0, works and
/// commits from the opened board on.
pub fn solve_logged(alloc: Global, g: Game, whole: bool) -> Result<(Solved, Vec<Step>), AllocError>
    ensures solution { IfOk result (λ r. IsSolution g whole r.0) }
    ensures journal { IfOk result (λ r. IsJournal g whole r.1.items r.0) }
{
    let mut b = Board::open(alloc, Arc::new(alloc, g)?)?;
    let mut steps = Vec::new(alloc);
    let lost = run(alloc, &mut b, whole, true, &mut steps)?;
    let answer = answer_of(alloc, &b, whole, lost)?;
    Ok((answer, steps))
}
