//! A board that one thread works on.

ghost use Rattle.std.specs.Prelude.{◌≡◌, ◌<◌, true, false, IfNone, IfOk, IfSome, IsTrue, OnOk};
ghost use Rattle.game_form.specs.Game.{lanes};
ghost use Rattle.game_form.specs.Vector.{bound};
ghost use Rattle.game_core.specs.Board.{open_count};
ghost use Rattle.game_core.specs.Front.{extent};
ghost use Rattle.game_core.specs.Journal.{GoesOn, IsNext, has_initial};
ghost use Rattle.game_core.specs.Rounds.{Leads, Stopped};
ghost use Rattle.game_core.specs.Solved.{Covers};

use crate::boards::{Board, Committed};
use crate::jobs::{Outcome, work};
use crate::steps::{Step, note};
use std::alloc::{AllocError, Global};

/// The outcome of the job that number 0 claims. None where every entry is fresh.
fn next_outcome(alloc: Global, b: &Board) -> Result<Option<Outcome>, AllocError>
    ensures none { IfOk result (λ o. IfNone o (open_count b.now.marks ≡ 0)) }
    ensures some { IfOk result (λ o. IfSome o (IsNext b.now)) }
{
    let Some(job) = b.claim(alloc, 0)? else {
        return Ok(None);
    };
    Ok(Some(work(alloc, &job)?))
}

/// Commits the outcome of the job that number 0 claims. Says whether an entry was replaced; else one more is fresh.
fn take_in(
    alloc: Global,
    b: &mut Board,
    o: Outcome,
    whole: bool,
    keep: bool,
    steps: &mut Vec<Step>,
) -> Result<bool, AllocError>
    requires next { IsNext b.old o }
    requires goes_on { GoesOn whole b.old }
    ensures game { b.new.game ≡ b.old.game }
    ensures covers { Covers b.old.game b.old.list → Covers b.old.game b.new.list }
    ensures falls { IfOk result (λ r. r ≡ true → extent (bound b.old.game) (lanes b.old.game) b.new.list < extent (bound b.old.game) (lanes b.old.game) b.old.list) }
    ensures marked { IfOk result (λ r. r ≡ false → open_count b.new.marks < open_count b.old.marks) }
    ensures list { IfOk result (λ r. r ≡ false → b.new.list ≡ b.old.list) }
    ensures journal { OnOk result (keep ≡ true → Leads whole b.old steps.old.items b.new steps.new.items) }
{
    b.known();
    b.game().known();
    o.known();
    note(alloc, steps, &o, keep)?;
    match b.commit(alloc, o)? {
        Committed::Replaced => Ok(true),
        Committed::Fresh => Ok(false),
        _ => unreachable!(),
    }
}

/// Claims, works and commits with number 0 until an entry is replaced. Says whether one was; else every entry is fresh.
fn replace_next(
    alloc: Global,
    b: &mut Board,
    whole: bool,
    keep: bool,
    steps: &mut Vec<Step>,
) -> Result<bool, AllocError>
    requires { GoesOn whole b.old }
    ensures game { b.new.game ≡ b.old.game }
    ensures covers { Covers b.old.game b.old.list → Covers b.old.game b.new.list }
    ensures falls { IfOk result (λ r. r ≡ true → extent (bound b.old.game) (lanes b.old.game) b.new.list < extent (bound b.old.game) (lanes b.old.game) b.old.list) }
    ensures settled { IfOk result (λ r. r ≡ false → Stopped whole false b.new) }
    ensures journal { OnOk result (keep ≡ true → Leads whole b.old steps.old.items b.new steps.new.items) }
{
    while let Some(o) = next_outcome(alloc, b)? {
        if take_in(alloc, b, o, whole, keep, steps)? {
            return Ok(true);
        }
    }
    Ok(false)
}

/// Whether a run goes on: all is asked for, or an entry is at or above the initial vector.
fn goes_on(b: &Board, whole: bool) -> bool
    ensures yes { IsTrue result → GoesOn whole b.now }
    ensures stopped { result ≡ false → Stopped whole true b.now }
{
    whole || !b.lost()
}

/// Works on a board until every entry is fresh, or, where only the initial vector is asked for, until no entry is at
/// or above it. Says whether it stopped for that. Where `keep` says so, each replacement is written down.
pub fn run(
    alloc: Global,
    b: &mut Board,
    whole: bool,
    keep: bool,
    steps: &mut Vec<Step>,
) -> Result<bool, AllocError>
    ensures game { b.new.game ≡ b.old.game }
    ensures covers { Covers b.old.game b.old.list → Covers b.old.game b.new.list }
    ensures stopped { IfOk result (λ r. Stopped whole r b.new) }
    ensures journal { OnOk result (keep ≡ true → Leads whole b.old steps.old.items b.new steps.new.items) }
{
    'replacing: while goes_on(b, whole) {
        if !replace_next(alloc, b, whole, keep, steps)? {
            return Ok(false);
        }
    }
    Ok(true)
}
