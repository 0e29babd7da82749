//! The rows of an action, from what edges do together.

ghost use Rattle.std.specs.Prelude.{◌≡◌, ◌<◌, ◌≤◌, ◌+◌, ◌^◌, ◌≤ℤ◌, ℕ, pos, length, vec_len, IfOk, OnOk};
ghost use Rattle.std.specs.List.{All};
ghost use Rattle.action_groups.specs.Row.{EndsBelow, AreRows};
ghost use Rattle.action_groups.specs.Way.{AreSteps};
ghost use Rattle.std.specs.Prelude.{max, nat_eq, if◌then◌else◌};
ghost use Rattle.game_form.specs.Vector.{number, size_of};
ghost use Rattle.action_groups.specs.Numbers.{mark_number};
ghost use Rattle.action_groups.specs.Made.{AreLater, IsRowOf, HasNumbers};
ghost use Rattle.game_form.specs.Game.{IsRow};

use game_form::{Action, Row, Step};
use std::alloc::{AllocError, Global};

/// The number of a step: 2 where it is marked, else 1.
fn number_of(marked: bool) -> i16
    ensures low { pos 1 ≤ℤ result }
    ensures high { result ≤ℤ pos 2 }
    ensures value { size_of result ≡ mark_number marked }
{
    if marked { 2 } else { 1 }
}

/// Puts a step that leads behind the last one at the end of a row.
#[tactic(auto, using(crate::proofs::RowSteps::row_pushed, crate::proofs::RowSteps::ends_pushed))]
fn put_step(
    steps: &mut Vec<Step>,
    to: u32,
    marked: bool,
    next: u32,
    lanes: usize,
) -> Result<(), AllocError>
    requires to { to < lanes }
    requires behind { next ≤ to }
    requires row { IsRow lanes 0 steps.old.items }
    requires ends { EndsBelow next steps.old.items }
    ensures row { IsRow lanes 0 steps.new.items }
    ensures ends { OnOk result (EndsBelow (to + 1) steps.new.items) }
    ensures numbers { OnOk result ((p : ℕ) → number steps.new.items p ≡ max (number steps.old.items p) (if nat_eq to p then mark_number marked else 0)) }
{
    steps.push(Step {
        to,
        number: number_of(marked),
    })?;
    Ok(())
}

/// The row of a lane: its steps from a place on. Beside it, where the steps of the next lane begin.
fn row_of(
    alloc: Global,
    steps: &[(u32, u32, bool)],
    at: usize,
    lane: u32,
    lanes: usize,
) -> Result<(Row, usize), AllocError>
    requires steps { AreSteps lanes steps.now }
    requires narrow { lanes < 2 ^ 32 }
    requires later { AreLater steps.now at lane }
    requires within { at ≤ length steps.now }
    ensures row { IfOk result (λ r. IsRow lanes 0 r.0) }
    ensures exact { IfOk result (λ r. IsRowOf steps.now at lane r.0 r.1) }
    ensures behind { IfOk result (λ r. r.1 ≤ length steps.now) }
{
    let mut row = Vec::new(alloc);
    let mut next: u32 = 0;
    for i in at..steps.len() {
        let (from, to, marked) = steps[i];
        if from != lane {
            return Ok((Row { steps: row }, i));
        }
        if to >= next {
            put_step(&mut row, to, marked, next, lanes)?;
            next = to + 1;
        }
    }
    Ok((Row { steps: row }, steps.len()))
}

/// The action that takes these steps.
pub fn action_of(
    alloc: Global,
    steps: &[(u32, u32, bool)],
    lanes: usize,
) -> Result<Action, AllocError>
    requires steps { AreSteps lanes steps.now }
    requires narrow { lanes < 2 ^ 32 }
    ensures rows { IfOk result (AreRows lanes) }
    ensures numbers { IfOk result (λ a. HasNumbers steps.now a) }
{
    let mut rows = Vec::with_capacity(alloc, lanes)?;
    let mut at: usize = 0;
    for lane in 0..lanes {
        let (row, behind) = row_of(alloc, steps, at, lane as u32, lanes)?;
        rows.push(row)?;
        at = behind;
    }
    Ok(Action { rows })
}
