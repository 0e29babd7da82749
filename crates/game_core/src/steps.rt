//! Steps of a journal.

ghost use Rattle.std.specs.Prelude.{◌≡◌, ◌++◌, true, IfOk, OnOk};
ghost use Rattle.game_core.specs.Rounds.{steps_of};

use crate::jobs::Outcome;
use antichain_list::Entry;
use counter_vec::Counters;
use std::alloc::{AllocError, Global};
use std::marker::Model;

/// An entry that was taken out of a list, and the vectors that were left of it, ascending.
#[derive(Drop)]
pub struct Step {
    pub taken: Counters,
    pub put: Vec<Counters>,
}

impl Model for Step {
    ghost use Rattle.game_core.specs.Journal.{StepData};

    ghost Value = { StepData };

    ghost view = { λ s. record { taken = s.taken; put = s.put.items } };
}

/// Equal vectors.
fn copied(alloc: Global, vectors: &Vec<Counters>) -> Result<Vec<Counters>, AllocError>
    ensures { IfOk result (λ v. v.items ≡ vectors.now.items) }
{
    let mut copies = Vec::new(alloc);
    for v in vectors {
        copies.push(v.copy(alloc)?)?;
    }
    Ok(copies)
}

/// Writes down what is taken out and put for an outcome, where a journal is kept.
pub fn note(alloc: Global, steps: &mut Vec<Step>, o: &Outcome, keep: bool) -> Result<(), AllocError>
    ensures { OnOk result (keep ≡ true → steps.new.items ≡ steps.old.items ++ steps_of o.now) }
{
    if !keep {
        return Ok(());
    }
    let Some(left) = o.left() else {
        return Ok(());
    };
    let taken = o.entry().copy(alloc)?;
    let put = copied(alloc, left)?;
    steps.push(Step { taken, put })?;
    Ok(())
}
