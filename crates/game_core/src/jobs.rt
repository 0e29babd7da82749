//! The work on one entry, without the board.

ghost use Rattle.std.specs.Prelude.{◌≡◌, IfOk};
ghost use Rattle.game_core.specs.Board.{IsWork};

use antichain_list::{Downset, ListDownset};
use counter_vec::Counters;
use cpre_step::{Refined, pre_below};
use game_form::Game;
use std::alloc::{AllocError, Global};
use std::marker::Model;
use std::sync::Arc;

/// An entry of a list, to be looked at.
#[derive(Drop)]
pub struct Job {
    pub(crate) game: Arc<Game>,
    pub(crate) snapshot: Arc<ListDownset<Counters>>,
    pub(crate) entry: Counters,
}

impl Model for Job {
    ghost use Rattle.game_core.specs.Board.{JobData, IsJob};

    ghost Value = { JobData };

    ghost view = { λ j. record { game = j.game.value; snapshot = j.snapshot.value; entry = j.entry } };

    ghost invariant = { λ j. IsJob (record { game = j.game.value; snapshot = j.snapshot.value; entry = j.entry }) };
}

/// A job with what its entry became under the job's list.
#[derive(Drop)]
pub struct Outcome {
    pub(crate) game: Arc<Game>,
    pub(crate) snapshot: Arc<ListDownset<Counters>>,
    pub(crate) entry: Counters,
    pub(crate) left: Option<Vec<Counters>>,
}

impl Model for Outcome {
    ghost use Rattle.std.specs.Prelude.{option_map};
    ghost use Rattle.game_core.specs.Board.{OutcomeData, IsOutcome};

    ghost Value = { OutcomeData };

    ghost view = { λ o. record { game = o.game.value; snapshot = o.snapshot.value; entry = o.entry; left = option_map (λ v. v.items) o.left } };

    ghost invariant = { λ o. IsOutcome (record { game = o.game.value; snapshot = o.snapshot.value; entry = o.entry; left = option_map (λ v. v.items) o.left }) };
}

impl Job {
    ghost use Rattle.game_core.specs.Board.{IsJob};

    /// What is known of every job: its entry is one of its list, which is at or above all that is held.
    pub fn known(&self)
        ensures { IsJob self.now }
    {
        let _ = &self.entry;
    }

    /// The entry.
    pub fn entry(&self) -> &Counters
        ensures { result.now ≡ self.now.entry }
    {
        &self.entry
    }
}

impl Outcome {
    ghost use Rattle.std.specs.Prelude.{option_map};
    ghost use Rattle.game_core.specs.Board.{IsOutcome};

    /// What is known of every outcome: from its entry the player can stay in its list, or else what is left of the
    /// entry is exactly the maximal vectors below it from which the player can.
    pub fn known(&self)
        ensures { IsOutcome self.now }
    {
        let _ = &self.left;
    }

    /// The entry that was looked at.
    pub fn entry(&self) -> &Counters
        ensures { result.now ≡ self.now.entry }
    {
        &self.entry
    }

    /// What is left of the entry. None where it is kept.
    pub fn left(&self) -> Option<&Vec<Counters>>
        ensures { option_map (λ v. v.now.items) result ≡ self.now.left }
    {
        self.left.as_ref()
    }
}

/// Looks at a job's entry: whether it stays under the job's list, or else what is left of it.
pub fn work(alloc: Global, job: &Job) -> Result<Outcome, AllocError>
    ensures { IfOk result (IsWork job.now) }
{
    job.known();
    let refined = pre_below(alloc, &job.game, &job.entry, &*job.snapshot)?;
    let left = match refined {
        Refined::Kept => None,
        Refined::Shrunk(left) => Some(left),
    };
    Ok(Outcome {
        game: Arc::try_clone(&job.game)?,
        snapshot: Arc::try_clone(&job.snapshot)?,
        entry: job.entry.copy(alloc)?,
        left,
    })
}
