//! The board: the list of what is still possible, with marks.

ghost use Rattle.std.specs.Prelude.{◌≡◌, ◌<◌, ◌%◌, ◌∷◌, [], false, replicate, IfNone, IfOk, length, MatchOption, MatchResult, not, true};
ghost use Rattle.antichain_list.specs.Antichain.{covered};
ghost use Rattle.counter_vec.specs.Counters.{at_or_below};
ghost use Rattle.cpre_step.specs.Refinement.{AreVectors};
ghost use Rattle.game_form.specs.Covering.{CoversLetters};
ghost use Rattle.game_form.specs.Held.{HasHeld};
ghost use Rattle.game_form.specs.Letters.{HasLetters};
ghost use Rattle.game_form.specs.Predecessor.{InPredecessor};
ghost use Rattle.game_form.specs.Vector.{top, initial};

use crate::commits::{exchange, holds_initial, place_of};
use crate::games::same_game;
use crate::jobs::{Job, Outcome};
use crate::marks::{count_open, find_open};
use crate::sames::same_list;
use antichain_list::{Downset, ListDownset};
use counter_vec::Counters;
use game_form::Game;
use std::alloc::{AllocError, Global};
use std::marker::Model;
use std::sync::Arc;

/// A game, an ascending antichain at or above all that can be held, and one mark per entry.
#[derive(Drop)]
pub struct Board {
    game: Arc<Game>,
    list: Arc<ListDownset<Counters>>,
    marks: Vec<bool>,
}

/// What a commit did.
#[derive(Debug, Clone, Copy, PartialEq, Eq)]
pub enum Committed {
    /// The entry stays, and is fresh.
    Fresh,
    /// The entry made way for what is left of it.
    Replaced,
    /// The list has changed since the job was made.
    Stale,
    /// The entry isn't in the list any more.
    Gone,
    /// The outcome is one of another game.
    Other,
}

impl Model for Board {
    ghost use Rattle.game_core.specs.Board.{BoardData, IsBoard};

    ghost Value = { BoardData };

    ghost view = { λ b. record { game = b.game.value; list = b.list.value; marks = b.marks.items } };

    ghost invariant = { λ b. IsBoard (record { game = b.game.value; list = b.list.value; marks = b.marks.items }) };
}

impl Board {
    ghost use Rattle.game_core.specs.Board.{CoversHeld, IsBoard, entry_at, open_count, opened, job_of, mark_at};
    ghost use Rattle.game_core.specs.Commit.{Commits};
    ghost use Rattle.game_core.specs.Solved.{IsClosed};

    /// The board with the top vector alone, not fresh.
    pub fn open(alloc: Global, g: Arc<Game>) -> Result<Board, AllocError>
        ensures { IfOk result (λ b. b ≡ opened g.value) }
    {
        g.known();
        let top = Counters::top(alloc, &g)?;
        let list = ListDownset::from_entries(vec![in alloc; top]?);
        let marks = vec![in alloc; false]?;
        let list = Arc::new(alloc, list)?;
        Ok(Board {
            game: g,
            list,
            marks,
        })
    }

    /// The board with these entries, at or above all that is held, none of them fresh.
    pub fn resume(
        alloc: Global,
        g: Arc<Game>,
        list: ListDownset<Counters>,
    ) -> Result<Board, AllocError>
        requires vectors { AreVectors g.value list }
        requires covers { CoversHeld g.value list }
        ensures { IfOk result (λ b. b ≡ record { game = g.value; list = list; marks = replicate (length list) false }) }
    {
        let count = list.len();
        let marks = vec![in alloc; false; count]?;
        let list = Arc::new(alloc, list)?;
        Ok(Board {
            game: g,
            list,
            marks,
        })
    }

    /// What is known of every board: its list is an ascending antichain of vectors of the game, at or above all that
    /// is held, and from a fresh entry the player can stay in it.
    pub fn known(&self)
        ensures { IsBoard self.now }
    {
        let _ = &self.marks;
    }

    /// The game.
    pub fn game(&self) -> &Game
        ensures { result.now ≡ self.now.game }
    {
        &self.game
    }

    /// The entries in order.
    pub fn entries(&self) -> &ListDownset<Counters>
        ensures { result.now ≡ self.now.list }
    {
        &self.list
    }

    /// Whether an entry is fresh. From a fresh entry the player can stay in the list.
    pub fn fresh(&self, i: usize) -> bool
        requires { i < length self.now.list }
        ensures mark { result ≡ mark_at self.now.marks i }
        ensures stays { result ≡ true → HasLetters self.now.game → InPredecessor self.now.game self.now.list (entry_at self.now.list i) }
    {
        self.known();
        self.game.known();
        self.marks[i]
    }

    /// A job for the entry at place `number` among those that aren't fresh, round and round. None exactly where
    /// every entry is fresh; then the list is exactly the maximal vectors that are held.
    pub fn claim(&self, alloc: Global, number: u64) -> Result<Option<Job>, AllocError>
        ensures closed { IfOk result (λ o. IfNone o (IsClosed self.now.game self.now.list)) }
        ensures held { IfOk result (λ o. IfNone o (HasLetters self.now.game → CoversLetters self.now.game → HasHeld self.now.game self.now.list)) }
        ensures job { IfOk result (λ o. MatchOption o (open_count self.now.marks ≡ 0) (λ j. (0 < open_count self.now.marks) × (j ≡ job_of self.now (number % open_count self.now.marks)))) }
    {
        let open = count_open(&self.marks);
        if open == 0 {
            self.known();
            self.game.known();
            return Ok(None);
        }
        let place = find_open(&self.marks, (number % open as u64) as usize);
        let entry = self.list.entry(place).copy(alloc)?;
        Ok(Some(Job {
            game: Arc::try_clone(&self.game)?,
            snapshot: Arc::try_clone(&self.list)?,
            entry,
        }))
    }

    /// Whether no entry is at or above the initial vector.
    pub fn lost(&self) -> bool
        ensures { result ≡ not (covered at_or_below (initial self.now.game) self.now.list) }
    {
        !holds_initial(&self.game, &self.list)
    }

    /// Takes an outcome in, by the first of these that applies: Other, where its game isn't the board's; Gone,
    /// where its entry isn't in the list; Replaced, where something is left of its entry or nothing; Fresh, where
    /// its snapshot is the list; Stale. Want of memory leaves the board as it is.
    pub fn commit(&mut self, alloc: Global, o: Outcome) -> Result<Committed, AllocError>
        ensures { MatchResult result (λ done. Commits self.old o self.new done) (λ _. self.new ≡ self.old) }
    {
        let Outcome {
            game,
            snapshot,
            entry,
            left,
        } = o;
        self.game.known();
        if !same_game(&self.game, &game) {
            return Ok(Committed::Other);
        }
        let Some(place) = place_of(&self.list, &entry) else {
            return Ok(Committed::Gone);
        };
        match left {
            Some(left) => {
                let list = exchange(alloc, &self.list, place, left)?;
                let marks = vec![in alloc; false; list.len()]?;
                self.list = Arc::new(alloc, list)?;
                self.marks = marks;
                Ok(Committed::Replaced)
            }
            None => {
                if !same_list(&self.list, &snapshot) {
                    return Ok(Committed::Stale);
                }
                self.marks[place] = true;
                Ok(Committed::Fresh)
            }
        }
    }
}
