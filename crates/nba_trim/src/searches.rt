//! Searches through the states of an automaton.

ghost use Rattle.std.specs.Prelude.{if◌then◌else◌, ℕ, ◌≡◌, ◌<◌, ◌≤◌, ◌++◌, ◌∷◌, [], false, true, length, IfOk, OnOk, slice_index_or};
ghost use Rattle.nba_trim.specs.Search.{AreStates, IsSearch, Finds, at, trues};

use std::alloc::{AllocError, Global};
use std::marker::Model;

/// The states that were found, by number and in the order in which they were found.
#[derive(Drop)]
pub struct Search {
    found: Vec<bool>,
    queue: Vec<u32>,
}

impl Model for Search {
    ghost use Rattle.nba_trim.specs.Search.{SearchData, IsSearch};

    ghost Value = { SearchData };

    ghost view = { λ s. record { found = s.found.items; queue = s.queue.items } };

    ghost invariant = { λ s. IsSearch s.found.items s.queue.items };
}

impl Search {
    /// No state was found yet.
    pub fn new(alloc: Global, count: usize) -> Result<Search, AllocError>
        ensures count { IfOk result (λ search. length search.found ≡ count) }
        ensures none { IfOk result (λ search. (q : ℕ) → at search.found q ≡ false) }
    {
        let found = vec![in alloc; false; count]?;
        Ok(Search {
            found,
            queue: Vec::new(alloc),
        })
    }

    /// Finds a state, where it is wanted.
    pub fn add_if(&mut self, q: u32, is_wanted: bool) -> Result<(), AllocError>
        requires { q < length self.old.found }
        ensures { OnOk result (Finds (λ p. (p ≡ q) × (is_wanted ≡ true)) self.old self.new) }
    {
        let _ = &self.found;
        if is_wanted && !self.found[q as usize] {
            self.queue.push(q)?;
            self.found[q as usize] = true;
        }
        Ok(())
    }

    /// How many states were found.
    pub fn len(&self) -> usize
        ensures value { result ≡ length self.now.queue }
        ensures fewer { result ≤ length self.now.found }
        ensures search { IsSearch self.now.found self.now.queue }
    {
        self.queue.len()
    }

    /// The state that was found at a place.
    pub fn at(&self, place: usize) -> u32
        requires { place < length self.now.queue }
        ensures value { result ≡ slice_index_or self.now.queue place 0 }
        ensures state { result < length self.now.found }
    {
        self.queue[place]
    }

    /// By state whether it was found.
    pub fn into_found(self) -> Vec<bool>
        ensures { result.items ≡ self.found }
    {
        let Search { found, queue } = self;
        found
    }
}

/// States with an edge to one state.
#[derive(Drop)]
pub struct Sources {
    states: Vec<u32>,
}

impl Model for Sources {
    ghost use Rattle.std.specs.Prelude.{List, ℕ};

    ghost Value = { List ℕ };

    ghost view = { λ s. s.states.items };
}

impl Sources {
    pub fn new(alloc: Global) -> Sources
        ensures { result ≡ [] }
    {
        Sources {
            states: Vec::new(alloc),
        }
    }

    pub fn push(&mut self, q: u32) -> Result<(), AllocError>
        ensures { OnOk result (self.new ≡ self.old ++ q ∷ []) }
    {
        self.states.push(q)?;
        Ok(())
    }

    pub fn as_slice(&self) -> &[u32]
        ensures { result.now ≡ self.now }
    {
        &self.states
    }
}

/// How many are true.
pub fn count_true(told: &[bool]) -> usize
    ensures { result ≡ trues told.now }
{
    let mut count = 0;
    for q in 0..told.len() {
        count += one_if(told[q]);
    }
    count
}

fn one_if(is_true: bool) -> usize
    ensures value { result ≡ (if is_true then 1 else 0) }
    ensures low { result ≤ 1 }
{
    if is_true { 1 } else { 0 }
}
