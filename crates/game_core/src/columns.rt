//! The predecessors of the entries under one action.

use crate::tops::{find_top, push_low, take_low, tops_of};
use counter_vec::Counters;
use std::alloc::{AllocError, Global};
use std::marker::Model;

/// How many entries may be taken out of a column that isn't wanted before it is emptied.
const PATIENCE: usize = 64;

/// The predecessors of the first entries under one action, each with the place of one at or above it. Only those
/// that point to themselves are compared. To keep a column up costs something at each exchange of an entry, so one that
/// isn't wanted for long is emptied.
#[derive(Drop)]
pub struct Column {
    lows: Vec<Counters>,
    over: Vec<usize>,
    /// How many entries were taken out since it was wanted last.
    idle: usize,
}

impl Model for Column {
    ghost use Rattle.game_core.specs.Columns.{ColumnData};
    ghost use Rattle.game_core.specs.Flat.{IsFlat};

    ghost Value = { ColumnData };

    ghost view = { λ c. record { items = c.lows.items } };

    ghost invariant = { λ c. IsFlat c.lows.items c.over.items };
}

impl Column {
    ghost use Rattle.std.specs.Prelude.{◌≡◌, ◌<◌, ℕ, ℤ, List, [], ◌∷◌, ◌++◌, if◌then◌else◌, is_ok, true, length, remove, IfOk, IfSome, IfNone, slice_index_or};
    ghost use Rattle.std.specs.List.{All};
    ghost use Rattle.game_core.specs.Flat.{picked};
    ghost use Rattle.game_core.specs.Front.{Misses, under};

    /// No predecessors.
    pub fn empty(alloc: Global) -> Column
        ensures { length result.items ≡ 0 }
    {
        Column {
            lows: Vec::new(alloc),
            over: Vec::new(alloc),
            idle: 0,
        }
    }

    /// How many there are.
    pub fn len(&self) -> usize
        ensures { result ≡ length self.now.items }
    {
        self.lows.len()
    }

    /// The predecessor at a place.
    pub fn low(&self, place: usize) -> &Counters
        requires { place < length self.now.items }
        ensures { result.now ≡ slice_index_or self.now.items place result.now }
    {
        &self.lows[place]
    }

    /// The place of a predecessor at or above `f`.
    pub fn find(&self, f: &Counters) -> Option<usize>
        ensures some { IfSome result (λ i. i < length self.now.items) }
        ensures under { IfSome result (λ _. under self.now.items f.now ≡ true) }
        ensures none { IfNone result (Misses f.now self.now.items) }
    {
        find_top(&self.lows, &self.over, f)
    }

    /// Puts a predecessor behind the others. Want of memory leaves them as they are.
    pub fn push(&mut self, low: Counters) -> Result<(), AllocError>
        ensures { self.new.items ≡ (if is_ok result then self.old.items ++ low ∷ [] else self.old.items) }
    {
        push_low(&mut self.lows, &mut self.over, low)
    }

    /// Says that all predecessors are wanted.
    pub fn want(&mut self)
        ensures { self.new.items ≡ self.old.items }
    {
        self.idle = 0;
    }

    /// Whether it wasn't wanted while many entries were taken out.
    pub fn is_idle(&self) -> bool {
        self.idle >= PATIENCE
    }

    /// Takes all predecessors out.
    pub fn clear(&mut self)
        ensures { self.new.items ≡ [] }
    {
        self.lows.clear();
        self.over.clear();
        self.idle = 0;
    }

    /// Takes the predecessor at a place out.
    pub fn take(&mut self, place: usize)
        requires { place < length self.old.items }
        ensures { self.new.items ≡ remove self.old.items place }
    {
        self.idle = self.idle.saturating_add(1);
        take_low(&mut self.lows, &mut self.over, place);
    }

    /// Places of predecessors that are at or above what all are.
    pub fn tops(&self, alloc: Global) -> Result<Vec<usize>, AllocError>
        ensures within { IfOk result (λ v. All (λ i. i < length self.now.items) v.items) }
        ensures under { IfOk result (λ v. (u : List ℤ) → under (picked self.now.items v.items) u ≡ under self.now.items u) }
    {
        tops_of(alloc, &self.lows, &self.over)
    }
}
