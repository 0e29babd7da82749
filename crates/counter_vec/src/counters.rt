//! Vectors of counters as values.

ghost use Rattle.std.specs.Prelude.{◌≡◌, ◌<◌, ◌≤◌, ◌≤ℤ◌, ◌<ℤ◌, ◌+ℤ◌, ◌↔◌, ℕ, pos, negsuc, length, slice_index_or, IfOk, IsTrue};
ghost use Rattle.std.specs.Int.{int_min};

use crate::flows::{compare_lanes, lanes_at_or_below, lower_all, met_lanes_at_or_below, raise_all};
use antichain_list::Entry;
use game_form::Game;
use lane_ops::{lift_into, meet_into, over};
use std::alloc::{AllocError, Global};
use std::cmp::Ordering;
use std::marker::Model;

/// One number per lane, each at least -1.
#[derive(Debug, Drop)]
pub struct Counters {
    lanes: Vec<i16>,
}

impl Model for Counters {
    ghost use Rattle.std.specs.Prelude.{List, ℤ};
    ghost use Rattle.counter_vec.specs.Counters.{AreCounters};

    ghost Value = { List ℤ };

    ghost view = { λ v. v.lanes.items };

    ghost invariant = { λ v. AreCounters v.lanes.items };
}

impl Counters {
    ghost use Rattle.counter_vec.specs.Counters.{AreCounters, at_or_below, lexicographic, lifted, met};
    ghost use Rattle.game_form.specs.Vector.{IsVector, lane, top, initial, successor, predecessor};
    ghost use Rattle.game_form.specs.Game.{lanes};

    /// The vector of these numbers.
    pub fn from_lanes(lanes: Vec<i16>) -> Counters
        requires { AreCounters lanes.items }
        ensures { result ≡ lanes.items }
    {
        Counters { lanes }
    }

    /// The numbers in order.
    pub fn lanes(&self) -> &[i16]
        ensures value { result.now ≡ self.now }
        ensures low { AreCounters self.now }
    {
        &self.lanes
    }

    /// Every lane at the bound.
    pub fn top(alloc: Global, g: &Game) -> Result<Counters, AllocError>
        ensures { IfOk result (λ v. v ≡ top g.now) }
    {
        let lanes = vec![in alloc; g.k(); g.lanes()]?;
        Ok(Counters { lanes })
    }

    /// 0 in the first lane, and -1 in every other.
    pub fn initial(alloc: Global, g: &Game) -> Result<Counters, AllocError>
        ensures { IfOk result (λ v. v ≡ initial g.now) }
    {
        g.known();
        let mut lanes = vec![in alloc; -1; g.lanes()]?;
        if let Some(first) = g.init() {
            lanes[first as usize] = 0;
        }
        Ok(Counters { lanes })
    }

    /// An equal vector.
    pub fn copy(&self, alloc: Global) -> Result<Counters, AllocError>
        ensures { IfOk result (λ v. v ≡ self.now) }
    {
        let lanes = Vec::from_slice(alloc, &self.lanes)?;
        Ok(Counters { lanes })
    }

    /// The successor under an action of the game. A lane over the bound has the number `k + 1`.
    pub fn succ(&self, alloc: Global, g: &Game, action: u64) -> Result<Counters, AllocError>
        requires vector { IsVector g.now self.now }
        requires action { action < length g.now.actions }
        ensures { IfOk result (λ v. v ≡ successor g.now action self.now) }
    {
        let mut lanes = vec![in alloc; -1; g.lanes()]?;
        raise_all(&mut lanes, &self.lanes, g, action);
        Ok(Counters { lanes })
    }

    /// The greatest vector whose successor under an action of the game is at or below this one.
    pub fn pre(&self, alloc: Global, g: &Game, action: u64) -> Result<Counters, AllocError>
        requires vector { IsVector g.now self.now }
        requires action { action < length g.now.actions }
        ensures { IfOk result (λ v. v ≡ predecessor g.now action self.now) }
    {
        g.known();
        let mut lanes = vec![in alloc; -1; g.lanes()]?;
        lower_all(&mut lanes, &self.lanes, g, action);
        Ok(Counters { lanes })
    }

    /// The smaller number of each lane.
    pub fn meet(&self, alloc: Global, other: &Counters) -> Result<Counters, AllocError>
        requires { length self.now ≡ length other.now }
        ensures { IfOk result (λ v. v ≡ met self.now other.now) }
    {
        let mut lanes = vec![in alloc; -1; self.lanes.len()]?;
        meet_into(&self.lanes, &other.lanes, &mut lanes);
        Ok(Counters { lanes })
    }

    /// Whether the smaller number of each lane is at most that of `high`, without memory for the meet.
    pub fn meet_at_or_below(&self, other: &Counters, high: &Counters) -> bool
        requires { length self.now ≡ length other.now }
        ensures { result ≡ at_or_below (met self.now other.now) high.now }
    {
        met_lanes_at_or_below(&self.lanes, &other.lanes, &high.lanes)
    }

    /// Each number more by `by`, which is at most 10,000 as each number is.
    pub fn lift(&self, alloc: Global, by: i16) -> Result<Counters, AllocError>
        requires by { (pos 0 ≤ℤ by) × (by ≤ℤ pos 10000) }
        requires high { (q : ℕ) → q < length self.now → lane self.now q ≤ℤ pos 10000 }
        ensures { IfOk result (λ v. v ≡ lifted by self.now) }
    {
        let mut lanes = vec![in alloc; -1; self.lanes.len()]?;
        lift_into(&self.lanes, by, &mut lanes);
        Ok(Counters { lanes })
    }

    /// The number of a lane.
    pub fn at(&self, lane: usize) -> i16
        requires { lane < length self.now }
        ensures value { result ≡ slice_index_or self.now lane (pos 0) }
        ensures low { negsuc 0 ≤ℤ result }
    {
        self.lanes[lane]
    }

    /// Whether some lane is above `k`.
    pub fn over(&self, k: i16) -> bool
        ensures { IsTrue result ↔ ((p : ℕ) × (p < length self.now) × (k <ℤ lane self.now p)) }
    {
        over(&self.lanes, k)
    }

    /// The lexicographic order from lane 0. A vector comes before each longer one that it begins.
    pub fn compare_lex(&self, other: &Counters) -> Ordering
        ensures { result ≡ lexicographic self.now other.now }
    {
        compare_lanes(&self.lanes, &other.lanes)
    }
}

impl Entry for Counters {
    ghost use Rattle.counter_vec.specs.Counters.{at_or_below, lexicographic};
    ghost use Rattle.counter_vec.specs.Orders.{counters_order};

    ghost below = { at_or_below };

    ghost order = { lexicographic };

    ghost laws = { counters_order };

    fn at_or_below(&self, other: &Counters) -> bool {
        lanes_at_or_below(&self.lanes, &other.lanes)
    }

    fn compare(&self, other: &Counters) -> Ordering {
        self.compare_lex(other)
    }

    fn copy(&self, alloc: Global) -> Result<Counters, AllocError> {
        Counters::copy(self, alloc)
    }
}
