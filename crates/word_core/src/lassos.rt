//! Ultimately periodic words.

ghost use Rattle.std.specs.Prelude.{◌≡◌, ◌<◌, ◌+◌, ◌↔◌, IsNone, IfSome, Some, [], length};

use crate::cubes::Letter;
use std::marker::Model;

/// A stem of letters, and a cycle of at least one, which repeats for ever.
#[derive(Debug, Drop)]
pub struct Lasso {
    stem: Vec<Letter>,
    cycle: Vec<Letter>,
}

impl Model for Lasso {
    ghost use Rattle.std.specs.Prelude.{◌<◌, length};
    ghost use Rattle.word_core.specs.Lasso.{LassoData};

    ghost Value = { LassoData };

    ghost view = { λ w. record { stem = w.stem.items; cycle = w.cycle.items } };

    ghost invariant = { λ w. 0 < length w.cycle.items };
}

impl Lasso {
    ghost use Rattle.word_core.specs.Lasso.{letter_at, size};

    /// The lasso of these letters. None exactly where the cycle is empty.
    pub fn make(stem: Vec<Letter>, cycle: Vec<Letter>) -> Option<Lasso>
        ensures none { IsNone result ↔ (cycle.items ≡ []) }
        ensures value { IfSome result (λ w. w ≡ record { stem = stem.items; cycle = cycle.items }) }
    {
        if cycle.is_empty() {
            return None;
        }
        Some(Lasso { stem, cycle })
    }

    /// The letters of the stem.
    pub fn stem(&self) -> &[Letter]
        ensures { result.now ≡ self.now.stem }
    {
        &self.stem
    }

    /// The letters of the cycle, at least one.
    pub fn cycle(&self) -> &[Letter]
        ensures letters { result.now ≡ self.now.cycle }
        ensures some { 0 < length self.now.cycle }
    {
        &self.cycle
    }

    /// The number of positions: the letters of stem and cycle together, at least one.
    pub fn len(&self) -> usize
        ensures value { result ≡ size self.now }
        ensures some { 0 < result }
    {
        self.stem.len() + self.cycle.len()
    }

    /// The letter at a position, which is below `len`.
    pub fn at(&self, p: usize) -> Letter
        requires { p < size self.now }
        ensures { letter_at self.now p ≡ Some result }
    {
        if p < self.stem.len() {
            self.stem[p]
        } else {
            self.cycle[p - self.stem.len()]
        }
    }
}
