//! Covers as sets of bits.

ghost use Rattle.std.specs.Prelude.{◌≡◌, ◌≤◌};
ghost use Rattle.cover_sets.specs.Bits.{set_of, sets_of, signature_of, size_of};
ghost use Rattle.cover_sets.specs.Covers.{both, cover_cmp, part_of};

use crate::number_sets::NumberSet;
use std::cmp::Ordering;

/// A cover: the literals that a letter must meet, what must hold next, and the untils that are put off.
#[derive(Debug, Clone, Copy, PartialEq, Eq)]
pub struct BitCover {
    pub literals: NumberSet,
    pub next: NumberSet,
    pub postponed: NumberSet,
}

impl BitCover {
    /// The cover that demands nothing.
    pub const EMPTY: BitCover = BitCover {
        literals: NumberSet::EMPTY,
        next: NumberSet::EMPTY,
        postponed: NumberSet::EMPTY,
    };

    /// What both covers demand.
    pub fn join(&self, other: &BitCover) -> BitCover
        ensures { sets_of result ≡ both (sets_of self.now) (sets_of other.now) }
    {
        BitCover {
            literals: self.literals.join(&other.literals),
            next: self.next.join(&other.next),
            postponed: self.postponed.join(&other.postponed),
        }
    }

    /// Whether the other cover contains this one in all three sets.
    pub fn is_part_of(&self, other: &BitCover) -> bool
        ensures { result ≡ part_of (sets_of self.now) (sets_of other.now) }
    {
        self.literals.is_part_of(&other.literals)
            && self.next.is_part_of(&other.next)
            && self.postponed.is_part_of(&other.postponed)
    }

    /// How many numbers the three sets of both covers together have.
    pub fn size_with(&self, other: &BitCover) -> u32
        ensures { result ≡ size_of (both (sets_of self.now) (sets_of other.now)) }
    {
        self.literals.size_with(&other.literals)
            + self.next.size_with(&other.next)
            + self.postponed.size_with(&other.postponed)
    }

    /// Bits that a cover has among its own wherever it contains another one that has them.
    pub fn signature(&self) -> u64
        ensures { result ≡ signature_of self.now }
    {
        self.literals.folded()
            | self.next.folded().rotate_left(21)
            | self.postponed.folded().rotate_left(42)
    }

    /// The order by literals, then next, then postponed.
    pub fn compare(&self, other: &BitCover) -> Ordering
        ensures { result ≡ cover_cmp (sets_of self.now) (sets_of other.now) }
    {
        self.literals
            .compare(&other.literals)
            .then(self.next.compare(&other.next))
            .then(self.postponed.compare(&other.postponed))
    }
}
