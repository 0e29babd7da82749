//! Sets of numbers of formulas, as bits.

ghost use Rattle.std.specs.Prelude.{◌≡◌, ◌≢◌, ◌<◌, ◌≤◌, ◌+◌, ◌*◌, ◌^◌, ℕ, length, not, nat_eq, nat_le, bit_and, bit_or, slice_index, IfOk};
ghost use Rattle.std.specs.Int.RustNames.{count_ones};
ghost use Rattle.std.proofs.Props.{props};
ghost use Rattle.cover_sets.specs.Numbers.{AreWords, has, is_part, joined, numbers_of, or_all, set_cmp};

use std::alloc::{AllocError, Global};
use std::cmp::Ordering;

/// A set of numbers below 512: bit j of word i is the number 64 i + j.
#[derive(Debug, Clone, Copy, PartialEq, Eq, Hash)]
pub struct NumberSet {
    words: [u64; 8],
    ghost fit: { AreWords words } by { Prim.hlevel props },
}

impl NumberSet {
    /// The set of no number.
    pub const EMPTY: NumberSet = NumberSet { words: [0; 8] };

    /// The set with one more number.
    pub fn with(&self, n: u32) -> NumberSet
        requires { n < 512 }
        ensures { joined result.words ≡ bit_or (joined self.now.words) (2 ^ n) }
    {
        let mut words = self.words;
        words[(n / 64) as usize] |= 1 << (n % 64);
        NumberSet { words }
    }

    /// Whether the number is in the set.
    pub fn contains(&self, n: u32) -> bool
        requires { n < 512 }
        ensures { result ≡ has (joined self.now.words) n }
    {
        self.words[(n / 64) as usize] >> (n % 64) & 1 == 1
    }

    /// The numbers of both sets.
    pub fn join(&self, other: &NumberSet) -> NumberSet
        ensures { joined result.words ≡ bit_or (joined self.now.words) (joined other.now.words) }
    {
        let mut words = self.words;
        for i in 0..8 {
            words[i] |= other.words[i];
        }
        NumberSet { words }
    }

    /// Whether some number is in both sets.
    pub fn meets(&self, other: &NumberSet) -> bool
        ensures { result ≡ not (nat_eq (bit_and (joined self.now.words) (joined other.now.words)) 0) }
    {
        let mut shared = 0;
        for i in 0..8 {
            shared |= self.words[i] & other.words[i];
        }
        shared != 0
    }

    /// Whether each number of this set is in the other one.
    pub fn is_part_of(&self, other: &NumberSet) -> bool
        ensures { result ≡ is_part (joined self.now.words) (joined other.now.words) }
    {
        for i in 0..8 {
            if self.words[i] & other.words[i] != self.words[i] {
                return false;
            }
        }
        true
    }

    /// How many numbers are in one of the two sets.
    pub fn size_with(&self, other: &NumberSet) -> u32
        ensures value { result ≡ count_ones (bit_or (joined self.now.words) (joined other.now.words)) }
        ensures small { result ≤ 512 }
    {
        let mut size = 0;
        for i in 0..8 {
            size += ones(self.words[i] | other.words[i]);
        }
        size
    }

    /// All words in one, so that a part of the set gives a part of the bits.
    pub fn folded(&self) -> u64
        ensures { result ≡ or_all self.now.words }
    {
        let mut bits = 0;
        for i in 0..8 {
            bits |= self.words[i];
        }
        bits
    }

    /// The order of the ascending lists of numbers, in which a list is before each longer one that it begins.
    pub fn compare(&self, other: &NumberSet) -> Ordering
        ensures { result ≡ set_cmp (joined self.now.words) (joined other.now.words) }
    {
        for i in 0..8 {
            if self.words[i] != other.words[i] {
                return self.compare_from(other, i);
            }
        }
        Ordering::Equal
    }

    /// The order where word `i` is the first that differs.
    ///
    /// One of the sets has the first number that differs; it is before the other one where that has a later number.
    fn compare_from(&self, other: &NumberSet, i: usize) -> Ordering
        requires place { i < 8 }
        requires same { (k : ℕ) → k < i → slice_index self.now.words k ≡ slice_index other.now.words k }
        requires differ { slice_index self.now.words i ≢ slice_index other.now.words i }
        ensures { result ≡ set_cmp (joined self.now.words) (joined other.now.words) }
    {
        let first = (self.words[i] ^ other.words[i]).trailing_zeros();
        if self.words[i] >> first & 1 == 1 {
            if other.goes_on(i, first) {
                Ordering::Less
            } else {
                Ordering::Greater
            }
        } else {
            if self.goes_on(i, first) {
                Ordering::Greater
            } else {
                Ordering::Less
            }
        }
    }

    /// Whether the set has a number above the bit `first` of word `i`.
    fn goes_on(&self, i: usize, first: u32) -> bool
        requires place { i < 8 }
        requires bit { first < 64 }
        ensures { result ≡ nat_le (2 ^ (i * 64 + first + 1)) (joined self.now.words) }
    {
        if self.words[i] >> first >> 1 != 0 {
            return true;
        }
        for k in i + 1..8 {
            if self.words[k] != 0 {
                return true;
            }
        }
        false
    }

    /// The numbers, ascending.
    pub fn to_list(&self, alloc: Global) -> Result<Vec<u32>, AllocError>
        ensures { IfOk result (λ list. list.items ≡ numbers_of (joined self.now.words)) }
    {
        let mut numbers = Vec::new(alloc);
        for n in 0..512 {
            if self.contains(n) {
                numbers.push(n)?;
            }
        }
        Ok(numbers)
    }
}

/// How many bits of a word are 1.
fn ones(word: u64) -> u32
    ensures value { result ≡ count_ones word }
    ensures small { result ≤ 64 }
{
    word.count_ones()
}
