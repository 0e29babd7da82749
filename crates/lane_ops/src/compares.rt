//! Comparisons of vectors.

ghost use Rattle.std.specs.Prelude.{◌≡◌, ◌≢◌, ◌<◌, ◌≤◌, ◌+◌, ◌↔◌, ◌≤ℤ◌, ◌<ℤ◌, ℕ, length, IsTrue, min};
ghost use Rattle.std.specs.Int.{int_min};
ghost use Rattle.lane_ops.specs.Lanes.{lane, IsAtOrBelow};

/// How many lanes are compared at once. The last block of a vector begins so many lanes before its end.
const BLOCK: usize = 8;

/// Whether every lane of `a` is at most that of `b`.
pub fn le(a: &[i16], b: &[i16]) -> bool
    requires { length a.now ≡ length b.now }
    ensures { IsTrue result ↔ IsAtOrBelow a.now b.now }
{
    let blocks = a.len() / BLOCK;
    for block in 0..blocks {
        if !le_between(a, b, block * BLOCK, block * BLOCK + BLOCK) {
            return false;
        }
    }
    le_at_end(a, b)
}

/// Whether every lane of the last block of `a` is at most that of `b`; of a vector that is shorter than a block, every lane.
fn le_at_end(a: &[i16], b: &[i16]) -> bool
    requires { length a.now ≡ length b.now }
    ensures { IsTrue result ↔ ((p : ℕ) → length a.now ≤ p + 8 → p < length a.now → lane a.now p ≤ℤ lane b.now p) }
{
    if a.len() < BLOCK {
        return le_between(a, b, 0, a.len());
    }
    le_between(a, b, a.len() - BLOCK, a.len() - BLOCK + BLOCK)
}

fn le_between(a: &[i16], b: &[i16], from: usize, to: usize) -> bool
    requires same { length a.now ≡ length b.now }
    requires ordered { from ≤ to }
    requires within { to ≤ length a.now }
    ensures { IsTrue result ↔ ((p : ℕ) → from ≤ p → p < to → lane a.now p ≤ℤ lane b.now p) }
{
    let mut all = true;
    for p in from..to {
        all &= a[p] <= b[p];
    }
    all
}

/// Whether the smaller number of each lane of `a` and `b` is at most that of `c`.
pub fn meet_le(a: &[i16], b: &[i16], c: &[i16]) -> bool
    requires second { length a.now ≡ length b.now }
    requires third { length a.now ≡ length c.now }
    ensures { IsTrue result ↔ ((p : ℕ) → p < length a.now → int_min (lane a.now p) (lane b.now p) ≤ℤ lane c.now p) }
{
    let blocks = a.len() / BLOCK;
    for block in 0..blocks {
        if !meet_le_between(a, b, c, block * BLOCK, block * BLOCK + BLOCK) {
            return false;
        }
    }
    meet_le_at_end(a, b, c)
}

/// The same for the lanes of the last block; of vectors that are shorter than a block, for every lane.
fn meet_le_at_end(a: &[i16], b: &[i16], c: &[i16]) -> bool
    requires second { length a.now ≡ length b.now }
    requires third { length a.now ≡ length c.now }
    ensures { IsTrue result ↔ ((p : ℕ) → length a.now ≤ p + 8 → p < length a.now → int_min (lane a.now p) (lane b.now p) ≤ℤ lane c.now p) }
{
    if a.len() < BLOCK {
        return meet_le_between(a, b, c, 0, a.len());
    }
    meet_le_between(a, b, c, a.len() - BLOCK, a.len() - BLOCK + BLOCK)
}

fn meet_le_between(a: &[i16], b: &[i16], c: &[i16], from: usize, to: usize) -> bool
    requires second { length a.now ≡ length b.now }
    requires third { length a.now ≡ length c.now }
    requires ordered { from ≤ to }
    requires within { to ≤ length a.now }
    ensures { IsTrue result ↔ ((p : ℕ) → from ≤ p → p < to → int_min (lane a.now p) (lane b.now p) ≤ℤ lane c.now p) }
{
    let mut all = true;
    for p in from..to {
        all &= smaller_at_most(a[p], b[p], c[p]);
    }
    all
}

fn smaller_at_most(a: i16, b: i16, c: i16) -> bool
    ensures { IsTrue result ↔ int_min a b ≤ℤ c }
{
    a.min(b) <= c
}

/// Whether some lane is above `k`.
pub fn over(a: &[i16], k: i16) -> bool
    ensures { IsTrue result ↔ ((p : ℕ) × (p < length a.now) × (k <ℤ lane a.now p)) }
{
    a.iter().any(|x| *x > k)
}

/// The first lane in which they differ, or the length.
pub fn first_differs(a: &[i16], b: &[i16]) -> usize
    requires { length a.now ≡ length b.now }
    ensures within { result ≤ length a.now }
    ensures before { (p : ℕ) → p < result → lane a.now p ≡ lane b.now p }
    ensures differs { result < length a.now → lane a.now result ≢ lane b.now result }
{
    for p in 0..a.len() {
        if a[p] != b[p] {
            return p;
        }
    }
    a.len()
}
