//! Gaps in lists of lines, found by splitting on signals.

ghost use Rattle.std.specs.Prelude.{ℕ, ◌≡◌, ◌<◌, ◌≤◌, ◌+◌, ◌^◌, true, false, length, drop, bit_and, bit_or, Some, Option, IsTrue, IsSomeAnd, slice_index_or};
ghost use Rattle.word_core.specs.Cube.{holds};
ghost use Rattle.word_core.specs.Gap.{IsLeastGap, IsFilled, IsSingle, lesser_of};
ghost use Rattle.word_core.specs.Machine.{choice};

use crate::cubes::Cube;
use crate::machines::Line;

/// The least valuation that `inner` holds and none of the lines does. None exactly where every
/// valuation that `inner` holds is held by a line. The want of `inner` is a part of its care. It
/// takes no memory.
pub fn least_gap(lines: &[Line], inner: Cube) -> Option<u64>
    requires { bit_and inner.want inner.care ≡ inner.want }
    ensures { IsLeastGap lines.now inner result }
{
    let lines = meeting(lines, inner);
    let Some(line) = lines.first() else {
        return Some(inner.want);
    };
    let free = free_signals(line.when, inner);
    if free == 0 {
        return None;
    }
    let signal = lowest_bit(free);
    let low = Cube {
        care: inner.care | signal,
        want: inner.want,
    };
    let high = Cube {
        care: inner.care | signal,
        want: inner.want | signal,
    };
    let found = least_gap(lines, low);
    if is_at_most(found, high.want) {
        return found;
    }
    lesser(found, least_gap(lines, high))
}

/// The lines from the first one on that isn't apart from the cube.
fn meeting(lines: &[Line], inner: Cube) -> &[Line]
    ensures same { (x : ℕ) → holds inner x ≡ true → choice result.now x ≡ choice lines.now x }
    ensures fills { (d : Line) → 0 < length result.now → IsFilled (slice_index_or result.now 0 d).when inner }
{
    let mut from = 0;
    while from < lines.len() && is_apart(lines[from].when, inner) {
        from += 1;
    }
    &lines[from..]
}

/// Whether two cubes are seen to hold no valuation in common.
fn is_apart(cube: Cube, inner: Cube) -> bool
    ensures apart { result ≡ true → (x : ℕ) → holds inner x ≡ true → holds cube x ≡ false }
    ensures fills { result ≡ false → IsFilled cube inner }
{
    if cube.care & inner.care == cube.care {
        inner.want & cube.care != cube.want
    } else {
        inner.want & cube.care != cube.want & inner.care
    }
}

/// The signals that the first cube cares for and the second one doesn't.
fn free_signals(cube: Cube, inner: Cube) -> u64
    ensures none { result ≡ 0 → bit_and cube.care inner.care ≡ cube.care }
    ensures free { bit_and result inner.care ≡ 0 }
{
    cube.care & !inner.care
}

/// The lowest bit of a number that isn't 0.
fn lowest_bit(bits: u64) -> u64
    requires { 0 < bits }
    ensures some { 0 < result }
    ensures part { bit_and result bits ≡ result }
    ensures single { IsSingle result }
{
    1 << bits.trailing_zeros()
}

/// Whether there is a number, and it is at most the bound.
fn is_at_most(found: Option<u64>, bound: u64) -> bool
    ensures { IsTrue result → IsSomeAnd found (λ g. g ≤ bound) }
{
    match found {
        Some(number) => number <= bound,
        None => false,
    }
}

/// The lesser of two numbers, where they are there.
fn lesser(a: Option<u64>, b: Option<u64>) -> Option<u64>
    ensures { result ≡ lesser_of a b }
{
    match (a, b) {
        (Some(x), Some(y)) => Some(x.min(y)),
        (Some(x), None) => Some(x),
        (None, y) => y,
    }
}
