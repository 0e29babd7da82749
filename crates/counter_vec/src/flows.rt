//! How numbers flow along the steps of an action, on slices of lanes.

ghost use Rattle.std.specs.Prelude.{◌≡◌, ◌<◌, ◌≤◌, ◌≤ℤ◌, ◌<ℤ◌, ◌+ℤ◌, ◌↔◌, ℕ, pos, negsuc, length, IsTrue};
ghost use Rattle.std.specs.Int.{int_max};
ghost use Rattle.game_form.specs.Vector.{IsVector, lane, bound, size_of, number, brought, arrived, allowed, allowed_for};
ghost use Rattle.game_form.specs.Game.{lanes, action_at, row_at, IsRow};
ghost use Rattle.counter_vec.specs.Counters.{AreCounters, at_or_below, lexicographic, met};

use game_form::{Game, Step};
use lane_ops::{first_differs, le, meet_le};
use std::cmp::Ordering;

/// Raises each lane of `out` to what the lanes of `f` bring it under an action.
pub fn raise_all(out: &mut [i16], f: &[i16], g: &Game, action: u64)
    requires vector { IsVector g.now f.now }
    requires action { action < length g.now.actions }
    requires same { length out.old ≡ lanes g.now }
    requires low { AreCounters out.old }
    ensures low { AreCounters out.new }
    ensures lanes { (p : ℕ) → p < length out.new → lane out.new p ≡ int_max (lane out.old p) (arrived (bound g.now) (action_at g.now action) f.now p) }
{
    g.known();
    let k = g.k();
    for q in 0..f.len() {
        let row = g.row(action, q);
        raise_from(out, &row.steps, f[q], k);
    }
}

/// Raises the lanes to which a lane's steps lead, where its value isn't -1.
fn raise_from(out: &mut [i16], steps: &[Step], value: i16, k: i16)
    requires row { IsRow (length out.old) 0 steps.now }
    requires bound { (pos 0 ≤ℤ k) × (k ≤ℤ pos 10000) }
    requires value { value ≤ℤ k }
    requires low { AreCounters out.old }
    ensures low { AreCounters out.new }
    ensures lanes { (p : ℕ) → p < length out.new → lane out.new p ≡ int_max (lane out.old p) (brought (size_of k) value (number steps.now p)) }
{
    if value < 0 {
        return;
    }
    raise_along(out, steps, value, k);
}

/// Raises the lanes to which the steps lead to what a lane with `value` brings them.
fn raise_along(out: &mut [i16], steps: &[Step], value: i16, k: i16)
    requires row { IsRow (length out.old) 0 steps.now }
    requires bound { (pos 0 ≤ℤ k) × (k ≤ℤ pos 10000) }
    requires value { (pos 0 ≤ℤ value) × (value ≤ℤ k) }
    requires low { AreCounters out.old }
    ensures low { AreCounters out.new }
    ensures lanes { (p : ℕ) → p < length out.new → lane out.new p ≡ int_max (lane out.old p) (brought (size_of k) value (number steps.now p)) }
{
    for step in steps {
        let to = step.to as usize;
        out[to] = out[to].max(brought_number(value, step.number, k));
    }
}

/// What a step with this number brings from a lane with `value`, at most `k + 1`.
fn brought_number(value: i16, number: i16, k: i16) -> i16
    requires bound { (pos 0 ≤ℤ k) × (k ≤ℤ pos 10000) }
    requires value { (pos 0 ≤ℤ value) × (value ≤ℤ k) }
    requires number { (pos 1 ≤ℤ number) × (number ≤ℤ pos 2) }
    ensures { result ≡ brought (size_of k) value (size_of number) }
{
    (k + 1).min(value + number - 1)
}

/// Writes into each lane of `out` the most that it may have, where its steps under an action lead to `v`.
pub fn lower_all(out: &mut [i16], v: &[i16], g: &Game, action: u64)
    requires vector { IsVector g.now v.now }
    requires action { action < length g.now.actions }
    requires same { length out.old ≡ lanes g.now }
    ensures { (q : ℕ) → q < length out.new → lane out.new q ≡ allowed (bound g.now) (row_at (action_at g.now action) q) 0 v.now }
{
    let k = g.k();
    for q in 0..out.len() {
        let row = g.row(action, q);
        out[q] = lowest_along(&row.steps, v, k);
    }
}

/// The most that a lane with these steps may have.
fn lowest_along(steps: &[Step], v: &[i16], k: i16) -> i16
    requires row { IsRow (length v.now) 0 steps.now }
    requires bound { (pos 0 ≤ℤ k) × (k ≤ℤ pos 10000) }
    requires low { AreCounters v.now }
    ensures { result ≡ allowed (size_of k) steps.now 0 v.now }
{
    let mut least = k;
    for step in steps {
        least = least.min(allowed_number(v[step.to as usize], step.number, k));
    }
    least
}

/// The most from which a step with this number brings no more than `x`, and -1 where there is none.
fn allowed_number(x: i16, number: i16, k: i16) -> i16
    requires value { negsuc 0 ≤ℤ x }
    requires number { (pos 1 ≤ℤ number) × (number ≤ℤ pos 2) }
    ensures { result ≡ allowed_for (size_of k) x (size_of number) }
{
    (x - (number - 1)).max(-1)
}

/// Whether the lengths are equal, and each number is at most the other's.
pub fn lanes_at_or_below(a: &[i16], b: &[i16]) -> bool
    ensures { result ≡ at_or_below a.now b.now }
{
    a.len() == b.len() && le(a, b)
}

/// Whether the lengths are equal, and the smaller number of each lane of `a` and `b` is at most that of `c`.
pub fn met_lanes_at_or_below(a: &[i16], b: &[i16], c: &[i16]) -> bool
    requires { length a.now ≡ length b.now }
    ensures { result ≡ at_or_below (met a.now b.now) c.now }
{
    a.len() == c.len() && meet_le(a, b, c)
}

/// The lexicographic order.
pub fn compare_lanes(a: &[i16], b: &[i16]) -> Ordering
    ensures { result ≡ lexicographic a.now b.now }
{
    let shared = a.len().min(b.len());
    let p = first_differs(&a[..shared], &b[..shared]);
    if p < shared {
        a[p].cmp(&b[p])
    } else {
        a.len().cmp(&b.len())
    }
}
