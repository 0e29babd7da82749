//! The edges of an automaton, each with the state that it leaves.

ghost use Rattle.std.specs.Prelude.{◌≡◌, ◌<◌, ◌≤◌, ◌+◌, ◌++◌, ℕ, true, false, map, length, vec_len, slice_index_or, IfOk, OnOk};
ghost use Rattle.word_core.specs.Automaton.{edges_at};
ghost use Rattle.action_groups.specs.Rows.{HasEdges, way_from};
ghost use Rattle.std.specs.Int.{bit_at};
ghost use Rattle.std.specs.List.{All, filter};
ghost use Rattle.action_groups.specs.Numbers.{HasSameNumbers, step_of};
ghost use Rattle.action_groups.specs.Tests.{allows};
ghost use Rattle.action_groups.specs.Thinned.{decided_way};
ghost use Rattle.action_groups.specs.Way.{IsWay, IsStep, IsNotAfter, AreSteps};

use std::alloc::{AllocError, Global};
use word_core::{Automaton, Cube, Edge};

/// An edge, and the state that it leaves.
#[derive(Clone, Copy, PartialEq, Eq, Hash)]
pub struct Way {
    pub from: u32,
    pub edge: Edge,
}

/// Adds the edges of a state.
fn add_ways(alloc: Global, a: &Automaton, q: u32, ways: &mut Vec<Way>) -> Result<(), AllocError>
    requires state { q < length a.now.states }
    requires ways { All (IsWay (length a.now.states)) ways.old.items }
    ensures ways { All (IsWay (length a.now.states)) ways.new.items }
    ensures value { OnOk result (ways.new.items ≡ ways.old.items ++ map (way_from q) (edges_at a.now q)) }
{
    for edge in a.edges(q) {
        ways.push(Way {
            from: q,
            edge: *edge,
        })?;
    }
    Ok(())
}

/// The edges of all states, in order.
pub fn ways_of(alloc: Global, a: &Automaton) -> Result<Vec<Way>, AllocError>
    ensures ways { IfOk result (λ v. All (IsWay (length a.now.states)) v.items) }
    ensures exact { IfOk result (λ v. HasEdges a.now v.items) }
{
    let mut ways = Vec::new(alloc);
    for q in 0..a.states().len() {
        add_ways(alloc, a, q as u32, &mut ways)?;
    }
    Ok(ways)
}

/// The bit of a signal.
pub fn bit_of(bits: u64, signal: u32) -> u64
    requires { signal < 64 }
    ensures { result ≡ bit_at bits signal }
{
    bits >> signal & 1
}

/// Whether the edge holds letters with this value of the signal.
fn is_allowed(cube: Cube, signal: u32, value: u64) -> bool
    requires { signal < 64 }
    ensures { result ≡ allows cube signal value }
{
    bit_of(cube.care, signal) == 0 || bit_of(cube.want, signal) == value
}

/// Whether some edge cares for the signal.
pub fn is_tested(ways: &[Way], signal: u32) -> bool
    requires { signal < 64 }
    ensures { result ≡ false → All (λ w. bit_at w.edge.cube.care signal ≡ 0) ways.now }
{
    for way in ways {
        if bit_of(way.edge.cube.care, signal) != 0 {
            return true;
        }
    }
    false
}

/// The edge, as it is where the signal is decided: it doesn't care for it.
pub fn decided(way: Way, signal: u32) -> Way
    requires { signal < 64 }
    ensures { result ≡ decided_way signal way }
{
    let others = !(1 << signal);
    Way {
        from: way.from,
        edge: Edge {
            cube: Cube {
                care: way.edge.cube.care & others,
                want: way.edge.cube.want & others,
            },
            next: way.edge.next,
            marked: way.edge.marked,
        },
    }
}

/// The edges that hold letters with this value of the signal.
pub fn restricted(
    alloc: Global,
    ways: &[Way],
    signal: u32,
    value: u64,
    count: usize,
) -> Result<Vec<Way>, AllocError>
    requires signal { signal < 64 }
    requires ways { All (IsWay count) ways.now }
    ensures ways { IfOk result (λ v. All (IsWay count) v.items) }
    ensures value { IfOk result (λ v. v.items ≡ filter (λ w. allows w.edge.cube signal value) ways.now) }
{
    let mut kept = Vec::with_capacity(alloc, ways.len())?;
    for way in ways {
        if is_allowed(way.edge.cube, signal, value) {
            kept.push(*way)?;
        }
    }
    Ok(kept)
}

/// What these edges do together: from which state to which, and whether by a marked edge; in order, each once.
pub fn effect(
    alloc: Global,
    ways: &[Way],
    count: usize,
) -> Result<Vec<(u32, u32, bool)>, AllocError>
    requires { All (IsWay count) ways.now }
    ensures steps { IfOk result (λ v. AreSteps count v.items) }
    ensures numbers { IfOk result (λ v. HasSameNumbers v.items (map step_of ways.now)) }
{
    let mut steps = Vec::with_capacity(alloc, ways.len())?;
    for way in ways {
        steps.push((way.from, way.edge.next, way.edge.marked))?;
    }
    steps.sort()?;
    marked_once(alloc, &steps, count)
}

/// Whether the step at a place is the last one between its states.
fn is_last(steps: &[(u32, u32, bool)], i: usize) -> bool
    requires { i < length steps.now }
    ensures last { result ≡ true → i + 1 < length steps.now → (slice_index_or steps.now i (0, 0, false)).0 ≡ (slice_index_or steps.now (i + 1) (0, 0, false)).0 → (slice_index_or steps.now i (0, 0, false)).1 ≡ (slice_index_or steps.now (i + 1) (0, 0, false)).1 → ⊥ }
    ensures within { result ≡ false → i + 1 < length steps.now }
    ensures from { result ≡ false → (slice_index_or steps.now i (0, 0, false)).0 ≡ (slice_index_or steps.now (i + 1) (0, 0, false)).0 }
    ensures to { result ≡ false → (slice_index_or steps.now i (0, 0, false)).1 ≡ (slice_index_or steps.now (i + 1) (0, 0, false)).1 }
{
    if i + 1 >= steps.len() {
        return true;
    }
    let (from, to, _) = steps[i];
    let (next_from, next_to, _) = steps[i + 1];
    from != next_from || to != next_to
}

/// Of steps between the same states the last one, in ascending order of steps.
fn marked_once(
    alloc: Global,
    steps: &[(u32, u32, bool)],
    count: usize,
) -> Result<Vec<(u32, u32, bool)>, AllocError>
    requires steps { All (IsStep count) steps.now }
    requires sorted { (k : ℕ) → k + 1 < length steps.now → IsNotAfter (slice_index_or steps.now k (0, 0, false)) (slice_index_or steps.now (k + 1) (0, 0, false)) }
    ensures steps { IfOk result (λ v. AreSteps count v.items) }
    ensures numbers { IfOk result (λ v. HasSameNumbers v.items steps.now) }
{
    let mut once = Vec::with_capacity(alloc, steps.len())?;
    for i in 0..steps.len() {
        if is_last(steps, i) {
            once.push(steps[i])?;
        }
    }
    Ok(once)
}
