//! The edges of a state, up to the classes of their ends.

ghost use Rattle.std.specs.Prelude.{ℕ, ◌≡◌, ◌<◌, ◌⊎◌, length, All, IfOk, OnOk, true};
ghost use Rattle.std.specs.List.{Contains};
ghost use Rattle.word_core.specs.Automaton.{edges_at};
ghost use Rattle.word_core.specs.Cube.{holds};
ghost use Rattle.nba_quotient.specs.Ways.{AreWays, AreWaysOf, Absorbs, IsAbsorbed, IsWayOf, Way};

use std::alloc::{AllocError, Global};
use word_core::{Automaton, Cube, Edge};

/// An edge up to the class of its end: the class, the number of signals that the cube cares for, whether it isn't
/// marked, and the cube.
pub type Way = (u32, u32, bool, Cube);

/// The edges of a state up to the classes of their ends, ascending, without those that another one absorbs.
pub fn ways_of(alloc: Global, a: &Automaton, state: u32, of: &[u32]) -> Result<Vec<Way>, AllocError>
    requires state { state < length a.now.states }
    requires classes { length of.now ≡ length a.now.states }
    ensures { IfOk result (λ v. AreWays a.now of.now state v.items) }
{
    let mut ways = all_ways(alloc, a, state, of)?;
    ways.sort()?;
    widest(alloc, &ways)
}

/// A way for each edge of a state.
fn all_ways(alloc: Global, a: &Automaton, state: u32, of: &[u32]) -> Result<Vec<Way>, AllocError>
    requires state { state < length a.now.states }
    requires classes { length of.now ≡ length a.now.states }
    ensures { IfOk result (λ v. AreWaysOf of.now (edges_at a.now state) v.items) }
{
    let edges = a.edges(state);
    let mut ways = Vec::with_capacity(alloc, edges.len())?;
    for edge in edges {
        ways.push(way_of(*edge, of))?;
    }
    Ok(ways)
}

fn way_of(edge: Edge, of: &[u32]) -> Way
    requires { edge.next < length of.now }
    ensures { IsWayOf of.now edge result }
{
    let class = of[edge.next as usize];
    (class, edge.cube.care.count_ones(), !edge.marked, edge.cube)
}

/// The ways that no earlier one absorbs. Wider ones come first, and marked ones before others.
fn widest(alloc: Global, ways: &[Way]) -> Result<Vec<Way>, AllocError>
    ensures all { IfOk result (λ kept. All (IsAbsorbed kept.items) ways.now) }
    ensures only { IfOk result (λ kept. All (Contains ways.now) kept.items) }
{
    let mut kept = Vec::new(alloc);
    for way in ways {
        keep(&mut kept, *way)?;
    }
    Ok(kept)
}

/// Keeps a way that none of those kept absorbs.
fn keep(kept: &mut Vec<Way>, way: Way) -> Result<(), AllocError>
    ensures absorbed { OnOk result (IsAbsorbed kept.new.items way) }
    ensures more { OnOk result ((w : Way) → Contains kept.old.items w → Contains kept.new.items w) }
    ensures only { OnOk result ((w : Way) → Contains kept.new.items w → Contains kept.old.items w ⊎ (way ≡ w)) }
{
    if is_absorbed(kept, way) {
        return Ok(());
    }
    kept.push(way)?;
    Ok(())
}

/// Whether one of the ways absorbs this one.
fn is_absorbed(kept: &[Way], way: Way) -> bool
    ensures { result ≡ true → IsAbsorbed kept.now way }
{
    for wide in kept {
        if absorbs(*wide, way) {
            return true;
        }
    }
    false
}

/// Whether a way leads to the same class as another one, holds each letter that the other holds, and counts no less.
fn absorbs(wide: Way, narrow: Way) -> bool
    ensures { result ≡ true → Absorbs wide narrow }
{
    if wide.0 != narrow.0 {
        return false;
    }
    if wide.2 && !narrow.2 {
        return false;
    }
    is_part(narrow.3, wide.3)
}

/// Whether the second cube holds each letter that the first one holds.
fn is_part(narrow: Cube, wide: Cube) -> bool
    ensures { result ≡ true → (x : ℕ) → holds narrow x ≡ true → holds wide x ≡ true }
{
    narrow.care & wide.care == wide.care && narrow.want & wide.care == wide.want
}
