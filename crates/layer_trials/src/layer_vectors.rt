//! Vectors and lists of vectors of a game, as the layers take them.

ghost use Rattle.std.specs.Prelude.{IfOk, IsTrue};
ghost use Rattle.counter_vec.specs.Counters.{AreCounters};
ghost use Rattle.cpre_step.specs.Refinement.{AreVectors};
ghost use Rattle.game_form.specs.Vector.{IsVector};

use antichain_list::{Downset, ListDownset};
use counter_vec::Counters;
use game_form::Game;
use std::alloc::{AllocError, Global};
use std::process::Abort;
use std::test::Fail;

/// Whether all numbers are at least -1.
fn are_counters(lanes: &[i16]) -> bool
    ensures { IsTrue result → AreCounters lanes.now }
{
    for number in lanes {
        if *number < -1 {
            return false;
        }
    }
    true
}

/// The vector of these numbers, each at least -1.
pub fn counters_of(rt: &impl Abort, alloc: Global, lanes: &[i16]) -> Result<Counters, Fail> {
    assert!(rt; are_counters(lanes));
    Ok(Counters::from_lanes(Vec::from_slice(alloc, lanes)?))
}

/// Whether there are as many numbers as lanes, all from -1 to the bound.
fn is_vector(g: &Game, lanes: &[i16]) -> bool
    ensures { IsTrue result → IsVector g.now lanes.now }
{
    let k = g.k();
    for number in lanes {
        if *number < -1 || *number > k {
            return false;
        }
    }
    lanes.len() == g.lanes()
}

/// The vector of these numbers, which are as many as the lanes, all from -1 to the bound.
pub fn vector_of(rt: &impl Abort, alloc: Global, g: &Game, lanes: &[i16]) -> Result<Counters, Fail>
    ensures { IfOk result (λ v. IsVector g.now v) }
{
    assert!(rt; is_vector(g, lanes));
    Ok(Counters::from_lanes(Vec::from_slice(alloc, lanes)?))
}

/// Puts a vector of the game into a list of such.
fn put(g: &Game, list: &mut ListDownset<Counters>, v: Counters) -> Result<(), AllocError>
    requires vector { IsVector g.now v }
    requires vectors { AreVectors g.now list.old }
    ensures { AreVectors g.now list.new }
{
    let _ = g.k();
    match list.put(v) {
        Ok(()) => Ok(()),
        Err(_) => Err(AllocError),
    }
}

/// The list of these vectors, each with as many numbers as lanes, all from -1 to the bound.
pub fn list_of(
    rt: &impl Abort,
    alloc: Global,
    g: &Game,
    vectors: &[Vec<i16>],
) -> Result<ListDownset<Counters>, Fail>
    ensures { IfOk result (λ d. AreVectors g.now d) }
{
    let mut list = ListDownset::empty(alloc);
    for lanes in vectors {
        let v = vector_of(rt, alloc, g, lanes)?;
        put(g, &mut list, v)?;
    }
    Ok(list)
}
