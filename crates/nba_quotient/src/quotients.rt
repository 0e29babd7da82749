//! The automaton of the classes.

ghost use Rattle.std.specs.Prelude.{◌≡◌, ℕ, ◌<◌, ◌≤◌, List, length, All, IfOk, IfSome, map, option_map};
ghost use Rattle.word_core.specs.Automaton.{IsEdge, edges_at};
ghost use Rattle.word_core.specs.Machine.{MachineData};
ghost use Rattle.word_core.specs.Run.{Keeps};
ghost use Rattle.nba_quotient.specs.Classes.{AreClasses};
ghost use Rattle.nba_quotient.specs.Folding.{IsFolding};
ghost use Rattle.nba_quotient.specs.Simulation.{Outruns};
ghost use Rattle.nba_quotient.specs.Ways.{class_at, to_class};

use crate::classes::{Classes, classes_of};
use std::alloc::{AllocError, Global};
use word_core::{Automaton, Edge, State};

/// The automaton of the coarsest classes of states with the same edges up to classes. Classes are in the order of
/// their least states, and each has the edges of its least state, in order, each to the class of its end.
///
/// A vector of counters that a player holds as long as it can is equal on the lanes of one class. So with the classes
/// for lanes the game has the same machine, in the same order of entries.
pub fn quotient(alloc: Global, a: &Automaton) -> Result<Automaton, AllocError>
    ensures signals { IfOk result (λ q. q.signals ≡ a.now.signals) }
    ensures folding { IfOk result (λ q. (of : List ℕ) × IsFolding a.now of q) }
    ensures no_less { IfOk result (λ q. Outruns q a.now) }
    ensures no_more { IfOk result (λ q. Outruns a.now q) }
    ensures kept { IfOk result (λ q. (m : MachineData) (k : ℕ) → Keeps a.now m k → Keeps q m k) }
    ensures keeps { IfOk result (λ q. (m : MachineData) (k : ℕ) → Keeps q m k → Keeps a.now m k) }
{
    let classes = classes_of(alloc, a)?;
    let states = class_states(alloc, a, &classes)?;
    let first = class_of_first(a.init(), &classes);
    match Automaton::make(a.signals(), states, first) {
        Some(quotient) => Ok(quotient),
        None => unreachable!(),
    }
}

/// The class of the first state, if there is one.
fn class_of_first(first: Option<u32>, classes: &Classes) -> Option<u32>
    requires first { IfSome first (λ q. q < length classes.now.of.items) }
    requires classes { All (λ n. n < length classes.now.leasts.items) classes.now.of.items }
    ensures class { IfSome result (λ c. c < length classes.now.leasts.items) }
    ensures value { result ≡ option_map (class_at classes.now.of.items) first }
{
    match first {
        Some(first) => Some(classes.of[first as usize]),
        None => None,
    }
}

/// For each class the edges of its least state.
fn class_states(alloc: Global, a: &Automaton, classes: &Classes) -> Result<Vec<State>, AllocError>
    requires { AreClasses (length a.now.states) classes.now }
    ensures count { IfOk result (λ states. length states.items ≡ length classes.now.leasts.items) }
    ensures edges { IfOk result (λ states. All (All (IsEdge a.now.signals (length classes.now.leasts.items))) states.items) }
    ensures value { IfOk result (λ states. states.items ≡ map (λ s. map (to_class classes.now.of.items) (edges_at a.now s)) classes.now.leasts.items) }
{
    let mut states = Vec::with_capacity(alloc, classes.leasts.len())?;
    for state in &classes.leasts {
        let edges = class_edges(alloc, a, *state, classes)?;
        states.push(State { edges })?;
    }
    Ok(states)
}

/// The edges of a state, each to the class of its end.
fn class_edges(
    alloc: Global,
    a: &Automaton,
    state: u32,
    classes: &Classes,
) -> Result<Vec<Edge>, AllocError>
    requires state { state < length a.now.states }
    requires classes { AreClasses (length a.now.states) classes.now }
    ensures edges { IfOk result (λ edges. All (IsEdge a.now.signals (length classes.now.leasts.items)) edges.items) }
    ensures value { IfOk result (λ edges. edges.items ≡ map (to_class classes.now.of.items) (edges_at a.now state)) }
{
    let mut edges = Vec::new(alloc);
    for edge in a.edges(state) {
        let next = classes.of[edge.next as usize];
        let cube = edge.cube;
        edges.push(Edge {
            cube,
            next,
            marked: edge.marked,
        })?;
    }
    Ok(edges)
}
