//! The automaton of the live states that the first one reaches.

ghost use Rattle.std.specs.Prelude.{◌≡◌, ◌<◌, ◌++◌, [], length, map, All, IfOk, OnOk, IfSome, None};
ghost use Rattle.std.specs.List.{cons_option};
ghost use Rattle.word_core.specs.Automaton.{IsEdge, edges_at};
ghost use Rattle.nba_trim.specs.Trimmed.{number_if, edge_to, kept_edges, HasNoLiveFirst, IsTrimmed, AcceptSame};

use crate::lives::live_states;
use crate::numbers::Numbers;
use crate::reaches::reached_states;
use std::alloc::{AllocError, Global};
use word_core::{Automaton, Edge, State};

/// The automaton of the live states that the first state reaches, in their old order, with the edges between them.
///
/// A state is live where it lies in a finite list of states, each of which has a path that has a marked edge and ends
/// in the list. Where the first state isn't live, or there is none, there are no states. The same lassos are accepted.
pub fn trim(alloc: Global, a: &Automaton) -> Result<Automaton, AllocError>
    ensures signals { IfOk result (λ t. t.signals ≡ a.now.signals) }
    ensures exact { IfOk result (λ t. IsTrimmed a.now t) }
    ensures none { HasNoLiveFirst a.now → IfOk result (λ t. (t.states ≡ []) × (t.init ≡ None)) }
    ensures accepts { IfOk result (λ t. AcceptSame a.now t) }
{
    let live = live_states(alloc, a)?;
    let reached = reached_states(alloc, a, &live)?;
    let numbers = Numbers::new(alloc, &reached)?;
    let states = kept_states(alloc, a, &numbers)?;
    match Automaton::make(a.signals(), states, new_first(a, &numbers)) {
        Some(trimmed) => Ok(trimmed),
        None => unreachable!(),
    }
}

/// The new number of the first state, if it is kept.
fn new_first(a: &Automaton, numbers: &Numbers) -> Option<u32>
    requires { length numbers.now.numbers ≡ length a.now.states }
    ensures value { result ≡ number_if numbers.now.kept a.now.init }
    ensures within { IfSome result (λ k. k < length numbers.now.kept) }
{
    match a.init() {
        Some(first) => numbers.of(first),
        None => None,
    }
}

/// The kept states with their edges.
fn kept_states(alloc: Global, a: &Automaton, numbers: &Numbers) -> Result<Vec<State>, AllocError>
    requires { length numbers.now.numbers ≡ length a.now.states }
    ensures value { IfOk result (λ states. states.items ≡ map (λ q. kept_edges numbers.now.kept (edges_at a.now q)) numbers.now.kept) }
    ensures count { IfOk result (λ states. length states.items ≡ length numbers.now.kept) }
    ensures edges { IfOk result (λ states. All (All (IsEdge a.now.signals (length numbers.now.kept))) states.items) }
{
    let mut states = Vec::with_capacity(alloc, numbers.kept().len())?;
    for q in numbers.kept() {
        let edges = edges_of(alloc, a, *q, numbers)?;
        states.push(State { edges })?;
    }
    Ok(states)
}

/// The edges of a state to kept states, with the new numbers of their ends.
fn edges_of(
    alloc: Global,
    a: &Automaton,
    q: u32,
    numbers: &Numbers,
) -> Result<Vec<Edge>, AllocError>
    requires state { q < length a.now.states }
    requires numbers { length numbers.now.numbers ≡ length a.now.states }
    ensures value { IfOk result (λ edges. edges.items ≡ kept_edges numbers.now.kept (edges_at a.now q)) }
    ensures edges { IfOk result (λ edges. All (IsEdge a.now.signals (length numbers.now.kept)) edges.items) }
{
    let mut edges = Vec::new(alloc);
    for edge in a.edges(q) {
        push_some(&mut edges, moved(edge, numbers.of(edge.next)))?;
    }
    Ok(edges)
}

/// Adds an edge to a list, where there is one.
fn push_some(list: &mut Vec<Edge>, edge: Option<Edge>) -> Result<(), AllocError>
    ensures { OnOk result (list.new.items ≡ list.old.items ++ cons_option edge []) }
{
    match edge {
        Some(edge) => {
            list.push(edge)?;
        }
        None => {}
    }
    Ok(())
}

/// The edge with another end, where there is one.
fn moved(edge: &Edge, next: Option<u32>) -> Option<Edge>
    ensures { result ≡ edge_to edge.now next }
{
    match next {
        Some(next) => Some(Edge {
            cube: edge.cube,
            next,
            marked: edge.marked,
        }),
        None => None,
    }
}
