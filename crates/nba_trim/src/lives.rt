//! The live states, from which marked edges can be taken without end.

ghost use Rattle.std.specs.Prelude.{ℕ, ◌≡◌, ◌<◌, ◌&&◌, true, length, All, IfOk, OnOk, []};
ghost use Rattle.std.specs.List.{Contains};
ghost use Rattle.nba_trim.specs.Search.{AreStates, AreStateLists, AddsSource, AreSources, Finds, at, has_mark, is_start, AreRejoining, AreLive};

use crate::searches::{Search, Sources, count_true};
use std::alloc::{AllocError, Global};
use word_core::{Automaton, Edge};

/// Which states are live.
///
/// All states are taken to be live at first. In each round those stay that have a path with a marked edge which
/// ends in a state that was left, until all do.
pub fn live_states(alloc: Global, a: &Automaton) -> Result<Vec<bool>, AllocError>
    ensures { IfOk result (λ live. AreLive a.now live.items) }
{
    let before = sources_of(alloc, a)?;
    let mut live = vec![in alloc; true; a.states().len()]?;
    let mut size = count_true(&live);
    loop {
        let left = rejoining(alloc, a, &before, &live)?;
        let fewer = count_true(&left);
        if fewer >= size {
            return Ok(live);
        }
        live = left;
        size = fewer;
    }
}

/// The states with an edge to each state.
fn sources_of(alloc: Global, a: &Automaton) -> Result<Vec<Sources>, AllocError>
    ensures states { IfOk result (λ before. AreStateLists (length a.now.states) before.items) }
    ensures exact { IfOk result (λ before. AreSources a.now (length a.now.states) before.items) }
{
    let mut before = no_sources(alloc, a.states().len())?;
    for q in 0..a.states().len() as u32 {
        add_source(&mut before, q, a.edges(q))?;
    }
    Ok(before)
}

fn no_sources(alloc: Global, count: usize) -> Result<Vec<Sources>, AllocError>
    ensures states { IfOk result (λ before. AreStateLists count before.items) }
    ensures none { IfOk result (λ before. All (λ sources. sources ≡ []) before.items) }
{
    let mut before = Vec::with_capacity(alloc, count)?;
    for _q in 0..count {
        before.push(Sources::new(alloc))?;
    }
    Ok(before)
}

/// Adds a state to the sources of the ends of its edges.
fn add_source(before: &mut Vec<Sources>, q: u32, edges: &[Edge]) -> Result<(), AllocError>
    requires source { q < length before.old.items }
    requires ends { All (λ edge. edge.next < length before.old.items) edges.now }
    requires before { AreStateLists (length before.old.items) before.old.items }
    ensures states { OnOk result (AreStateLists (length before.old.items) before.new.items) }
    ensures exact { OnOk result (AddsSource q edges.now before.old.items before.new.items) }
{
    for edge in edges {
        let sources = &mut before[edge.next as usize];
        sources.push(q)?;
    }
    Ok(())
}

/// The live states that have a path with a marked edge among them.
fn rejoining(
    alloc: Global,
    a: &Automaton,
    before: &[Sources],
    live: &[bool],
) -> Result<Vec<bool>, AllocError>
    requires live { length live.now ≡ length a.now.states }
    requires before { AreStateLists (length a.now.states) before.now }
    requires sources { AreSources a.now (length a.now.states) before.now }
    ensures { IfOk result (λ left. AreRejoining a.now live.now left.items) }
{
    let mut search = Search::new(alloc, live.len())?;
    add_marked(a, live, &mut search)?;
    let mut done = 0;
    'back: while done < search.len() {
        let q = search.at(done);
        add_live(before[q as usize].as_slice(), live, &mut search)?;
        done += 1;
    }
    Ok(search.into_found())
}

/// Finds the live states with a marked edge to a live state.
fn add_marked(a: &Automaton, live: &[bool], search: &mut Search) -> Result<(), AllocError>
    requires live { length live.now ≡ length a.now.states }
    requires found { length search.old.found ≡ length a.now.states }
    ensures { OnOk result (Finds (λ p. (p < length a.now.states) × (is_start a.now live.now p ≡ true)) search.old search.new) }
{
    for q in 0..a.states().len() as u32 {
        search.add_if(q, starts(a, live, q))?;
    }
    Ok(())
}

/// Whether a state is live and has a marked edge to a live state.
fn starts(a: &Automaton, live: &[bool], q: u32) -> bool
    requires live { length live.now ≡ length a.now.states }
    requires state { q < length a.now.states }
    ensures { result ≡ is_start a.now live.now q }
{
    live[q as usize] && has_marked(a.edges(q), live)
}

/// Whether a marked edge leads to a live state.
fn has_marked(edges: &[Edge], live: &[bool]) -> bool
    requires { All (λ edge. edge.next < length live.now) edges.now }
    ensures { result ≡ has_mark live.now edges.now }
{
    for edge in edges {
        if edge.marked && live[edge.next as usize] {
            return true;
        }
    }
    false
}

/// Finds those of the states that are live.
fn add_live(states: &[u32], live: &[bool], search: &mut Search) -> Result<(), AllocError>
    requires states { AreStates (length live.now) states.now }
    requires found { length search.old.found ≡ length live.now }
    ensures { OnOk result (Finds (λ p. Contains states.now p × (at live.now p ≡ true)) search.old search.new) }
{
    for p in states {
        search.add_if(*p, live[*p as usize])?;
    }
    Ok(())
}
