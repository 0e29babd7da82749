//! The live states that the first one reaches.

ghost use Rattle.std.specs.Prelude.{◌≡◌, ◌<◌, ◌^◌, true, length, Some, All, IfOk, OnOk};
ghost use Rattle.std.specs.List.{Contains};
ghost use Rattle.nba_trim.specs.Search.{Finds, at, ends, AreReached};

use crate::searches::Search;
use std::alloc::{AllocError, Global};
use word_core::{Automaton, Edge};

/// Which live states the first state reaches over live states; none where it isn't live, or there is none.
pub fn reached_states(alloc: Global, a: &Automaton, live: &[bool]) -> Result<Vec<bool>, AllocError>
    requires { length live.now ≡ length a.now.states }
    ensures exact { IfOk result (λ reached. AreReached a.now live.now reached.items) }
    ensures counted { IfOk result (λ reached. length reached.items < 2 ^ 32) }
{
    let mut search = Search::new(alloc, a.states().len())?;
    add_first(a, live, &mut search)?;
    let mut done = 0;
    'on: while done < search.len() {
        let q = search.at(done);
        add_ends(a.edges(q), live, &mut search)?;
        done += 1;
    }
    Ok(search.into_found())
}

/// Finds the first state, where it is live.
fn add_first(a: &Automaton, live: &[bool], search: &mut Search) -> Result<(), AllocError>
    requires live { length live.now ≡ length a.now.states }
    requires found { length search.old.found ≡ length a.now.states }
    ensures { OnOk result (Finds (λ p. (a.now.init ≡ Some p) × (at live.now p ≡ true)) search.old search.new) }
{
    match a.init() {
        Some(first) => search.add_if(first, live[first as usize]),
        None => Ok(()),
    }
}

/// Finds those ends of the edges that are live.
fn add_ends(edges: &[Edge], live: &[bool], search: &mut Search) -> Result<(), AllocError>
    requires ends { All (λ edge. edge.next < length live.now) edges.now }
    requires found { length search.old.found ≡ length live.now }
    ensures { OnOk result (Finds (λ p. Contains (ends edges.now) p × (at live.now p ≡ true)) search.old search.new) }
{
    for edge in edges {
        search.add_if(edge.next, live[edge.next as usize])?;
    }
    Ok(())
}
