//! Automata with marked edges.

ghost use Rattle.std.specs.Prelude.{◌≡◌, ◌<◌, ◌≤◌, ◌^◌, ◌+◌, ◌↔◌, length, vec_len, IsTrue, MatchOption};
ghost use Rattle.std.specs.List.{All};
ghost use Rattle.word_core.specs.Automaton.{IsEdge};

use crate::cubes::Cube;
use std::marker::Model;

/// An edge for the letters that its cube holds.
#[derive(Debug, Clone, Copy, PartialEq, Eq, Hash)]
pub struct Edge {
    pub cube: Cube,
    pub next: u32,
    pub marked: bool,
}

/// The edges that leave a state, seen as their list.
#[derive(Debug, Drop)]
pub struct State {
    pub edges: Vec<Edge>,
}

impl Model for State {
    ghost use Rattle.std.specs.Prelude.{List};
    ghost use Rattle.word_core.specs.declared.automata.Edge.{Edge};

    ghost Value = { List Edge };

    ghost view = { λ s. s.edges.items };
}

impl State {
    /// The edges, in order.
    pub fn edges(&self) -> &[Edge]
        ensures { result.now ≡ self.now }
    {
        &self.edges
    }
}

/// An automaton whose runs are counted by their marked edges.
#[derive(Debug, Drop)]
pub struct Automaton {
    signals: u32,
    states: Vec<State>,
    init: Option<u32>,
}

impl Model for Automaton {
    ghost use Rattle.word_core.specs.Automaton.{AutomatonData, IsAutomaton};

    ghost Value = { AutomatonData };

    ghost view = { λ a. record { signals = a.signals; states = a.states.items; init = a.init } };

    ghost invariant = { λ a. IsAutomaton (record { signals = a.signals; states = a.states.items; init = a.init }) };
}

impl Automaton {
    ghost use Rattle.word_core.specs.Automaton.{AutomatonData, IsAutomaton, IsEdge, edges_at};

    /// The automaton of these parts. None exactly where an edge or init names no state, or a cube
    /// passes the signals.
    pub fn make(signals: u32, states: Vec<State>, init: Option<u32>) -> Option<Automaton>
        requires narrow { signals ≤ 64 }
        requires counted { vec_len states < 2 ^ 32 }
        ensures { MatchOption result
            (IsAutomaton (record { signals = signals; states = states.items; init = init }) → ⊥)
            (λ a. a ≡ record { signals = signals; states = states.items; init = init }) }
    {
        let count = states.len() as u32;
        if let Some(first) = init
            && first >= count
        {
            return None;
        }
        if !edges_fit(&states, signals, count) {
            return None;
        }
        Some(Automaton {
            signals,
            states,
            init,
        })
    }

    /// The number of signals, at most 64.
    pub fn signals(&self) -> u32
        ensures value { result ≡ self.now.signals }
        ensures narrow { result ≤ 64 }
    {
        self.signals
    }

    /// The states, each with its edges; fewer than 2^32.
    pub fn states(&self) -> &[State]
        ensures value { result.now ≡ self.now.states }
        ensures valid { IsAutomaton self.now }
    {
        &self.states
    }

    /// The first state, if there is one.
    pub fn init(&self) -> Option<u32>
        ensures value { result ≡ self.now.init }
        ensures valid { IsAutomaton self.now }
    {
        self.init
    }

    /// The edges of a state, which is one of the automaton's.
    pub fn edges(&self, state: u32) -> &[Edge]
        requires { state < length self.now.states }
        ensures value { result.now ≡ edges_at self.now state }
        ensures ranged { All (IsEdge self.now.signals (length self.now.states)) result.now }
    {
        self.states[state as usize].edges()
    }
}

/// Whether every edge has a cube over the signals and leads to one of the states.
fn edges_fit(states: &[State], signals: u32, count: u32) -> bool
    requires { signals ≤ 64 }
    ensures { IsTrue result ↔ All (All (IsEdge signals count)) states.now }
{
    for state in states {
        if !state_fits(state.edges(), signals, count) {
            return false;
        }
    }
    true
}

/// Whether the edges of one state have cubes over the signals and lead to states.
fn state_fits(edges: &[Edge], signals: u32, count: u32) -> bool
    requires { signals ≤ 64 }
    ensures { IsTrue result ↔ All (IsEdge signals count) edges.now }
{
    for edge in edges {
        if !(edge.cube.is_over(signals) && edge.next < count) {
            return false;
        }
    }
    true
}
