//! Finite machines of a player.

ghost use Rattle.std.specs.Prelude.{ℕ, ◌≡◌, ◌<◌, ◌≤◌, ◌^◌, ◌+◌, ◌↔◌, map, length, IsSomeAnd, IfOk, IfErr, IsTrue, slice_index_or, [], MatchOption};
ghost use Rattle.std.specs.List.{All};
ghost use Rattle.word_core.specs.Cube.{IsCube};
ghost use Rattle.word_core.specs.Machine.{IsLine, IsDecided, HasOneOwn, IsLeastWithout, own_width, other_width};

use crate::cubes::{Cube, fits};
use crate::gaps::least_gap;
use crate::names::{Kind, Player};
use std::marker::Model;

/// For the other's valuations that `when` holds: the own valuation, and the next state.
#[derive(Debug, Clone, Copy, PartialEq, Eq)]
pub struct Line {
    pub when: Cube,
    pub own: u64,
    pub next: u64,
}

/// A machine of a player: in a state the first line that holds the other's valuation decides.
#[derive(Debug, Drop)]
pub struct Machine {
    player: Player,
    kind: Kind,
    inputs: u32,
    outputs: u32,
    states: Vec<Vec<Line>>,
}

/// Why lines make no machine; each fault has the least state that shows it.
#[derive(Debug, Clone, Copy, PartialEq, Eq)]
pub enum MachineFault {
    /// There is no state.
    Empty,
    /// A line's next is no state, or its bits pass the widths.
    Range(u64),
    /// Some valuation of the other is held by no line.
    Gap(u64),
    /// The kind is First, and two lines have different own valuations.
    NotFirst(u64),
}

impl Model for Machine {
    ghost use Rattle.std.specs.Prelude.{map};
    ghost use Rattle.word_core.specs.Machine.{MachineData, IsMachine};

    ghost Value = { MachineData };

    ghost view = { λ m. record {
      player = m.player;
      kind = m.kind;
      inputs = m.inputs;
      outputs = m.outputs;
      states = map (λ lines. lines.items) m.states.items;
    } };

    ghost invariant = { λ m. IsMachine (record {
      player = m.player;
      kind = m.kind;
      inputs = m.inputs;
      outputs = m.outputs;
      states = map (λ lines. lines.items) m.states.items;
    }) };
}

impl Machine {
    ghost use Rattle.word_core.specs.Machine.{MachineData, IsMachine, IsLine, HasFault, choice, lines_at, own_of, other_of};

    /// The machine of these lines, with at most 64 signals. It is refused as Empty exactly where
    /// there is no state, then as Range, Gap or NotFirst with the least state that shows it.
    pub fn make(
        player: Player,
        kind: Kind,
        inputs: u32,
        outputs: u32,
        states: Vec<Vec<Line>>,
    ) -> Result<Machine, MachineFault>
        requires { inputs + outputs ≤ 64 }
        ensures ok { IfOk result (λ m. m ≡ record { player = player; kind = kind; inputs = inputs; outputs = outputs; states = map (λ lines. lines.items) states.items }) }
        ensures fault { IfErr result (HasFault (record { player = player; kind = kind; inputs = inputs; outputs = outputs; states = map (λ lines. lines.items) states.items })) }
    {
        let (own, others) = widths(player, inputs, outputs);
        if states.is_empty() {
            return Err(MachineFault::Empty);
        }
        if let Some(state) = first_out_of_range(&states, own, others) {
            return Err(MachineFault::Range(state));
        }
        if let Some(state) = first_with_gap(&states, others) {
            return Err(MachineFault::Gap(state));
        }
        if kind == Kind::First
            && let Some(state) = first_with_two_owns(&states)
        {
            return Err(MachineFault::NotFirst(state));
        }
        Ok(Machine {
            player,
            kind,
            inputs,
            outputs,
            states,
        })
    }

    /// Whose machine it is.
    pub fn player(&self) -> Player
        ensures { result ≡ self.now.player }
    {
        self.player
    }

    /// Whether its choice depends on the other's valuation of the same step.
    pub fn kind(&self) -> Kind
        ensures { result ≡ self.now.kind }
    {
        self.kind
    }

    /// The number of inputs; inputs and outputs are at most 64.
    pub fn inputs(&self) -> u32
        ensures value { result ≡ self.now.inputs }
        ensures narrow { self.now.inputs + self.now.outputs ≤ 64 }
    {
        self.inputs
    }

    /// The number of outputs; inputs and outputs are at most 64.
    pub fn outputs(&self) -> u32
        ensures value { result ≡ self.now.outputs }
        ensures narrow { self.now.inputs + self.now.outputs ≤ 64 }
    {
        self.outputs
    }

    /// The states, each with its lines in order; there is at least one.
    pub fn states(&self) -> &[Vec<Line>]
        ensures value { map (λ lines. lines.items) result.now ≡ self.now.states }
        ensures valid { IsMachine self.now }
    {
        &self.states
    }

    /// The lines of a state, which is one of the machine's.
    pub fn lines(&self, state: u64) -> &[Line]
        requires { state < length self.now.states }
        ensures value { result.now ≡ lines_at self.now state }
        ensures ranged { All (IsLine (own_of self.now) (other_of self.now) (length self.now.states)) result.now }
        ensures decided { IsDecided (other_of self.now) result.now }
    {
        &self.states[state as usize]
    }

    /// The own valuation and the next state of the line that decides in a state of the machine, at
    /// a valuation of the other's signals.
    pub fn step(&self, state: u64, other: u64) -> (u64, u64)
        requires state_in { state < length self.now.states }
        requires other_in { other < 2 ^ other_of self.now }
        ensures decides { IsSomeAnd (choice (lines_at self.now state) other) (λ l. (l.own ≡ result.0) × (l.next ≡ result.1)) }
        ensures own_in { result.0 < 2 ^ own_of self.now }
        ensures next_in { result.1 < length self.now.states }
    {
        for line in self.lines(state) {
            if line.when.holds(other) {
                return (line.own, line.next);
            }
        }
        unreachable!()
    }
}

/// The widths of a player's own valuations and of the other's.
pub fn widths(player: Player, inputs: u32, outputs: u32) -> (u32, u32)
    ensures own { result.0 ≡ own_width player inputs outputs }
    ensures others { result.1 ≡ other_width player inputs outputs }
{
    match player {
        Player::System => (outputs, inputs),
        Player::Environment => (inputs, outputs),
    }
}

/// The least state with a line that isn't over the widths, or whose next is no state.
fn first_out_of_range(states: &[Vec<Line>], own: u32, others: u32) -> Option<u64>
    requires own_in { own ≤ 64 }
    requires others_in { others ≤ 64 }
    ensures { MatchOption result
        (All (All (IsLine own others (length states.now))) (map (λ lines. lines.items) states.now))
        (IsLeastWithout (All (IsLine own others (length states.now))) (map (λ lines. lines.items) states.now)) }
{
    let count = states.len() as u64;
    for (state, lines) in states.iter().enumerate() {
        if !lines_fit(lines, own, others, count) {
            return Some(state as u64);
        }
    }
    None
}

/// Whether every line is over the widths, with one of so many states as its next.
fn lines_fit(lines: &[Line], own: u32, others: u32, count: u64) -> bool
    requires own_in { own ≤ 64 }
    requires others_in { others ≤ 64 }
    ensures { IsTrue result ↔ All (IsLine own others count) lines.now }
{
    for line in lines {
        if !(line.when.is_over(others) && fits(line.own, own) && line.next < count) {
            return false;
        }
    }
    true
}

/// The least of these states in which some valuation of the other, over so many signals, is held by
/// no line.
pub fn first_with_gap(states: &[Vec<Line>], others: u32) -> Option<u64>
    requires others_in { others ≤ 64 }
    requires ranged { All (All (λ l. IsCube others l.when)) (map (λ lines. lines.items) states.now) }
    ensures { MatchOption result
        (All (IsDecided others) (map (λ lines. lines.items) states.now))
        (IsLeastWithout (IsDecided others) (map (λ lines. lines.items) states.now)) }
{
    for (state, lines) in states.iter().enumerate() {
        if let Some(_gap) = least_gap(lines, Cube { care: 0, want: 0 }) {
            return Some(state as u64);
        }
    }
    None
}

/// The least state with two lines of different own valuations.
fn first_with_two_owns(states: &[Vec<Line>]) -> Option<u64>
    ensures { MatchOption result
        (All HasOneOwn (map (λ lines. lines.items) states.now))
        (IsLeastWithout HasOneOwn (map (λ lines. lines.items) states.now)) }
{
    for (state, lines) in states.iter().enumerate() {
        if !has_one_own(lines) {
            return Some(state as u64);
        }
    }
    None
}

/// Whether all lines have one own valuation.
fn has_one_own(lines: &[Line]) -> bool
    ensures { IsTrue result ↔ HasOneOwn lines.now }
{
    let Some(first) = lines.first() else {
        return true;
    };
    for line in lines {
        if line.own != first.own {
            return false;
        }
    }
    true
}
