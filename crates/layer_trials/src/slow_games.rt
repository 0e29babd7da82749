//! Small automata drawn at random, and their games letter by letter.

ghost use Rattle.std.specs.Prelude.{◌≡◌, ◌<◌, ◌^◌, pos, IfOk};

use crate::draws::Draws;
use crate::slow_vectors::{at, next_place};
use action_groups::make_game;
use game_form::Game;
use std::alloc::{AllocError, Global};
use std::process::Abort;
use std::test::Fail;
use word_core::{Automaton, Cube, Edge, Kind, Player, State};

/// What a game is drawn from, and the numbers of each letter, the inputs first: those of a pair of lanes (q, p) stand
/// at the place `q * lanes + p`.
#[derive(Drop)]
pub struct Trial {
    pub automaton: Automaton,
    pub player: Player,
    pub kind: Kind,
    pub inputs: u32,
    pub outputs: u32,
    pub k: u8,
    pub numbers: Vec<Vec<i16>>,
}

/// The most states and signals that are drawn, and the most that the bound may be, each at most 8.
#[derive(Clone, Copy)]
pub struct Sizes {
    pub states: u64,
    pub signals: u64,
    pub k: u64,
}

/// A cube over so many signals, half of them with few signals.
fn drawn_cube(draws: &mut Draws, signals: u32) -> Cube {
    let some = if draws.coin() { draws.any() } else { u64::MAX };
    let care = draws.any() & some & 1u64.wrapping_shl(signals).wrapping_sub(1);
    Cube {
        care,
        want: draws.any() & care,
    }
}

/// The edges of a state.
fn drawn_state(
    alloc: Global,
    draws: &mut Draws,
    signals: u32,
    states: u64,
) -> Result<State, AllocError> {
    let mut edges = Vec::new(alloc);
    for _ in 0..draws.below(5) {
        edges.push(Edge {
            cube: drawn_cube(draws, signals),
            next: draws.below(states.clamp(1, 8)) as u32,
            marked: draws.coin(),
        })?;
    }
    Ok(State { edges })
}

/// So many states.
fn drawn_states(
    alloc: Global,
    draws: &mut Draws,
    signals: u32,
    states: u64,
) -> Result<Vec<State>, AllocError> {
    let mut list = Vec::new(alloc);
    for _ in 0..states {
        list.push(drawn_state(alloc, draws, signals, states)?)?;
    }
    Ok(list)
}

/// An automaton. One in eight has no first state.
fn drawn_automaton(
    rt: &impl Abort,
    alloc: Global,
    draws: &mut Draws,
    signals: u32,
    states: u64,
) -> Result<Automaton, Fail>
    ensures { IfOk result (λ a. a.signals ≡ signals) }
{
    let list = drawn_states(alloc, draws, signals, states)?;
    let first = draws.below(states.clamp(1, 8)) as u32;
    let init = if draws.below(8) == 0 {
        None
    } else {
        Some(first)
    };
    assert!(rt; signals <= 64);
    assert!(rt; list.len() < 1 << 32);
    let made = Automaton::make(signals, list, init);
    Ok(made.ok_or("an edge without an end")?)
}

/// The number of a pair of states: 2 where a marked edge holds the letter, 1 where another one does, else 0.
fn number(edges: &[Edge], letter: u64, to: u32) -> i16 {
    let mut most = 0i16;
    for edge in edges {
        if edge.next == to && letter & edge.cube.care == edge.cube.want {
            most = most.max(if edge.marked { 2 } else { 1 });
        }
    }
    most
}

/// Puts the numbers from one state to each.
fn put_numbers(
    row: &mut Vec<i16>,
    edges: &[Edge],
    letter: u64,
    states: u32,
) -> Result<(), AllocError> {
    for to in 0..states {
        row.push(number(edges, letter, to))?;
    }
    Ok(())
}

/// The numbers of a letter.
fn numbers_of(alloc: Global, a: &Automaton, letter: u64) -> Result<Vec<i16>, AllocError> {
    let mut numbers = Vec::new(alloc);
    let states = a.states();
    for state in states {
        put_numbers(&mut numbers, state.edges(), letter, states.len() as u32)?;
    }
    Ok(numbers)
}

/// The numbers of each letter.
fn all_numbers(alloc: Global, a: &Automaton, letters: u64) -> Result<Vec<Vec<i16>>, AllocError> {
    let mut all = Vec::new(alloc);
    for letter in 0..letters {
        all.push(numbers_of(alloc, a, letter)?)?;
    }
    Ok(all)
}

/// What the lanes bring to a lane, from -1 to `k + 1`.
pub fn arrived(numbers: &[i16], f: &[i16], p: usize, k: u8) -> i16 {
    let mut most = -1;
    for (q, value) in f.iter().enumerate() {
        let number = at(numbers, q.wrapping_mul(f.len()).wrapping_add(p));
        if *value >= 0 && number >= 1 {
            let brought = value.wrapping_add(number).wrapping_sub(1);
            most = most.max(brought.min(k as i16 + 1));
        }
    }
    most
}

/// The successor.
pub fn successor(alloc: Global, numbers: &[i16], f: &[i16], k: u8) -> Result<Vec<i16>, AllocError> {
    let mut out = Vec::new(alloc);
    for p in 0..f.len() {
        out.push(arrived(numbers, f, p, k))?;
    }
    Ok(out)
}

/// Whether the successor isn't over the bound and is one of the vectors whose answer is true.
fn lands(numbers: &[i16], f: &[i16], k: u8, answers: &[bool]) -> bool {
    let mut place = 0;
    for p in 0..f.len() {
        let number = arrived(numbers, f, p, k);
        if number > k as i16 {
            return false;
        }
        place = next_place(place, number, k);
    }
    match answers.get(place as usize) {
        Some(answer) => *answer,
        None => false,
    }
}

/// Whether the side that chooses the outputs is the player.
fn has_outputs(player: Player) -> bool {
    match player {
        Player::System => true,
        Player::Environment => false,
    }
}

impl Trial {
    /// A trial with one to so many states, and at most so many signals.
    pub fn draw(
        rt: &impl Abort,
        alloc: Global,
        draws: &mut Draws,
        sizes: Sizes,
    ) -> Result<Trial, Fail> {
        let states = 1 + draws.below(sizes.states.clamp(1, 8));
        let signals = 1 + draws.below(sizes.signals.clamp(1, 8)) as u32;
        let inputs = draws.below(signals as u64 + 1) as u32;
        let automaton = drawn_automaton(rt, alloc, draws, signals, states)?;
        let numbers = all_numbers(alloc, &automaton, 1u64.wrapping_shl(signals))?;
        Ok(Trial {
            automaton,
            player: if draws.coin() {
                Player::System
            } else {
                Player::Environment
            },
            kind: if draws.coin() {
                Kind::First
            } else {
                Kind::Second
            },
            inputs,
            outputs: signals - inputs,
            k: draws.below(sizes.k.min(8) + 1) as u8,
            numbers,
        })
    }

    /// The game.
    pub fn game(&self, rt: &impl Abort, alloc: Global) -> Result<Game, Fail>
        ensures { IfOk result (λ g. g.k ≡ pos self.now.k) }
    {
        assert!(rt; self.inputs <= 20);
        assert!(rt; self.outputs <= 20);
        assert_eq!(rt; self.automaton.signals(), self.inputs + self.outputs);
        Ok(make_game(
            alloc,
            &self.automaton,
            self.player,
            self.kind,
            self.inputs,
            self.outputs,
            self.k as i16,
        )?)
    }

    /// The number of lanes.
    pub fn lanes(&self) -> usize
        ensures { result < 2 ^ 32 }
    {
        self.automaton.states().len()
    }

    /// How many valuations the player's signals have.
    pub fn owns(&self) -> u64 {
        1u64.wrapping_shl(if has_outputs(self.player) {
            self.outputs
        } else {
            self.inputs
        })
    }

    /// How many valuations the other's signals have.
    pub fn others(&self) -> u64 {
        1u64.wrapping_shl(if has_outputs(self.player) {
            self.inputs
        } else {
            self.outputs
        })
    }

    /// How many valuations the signals of the side that moves first have.
    pub fn firsts(&self) -> u64 {
        match self.kind {
            Kind::First => self.owns(),
            Kind::Second => self.others(),
        }
    }

    /// How many valuations the signals of the side that moves second have.
    pub fn seconds(&self) -> u64 {
        match self.kind {
            Kind::First => self.others(),
            Kind::Second => self.owns(),
        }
    }

    /// The letter of two moves, the inputs first.
    pub fn letter_of_moves(&self, first: u64, second: u64) -> u64 {
        match self.kind {
            Kind::First => self.letter(first, second),
            Kind::Second => self.letter(second, first),
        }
    }

    /// The letter of two parts, the inputs first.
    pub fn letter(&self, own: u64, other: u64) -> u64 {
        let (inputs, outputs) = if has_outputs(self.player) {
            (other, own)
        } else {
            (own, other)
        };
        inputs | outputs.wrapping_shl(self.inputs)
    }

    /// Whether the successor of `f` under two parts of a letter is one of those whose answer is true.
    fn lands_by(&self, own: u64, other: u64, f: &[i16], answers: &[bool]) -> bool {
        match self.numbers.get(self.letter(own, other) as usize) {
            Some(numbers) => lands(numbers, f, self.k, answers),
            None => false,
        }
    }

    /// Whether the player has an answer to a choice of the other.
    fn has_answer(&self, other: u64, f: &[i16], answers: &[bool]) -> bool {
        for own in 0..self.owns() {
            if self.lands_by(own, other, f, answers) {
                return true;
            }
        }
        false
    }

    /// Whether a choice of the player is good for all choices of the other.
    fn is_safe(&self, own: u64, f: &[i16], answers: &[bool]) -> bool {
        for other in 0..self.others() {
            if !self.lands_by(own, other, f, answers) {
                return false;
            }
        }
        true
    }

    /// Whether the player can go on from `f` to vectors whose answer is true.
    pub fn goes_on(&self, f: &[i16], answers: &[bool]) -> bool {
        match self.kind {
            Kind::First => (0..self.owns()).any(|own| self.is_safe(own, f, answers)),
            Kind::Second => (0..self.others()).all(|other| self.has_answer(other, f, answers)),
        }
    }
}

/// For each vector whether it can be held: all that there are, less those from which the player can't go on.
pub fn held(alloc: Global, trial: &Trial, vectors: &[Vec<i16>]) -> Result<Vec<bool>, AllocError> {
    let mut answers = vec![in alloc; true; vectors.len()]?;
    for _ in 0..vectors.len() {
        if !drop_lost(trial, vectors, &mut answers) {
            break;
        }
    }
    Ok(answers)
}

/// Gives up the vectors from which the player can't go on. Whether there was one.
fn drop_lost(trial: &Trial, vectors: &[Vec<i16>], answers: &mut [bool]) -> bool {
    let mut changed = false;
    for (place, f) in vectors.iter().enumerate() {
        let goes_on = trial.goes_on(f, answers);
        if let Some(answer) = answers.get_mut(place)
            && *answer
            && !goes_on
        {
            *answer = false;
            changed = true;
        }
    }
    changed
}
