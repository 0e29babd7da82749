//! The machine.

ghost use Rattle.std.specs.Prelude.{◌≡◌, ◌<◌, ℕ, true, length, map, IfOk, Some};
ghost use Rattle.std.specs.List.{All};
ghost use Rattle.game_form.specs.Held.{KeepsFrom};
ghost use Rattle.game_form.specs.Vector.{initial};
ghost use Rattle.antichain_list.specs.Antichain.{covered};
ghost use Rattle.counter_vec.specs.Counters.{at_or_below};
ghost use Rattle.cpre_step.specs.Refinement.{AreVectors, answers};
ghost use Rattle.strategy_play.specs.Lead.{place_above};
ghost use Rattle.game_form.specs.Covering.{CoversLetters};
ghost use Rattle.game_form.specs.Letters.{HasLetters};
ghost use Rattle.strategy_play.specs.Exact.{IsMachineOfList};
ghost use Rattle.strategy_play.specs.Ordered.{IsInOrder};
ghost use Rattle.strategy_play.specs.State.{IsState};
ghost use Rattle.strategy_play.specs.Strategy.{IsStrategy};

use crate::lines::lines_of;
use crate::nexts::first_above;
use crate::walks::{begun, renumbered};
use antichain_list::{Downset, ListDownset};
use counter_vec::Counters;
use game_form::Game;
use std::alloc::{AllocError, Global};
use word_core::{Line, Machine};

/// The machine with which the player stays in a closed list: its states are entries, state 0 the first one at or
/// above the initial vector. In an entry it does the first that leads at or below an entry again, and goes on in
/// the first such entry; states are numbered breadth first. The one error is want of memory.
pub fn extract(alloc: Global, g: &Game, d: &ListDownset<Counters>) -> Result<Machine, AllocError>
    requires vectors { AreVectors g.now d.now }
    requires closed { All (λ f. answers g.now d.now f ≡ true) d.now }
    requires begins { covered at_or_below (initial g.now) d.now ≡ true }
    ensures player { IfOk result (λ m. m.player ≡ g.now.player) }
    ensures kind { IfOk result (λ m. m.kind ≡ g.now.kind) }
    ensures inputs { IfOk result (λ m. m.inputs ≡ g.now.inputs) }
    ensures outputs { IfOk result (λ m. m.outputs ≡ g.now.outputs) }
    ensures strategy { IfOk result (λ m. IsStrategy g.now d.now m.states) }
    ensures exact { IfOk result (λ m. HasLetters g.now → CoversLetters g.now → IsInOrder g.now → IsMachineOfList g.now d.now m.states) }
    ensures keeps { IfOk result (λ m. HasLetters g.now → KeepsFrom g.now m 0 (initial g.now)) }
{
    g.known();
    let states = states(alloc, g, d)?;
    match Machine::make(g.player(), g.kind(), g.inputs(), g.outputs(), states) {
        Ok(machine) => Ok(machine),
        Err(_) => unreachable!(),
    }
}

/// The first entry at or above the initial vector.
fn first_entry(alloc: Global, g: &Game, d: &ListDownset<Counters>) -> Result<u64, AllocError>
    requires { covered at_or_below (initial g.now) d.now ≡ true }
    ensures first { IfOk result (λ e. place_above d.now (initial g.now) ≡ Some e) }
    ensures within { IfOk result (λ e. e < length d.now) }
{
    let initial = Counters::initial(alloc, g)?;
    match first_above(d, &initial) {
        Some(entry) => Ok(entry),
        None => unreachable!(),
    }
}

/// The lines of the states in the order in which they are met.
fn states(alloc: Global, g: &Game, d: &ListDownset<Counters>) -> Result<Vec<Vec<Line>>, AllocError>
    requires vectors { AreVectors g.now d.now }
    requires closed { All (λ f. answers g.now d.now f ≡ true) d.now }
    requires begins { covered at_or_below (initial g.now) d.now ≡ true }
    ensures some { IfOk result (λ v. 0 < length v.items) }
    ensures strategy { IfOk result (λ v. IsStrategy g.now d.now (map (λ lines. lines.items) v.items)) }
    ensures states { IfOk result (λ v. All (IsState g.now (length v.items)) (map (λ lines. lines.items) v.items)) }
{
    let mut walk = begun(alloc, d.len(), first_entry(alloc, g, d)?)?;
    let mut states = Vec::new(alloc);
    'walking: while states.len() < walk.order.len() {
        let entry = d.entry(walk.order[states.len()] as usize);
        let lines = lines_of(alloc, g, d, entry)?;
        states.push(renumbered(alloc, &mut walk, &lines)?)?;
    }
    Ok(states)
}
