//! The parts of a commit.

ghost use Rattle.std.specs.Prelude.{◌≡◌, ◌<◌, ◌||◌, false, IfOk, IsTrue, length, MatchOption, not, pos};
ghost use Rattle.game_form.specs.Vector.{initial, IsVector};
ghost use Rattle.antichain_list.specs.Antichain.{covered};
ghost use Rattle.counter_vec.specs.Counters.{at_or_below};
ghost use Rattle.cpre_step.specs.Refinement.{AreVectors};
ghost use Rattle.game_core.specs.Board.{replaced, puts, IsAt, IsNowhere};

use crate::sames::same_vector;
use antichain_list::{Downset, ListDownset};
use counter_vec::Counters;
use game_form::Game;
use std::alloc::{AllocError, Global};

/// The place of a vector in a list.
pub fn place_of(list: &ListDownset<Counters>, v: &Counters) -> Option<usize>
    ensures { MatchOption result (IsNowhere list.now v.now) (λ place. IsAt list.now place v.now) }
{
    let entries = list.entries();
    for i in 0..entries.len() {
        if same_vector(&entries[i], v) {
            return Some(i);
        }
    }
    None
}

/// A list in which vectors have taken the place of an entry.
pub fn exchange(
    alloc: Global,
    list: &ListDownset<Counters>,
    place: usize,
    left: Vec<Counters>,
) -> Result<ListDownset<Counters>, AllocError>
    requires { place < length list.now }
    ensures { IfOk result (λ d. d ≡ replaced list.now place left.items) }
{
    let mut next = list.copy(alloc)?;
    let _taken = next.take(place);
    put_left(&mut next, left)?;
    Ok(next)
}

/// Puts vectors into a list, one after another.
pub fn put_left(list: &mut ListDownset<Counters>, left: Vec<Counters>) -> Result<(), AllocError>
    ensures { IfOk result (λ _. list.new ≡ puts list.old left.items) }
{
    for v in left {
        match list.put(v) {
            Ok(()) => {}
            Err(_) => return Err(AllocError),
        }
    }
    Ok(())
}

/// Whether an entry is at or above the initial vector.
pub fn holds_initial(g: &Game, list: &ListDownset<Counters>) -> bool
    requires { AreVectors g.now list.now }
    ensures { result ≡ covered at_or_below (initial g.now) list.now }
{
    for v in list.entries() {
        if above_initial(g, v) {
            return true;
        }
    }
    false
}

fn above_initial(g: &Game, v: &Counters) -> bool
    requires { IsVector g.now v.now }
    ensures { result ≡ at_or_below (initial g.now) v.now }
{
    g.known();
    match g.init() {
        None => true,
        Some(first) => v.at(first as usize) >= 0,
    }
}
