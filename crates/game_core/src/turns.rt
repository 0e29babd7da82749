//! The order in which a solver looks at the classes.
//!
//! A class that leaves few vectors of an entry, and so decides much, comes before one that leaves many.

ghost use Rattle.std.specs.Prelude.{◌<◌, ◌≤◌, ℕ, length, IfOk, OnOk};
ghost use Rattle.game_core.specs.Turns.{AreTurns};

use std::alloc::{AllocError, Global};

/// What a class weighs that hasn't left anything so far: eight vectors.
const UNTRIED: u32 = 8000;

/// A class, and what it left of the entries that it refused: a mean of thousandths of vectors, of which the last one
/// counts a sixteenth.
#[derive(Drop)]
pub struct Turn {
    pub class: usize,
    pub weight: u32,
}

/// The turns of so many classes, in their order.
pub fn turns_of(alloc: Global, count: usize) -> Result<Vec<Turn>, AllocError>
    ensures { IfOk result (λ v. AreTurns count v.items) }
{
    let mut turns = Vec::with_capacity(alloc, count)?;
    for class in 0..count {
        turns.push(Turn {
            class,
            weight: UNTRIED,
        })?;
    }
    Ok(turns)
}

/// Notes how many vectors the class of a turn left of an entry, and puts it where it belongs by its weight.
pub fn take_turn(turns: &mut Vec<Turn>, at: usize, left: usize) -> Result<(), AllocError>
    requires { at < length turns.old.items }
    ensures { OnOk result ((n : ℕ) → AreTurns n turns.old.items → AreTurns n turns.new.items) }
{
    let old = turns.remove(at);
    let weight = weight_after(old.weight, left);
    let place = place_for(turns, weight);
    turns.insert(
        place,
        Turn {
            class: old.class,
            weight,
        },
    )?;
    Ok(())
}

/// The mean weight when so many vectors are left.
fn weight_after(weight: u32, left: usize) -> u32 {
    let left = left.min(1000) as u64 * 1000;
    ((weight as u64 * 15 + left) / 16) as u32
}

/// The place behind all turns that weigh no more, where the turns ascend.
fn place_for(turns: &[Turn], weight: u32) -> usize
    ensures { result ≤ length turns.now }
{
    for place in 0..turns.len() {
        if turns[place].weight > weight {
            return place;
        }
    }
    turns.len()
}
