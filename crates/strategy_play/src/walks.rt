//! States numbered as they are met.

ghost use Rattle.std.specs.Prelude.{◌≡◌, ◌<◌, ◌≤◌, ◌+◌, ◌∷◌, [], max, length, replicate, None, IfOk, OnOk, slice_index};
ghost use Rattle.std.specs.List.{All, AllZip};
ghost use Rattle.strategy_play.specs.Walk.{IsWalk, Extends, IsRenumbered, InTurn, nexts_of};

use std::alloc::{AllocError, Global};
use word_core::Line;

/// The states so far: the number of each entry that is one, and the entry of each state.
#[derive(Drop)]
pub struct Walk {
    pub numbers: Vec<Option<u64>>,
    pub order: Vec<u64>,
}

/// The walk over so many entries in which one entry is state 0.
pub fn begun(alloc: Global, count: usize, first: u64) -> Result<Walk, AllocError>
    requires { first < count }
    ensures walk { IfOk result (λ w. IsWalk count w.numbers.items w.order.items) }
    ensures order { IfOk result (λ w. w.order.items ≡ first ∷ []) }
{
    let mut numbers = no_numbers(alloc, count)?;
    numbers[first as usize] = Some(0);
    let order = vec![in alloc; first]?;
    Ok(Walk { numbers, order })
}

/// So many entries without a number.
fn no_numbers(alloc: Global, count: usize) -> Result<Vec<Option<u64>>, AllocError>
    ensures { IfOk result (λ v. v.items ≡ replicate count None) }
{
    let mut numbers = Vec::with_capacity(alloc, count)?;
    for _ in 0..count {
        numbers.push(None)?;
    }
    Ok(numbers)
}

/// The number of an entry, which becomes the next state where it isn't one yet.
fn number_of(walk: &mut Walk, entry: u64) -> Result<u64, AllocError>
    requires entry { entry < length walk.old.numbers.items }
    requires walk { IsWalk (length walk.old.numbers.items) walk.old.numbers.items walk.old.order.items }
    ensures count { OnOk result (length walk.new.numbers.items ≡ length walk.old.numbers.items) }
    ensures walk { OnOk result (IsWalk (length walk.old.numbers.items) walk.new.numbers.items walk.new.order.items) }
    ensures extends { OnOk result (Extends walk.old.order.items walk.new.order.items) }
    ensures within { IfOk result (λ n. n < length walk.new.order.items) }
    ensures entry { IfOk result (λ n. slice_index walk.new.order.items n ≡ entry) }
    ensures turn { IfOk result (λ n. (n ≤ length walk.old.order.items) × (length walk.new.order.items ≡ max (length walk.old.order.items) (n + 1))) }
{
    if let Some(number) = walk.numbers[entry as usize] {
        return Ok(number);
    }
    let number = walk.order.len() as u64;
    walk.order.push(entry)?;
    walk.numbers[entry as usize] = Some(number);
    Ok(number)
}

/// The lines with the numbers of the entries to which they lead.
pub fn renumbered(alloc: Global, walk: &mut Walk, lines: &[Line]) -> Result<Vec<Line>, AllocError>
    requires lines { All (λ l. l.next < length walk.old.numbers.items) lines.now }
    requires walk { IsWalk (length walk.old.numbers.items) walk.old.numbers.items walk.old.order.items }
    ensures walk { OnOk result (IsWalk (length walk.old.numbers.items) walk.new.numbers.items walk.new.order.items) }
    ensures extends { OnOk result (Extends walk.old.order.items walk.new.order.items) }
    ensures lines { IfOk result (λ v. AllZip (IsRenumbered walk.new.order.items) lines.now v.items) }
    ensures turns { IfOk result (λ v. InTurn (length walk.old.order.items) (nexts_of v.items) (length walk.new.order.items)) }
{
    let mut out = Vec::with_capacity(alloc, lines.len())?;
    for line in lines {
        let next = number_of(walk, line.next)?;
        out.push(Line {
            when: line.when,
            own: line.own,
            next,
        })?;
    }
    Ok(out)
}
