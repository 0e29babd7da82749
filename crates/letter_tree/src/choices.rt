//! The choice of one of two functions by a signal.

ghost use Rattle.std.specs.Prelude.{ℕ, ◌≡◌, ◌<◌, ◌≤◌, IfOk, OnOk, length, slice_get};
ghost use Rattle.letter_tree.specs.Diagram.{IsDiagram, Grows, top};
ghost use Rattle.letter_tree.specs.Choice.{IsPart, IsChoice, IsChoosing};

use crate::joins::{Jointly, joint};
use crate::memos::Memo;
use crate::tables::Table;
use std::alloc::AllocError;
use word_core::Branch;

/// The place of the function that is that of `low` where the signal is 0, and that of `high` where
/// it is 1.
pub fn chosen(
    table: &mut Table,
    memo: &mut Memo,
    signal: u32,
    low: u64,
    high: u64,
) -> Result<u64, AllocError>
    requires valid { IsDiagram table.old.width table.old.nodes }
    requires choosing { IsChoosing table.old signal memo.old }
    requires signal_in { signal < table.old.width }
    requires low_in { low < length table.old.nodes }
    requires high_in { high < length table.old.nodes }
    ensures grows { OnOk result (Grows table.old table.new) }
    ensures choosing { OnOk result (IsChoosing table.new signal memo.new) }
    ensures at { IfOk result (IsChoice table.new signal low high) }
{
    if let Some(place) = memo.get(low, high) {
        return Ok(place);
    }
    let width = table.width();
    match joint(table.nodes(), table.nodes(), width, low, high) {
        Jointly::Parts {
            signal: first,
            low: zero,
            high: one,
        } if first < signal => {
            let below = chosen(table, memo, signal, zero.0, zero.1)?;
            let above = chosen(table, memo, signal, one.0, one.1)?;
            let place = table.fork(first, below, above)?;
            memo.note(low, high, place)
        }
        _ => {
            let zero = part(table.nodes(), width, signal, low, false);
            let one = part(table.nodes(), width, signal, high, true);
            let place = table.fork(signal, zero, one)?;
            memo.note(low, high, place)
        }
    }
}

/// Where a node goes on by the value of a signal that is at most the one that it tests: itself
/// where it doesn't test the signal.
fn part(nodes: &[Branch], width: u32, signal: u32, at: u64, value: bool) -> u64
    requires diagram { IsDiagram width nodes.now }
    requires signal_in { signal < width }
    requires at_in { at < length nodes.now }
    requires before { signal ≤ top width (slice_get nodes.now at) }
    ensures { IsPart nodes.now width signal at value result }
{
    match nodes[at as usize] {
        Branch::Leaf(_) => at,
        Branch::Split {
            signal: tested,
            low,
            high,
        } => {
            if tested != signal {
                at
            } else if value {
                high
            } else {
                low
            }
        }
    }
}
