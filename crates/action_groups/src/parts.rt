//! Trees of nodes, and the lists of least valuations that come with them.

ghost use Rattle.std.specs.Prelude.{◌≡◌, ◌<◌, ◌≤◌, ◌+◌, ◌*◌, ◌^◌, ℕ, length, vec_len, IfOk, OnOk};
ghost use Rattle.std.specs.List.{All};
ghost use Rattle.std.specs.Prelude.{◌++◌};
ghost use Rattle.word_core.specs.Tree.{label_at, label_of, side};
ghost use Rattle.action_groups.specs.Labels.{KeepsLabels, shifted};
ghost use Rattle.action_groups.specs.Options.{IsOnce};
ghost use Rattle.action_groups.specs.Part.{AreNodes, ArePairs};

use crate::leasts::least_of_each;
use std::alloc::{AllocError, Global};
use word_core::Branch;

/// Puts a leaf behind the nodes.
pub fn push_leaf(
    nodes: &mut Vec<Branch>,
    label: u64,
    width: u32,
    count: usize,
) -> Result<(), AllocError>
    requires narrow { width ≤ 64 }
    requires label { label < count }
    requires nodes { AreNodes width count nodes.old.items }
    ensures nodes { AreNodes width count nodes.new.items }
    ensures kept { OnOk result (KeepsLabels nodes.old.items nodes.new.items) }
    ensures leaf { OnOk result ((bits : ℕ) → label_of nodes.new.items bits ≡ label) }
    ensures grows { OnOk result (length nodes.new.items ≡ length nodes.old.items + 1) }
{
    nodes.push(Branch::Leaf(label))?;
    Ok(())
}

/// Puts a split behind its parts, the second of which is the last node.
pub fn push_split(
    nodes: &mut Vec<Branch>,
    signal: u32,
    low: usize,
    width: u32,
    count: usize,
) -> Result<(), AllocError>
    requires narrow { width ≤ 64 }
    requires signal { signal < width }
    requires low { low < length nodes.old.items }
    requires nodes { AreNodes width count nodes.old.items }
    ensures nodes { AreNodes width count nodes.new.items }
    ensures kept { OnOk result (KeepsLabels nodes.old.items nodes.new.items) }
    ensures split { OnOk result ((bits : ℕ) → label_of nodes.new.items bits ≡ side signal (label_at nodes.old.items low bits) (label_of nodes.old.items bits) bits) }
    ensures grows { OnOk result (length nodes.new.items ≡ length nodes.old.items + 1) }
{
    let high = nodes.len() as u64 - 1;
    nodes.push(Branch::Split {
        signal,
        low: low as u64,
        high,
    })?;
    Ok(())
}

/// Puts a copy of an earlier node behind the nodes.
pub fn push_copy(
    nodes: &mut Vec<Branch>,
    at: usize,
    width: u32,
    count: usize,
) -> Result<(), AllocError>
    requires narrow { width ≤ 64 }
    requires at { at < length nodes.old.items }
    requires nodes { AreNodes width count nodes.old.items }
    ensures nodes { AreNodes width count nodes.new.items }
    ensures kept { OnOk result (KeepsLabels nodes.old.items nodes.new.items) }
    ensures copy { OnOk result ((bits : ℕ) → label_of nodes.new.items bits ≡ label_at nodes.old.items at bits) }
    ensures grows { OnOk result (length nodes.new.items ≡ length nodes.old.items + 1) }
{
    let node = nodes[at];
    nodes.push(node)?;
    Ok(())
}

/// Adds the pairs of a part, with the value of a signal before the other signals.
#[tactic(auto, using(crate::proofs::Powers::power_more, crate::proofs::Powers::power_small))]
pub fn add_part(
    pairs: &mut Vec<(u64, u64)>,
    part: &[(u64, u64)],
    bit: u64,
    rest: u32,
    count: usize,
) -> Result<(), AllocError>
    requires bit { bit ≤ 1 }
    requires rest { rest < 40 }
    requires part { ArePairs rest count part.now }
    requires pairs { ArePairs (rest + 1) count pairs.old.items }
    ensures pairs { ArePairs (rest + 1) count pairs.new.items }
    ensures grows { OnOk result (length pairs.new.items ≡ length pairs.old.items + length part.now) }
    ensures value { OnOk result (pairs.new.items ≡ pairs.old.items ++ shifted bit part.now) }
{
    for (value, number) in part {
        pairs.push((2 * *value + bit, *number))?;
    }
    Ok(())
}

/// The pairs of a tree that doesn't test a signal, with the value 0 of the signal before the `rest` other signals.
pub fn lifted(
    alloc: Global,
    part: &[(u64, u64)],
    rest: u32,
    count: usize,
) -> Result<Vec<(u64, u64)>, AllocError>
    requires rest { rest < 40 }
    requires part { ArePairs rest count part.now }
    ensures pairs { IfOk result (λ v. ArePairs (rest + 1) count v.items) }
    ensures len { IfOk result (λ v. length v.items ≡ length part.now) }
    ensures value { IfOk result (λ v. v.items ≡ shifted 0 part.now) }
{
    let mut pairs = Vec::with_capacity(alloc, part.len())?;
    add_part(&mut pairs, part, 0, rest, count)?;
    Ok(pairs)
}

/// The pairs of two parts, with the values 0 and 1 of the signal that chooses between them: of each number that with the
/// least valuation.
pub fn joined(
    alloc: Global,
    low: &[(u64, u64)],
    high: &[(u64, u64)],
    rest: u32,
    count: usize,
) -> Result<Vec<(u64, u64)>, AllocError>
    requires rest { rest < 40 }
    requires low { ArePairs rest count low.now }
    requires high { ArePairs rest count high.now }
    requires some { 0 < length low.now }
    ensures pairs { IfOk result (λ v. ArePairs (rest + 1) count v.items) }
    ensures some { IfOk result (λ v. 0 < length v.items) }
    ensures once { IfOk result (λ v. IsOnce (shifted 0 low.now ++ shifted 1 high.now) v.items) }
{
    let mut pairs = Vec::new(alloc);
    add_part(&mut pairs, low, 0, rest, count)?;
    add_part(&mut pairs, high, 1, rest, count)?;
    least_of_each(alloc, pairs, rest + 1, count)
}
