//! The letters of an automaton, split signal by signal until each edge is decided.

ghost use Rattle.std.specs.Prelude.{◌≡◌, ◌<◌, ◌≤◌, ◌+◌, ◌-◌, ◌^◌, ℕ, length, vec_len, IfOk, OnOk};
ghost use Rattle.std.specs.List.{All};
ghost use Rattle.word_core.specs.Tree.{label_of};
ghost use Rattle.action_groups.specs.Labels.{KeepsLabels, IsLabelled};
ghost use Rattle.std.specs.Prelude.{map};
ghost use Rattle.action_groups.specs.Lists.{items_at, KeepsLists};
ghost use Rattle.action_groups.specs.Numbers.{HasSameNumbers, step_of};
ghost use Rattle.action_groups.specs.Tests.{HasEffects};
ghost use Rattle.action_groups.specs.Part.{AreNodes, ArePairs};
ghost use Rattle.action_groups.specs.Trees.{IsRestTree};
ghost use Rattle.action_groups.specs.Way.{IsWay, AreSteps};

use crate::memos::Memo;
use crate::orders::Order;
use crate::parts::{joined, lifted, push_copy, push_leaf, push_split};
use crate::thinnings::part_of;
use crate::ways::{Way, effect, is_tested};
use indexmap::IndexSet;
use std::alloc::{AllocError, Global};
use word_core::Branch;

/// What edges do together: steps from state to state, each with its mark.
pub type Effect = Vec<(u32, u32, bool)>;

/// The nodes of the tree of letters, the effects that are its labels' meanings, and the trees that were made of edges
/// that remain at places.
#[derive(Drop)]
pub struct Letters {
    pub nodes: Vec<Branch>,
    pub effects: IndexSet<Effect>,
    pub memo: Memo,
}

/// Puts a leaf for what these edges do. Its label is given back.
fn put_effect(
    alloc: Global,
    ways: &[Way],
    count: usize,
    width: u32,
    letters: &mut Letters,
) -> Result<u64, AllocError>
    requires narrow { width ≤ 64 }
    requires ways { All (IsWay count) ways.now }
    requires nodes { AreNodes width (length letters.old.effects.keys) letters.old.nodes.items }
    requires effects { All (λ e. AreSteps count e.items) letters.old.effects.keys }
    ensures nodes { OnOk result (AreNodes width (length letters.new.effects.keys) letters.new.nodes.items) }
    ensures effects { OnOk result (All (λ e. AreSteps count e.items) letters.new.effects.keys) }
    ensures more { OnOk result (length letters.old.effects.keys ≤ length letters.new.effects.keys) }
    ensures grows { OnOk result (length letters.old.nodes.items < length letters.new.nodes.items) }
    ensures label { IfOk result (λ l. l < length letters.new.effects.keys) }
    ensures kept { OnOk result (KeepsLabels letters.old.nodes.items letters.new.nodes.items) }
    ensures leaf { IfOk result (λ l. (bits : ℕ) → label_of letters.new.nodes.items bits ≡ l) }
    ensures lists { OnOk result (KeepsLists letters.old.effects.keys letters.new.effects.keys) }
    ensures memo { letters.new.memo ≡ letters.old.memo }
    ensures numbers { IfOk result (λ l. HasSameNumbers (items_at letters.new.effects.keys l) (map step_of ways.now)) }
{
    let (label, _) = letters.effects.insert_full(effect(alloc, ways, count)?)?;
    push_leaf(
        &mut letters.nodes,
        label as u64,
        width,
        letters.effects.len(),
    )?;
    Ok(label as u64)
}

/// Splits on the signals from a place of the order on. The last node is the tree of these edges; the pairs have each
/// of its labels, with valuations of these signals that have it, the least among them.
#[tactic(auto, using(crate::proofs::Pairs::pairs_weaker, crate::proofs::Pairs::pairs_at))]
pub fn split_rest(
    alloc: Global,
    ways: &[Way],
    count: usize,
    order: Order,
    place: u32,
    letters: &mut Letters,
) -> Result<Vec<(u64, u64)>, AllocError>
    requires place { place ≤ order.inputs + order.outputs }
    requires ways { All (IsWay count) ways.now }
    requires nodes { AreNodes (order.inputs + order.outputs) (length letters.old.effects.keys) letters.old.nodes.items }
    requires effects { All (λ e. AreSteps count e.items) letters.old.effects.keys }
    requires trees { All (IsRestTree order letters.old.nodes.items letters.old.effects.keys) letters.old.memo }
    ensures nodes { OnOk result (AreNodes (order.inputs + order.outputs) (length letters.new.effects.keys) letters.new.nodes.items) }
    ensures effects { OnOk result (All (λ e. AreSteps count e.items) letters.new.effects.keys) }
    ensures more { OnOk result (length letters.old.effects.keys ≤ length letters.new.effects.keys) }
    ensures grows { OnOk result (length letters.old.nodes.items < length letters.new.nodes.items) }
    ensures pairs { IfOk result (λ v. ArePairs (order.inputs + order.outputs - place) (length letters.new.effects.keys) v.items) }
    ensures some { IfOk result (λ v. 0 < length v.items) }
    ensures kept { OnOk result (KeepsLabels letters.old.nodes.items letters.new.nodes.items) }
    ensures labelled { IfOk result (λ v. IsLabelled place (label_of letters.new.nodes.items) v.items) }
    ensures lists { OnOk result (KeepsLists letters.old.effects.keys letters.new.effects.keys) }
    ensures exact { OnOk result (HasEffects order place (label_of letters.new.nodes.items) letters.new.effects.keys ways.now) }
    ensures trees { OnOk result (All (IsRestTree order letters.new.nodes.items letters.new.effects.keys) letters.new.memo) }
{
    let width = order.width();
    if place >= width {
        let label = put_effect(alloc, ways, count, width, letters)?;
        return Ok(vec![in alloc; (0, label)]?);
    }
    let signal = order.signal(place);
    let left = width - place - 1;
    if !is_tested(ways, signal) {
        let rest = split_rest(alloc, ways, count, order, place + 1, letters)?;
        return Ok(lifted(alloc, &rest, left, letters.effects.len())?);
    }
    if let Some(tree) = letters.memo.get(alloc, ways, place)? {
        push_copy(
            &mut letters.nodes,
            tree.letter,
            width,
            letters.effects.len(),
        )?;
        return Ok(tree.pairs);
    }
    let unset = part_of(alloc, ways, order, place, 0, count)?;
    let low = split_rest(alloc, &unset, count, order, place + 1, letters)?;
    let at = letters.nodes.len() - 1;
    let set = part_of(alloc, ways, order, place, 1, count)?;
    let high = split_rest(alloc, &set, count, order, place + 1, letters)?;
    push_split(&mut letters.nodes, place, at, width, letters.effects.len())?;
    let pairs = joined(alloc, &low, &high, left, letters.effects.len())?;
    let last = letters.nodes.len() - 1;
    letters.memo.note(alloc, ways, place, last, 0, &pairs)?;
    Ok(pairs)
}
