//! The valuations of the side that moves first, split until the letters are.

ghost use Rattle.std.specs.Prelude.{◌≡◌, ◌<◌, ◌≤◌, ◌+◌, ◌-◌, ◌^◌, ℕ, length, vec_len, IfOk, OnOk};
ghost use Rattle.std.specs.List.{All};
ghost use Rattle.word_core.specs.Tree.{label_of};
ghost use Rattle.action_groups.specs.Labels.{KeepsLabels, IsLabelled};
ghost use Rattle.action_groups.specs.Tests.{HasEffects};
ghost use Rattle.action_groups.specs.Lists.{items_at, KeepsLists};
ghost use Rattle.action_groups.specs.Options.{IsOnce, HasOptions};
ghost use Rattle.action_groups.specs.Part.{AreNodes, ArePairs};
ghost use Rattle.action_groups.specs.Sides.{leads};
ghost use Rattle.action_groups.specs.Trees.{IsRestTree, IsFirstTree};
ghost use Rattle.action_groups.specs.First.{AreOptions};
ghost use Rattle.action_groups.specs.Way.{IsWay, AreSteps};

use crate::groups::{Letters, split_rest};
use crate::leasts::least_of_each;
use crate::memos::Memo;
use crate::orders::Order;
use crate::parts::{joined, lifted, push_copy, push_leaf, push_split};
use crate::thinnings::part_of;
use crate::ways::{Way, is_tested};
use indexmap::IndexSet;
use std::alloc::{AllocError, Global};
use word_core::Branch;

/// The nodes of the tree of first valuations, the lists of options that are its labels' meanings, and the trees that were
/// made of edges that remain at places before the second side's signals.
#[derive(Drop)]
pub struct Firsts {
    pub nodes: Vec<Branch>,
    pub options: IndexSet<Vec<(u64, u64)>>,
    pub memo: Memo,
}

/// Puts a leaf for the first valuations with these options. Its label is given back.
fn put_options(
    alloc: Global,
    pairs: Vec<(u64, u64)>,
    width: u32,
    second: u32,
    count: usize,
    firsts: &mut Firsts,
) -> Result<u64, AllocError>
    requires narrow { width ≤ 64 }
    requires pairs { ArePairs second count pairs.items }
    requires some { 0 < length pairs.items }
    requires nodes { AreNodes width (length firsts.old.options.keys) firsts.old.nodes.items }
    requires options { AreOptions second count firsts.old.options.keys }
    ensures nodes { OnOk result (AreNodes width (length firsts.new.options.keys) firsts.new.nodes.items) }
    ensures options { OnOk result (AreOptions second count firsts.new.options.keys) }
    ensures more { OnOk result (length firsts.old.options.keys ≤ length firsts.new.options.keys) }
    ensures grows { OnOk result (length firsts.old.nodes.items < length firsts.new.nodes.items) }
    ensures label { IfOk result (λ l. l < length firsts.new.options.keys) }
    ensures kept { OnOk result (KeepsLabels firsts.old.nodes.items firsts.new.nodes.items) }
    ensures lists { OnOk result (KeepsLists firsts.old.options.keys firsts.new.options.keys) }
    ensures memo { firsts.new.memo ≡ firsts.old.memo }
    ensures leaf { IfOk result (λ l. (bits : ℕ) → label_of firsts.new.nodes.items bits ≡ l) }
    ensures once { IfOk result (λ l. IsOnce pairs.items (items_at firsts.new.options.keys l)) }
{
    let options = least_of_each(alloc, pairs, second, count)?;
    let (label, _) = firsts.options.insert_full(options)?;
    push_leaf(&mut firsts.nodes, label as u64, width, firsts.options.len())?;
    Ok(label as u64)
}

/// Splits on the first mover's signals from a place of the order on. The last node is the tree of these edges; the
/// pairs have each of its labels, with valuations of these signals that have it, the least among them.
#[tactic(auto, using(crate::proofs::Pairs::pairs_weaker, crate::proofs::Pairs::pairs_at, crate::proofs::Pairs::options_weaker))]
pub fn split_first(
    alloc: Global,
    ways: &[Way],
    count: usize,
    order: Order,
    place: u32,
    letters: &mut Letters,
    firsts: &mut Firsts,
) -> Result<Vec<(u64, u64)>, AllocError>
    requires place { place ≤ leads order }
    requires ways { All (IsWay count) ways.now }
    requires letter_nodes { AreNodes (order.inputs + order.outputs) (length letters.old.effects.keys) letters.old.nodes.items }
    requires effects { All (λ e. AreSteps count e.items) letters.old.effects.keys }
    requires nodes { AreNodes (leads order) (length firsts.old.options.keys) firsts.old.nodes.items }
    requires options { AreOptions (order.inputs + order.outputs - leads order) (length letters.old.effects.keys) firsts.old.options.keys }
    requires letter_trees { All (IsRestTree order letters.old.nodes.items letters.old.effects.keys) letters.old.memo }
    requires trees { All (IsFirstTree order letters.old.nodes.items letters.old.effects.keys firsts.old.nodes.items firsts.old.options.keys) firsts.old.memo }
    ensures letter_nodes { OnOk result (AreNodes (order.inputs + order.outputs) (length letters.new.effects.keys) letters.new.nodes.items) }
    ensures effects { OnOk result (All (λ e. AreSteps count e.items) letters.new.effects.keys) }
    ensures letters_grow { OnOk result (length letters.old.nodes.items < length letters.new.nodes.items) }
    ensures more_effects { OnOk result (length letters.old.effects.keys ≤ length letters.new.effects.keys) }
    ensures nodes { OnOk result (AreNodes (leads order) (length firsts.new.options.keys) firsts.new.nodes.items) }
    ensures options { OnOk result (AreOptions (order.inputs + order.outputs - leads order) (length letters.new.effects.keys) firsts.new.options.keys) }
    ensures more { OnOk result (length firsts.old.options.keys ≤ length firsts.new.options.keys) }
    ensures grows { OnOk result (length firsts.old.nodes.items < length firsts.new.nodes.items) }
    ensures pairs { IfOk result (λ v. ArePairs (leads order - place) (length firsts.new.options.keys) v.items) }
    ensures some { IfOk result (λ v. 0 < length v.items) }
    ensures letters_kept { OnOk result (KeepsLabels letters.old.nodes.items letters.new.nodes.items) }
    ensures kept { OnOk result (KeepsLabels firsts.old.nodes.items firsts.new.nodes.items) }
    ensures lists { OnOk result (KeepsLists firsts.old.options.keys firsts.new.options.keys) }
    ensures effect_lists { OnOk result (KeepsLists letters.old.effects.keys letters.new.effects.keys) }
    ensures exact { OnOk result (HasEffects order place (label_of letters.new.nodes.items) letters.new.effects.keys ways.now) }
    ensures chosen { OnOk result (HasOptions (leads order) (label_of letters.new.nodes.items) (label_of firsts.new.nodes.items) firsts.new.options.keys) }
    ensures labelled { IfOk result (λ v. IsLabelled place (label_of firsts.new.nodes.items) v.items) }
    ensures letter_trees { OnOk result (All (IsRestTree order letters.new.nodes.items letters.new.effects.keys) letters.new.memo) }
    ensures trees { OnOk result (All (IsFirstTree order letters.new.nodes.items letters.new.effects.keys firsts.new.nodes.items firsts.new.options.keys) firsts.new.memo) }
{
    let whole = order.width();
    let width = order.leads();
    if place >= width {
        let rest = split_rest(alloc, ways, count, order, place, letters)?;
        let actions = letters.effects.len();
        let label = put_options(alloc, rest, width, whole - width, actions, firsts)?;
        return Ok(vec![in alloc; (0, label)]?);
    }
    let signal = order.signal(place);
    let left = width - place - 1;
    if !is_tested(ways, signal) {
        let rest = split_first(alloc, ways, count, order, place + 1, letters, firsts)?;
        return Ok(lifted(alloc, &rest, left, firsts.options.len())?);
    }
    if let Some(tree) = firsts.memo.get(alloc, ways, place)? {
        push_copy(
            &mut letters.nodes,
            tree.letter,
            whole,
            letters.effects.len(),
        )?;
        push_copy(&mut firsts.nodes, tree.first, width, firsts.options.len())?;
        return Ok(tree.pairs);
    }
    let unset = part_of(alloc, ways, order, place, 0, count)?;
    let low = split_first(alloc, &unset, count, order, place + 1, letters, firsts)?;
    let letter_at = letters.nodes.len() - 1;
    let at = firsts.nodes.len() - 1;
    let set = part_of(alloc, ways, order, place, 1, count)?;
    let high = split_first(alloc, &set, count, order, place + 1, letters, firsts)?;
    let actions = letters.effects.len();
    push_split(&mut letters.nodes, place, letter_at, whole, actions)?;
    push_split(&mut firsts.nodes, place, at, width, firsts.options.len())?;
    let pairs = joined(alloc, &low, &high, left, firsts.options.len())?;
    let (letter, first) = (letters.nodes.len() - 1, firsts.nodes.len() - 1);
    firsts.memo.note(alloc, ways, place, letter, first, &pairs)?;
    Ok(pairs)
}
