//! Trees cut into a function of the first signals and functions of the others.

ghost use Rattle.std.specs.Prelude.{ℕ, ◌≡◌, ◌+◌, ◌-◌, ◌/◌, ◌^◌, ◌<◌, ◌≤◌, IfOk, All, Some, length, slice_index};
ghost use Rattle.word_core.specs.Tree.{label_at, label_of, LabelHas, AllLabels};
ghost use Rattle.letter_tree.specs.Diagram.{IsRooted, HasLeaf};
ghost use Rattle.letter_tree.specs.Cut.{stopped, relabelled, end_at, rest_label, IsEnd, IsFront, ArePlaced, IsSplit, AreNumbered};

use crate::occurrences::leasts_of;
use crate::reached_nodes::reached;
use crate::trees::Tree;
use std::alloc::{AllocError, Global};
use word_core::Branch;

/// The function from the valuations of the first `width` signals to numbers of functions of the
/// other signals, and these functions, each once, in the order of the least valuations that have
/// them.
pub fn split(alloc: Global, t: &Tree, width: u32) -> Result<(Tree, Vec<Tree>), AllocError>
    requires { width ≤ t.now.width }
    ensures front { IfOk result (λ r. r.0.width ≡ width) }
    ensures rests { IfOk result (λ r. All (λ t'. t'.width ≡ t.now.width - width) r.1.items) }
    ensures numbers { IfOk result (λ r. AllLabels (λ l. l < length r.1.items) r.0.nodes) }
    ensures some { IfOk result (λ r. 0 < length r.1.items) }
    ensures label { IfOk result (λ r. IsSplit width t.now.nodes r.0.nodes r.1.items) }
    ensures order { IfOk result (λ r. AreNumbered t.now.width width r.0.nodes r.1.items) }
{
    let nodes = t.branches();
    let whole = t.width();
    let cut = Tree::of_parts(width, front(alloc, nodes, whole, width)?);
    let ends = leasts_of(alloc, &cut)?;
    let rests = rests(alloc, nodes, whole, width, &ends)?;
    Ok((numbered(alloc, &cut, nodes.len(), &ends)?, rests))
}

/// The nodes that the last one reaches over nodes that test signals below `width`, in the same
/// order. The first others are leaves, each with its place as its label.
fn front(alloc: Global, nodes: &[Branch], whole: u32, width: u32) -> Result<Vec<Branch>, AllocError>
    requires tree { IsRooted whole nodes.now }
    requires width { width ≤ whole }
    ensures { IfOk result (λ out. IsFront nodes.now whole width out.items) }
{
    let mut all = Vec::with_capacity(alloc, nodes.len())?;
    for (place, node) in nodes.iter().enumerate() {
        all.push(stop(*node, width, place as u64))?;
    }
    reached(alloc, &all, width, 0, nodes.len() as u64 - 1)
}

/// The node, where it tests a signal below `width`, and else a leaf with its place.
fn stop(node: Branch, width: u32, place: u64) -> Branch
    ensures { result ≡ stopped width place node }
{
    match node {
        Branch::Leaf(_) => Branch::Leaf(place),
        Branch::Split { signal, .. } => {
            if signal < width {
                node
            } else {
                Branch::Leaf(place)
            }
        }
    }
}

/// The functions of the other signals at the ends.
fn rests(
    alloc: Global,
    nodes: &[Branch],
    whole: u32,
    width: u32,
    ends: &[(u64, u64)],
) -> Result<Vec<Tree>, AllocError>
    requires tree { IsRooted whole nodes.now }
    requires width { width ≤ whole }
    requires ends { All (λ p. IsEnd nodes.now whole width p.1) ends.now }
    ensures count { IfOk result (λ v. length v.items ≡ length ends.now) }
    ensures width { IfOk result (λ v. All (λ t. t.width ≡ whole - width) v.items) }
    ensures each { IfOk result (λ v. (i bits : ℕ) → i < length ends.now → rest_label v.items i (bits / 2 ^ width) ≡ label_at nodes.now (end_at ends.now i) bits) }
{
    let mut out = Vec::with_capacity(alloc, ends.len())?;
    for (_, place) in ends {
        let rest = reached(alloc, nodes, whole, width, *place)?;
        out.push(Tree::of_parts(whole - width, rest))?;
    }
    Ok(out)
}

/// The tree whose labels, which are below `count`, are replaced by their places in a list that has
/// them all.
fn numbered(
    alloc: Global,
    cut: &Tree,
    count: usize,
    ends: &[(u64, u64)],
) -> Result<Tree, AllocError>
    requires labels { AllLabels (λ l. l < count) cut.now.nodes }
    requires ends { All (λ p. p.1 < count) ends.now }
    requires some { 0 < length ends.now }
    requires known { (bits : ℕ) → (i : ℕ) × (i < length ends.now) × (end_at ends.now i ≡ label_of cut.now.nodes bits) }
    ensures width { IfOk result (λ t. t.width ≡ cut.now.width) }
    ensures numbers { IfOk result (λ t. AllLabels (λ l. l < length ends.now) t.nodes) }
    ensures below { IfOk result (λ t. (bits : ℕ) → label_of t.nodes bits < length ends.now) }
    ensures places { IfOk result (λ t. ArePlaced ends.now cut.now.nodes t.nodes) }
{
    let numbers = numbers(alloc, count, ends)?;
    let mut nodes = Vec::with_capacity(alloc, cut.branches().len())?;
    for node in cut.branches() {
        nodes.push(renumbered(*node, &numbers))?;
    }
    Ok(Tree::of_parts(cut.width(), nodes))
}

/// For each place its number in a list of labels that are below `count`.
fn numbers(alloc: Global, count: usize, ends: &[(u64, u64)]) -> Result<Vec<u64>, AllocError>
    requires ends { All (λ p. p.1 < count) ends.now }
    requires some { 0 < length ends.now }
    ensures count { IfOk result (λ v. length v.items ≡ count) }
    ensures numbers { IfOk result (λ v. (i : ℕ) → slice_index v.items i < length ends.now) }
    ensures places { IfOk result (λ v. (i : ℕ) → i < length ends.now → end_at ends.now (slice_index v.items (end_at ends.now i)) ≡ end_at ends.now i) }
{
    let mut out = vec![in alloc; 0; count]?;
    for (number, (_, label)) in ends.iter().enumerate() {
        out[*label as usize] = number as u64;
    }
    Ok(out)
}

/// The node with the number of its label.
fn renumbered(node: Branch, numbers: &[u64]) -> Branch
    requires { LabelHas (λ l. l < length numbers.now) (Some node) }
    ensures { result ≡ relabelled numbers.now node }
{
    match node {
        Branch::Leaf(label) => Branch::Leaf(numbers[label as usize]),
        Branch::Split { .. } => node,
    }
}
