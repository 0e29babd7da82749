//! Labels numbered by their least valuations.

ghost use Rattle.std.specs.Prelude.{◌≡◌, ◌<◌, ◌≤◌, ◌+◌, ◌^◌, ℕ, length, vec_len, IfOk, OnOk};
ghost use Rattle.std.specs.List.{All, AllPairs};
ghost use Rattle.action_groups.specs.Part.{AreNodes, ArePairs};
ghost use Rattle.std.specs.Prelude.{slice_index};
ghost use Rattle.word_core.specs.Tree.{label_of};
ghost use Rattle.action_groups.specs.Rank.{IsRanked, IsNumbering, LabelIn, with_number};

use std::alloc::{AllocError, Global};
use word_core::Branch;

/// Labels behind their least valuations, in the order of these, and the number of each label in that order.
#[derive(Drop)]
pub struct Ranked {
    pub order: Vec<(u64, u64)>,
    pub numbers: Vec<u64>,
}

/// Numbers the labels by the least valuations that the pairs have of them.
pub fn rank(
    alloc: Global,
    mut pairs: Vec<(u64, u64)>,
    width: u32,
    count: usize,
) -> Result<Ranked, AllocError>
    requires pairs { ArePairs width count pairs.items }
    requires some { 0 < length pairs.items }
    ensures ranked { IfOk result (IsRanked width count) }
    ensures numbering { IfOk result (λ r. IsNumbering pairs.items r.order.items r.numbers.items) }
{
    pairs.sort()?;
    rank_sorted(alloc, &pairs, width, count)
}

/// The same for pairs in ascending order.
fn rank_sorted(
    alloc: Global,
    pairs: &[(u64, u64)],
    width: u32,
    count: usize,
) -> Result<Ranked, AllocError>
    requires pairs { ArePairs width count pairs.now }
    requires some { 0 < length pairs.now }
    requires sorted { AllPairs (λ p q. p.0 ≤ q.0) pairs.now }
    ensures ranked { IfOk result (IsRanked width count) }
    ensures numbering { IfOk result (λ r. IsNumbering pairs.now r.order.items r.numbers.items) }
{
    let mut numbers = vec![in alloc; 0; count]?;
    let mut seen = vec![in alloc; false; count]?;
    let mut order = Vec::new(alloc);
    order.push(pairs[0])?;
    seen[pairs[0].1 as usize] = true;
    for i in 1..pairs.len() {
        let pair = pairs[i];
        if !seen[pair.1 as usize] {
            seen[pair.1 as usize] = true;
            numbers[pair.1 as usize] = order.len() as u64;
            order.push(pair)?;
        }
    }
    Ok(Ranked { order, numbers })
}

/// The node with the number of its label.
fn renumbered(node: Branch, numbers: &[u64]) -> Branch
    requires { LabelIn (length numbers.now) node }
    ensures { result ≡ with_number numbers.now node }
{
    match node {
        Branch::Leaf(label) => Branch::Leaf(numbers[label as usize]),
        Branch::Split { .. } => node,
    }
}

/// The nodes with the numbers of their labels.
pub fn relabelled(
    alloc: Global,
    nodes: &[Branch],
    numbers: &[u64],
    width: u32,
    count: usize,
) -> Result<Vec<Branch>, AllocError>
    requires narrow { width ≤ 64 }
    requires nodes { AreNodes width (length numbers.now) nodes.now }
    requires some { 0 < length nodes.now }
    requires numbers { All (λ n. n < count) numbers.now }
    ensures nodes { IfOk result (λ v. AreNodes width count v.items) }
    ensures len { IfOk result (λ v. length v.items ≡ length nodes.now) }
    ensures labels { IfOk result (λ v. (bits : ℕ) → label_of v.items bits ≡ slice_index numbers.now (label_of nodes.now bits)) }
{
    let mut out = Vec::with_capacity(alloc, nodes.len())?;
    for node in nodes {
        out.push(renumbered(*node, numbers))?;
    }
    Ok(out)
}
