//! Trees of the other side's valuations.

ghost use Rattle.std.specs.Prelude.{◌≡◌, ◌<◌, ◌≤◌, ◌+◌, ◌*◌, ◌^◌, ℕ, length, slice_index, IfOk, Some};
ghost use Rattle.word_core.specs.Tree.{LabelHas, label_of};
ghost use Rattle.game_form.specs.Tree.{IsTreeOver};
ghost use Rattle.strategy_play.specs.Restriction.{NodeFits, NodesFit, restricted_to};

use letter_tree::Tree;
use std::alloc::{AllocError, Global};
use word_core::Branch;

/// The tree over the `other` signals behind the first `width` ones, where those are as in `own` and each label is
/// replaced by the one at its place in the list.
pub fn restricted(
    alloc: Global,
    nodes: &[Branch],
    labels: &[u64],
    width: u32,
    own: u64,
    other: u32,
) -> Result<Tree, AllocError>
    requires tree { IsTreeOver (width + other) (length labels.now) nodes.now }
    requires narrow { width + other ≤ 64 }
    requires own { own < 2 ^ width }
    ensures width { IfOk result (λ t. t.width ≡ other) }
    ensures label { IfOk result (λ t. (bits : ℕ) → label_of t.nodes bits ≡ slice_index labels.now (label_of nodes.now (own + bits * 2 ^ width))) }
{
    let mut out = Vec::with_capacity(alloc, nodes.len())?;
    for node in nodes {
        let restricted = restricted_node(*node, labels, width, own, other, &out);
        out.push(restricted)?;
    }
    Tree::from_nodes(alloc, other, &out)
}

/// The node that takes the place of one behind those that are made.
fn restricted_node(
    node: Branch,
    labels: &[u64],
    width: u32,
    own: u64,
    other: u32,
    out: &[Branch],
) -> Branch
    requires fits { NodeFits (width + other) (length out.now) node }
    requires label { LabelHas (λ l. l < length labels.now) (Some node) }
    requires narrow { width + other ≤ 64 }
    requires nodes { NodesFit other out.now }
    ensures value { result ≡ restricted_to labels.now width own out.now node }
    ensures fits { NodeFits other (length out.now) result }
{
    match node {
        Branch::Leaf(label) => Branch::Leaf(labels[label as usize]),
        Branch::Split { signal, low, high } => {
            if signal < width {
                out[if own >> signal & 1 == 1 { high } else { low } as usize]
            } else {
                Branch::Split {
                    signal: signal - width,
                    low,
                    high,
                }
            }
        }
    }
}
