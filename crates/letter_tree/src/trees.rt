//! Trees.

ghost use Rattle.std.specs.Prelude.{ℕ, ◌≡◌, ◌+◌, ◌^◌, ◌%◌, ◌<◌, ◌≤◌, IfOk, OnOk, length, slice_get, slice_index, Some, if◌then◌else◌};
ghost use Rattle.word_core.specs.Tree.{IsTree, IsNodeAt, TestsBelow, AllTestBelow, label_of, label_at};
ghost use Rattle.word_core.specs.Cube.{IsCube, holds};
ghost use Rattle.letter_tree.specs.Diagram.{IsDiagram, IsRooted, Grows, HasLeaf, top};
ghost use Rattle.letter_tree.specs.Copy.{LeavesFrom};
ghost use Rattle.letter_tree.specs.Listed.{IsListed, IsNodeOf};
ghost use Rattle.letter_tree.specs.Cubed.{IsCubed};

use crate::choices::chosen;
use crate::memos::Memo;
use crate::reached_nodes::reached;
use crate::tables::Table;
use std::alloc::{AllocError, Global};
use std::marker::Model;
use word_core::{Branch, Cube};

/// A function from the valuations of at most 64 signals to labels, by its reduced nodes.
#[derive(Debug, Drop)]
pub struct Tree {
    width: u32,
    nodes: Vec<Branch>,
}

impl Model for Tree {
    ghost use Rattle.letter_tree.specs.Diagram.{TreeData, IsRooted};

    ghost Value = { TreeData };

    ghost view = { λ t. record { width = t.width; nodes = t.nodes.items } };

    ghost invariant = { λ t. IsRooted t.width t.nodes.items };
}

impl Tree {
    /// The tree of a list of labels, one for each valuation of at most 16 signals.
    pub fn from_labels(alloc: Global, width: u32, labels: &[u64]) -> Result<Tree, AllocError>
        requires narrow { width ≤ 16 }
        requires count { length labels.now ≡ 2 ^ width }
        ensures width { IfOk result (λ t. t.width ≡ width) }
        ensures label { IfOk result (λ t. (bits : ℕ) → bits < 2 ^ width → label_of t.nodes bits ≡ slice_index labels.now bits) }
    {
        let mut table = Table::new(alloc, width);
        let root = listed(&mut table, labels, 0, 0)?;
        Tree::reduced(alloc, &table, root)
    }

    /// The tree of one label. It has at most 64 signals.
    pub fn constant(alloc: Global, width: u32, label: u64) -> Result<Tree, AllocError>
        requires { width ≤ 64 }
        ensures width { IfOk result (λ t. t.width ≡ width) }
        ensures label { IfOk result (λ t. (bits : ℕ) → label_of t.nodes bits ≡ label) }
    {
        Ok(Tree {
            width,
            nodes: vec![in alloc; Branch::Leaf(label)]?,
        })
    }

    /// The tree with the label `yes` where the cube holds, and `no` elsewhere. The cube is within
    /// the width, at most 64.
    pub fn from_cube(
        alloc: Global,
        width: u32,
        c: Cube,
        yes: u64,
        no: u64,
    ) -> Result<Tree, AllocError>
        requires narrow { width ≤ 64 }
        requires within { IsCube width c }
        ensures width { IfOk result (λ t. t.width ≡ width) }
        ensures label { IfOk result (λ t. (bits : ℕ) → label_of t.nodes bits ≡ (if holds c bits then yes else no)) }
    {
        let mut table = Table::new(alloc, width);
        let root = cubed(&mut table, c, yes, no, 0)?;
        Tree::reduced(alloc, &table, root)
    }

    /// The tree of the function of `walk` over these nodes, whose signals are below the width, at
    /// most 64.
    pub fn from_nodes(alloc: Global, width: u32, nodes: &[Branch]) -> Result<Tree, AllocError>
        requires narrow { width ≤ 64 }
        requires tree { IsTree nodes.now }
        requires signals { AllTestBelow width nodes.now }
        ensures width { IfOk result (λ t. t.width ≡ width) }
        ensures label { IfOk result (λ t. (bits : ℕ) → label_of t.nodes bits ≡ label_of nodes.now bits) }
    {
        let mut table = Table::new(alloc, width);
        let mut places = Vec::with_capacity(alloc, nodes.len())?;
        for node in nodes {
            let place = taken(alloc, &mut table, *node, &places)?;
            places.push(place)?;
        }
        Tree::reduced(alloc, &table, places[nodes.len() - 1])
    }

    /// The number of signals, at most 64.
    pub fn width(&self) -> u32
        ensures width { result ≡ self.now.width }
        ensures narrow { result ≤ 64 }
    {
        self.width
    }

    /// The nodes: those of the part for 0, those of the part for 1, then the node, each once.
    pub fn branches(&self) -> &[Branch]
        ensures value { result.now ≡ self.now.nodes }
        ensures known { IsRooted self.now.width self.now.nodes }
    {
        &self.nodes
    }

    /// The tree of what a root reaches in a table.
    pub(crate) fn reduced(alloc: Global, table: &Table, root: u64) -> Result<Tree, AllocError>
        requires { root < length table.now.nodes }
        ensures width { IfOk result (λ t. t.width ≡ table.now.width) }
        ensures label { IfOk result (λ t. (bits : ℕ) → label_of t.nodes bits ≡ label_at table.now.nodes root bits) }
        ensures leaves { IfOk result (λ t. LeavesFrom table.now.nodes t.nodes) }
    {
        Ok(Tree {
            width: table.width(),
            nodes: reached(alloc, table.nodes(), table.width(), 0, root)?,
        })
    }

    /// The tree of these nodes.
    pub(crate) fn of_parts(width: u32, nodes: Vec<Branch>) -> Tree
        requires { IsRooted width nodes.items }
        ensures { result ≡ record { width = width; nodes = nodes.items } }
    {
        Tree { width, nodes }
    }
}

/// The nodes of a reduced tree: those of the part for 0, those of the part for 1, then the node,
/// each once.
pub fn nodes(alloc: Global, t: &Tree) -> Result<Vec<Branch>, AllocError>
    ensures nodes { IfOk result (λ v. v.items ≡ t.now.nodes) }
    ensures tree { IfOk result (λ v. IsTree v.items) }
    ensures signals { IfOk result (λ v. AllTestBelow t.now.width v.items) }
{
    let all = Vec::from_slice(alloc, t.branches())?;
    Ok(all)
}

/// The place of the function that the labels give from a signal on, where the signals below it are
/// as in `prefix`.
fn listed(table: &mut Table, labels: &[u64], signal: u32, prefix: u64) -> Result<u64, AllocError>
    requires valid { IsDiagram table.old.width table.old.nodes }
    requires narrow { table.old.width ≤ 16 }
    requires count { length labels.now ≡ 2 ^ table.old.width }
    requires signal_in { signal ≤ table.old.width }
    requires prefix_in { prefix < 2 ^ signal }
    ensures grows { OnOk result (Grows table.old table.new) }
    ensures at { IfOk result (IsListed table.new labels.now signal prefix) }
{
    if signal >= table.width() {
        return table.leaf(labels[prefix as usize]);
    }
    let low = listed(table, labels, signal + 1, prefix)?;
    let high = listed(table, labels, signal + 1, prefix + (1 << signal))?;
    table.fork(signal, low, high)
}

/// The place of the function with the label `yes` where the cube holds from a signal on, and `no`
/// elsewhere.
fn cubed(table: &mut Table, c: Cube, yes: u64, no: u64, signal: u32) -> Result<u64, AllocError>
    requires valid { IsDiagram table.old.width table.old.nodes }
    requires within { IsCube table.old.width c }
    requires signal_in { signal ≤ table.old.width }
    ensures grows { OnOk result (Grows table.old table.new) }
    ensures at { IfOk result (IsCubed table.new c yes no signal) }
{
    if signal >= table.width() {
        return table.leaf(yes);
    }
    let rest = cubed(table, c, yes, no, signal + 1)?;
    if c.care >> signal & 1 == 0 {
        return Ok(rest);
    }
    let outside = table.leaf(no)?;
    if c.want >> signal & 1 == 1 {
        table.fork(signal, outside, rest)
    } else {
        table.fork(signal, rest, outside)
    }
}

/// The place of a node's function, where the places of those of earlier nodes are known.
fn taken(alloc: Global, table: &mut Table, node: Branch, places: &[u64]) -> Result<u64, AllocError>
    requires valid { IsDiagram table.old.width table.old.nodes }
    requires node { TestsBelow table.old.width (Some node) }
    requires earlier { IsNodeAt (length places.now) (Some node) }
    requires places { (i : ℕ) → i < length places.now → slice_index places.now i < length table.old.nodes }
    ensures grows { OnOk result (Grows table.old table.new) }
    ensures at { IfOk result (IsNodeOf table.new node places.now) }
{
    match node {
        Branch::Leaf(label) => table.leaf(label),
        Branch::Split { signal, low, high } => {
            let mut memo = Memo::new(alloc);
            chosen(
                table,
                &mut memo,
                signal,
                places[low as usize],
                places[high as usize],
            )
        }
    }
}
