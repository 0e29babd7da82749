//! Tables of nodes in which equal nodes stand once.

ghost use Rattle.std.specs.Prelude.{ℕ, ◌≡◌, ◌<◌, ◌≤◌, Some, IfOk, length, slice_get, []};

use indexmap::IndexSet;
use std::alloc::{AllocError, Global};
use std::marker::Model;
use word_core::Branch;

/// Nodes over at most 64 signals, each behind its two parts, which differ and test later signals.
#[derive(Drop)]
pub struct Table {
    width: u32,
    set: IndexSet<Branch>,
}

impl Model for Table {
    ghost use Rattle.letter_tree.specs.Diagram.{TreeData, IsDiagram};

    ghost Value = { TreeData };

    ghost view = { λ t. record { width = t.width; nodes = t.set.keys } };

    ghost invariant = { λ t. IsDiagram t.width t.set.keys };
}

impl Table {
    ghost use Rattle.letter_tree.specs.Diagram.{IsDiagram, AreDistinct, Grows, CanFork, IsForked};
    ghost use Rattle.word_core.specs.declared.branches.Branch.TheVariants.{Leaf};

    /// The table without nodes.
    pub fn new(alloc: Global, width: u32) -> Table
        requires { width ≤ 64 }
        ensures { result ≡ record { width = width; nodes = [] } }
    {
        Table {
            width,
            set: IndexSet::new(alloc),
        }
    }

    /// The number of signals, at most 64.
    pub fn width(&self) -> u32
        ensures { result ≡ self.now.width }
    {
        self.width
    }

    /// The nodes by place.
    pub fn nodes(&self) -> &[Branch]
        ensures value { result.now ≡ self.now.nodes }
        ensures known { IsDiagram self.now.width self.now.nodes }
        ensures distinct { AreDistinct self.now.nodes }
    {
        self.set.as_slice()
    }

    /// The place of the leaf with this label, which is put in where it isn't there yet.
    pub fn leaf(&mut self, label: u64) -> Result<u64, AllocError>
        ensures grows { Grows self.old self.new }
        ensures at { IfOk result (λ place. slice_get self.new.nodes place ≡ Some (Leaf label)) }
    {
        let (place, _) = self.set.insert_full(Branch::Leaf(label))?;
        Ok(place as u64)
    }

    /// The place of the node that goes on at `low` or `high` by the signal. Where they are one place it is that place.
    pub fn fork(&mut self, signal: u32, low: u64, high: u64) -> Result<u64, AllocError>
        requires { CanFork self.old signal low high }
        ensures grows { Grows self.old self.new }
        ensures at { IfOk result (IsForked self.new signal low high) }
    {
        let _ = &self.set;
        if low == high {
            return Ok(low);
        }
        let (place, _) = self.set.insert_full(Branch::Split { signal, low, high })?;
        Ok(place as u64)
    }
}
