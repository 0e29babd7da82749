//! Notes of the trees of remaining edges.

ghost use Rattle.std.specs.Prelude.{ℕ, List, OnOk, IfOk, IfSome};

use crate::ways::Way;
use indexmap::IndexMap;
use std::alloc::{AllocError, Global};
use std::marker::Model;

/// Where the tree of some edges stands: its last node among those of the tree of letters, and its last one among those of
/// first valuations where it splits these; and the pairs of its labels.
#[derive(Drop)]
pub struct Subtree {
    pub letter: usize,
    pub first: usize,
    pub pairs: Vec<(u64, u64)>,
}

/// For places of the order and the edges that remain there their trees.
#[derive(Drop)]
pub struct Memo {
    map: IndexMap<(u32, Vec<Way>), Subtree>,
}

impl Model for Memo {
    ghost use Rattle.std.specs.Prelude.{List};
    ghost use Rattle.action_groups.specs.Memo.{Note, notes_of};

    ghost Value = { List Note };

    ghost view = { λ m. notes_of m.map.entries };
}

impl Memo {
    ghost use Rattle.std.specs.Prelude.{◌≡◌, []};
    ghost use Rattle.std.specs.List.{Contains};
    ghost use Rattle.action_groups.specs.Memo.{IsNoted, note_by, note_of};

    /// No notes.
    pub fn new(alloc: Global) -> Memo
        ensures { result ≡ [] }
    {
        Memo {
            map: IndexMap::new(alloc),
        }
    }

    /// The tree that is noted for these edges at a place.
    pub fn get(
        &self,
        alloc: Global,
        ways: &[Way],
        place: u32,
    ) -> Result<Option<Subtree>, AllocError>
        ensures { IfOk result (λ o. IfSome o (λ t. Contains self.now (note_of place ways.now t))) }
    {
        let key = (place, ways.to_vec(alloc)?);
        let Some(tree) = self.map.get(&key) else {
            return Ok(None);
        };
        Ok(Some(Subtree {
            letter: tree.letter,
            first: tree.first,
            pairs: tree.pairs.clone()?,
        }))
    }

    /// Notes the tree of these edges at a place, by its last nodes and the pairs of its labels.
    pub fn note(
        &mut self,
        alloc: Global,
        ways: &[Way],
        place: u32,
        letter: usize,
        first: usize,
        pairs: &[(u64, u64)],
    ) -> Result<(), AllocError>
        ensures { OnOk result (IsNoted self.old self.new (note_by place ways.now letter first pairs.now)) }
    {
        let key = (place, ways.to_vec(alloc)?);
        let tree = Subtree {
            letter,
            first,
            pairs: pairs.to_vec(alloc)?,
        };
        self.map.insert(key, tree)?;
        Ok(())
    }
}
