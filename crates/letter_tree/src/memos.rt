//! Notes of places by pairs of places.

ghost use Rattle.std.specs.Prelude.{◌≡◌, [], IfOk};

use std::alloc::{AllocError, Global};
use std::collections::HashMap;
use std::marker::Model;

/// For pairs of places a place.
#[derive(Drop)]
pub struct Memo {
    map: HashMap<(u64, u64), u64>,
}

impl Model for Memo {
    ghost use Rattle.std.specs.Prelude.{ℕ, List};

    ghost Value = { List ((ℕ × ℕ) × ℕ) };

    ghost view = { λ m. m.map.entries };
}

impl Memo {
    ghost use Rattle.letter_tree.specs.Memo.{noted, IsNoted};

    /// No notes.
    pub fn new(alloc: Global) -> Memo
        ensures { result ≡ [] }
    {
        Memo {
            map: HashMap::new(alloc),
        }
    }

    /// The place that is noted for a pair.
    pub fn get(&self, x: u64, y: u64) -> Option<u64>
        ensures { result ≡ noted self.now x y }
    {
        self.map.get(&(x, y)).copied()
    }

    /// Notes a place for a pair, and gives it back.
    pub fn note(&mut self, x: u64, y: u64, place: u64) -> Result<u64, AllocError>
        ensures { IfOk result (IsNoted self.old self.new x y place) }
    {
        self.map.insert((x, y), place)?;
        Ok(place)
    }
}
