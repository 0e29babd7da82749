//! The covers of the sets that were met.

ghost use Rattle.std.specs.Prelude.{◌≡◌, ◌<◌, ◌≤◌, length, [], slice_index_or, IfOk, IfErr, OnOk, Some, None};
ghost use Rattle.cover_sets.specs.declared.cover_lists.CoverError.TheVariants.{TooWide};
ghost use Rattle.cover_sets.specs.Bits.{set_of};
ghost use Rattle.cover_sets.specs.Cover.{covers_in};
ghost use Rattle.cover_sets.specs.Union.{covers_of};
ghost use Rattle.tableau_nba.specs.Tableau.{AreCovers};

use cover_sets::{BitCover, CoverError, CoverTable, NumberSet};
use indexmap::IndexSet;
use std::alloc::Global;
use std::marker::Model;

/// The covers of each set, one list for all levels.
#[derive(Drop)]
pub struct Lists {
    sets: IndexSet<NumberSet>,
    lists: Vec<Covers>,
}

impl Model for Lists {
    ghost use Rattle.std.specs.Prelude.{◌≤◌, length};
    ghost use Rattle.tableau_nba.specs.Tableau.{ListsData};

    ghost Value = { ListsData };

    ghost view = { λ l. record { sets = l.sets.keys; lists = l.lists.items } };

    ghost invariant = { λ l. length l.sets.keys ≤ length l.lists.items };
}

impl Lists {
    pub fn new(alloc: Global) -> Lists
        ensures sets { result.sets ≡ [] }
        ensures lists { result.lists ≡ [] }
    {
        Lists {
            sets: IndexSet::new(alloc),
            lists: Vec::new(alloc),
        }
    }

    /// The place of the covers of a set, which are made where they aren't there yet.
    pub fn place_of(
        &mut self,
        alloc: Global,
        table: &CoverTable,
        set: &NumberSet,
    ) -> Result<usize, CoverError>
        requires { AreCovers table.now self.old.sets self.old.lists }
        ensures place { IfOk result (λ at. at < length self.new.lists) }
        ensures value { IfOk result (λ at. covers_in table.now (set_of set.now) ≡ Some (covers_of (slice_index_or self.new.lists at []))) }
        ensures covers { OnOk result (AreCovers table.now self.new.sets self.new.lists) }
        ensures wide { IfErr result (λ e. e ≡ TooWide → covers_in table.now (set_of set.now) ≡ None) }
    {
        if let Some(at) = self.sets.get_index_of(set) {
            return Ok(at);
        }
        let list = table.of_set(alloc, set)?;
        self.lists.push(Covers { list })?;
        let (at, _) = self.sets.insert_full(*set)?;
        Ok(at)
    }

    /// The covers at a place.
    pub fn at(&self, at: usize) -> &[BitCover]
        requires { at < length self.now.lists }
        ensures { result.now ≡ slice_index_or self.now.lists at [] }
    {
        self.lists[at].as_slice()
    }
}

/// The covers of one set.
#[derive(Drop)]
struct Covers {
    list: Vec<BitCover>,
}

impl Model for Covers {
    ghost use Rattle.std.specs.Prelude.{List};
    ghost use Rattle.cover_sets.specs.declared.bit_covers.BitCover.{BitCover};

    ghost Value = { List BitCover };

    ghost view = { λ c. c.list.items };
}

impl Covers {
    fn as_slice(&self) -> &[BitCover]
        ensures { result.now ≡ self.now }
    {
        &self.list
    }
}
