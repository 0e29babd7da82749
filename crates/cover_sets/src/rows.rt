//! The covers of one formula.

ghost use Rattle.std.specs.Prelude.{◌≡◌, ◌≤◌, length, IfOk, IfErr, None, Some};
ghost use Rattle.cover_sets.specs.Union.{covers_of};
ghost use Rattle.cover_sets.specs.declared.cover_lists.CoverError.TheVariants.{TooWide};

use crate::bit_covers::BitCover;
use crate::cover_lists::CoverError;
use std::marker::Model;

/// The reduced list of covers of a formula, or none where it, or a list that it needs, is too wide.
#[derive(Drop)]
pub struct Row {
    list: Option<Vec<BitCover>>,
}

impl Model for Row {
    ghost use Rattle.std.specs.Prelude.{◌≤◌, List, Option, IfSome, option_map, length};
    ghost use Rattle.cover_sets.specs.Covers.{CoverSets};
    ghost use Rattle.cover_sets.specs.Union.{covers_of};

    ghost Value = { Option (List CoverSets) };

    ghost view = { λ r. option_map (λ list. covers_of list.items) r.list };

    ghost invariant = { λ r. IfSome r.list (λ list. length list.items ≤ 1024) };
}

impl Row {
    /// Too wide.
    pub fn wide() -> Row
        ensures { result ≡ None }
    {
        Row { list: None }
    }

    pub fn new(list: Vec<BitCover>) -> Row
        requires { length list.items ≤ 1024 }
        ensures { result ≡ Some (covers_of list.items) }
    {
        Row { list: Some(list) }
    }

    /// The list.
    pub fn list(&self) -> Result<&[BitCover], CoverError>
        ensures value { IfOk result (λ list. self.now ≡ Some (covers_of list.now)) }
        ensures narrow { IfOk result (λ list. length list.now ≤ 1024) }
        ensures wide { IfErr result (λ e. self.now ≡ None) }
    {
        match &self.list {
            Some(list) => Ok(list),
            None => Err(CoverError::TooWide),
        }
    }
}
