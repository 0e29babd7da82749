//! Covers of sets of formulas, as lists of numbers.

ghost use Rattle.std.specs.Prelude.{◌≡◌, ◌<◌, ◌≤◌, length, All, IfOk, IfErr, Some, None, option_map, map};
ghost use Rattle.cover_sets.specs.Bits.{sets_of};
ghost use Rattle.cover_sets.specs.Cover.{covers_in, lists_of, set_from, table_of};
ghost use Rattle.cover_sets.specs.Numbers.{joined};
ghost use Rattle.cover_sets.specs.Union.{covers_of};
ghost use Rattle.cover_sets.specs.declared.cover_lists.CoverError.TheVariants.{Memory, TooWide};

use crate::bit_covers::BitCover;
use crate::number_sets::NumberSet;
use crate::tables::CoverTable;
use ltl_form::{Node, Normal};
use std::alloc::{AllocError, AllocFailed, Global};
use std::marker::Model;
use thiserror::Error;

/// A way to meet formulas: the literals of the letter, what holds next, and the untils put off, as ascending
/// lists of numbers of formulas.
#[derive(Debug, Drop)]
pub struct Cover {
    pub literals: Vec<u32>,
    pub next: Vec<u32>,
    pub postponed: Vec<u32>,
}

impl Model for Cover {
    ghost use Rattle.cover_sets.specs.Cover.{CoverData};

    ghost Value = { CoverData };

    ghost view = { λ c. record { literals = c.literals.items; next = c.next.items; postponed = c.postponed.items } };
}

/// Why a set has no list of covers.
#[derive(Debug, Clone, Copy, PartialEq, Eq, Drop, Error)]
pub enum CoverError {
    /// A reduced list is longer than 1,024.
    #[error("more than 1,024 covers")]
    TooWide,
    #[error("out of memory")]
    Memory,
}

impl From<AllocError> for CoverError {
    ghost from_gives = { λ _ e. e ≡ Memory };

    fn from(_e: AllocError) -> CoverError {
        CoverError::Memory
    }
}

impl<T: Drop> From<AllocFailed<T>> for CoverError {
    ghost from_gives = { λ _ e. e ≡ Memory };

    fn from(_e: AllocFailed<T>) -> CoverError {
        CoverError::Memory
    }
}

/// The reduced covers of a set of formulas of `f`, in their order.
///
/// The numbers of `set` ascend and are numbers of `f`. TooWide exactly where the reduced list of a formula
/// that the recursion reaches, or of a prefix of the set, is longer than 1,024.
pub fn covers(alloc: Global, f: &Normal, set: &[u32]) -> Result<Vec<Cover>, CoverError>
    requires { All (λ n. n < length f.now.nodes) set.now }
    ensures value { IfOk result (λ list. option_map (map lists_of) (covers_in (table_of f.now.nodes) (set_from set.now)) ≡ Some list.items) }
    ensures wide { IfErr result (λ e. e ≡ TooWide → covers_in (table_of f.now.nodes) (set_from set.now) ≡ None) }
{
    let table = CoverTable::new(alloc, f)?;
    let members = set_of(f.nodes(), set);
    let list = table.of_set(alloc, &members)?;
    Ok(as_lists(alloc, &list)?)
}

/// The set of these numbers.
fn set_of(nodes: &[Node], numbers: &[u32]) -> NumberSet
    requires few { length nodes.now ≤ 512 }
    requires below { All (λ n. n < length nodes.now) numbers.now }
    ensures { joined result.words ≡ set_from numbers.now }
{
    let mut members = NumberSet::EMPTY;
    for n in numbers {
        members = members.with(*n);
    }
    members
}

/// Each cover as lists.
fn as_lists(alloc: Global, covers: &[BitCover]) -> Result<Vec<Cover>, AllocError>
    ensures { IfOk result (λ list. list.items ≡ map lists_of (covers_of covers.now)) }
{
    let mut lists = Vec::new(alloc);
    for cover in covers {
        lists.push(as_list(alloc, cover)?)?;
    }
    Ok(lists)
}

/// The three sets as ascending lists.
fn as_list(alloc: Global, cover: &BitCover) -> Result<Cover, AllocError>
    ensures { IfOk result (λ list. list ≡ lists_of (sets_of cover.now)) }
{
    Ok(Cover {
        literals: cover.literals.to_list(alloc)?,
        next: cover.next.to_list(alloc)?,
        postponed: cover.postponed.to_list(alloc)?,
    })
}
