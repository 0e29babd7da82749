//! The breadth-first walk from the whole formula.

ghost use Rattle.std.specs.Prelude.{◌≡◌, ◌<◌, ◌≤◌, ◌+◌, length, List, All, IfOk, IfErr};
ghost use Rattle.tableau_nba.specs.Acceptance.{AcceptsTruthOf};
ghost use Rattle.tableau_nba.specs.Walks.{all_spots, automaton_in, found, Spot, too_many, too_wide, walk_data};
ghost use Rattle.ltl_form.specs.Normal.{LiteralsBelow};
ghost use Rattle.cover_sets.specs.declared.cover_lists.CoverError.TheVariants.{TooWide as Wide};
ghost use Rattle.tableau_nba.specs.declared.tableaux.TableauError.TheVariants.{Memory, TooManyStates, TooWide};

use crate::cubes::literals_of;
use crate::places::untils_of;
use crate::walks::states_from;
use cover_sets::{CoverError, CoverTable};
use ltl_form::Normal;
use std::alloc::{AllocError, AllocFailed, Global};
use thiserror::Error;
use word_core::Automaton;

/// Why a formula has no tableau.
#[derive(Debug, Clone, Copy, PartialEq, Eq, Drop, Error)]
pub enum TableauError {
    /// A reduced list of covers is longer than 1,024.
    #[error("more than 1,024 covers")]
    TooWide,
    /// There would be a 4,097th state.
    #[error("more than 4,096 states")]
    TooManyStates,
    #[error("out of memory")]
    Memory,
}

impl From<AllocError> for TableauError {
    ghost from_gives = { λ _ e. e ≡ Memory };

    fn from(_e: AllocError) -> TableauError {
        TableauError::Memory
    }
}

impl<T: Drop> From<AllocFailed<T>> for TableauError {
    ghost from_gives = { λ _ e. e ≡ Memory };

    fn from(_e: AllocFailed<T>) -> TableauError {
        TableauError::Memory
    }
}

impl From<CoverError> for TableauError {
    ghost from_gives = { λ e t. (t ≡ TooWide → e ≡ Wide) × (t ≡ TooManyStates → ⊥) };

    fn from(e: CoverError) -> TableauError {
        match e {
            CoverError::TooWide => TableauError::TooWide,
            CoverError::Memory => TableauError::Memory,
        }
    }
}

/// The automaton that accepts exactly the lassos on which `f` holds.
///
/// The literals of `f` are below `signals`, which is at most 64. TooWide and TooManyStates come exactly where the
/// breadth-first walk meets a list of more than 1,024 covers, or a 4,097th state.
pub fn tableau(alloc: Global, f: &Normal, signals: u32) -> Result<Automaton, TableauError>
    requires literals { LiteralsBelow signals f.now.nodes }
    requires signals { signals ≤ 64 }
    ensures signals { IfOk result (λ a. a.signals ≡ signals) }
    ensures value { IfOk result (λ a. (spots : List Spot) × (all_spots (walk_data f.now.nodes signals) f.now.root ≡ found spots) × (a ≡ automaton_in (walk_data f.now.nodes signals) spots)) }
    ensures accepts { IfOk result (λ a. AcceptsTruthOf f.now.nodes f.now.root a) }
    ensures many { IfErr result (λ e. e ≡ TooManyStates → all_spots (walk_data f.now.nodes signals) f.now.root ≡ too_many) }
    ensures wide { IfErr result (λ e. e ≡ TooWide → all_spots (walk_data f.now.nodes signals) f.now.root ≡ too_wide) }
{
    let table = CoverTable::new(alloc, f)?;
    let literals = literals_of(alloc, f.nodes(), signals)?;
    let untils = untils_of(alloc, f.nodes())?;
    let states = states_from(alloc, &table, &literals, &untils, signals, f.root())?;
    match Automaton::make(signals, states, Some(0)) {
        Some(automaton) => Ok(automaton),
        None => unreachable!(),
    }
}
