//! The breadth-first walk over sets of formulas with levels.

ghost use Rattle.std.specs.Prelude.{◌≡◌, ◌<◌, ◌≤◌, length, map, List, All, IfOk, IfErr, OnOk};
ghost use Rattle.indexmap.specs.IndexSet.{index_set_len, insert_key};
ghost use Rattle.cover_sets.specs.Bits.{sets_of};
ghost use Rattle.cover_sets.specs.Union.{covers_of};
ghost use Rattle.tableau_nba.specs.declared.tableaux.TableauError.TheVariants.{TooManyStates, TooWide};
ghost use Rattle.tableau_nba.specs.Tableau.{AreLiterals, AreUntils, WalkData};
ghost use Rattle.tableau_nba.specs.Walks.{all_spots, edge_in, edges_in, found, grown, same_spot, Spot, spot_of, state_in, target, too_many, too_wide, walker_of};
ghost use Rattle.word_core.specs.Automaton.{IsEdge};

use crate::cubes::{Literal, cube_of};
use crate::lists::Lists;
use crate::places::{Place, step_from};
use crate::tableaux::TableauError;
use cover_sets::{BitCover, CoverTable, NumberSet};
use indexmap::IndexSet;
use std::alloc::Global;
use word_core::{Edge, State};

/// The most states of a tableau.
const MOST: usize = 4096;

/// The states in the order in which they are met, from the one where the root alone holds.
pub fn states_from(
    alloc: Global,
    table: &CoverTable,
    literals: &[Literal],
    untils: &[u32],
    signals: u32,
    root: u32,
) -> Result<Vec<State>, TableauError>
    requires root { root < 512 }
    requires signals { signals ≤ 64 }
    requires literals { AreLiterals signals literals.now }
    requires untils { AreUntils untils.now }
    ensures some { IfOk result (λ states. 0 < length states.items) }
    ensures few { IfOk result (λ states. length states.items ≤ 4096) }
    ensures edges { IfOk result (λ states. All (All (IsEdge signals (length states.items))) states.items) }
    ensures value { IfOk result (λ states. (spots : List Spot) × (all_spots (walker_of table.now literals.now untils.now signals) root ≡ found spots) × (states.items ≡ map (state_in (walker_of table.now literals.now untils.now signals) spots) spots)) }
    ensures many { IfErr result (λ e. e ≡ TooManyStates → all_spots (walker_of table.now literals.now untils.now signals) root ≡ too_many) }
    ensures wide { IfErr result (λ e. e ≡ TooWide → all_spots (walker_of table.now literals.now untils.now signals) root ≡ too_wide) }
{
    let mut places = IndexSet::new(alloc);
    places.insert(Place {
        set: NumberSet::EMPTY.with(root),
        level: 0,
    })?;
    let mut lists = Lists::new(alloc);
    let mut states = Vec::new(alloc);
    for at in 0..MOST {
        let Some(place) = places.get_index(at) else {
            break
        };
        let place = *place;
        let list = lists.place_of(alloc, table, &place.set)?;
        let edges = edges(
            alloc,
            literals,
            untils,
            signals,
            place.level,
            lists.at(list),
            &mut places,
        )?;
        states.push(State { edges })?;
    }
    Ok(states)
}

/// The different edges from a level, in the order of the covers. The places to which they lead get numbers.
fn edges(
    alloc: Global,
    literals: &[Literal],
    untils: &[u32],
    signals: u32,
    level: u32,
    list: &[BitCover],
    places: &mut IndexSet<Place>,
) -> Result<Vec<Edge>, TableauError>
    requires signals { signals ≤ 64 }
    requires literals { AreLiterals signals literals.now }
    requires untils { AreUntils untils.now }
    requires few { index_set_len places.old ≤ 4096 }
    ensures more { OnOk result (index_set_len places.old ≤ index_set_len places.new) }
    ensures few { OnOk result (index_set_len places.new ≤ 4096) }
    ensures edges { IfOk result (λ edges. All (IsEdge signals (index_set_len places.new)) edges.items) }
    ensures places { OnOk result (map spot_of places.new.keys ≡ grown untils.now level (covers_of list.now) (map spot_of places.old.keys)) }
    ensures value { IfOk result (λ edges. edges.items ≡ edges_in literals.now untils.now (map spot_of places.new.keys) level (covers_of list.now)) }
    ensures many { IfErr result (λ e. e ≡ TooManyStates → 4096 < length (grown untils.now level (covers_of list.now) (map spot_of places.old.keys))) }
    ensures wide { IfErr result (λ e. e ≡ TooWide → ⊥) }
{
    let mut edges = IndexSet::new(alloc);
    for cover in list {
        let edge = edge(literals, untils, signals, level, cover, places)?;
        edges.insert(edge)?;
    }
    Ok(Vec::from_slice(alloc, edges.as_slice())?)
}

/// The edge of a cover. The place to which it leads gets a number.
fn edge(
    literals: &[Literal],
    untils: &[u32],
    signals: u32,
    level: u32,
    cover: &BitCover,
    places: &mut IndexSet<Place>,
) -> Result<Edge, TableauError>
    requires signals { signals ≤ 64 }
    requires literals { AreLiterals signals literals.now }
    requires untils { AreUntils untils.now }
    requires few { index_set_len places.old ≤ 4096 }
    ensures more { OnOk result (index_set_len places.old ≤ index_set_len places.new) }
    ensures few { OnOk result (index_set_len places.new ≤ 4096) }
    ensures edge { IfOk result (IsEdge signals (index_set_len places.new)) }
    ensures places { OnOk result (map spot_of places.new.keys ≡ insert_key same_spot (map spot_of places.old.keys) (target untils.now level (sets_of cover.now))) }
    ensures value { IfOk result (λ e. e ≡ edge_in literals.now untils.now (map spot_of places.new.keys) level (sets_of cover.now)) }
    ensures many { IfErr result (λ e. e ≡ TooManyStates → 4096 < length (insert_key same_spot (map spot_of places.old.keys) (target untils.now level (sets_of cover.now)))) }
    ensures wide { IfErr result (λ e. e ≡ TooWide → ⊥) }
{
    let step = step_from(untils, level, cover);
    let (next, _) = places.insert_full(step.to)?;
    if places.len() > MOST {
        return Err(TableauError::TooManyStates);
    }
    Ok(Edge {
        cube: cube_of(literals, signals, &cover.literals),
        next: next as u32,
        marked: step.marked,
    })
}
