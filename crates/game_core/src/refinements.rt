//! The maximal vectors below an entry from which a player can answer.

ghost use Rattle.std.specs.Prelude.{◌≡◌, ◌<◌, ◌&&◌, ◌||◌, ℕ, List, ℤ, true, false, length, vec_len, IfOk, IfSome, IfNone, OnOk, not, slice_index_or};
ghost use Rattle.std.specs.List.{All, AllPairs, filter, list_any};
ghost use Rattle.counter_vec.specs.Counters.{at_or_below, met, AreCounters};
ghost use Rattle.game_core.specs.Columns.{column_at, some_covers, each_covers, MissesAll};
ghost use Rattle.game_core.specs.Flat.{picked};
ghost use Rattle.game_core.specs.Front.{IsApart, IsPiece, Misses, under};
ghost use Rattle.game_core.specs.Plan.{AreActions};
ghost use Rattle.game_form.specs.Game.{lanes};
ghost use Rattle.game_core.specs.Tried.{AreOptions};
ghost use Rattle.game_form.specs.Vector.{IsVector};

use crate::columns::Column;
use crate::fronts::is_under;
use antichain_list::Entry;
use counter_vec::Counters;
use std::alloc::{AllocError, Global};

/// Drops the vectors at or below `v`.
fn drop_below(kept: &mut Vec<Counters>, v: &Counters)
    ensures { kept.new.items ≡ filter (λ x. not (at_or_below x v.now)) kept.old.items }
{
    kept.retain(|x| !x.at_or_below(v));
}

/// Adds a piece of `f` to a list of maximal ones.
fn add_maximal(kept: &mut Vec<Counters>, piece: Counters, f: &Counters) -> Result<(), AllocError>
    requires piece { IsPiece f.now piece }
    requires kept { All (IsPiece f.now) kept.old.items }
    requires apart { AllPairs IsApart kept.old.items }
    ensures kept { All (IsPiece f.now) kept.new.items }
    ensures apart { AllPairs IsApart kept.new.items }
    ensures under { OnOk result ((u : List ℤ) → under kept.new.items u ≡ (under kept.old.items u || at_or_below u piece)) }
{
    if is_under(kept, &piece) {
        return Ok(());
    }
    add_missed(kept, piece, f)
}

/// Adds a piece of `f` to the front of a list of maximal ones, none of which is at or above it.
fn add_missed(kept: &mut Vec<Counters>, piece: Counters, f: &Counters) -> Result<(), AllocError>
    requires piece { IsPiece f.now piece }
    requires kept { All (IsPiece f.now) kept.old.items }
    requires apart { AllPairs IsApart kept.old.items }
    requires missed { Misses piece kept.old.items }
    ensures kept { All (IsPiece f.now) kept.new.items }
    ensures apart { AllPairs IsApart kept.new.items }
    ensures under { OnOk result ((u : List ℤ) → under kept.new.items u ≡ (under kept.old.items u || at_or_below u piece)) }
{
    drop_below(kept, &piece);
    kept.insert(0, piece)?;
    Ok(())
}

/// The place of a vector at or above the meet of `v` and `p`, looked for at the place `likely` first.
fn find_met(vectors: &[Counters], v: &Counters, p: &Counters, likely: usize) -> Option<usize>
    requires { length v.now ≡ length p.now }
    ensures some { IfSome result (λ _. under vectors.now (met v.now p.now) ≡ true) }
    ensures none { IfNone result (Misses (met v.now p.now) vectors.now) }
{
    if likely < vectors.len() && v.meet_at_or_below(p, &vectors[likely]) {
        return Some(likely);
    }
    for i in 0..vectors.len() {
        if v.meet_at_or_below(p, &vectors[i]) {
            return Some(i);
        }
    }
    None
}

/// Adds what is at or below `v`, which is `f` or a piece of it, and a member of the column. `likely` is the place
/// of the vector that was last at or above such a meet.
fn add_meet(
    alloc: Global,
    v: &Counters,
    p: &Counters,
    kept: &mut Vec<Counters>,
    f: &Counters,
    likely: &mut usize,
) -> Result<(), AllocError>
    requires same { length v.now ≡ length p.now }
    requires under { at_or_below v.now f.now ≡ true }
    requires strict { (m : List ℤ) → at_or_below m v.now ≡ true → at_or_below m p.now ≡ true → at_or_below f.now m ≡ false }
    requires kept { All (IsPiece f.now) kept.old.items }
    requires apart { AllPairs IsApart kept.old.items }
    ensures kept { All (IsPiece f.now) kept.new.items }
    ensures apart { AllPairs IsApart kept.new.items }
    ensures under { OnOk result ((u : List ℤ) → under kept.new.items u ≡ (under kept.old.items u || (at_or_below u v.now && at_or_below u p.now))) }
{
    if let Some(at) = find_met(kept, v, p, *likely) {
        *likely = at;
        return Ok(());
    }
    let meet = v.meet(alloc, p)?;
    let _ = meet.lanes();
    add_missed(kept, meet, f)
}

/// Adds what of `f` is at or below a member at some places of a column that has nothing at or above `f`.
fn add_first(
    alloc: Global,
    f: &Counters,
    column: &Column,
    places: &[usize],
    kept: &mut Vec<Counters>,
) -> Result<(), AllocError>
    requires same { All (λ p. length p ≡ length f.now) column.now.items }
    requires places { All (λ i. i < length column.now.items) places.now }
    requires strict { Misses f.now column.now.items }
    requires kept { All (IsPiece f.now) kept.old.items }
    requires apart { AllPairs IsApart kept.old.items }
    ensures kept { All (IsPiece f.now) kept.new.items }
    ensures apart { AllPairs IsApart kept.new.items }
    ensures under { OnOk result ((u : List ℤ) → under kept.new.items u ≡ (under kept.old.items u || (at_or_below u f.now && under (picked column.now.items places.now) u))) }
{
    let mut likely = 0;
    for j in 0..places.len() {
        add_meet(alloc, f, column.low(places[j]), kept, f, &mut likely)?;
    }
    Ok(())
}

/// Adds what of `f` is at or below a member of a column that has nothing at or above `f`.
fn add_column(
    alloc: Global,
    f: &Counters,
    column: &Column,
    kept: &mut Vec<Counters>,
) -> Result<(), AllocError>
    requires same { All (λ p. length p ≡ length f.now) column.now.items }
    requires strict { Misses f.now column.now.items }
    requires kept { All (IsPiece f.now) kept.old.items }
    requires apart { AllPairs IsApart kept.old.items }
    ensures kept { All (IsPiece f.now) kept.new.items }
    ensures apart { AllPairs IsApart kept.new.items }
    ensures under { OnOk result ((u : List ℤ) → under kept.new.items u ≡ (under kept.old.items u || (at_or_below u f.now && under column.now.items u))) }
{
    let tops = column.tops(alloc)?;
    add_first(alloc, f, column, &tops, kept)
}

/// Adds what of a piece of `f` is at or below a member of a column at some places.
fn add_more(
    alloc: Global,
    piece: &Counters,
    column: &Column,
    places: &[usize],
    kept: &mut Vec<Counters>,
    f: &Counters,
) -> Result<(), AllocError>
    requires piece { IsPiece f.now piece.now }
    requires same { All (λ p. length p ≡ length f.now) column.now.items }
    requires places { All (λ i. i < length column.now.items) places.now }
    requires kept { All (IsPiece f.now) kept.old.items }
    requires apart { AllPairs IsApart kept.old.items }
    ensures kept { All (IsPiece f.now) kept.new.items }
    ensures apart { AllPairs IsApart kept.new.items }
    ensures under { OnOk result ((u : List ℤ) → under kept.new.items u ≡ (under kept.old.items u || (at_or_below u piece.now && under (picked column.now.items places.now) u))) }
{
    let mut likely = 0;
    for j in 0..places.len() {
        add_meet(alloc, piece, column.low(places[j]), kept, f, &mut likely)?;
    }
    Ok(())
}

/// The maximal vectors below `f` that answer one of these options, none of which `f` answers itself.
pub fn refine_options(
    alloc: Global,
    f: &Counters,
    columns: &[Column],
    options: &[u64],
) -> Result<Vec<Counters>, AllocError>
    requires options { AreActions (length columns.now) options.now }
    requires same { All (λ c. All (λ p. length p ≡ length f.now) c.items) columns.now }
    requires strict { MissesAll f.now columns.now options.now }
    ensures pieces { IfOk result (λ v. All (IsPiece f.now) v.items) }
    ensures apart { IfOk result (λ v. AllPairs IsApart v.items) }
    ensures under { IfOk result (λ v. (u : List ℤ) → under v.items u ≡ (at_or_below u f.now && some_covers u columns.now options.now)) }
{
    let mut kept = Vec::new(alloc);
    for i in 0..options.len() {
        add_column(alloc, f, &columns[options[i] as usize], &mut kept)?;
    }
    Ok(kept)
}

/// The maximal vectors below pieces of `f` that answer one action.
fn narrowed(
    alloc: Global,
    pieces: &[Counters],
    column: &Column,
    f: &Counters,
) -> Result<Vec<Counters>, AllocError>
    requires pieces { All (IsPiece f.now) pieces.now }
    requires same { All (λ p. length p ≡ length f.now) column.now.items }
    ensures pieces { IfOk result (λ v. All (IsPiece f.now) v.items) }
    ensures apart { IfOk result (λ v. AllPairs IsApart v.items) }
    ensures under { IfOk result (λ v. (u : List ℤ) → under v.items u ≡ (under pieces.now u && under column.now.items u)) }
{
    let tops = column.tops(alloc)?;
    let mut kept = Vec::new(alloc);
    for i in 0..pieces.len() {
        add_more(alloc, &pieces[i], column, &tops, &mut kept, f)?;
    }
    Ok(kept)
}

/// The maximal vectors below `f` that answer all of these options, of which `failing` isn't answered by `f`.
fn refine_class(
    alloc: Global,
    f: &Counters,
    columns: &[Column],
    options: &[u64],
    failing: u64,
) -> Result<Vec<Counters>, AllocError>
    requires options { AreActions (length columns.now) options.now }
    requires failing { failing < length columns.now }
    requires same { All (λ c. All (λ p. length p ≡ length f.now) c.items) columns.now }
    requires strict { Misses f.now (column_at columns.now failing) }
    ensures pieces { IfOk result (λ v. All (IsPiece f.now) v.items) }
    ensures apart { IfOk result (λ v. AllPairs IsApart v.items) }
    ensures under { IfOk result (λ v. (u : List ℤ) → under v.items u ≡ ((at_or_below u f.now && under (column_at columns.now failing) u) && each_covers u columns.now options.now)) }
{
    let mut pieces = Vec::new(alloc);
    add_column(alloc, f, &columns[failing as usize], &mut pieces)?;
    for i in 0..options.len() {
        pieces = narrowed(alloc, &pieces, &columns[options[i] as usize], f)?;
    }
    Ok(pieces)
}

/// Adds pieces of `f` to a list of maximal ones.
fn add_all(kept: &mut Vec<Counters>, pieces: Vec<Counters>, f: &Counters) -> Result<(), AllocError>
    requires pieces { All (IsPiece f.now) pieces.items }
    requires kept { All (IsPiece f.now) kept.old.items }
    requires apart { AllPairs IsApart kept.old.items }
    ensures kept { All (IsPiece f.now) kept.new.items }
    ensures apart { AllPairs IsApart kept.new.items }
    ensures under { OnOk result ((u : List ℤ) → under kept.new.items u ≡ (under kept.old.items u || under pieces.items u)) }
{
    for piece in pieces {
        add_maximal(kept, piece, f)?;
    }
    Ok(())
}

/// The maximal vectors below `f` that answer all options of some class; `failing` has for each class an option that `f`
/// doesn't answer.
pub fn refine_classes(
    alloc: Global,
    f: &Counters,
    columns: &[Column],
    plan: &[Vec<u64>],
    failing: &[u64],
) -> Result<Vec<Counters>, AllocError>
    requires plan { All (λ c. AreActions (length columns.now) c.items) plan.now }
    requires each { length failing.now ≡ length plan.now }
    requires failing { AreActions (length columns.now) failing.now }
    requires same { All (λ c. All (λ p. length p ≡ length f.now) c.items) columns.now }
    requires strict { MissesAll f.now columns.now failing.now }
    requires options { AreOptions plan.now failing.now }
    ensures pieces { IfOk result (λ v. All (IsPiece f.now) v.items) }
    ensures apart { IfOk result (λ v. AllPairs IsApart v.items) }
    ensures under { IfOk result (λ v. (u : List ℤ) → under v.items u ≡ (at_or_below u f.now && list_any (λ c. each_covers u columns.now c.items) plan.now)) }
{
    let mut kept = Vec::new(alloc);
    for c in 0..plan.len() {
        let pieces = refine_class(alloc, f, columns, &plan[c], failing[c])?;
        add_all(&mut kept, pieces, f)?;
    }
    Ok(kept)
}
