//! Whether a player can answer one step from an entry.

ghost use Rattle.std.specs.Prelude.{◌≡◌, ◌<◌, ◌≤◌, ◌+◌, ℕ, List, ℤ, true, false, length, map, vec_len, IfOk, IfSome, IfNone, IsTrue, OnOk, slice_index_or};
ghost use Rattle.std.specs.List.{All, Contains, list_any};
ghost use Rattle.cpre_step.specs.Refinement.{action_works};
ghost use Rattle.game_form.specs.Game.{lanes};
ghost use Rattle.game_form.specs.Vector.{IsVector};
ghost use Rattle.game_core.specs.Front.{Misses, under};
ghost use Rattle.game_core.specs.Plan.{AreActions, NoneWorks};
ghost use Rattle.game_core.specs.Columns.{AreColumns, AreFull, HaveGrown, IsColumn, MissesAll, column_at, some_covers, each_covers};

use crate::columns::Column;
use crate::fronts::{find_cover, noted, place_noted};
use antichain_list::Entry;
use counter_vec::Counters;
use game_form::Game;
use std::alloc::{AllocError, Global};

/// Adds to a column the predecessors that it lacks.
#[tactic(auto, using(crate::proofs::ColumnReads::column_pushed))]
fn fill_column(
    alloc: Global,
    g: &Game,
    vectors: &[Counters],
    column: &mut Column,
    action: u64,
) -> Result<(), AllocError>
    requires vectors { All (IsVector g.now) vectors.now }
    requires action { action < length g.now.actions }
    requires column { IsColumn g.now action vectors.now column.old.items }
    ensures column { IsColumn g.now action vectors.now column.new.items }
    ensures grown { length column.old.items ≤ length column.new.items }
    ensures full { OnOk result (length column.new.items ≡ length vectors.now) }
{
    for j in column.len()..vectors.len() {
        column.push(vectors[j].pre(alloc, g, action)?)?;
    }
    Ok(())
}

/// Fills a column all of whose predecessors are wanted.
fn fill_wanted(
    alloc: Global,
    g: &Game,
    vectors: &[Counters],
    column: &mut Column,
    action: u64,
) -> Result<(), AllocError>
    requires vectors { All (IsVector g.now) vectors.now }
    requires action { action < length g.now.actions }
    requires column { IsColumn g.now action vectors.now column.old.items }
    ensures column { IsColumn g.now action vectors.now column.new.items }
    ensures grown { length column.old.items ≤ length column.new.items }
    ensures full { OnOk result (length column.new.items ≡ length vectors.now) }
{
    column.want();
    fill_column(alloc, g, vectors, column, action)
}

/// Fills the columns of these options.
pub fn fill(
    alloc: Global,
    g: &Game,
    vectors: &[Counters],
    columns: &mut [Column],
    options: &[u64],
) -> Result<(), AllocError>
    requires vectors { All (IsVector g.now) vectors.now }
    requires options { AreActions (length g.now.actions) options.now }
    requires columns { AreColumns g.now vectors.now columns.old }
    ensures columns { AreColumns g.now vectors.now columns.new }
    ensures grown { HaveGrown columns.old columns.new }
    ensures full { OnOk result (AreFull vectors.now columns.new options.now) }
{
    for action in options {
        let column = &mut columns[*action as usize];
        fill_wanted(alloc, g, vectors, column, *action)?;
    }
    Ok(())
}

/// Whether the entry of a place answers one of these options.
fn is_answered(columns: &[Column], f: &Counters, options: &[u64], place: usize) -> bool
    requires { AreActions (length columns.now) options.now }
    ensures { IsTrue result → some_covers f.now columns.now options.now ≡ true }
{
    for action in options {
        let column = &columns[*action as usize];
        if place < column.len() && f.at_or_below(column.low(place)) {
            return true;
        }
    }
    false
}

/// An entry at or above the successor of `f` under an action.
fn find_by_step(
    alloc: Global,
    g: &Game,
    vectors: &[Counters],
    f: &Counters,
    action: u64,
) -> Result<Option<usize>, AllocError>
    requires entry { IsVector g.now f.now }
    requires action { action < length g.now.actions }
    ensures some { IfOk result (λ o. IfSome o (λ _. action_works g.now vectors.now f.now action ≡ true)) }
    ensures none { IfOk result (λ o. IfNone o (action_works g.now vectors.now f.now action ≡ false)) }
{
    let next = f.succ(alloc, g, action)?;
    Ok(find_cover(vectors, &next))
}

/// An entry whose predecessor in a column, which is filled before, is at or above `f`.
fn find_by_column(
    alloc: Global,
    g: &Game,
    vectors: &[Counters],
    column: &mut Column,
    f: &Counters,
    action: u64,
) -> Result<Option<usize>, AllocError>
    requires vectors { All (IsVector g.now) vectors.now }
    requires action { action < length g.now.actions }
    requires entry { IsVector g.now f.now }
    requires column { IsColumn g.now action vectors.now column.old.items }
    ensures column { IsColumn g.now action vectors.now column.new.items }
    ensures some { IfOk result (λ o. IfSome o (λ _. action_works g.now vectors.now f.now action ≡ true)) }
    ensures none { IfOk result (λ o. IfNone o (action_works g.now vectors.now f.now action ≡ false)) }
{
    g.known();
    fill_column(alloc, g, vectors, column, action)?;
    Ok(column.find(f))
}

/// An entry that answers an option. An empty column, which is one that is seldom wanted, stays empty.
fn find_for_option(
    alloc: Global,
    g: &Game,
    vectors: &[Counters],
    column: &mut Column,
    f: &Counters,
    action: u64,
) -> Result<Option<usize>, AllocError>
    requires vectors { All (IsVector g.now) vectors.now }
    requires action { action < length g.now.actions }
    requires entry { IsVector g.now f.now }
    requires column { IsColumn g.now action vectors.now column.old.items }
    ensures column { IsColumn g.now action vectors.now column.new.items }
    ensures some { IfOk result (λ o. IfSome o (λ _. action_works g.now vectors.now f.now action ≡ true)) }
    ensures none { IfOk result (λ o. IfNone o (action_works g.now vectors.now f.now action ≡ false)) }
{
    if column.len() == 0 {
        return find_by_step(alloc, g, vectors, f, action);
    }
    find_by_column(alloc, g, vectors, column, f, action)
}

/// An entry that answers one of these options.
pub fn find_answer(
    alloc: Global,
    g: &Game,
    vectors: &[Counters],
    columns: &mut [Column],
    f: &Counters,
    options: &[u64],
) -> Result<Option<usize>, AllocError>
    requires vectors { All (IsVector g.now) vectors.now }
    requires options { AreActions (length g.now.actions) options.now }
    requires entry { IsVector g.now f.now }
    requires columns { AreColumns g.now vectors.now columns.old }
    ensures columns { AreColumns g.now vectors.now columns.new }
    ensures some { IfOk result (λ o. IfSome o (λ _. list_any (action_works g.now vectors.now f.now) options.now ≡ true)) }
    ensures none { IfOk result (λ o. IfNone o (NoneWorks g.now vectors.now f.now options.now)) }
{
    for action in options {
        let column = &mut columns[*action as usize];
        if let Some(place) = find_for_option(alloc, g, vectors, column, f, *action)? {
            return Ok(Some(place));
        }
    }
    Ok(None)
}

/// An entry that answers one of these options: the noted one, where it does. None where no entry does.
pub fn answer_one(
    alloc: Global,
    g: &Game,
    vectors: &[Counters],
    columns: &mut [Column],
    f: &Counters,
    options: &[u64],
    known: u32,
) -> Result<Option<usize>, AllocError>
    requires vectors { All (IsVector g.now) vectors.now }
    requires options { AreActions (length g.now.actions) options.now }
    requires entry { IsVector g.now f.now }
    requires columns { AreColumns g.now vectors.now columns.old }
    ensures columns { AreColumns g.now vectors.now columns.new }
    ensures some { IfOk result (λ o. IfSome o (λ _. list_any (action_works g.now vectors.now f.now) options.now ≡ true)) }
    ensures none { IfOk result (λ o. IfNone o (NoneWorks g.now vectors.now f.now options.now)) }
{
    g.known();
    if let Some(place) = place_noted(known) {
        if is_answered(columns, f, options, place) {
            return Ok(Some(place));
        }
    }
    find_answer(alloc, g, vectors, columns, f, options)
}

/// Looks for an entry for each of these options: the first option that has none.
pub fn answer_each(
    columns: &[Column],
    f: &Counters,
    options: &[u64],
    answers: &mut [u32],
) -> Option<u64>
    requires options { AreActions (length columns.now) options.now }
    requires room { length options.now ≤ length answers.old }
    ensures some { IfSome result (λ a. (a < length columns.now) × Misses f.now (column_at columns.now a)) }
    ensures option { IfSome result (Contains options.now) }
    ensures none { IfNone result (each_covers f.now columns.now options.now ≡ true) }
{
    for i in 0..options.len() {
        let action = options[i];
        match columns[action as usize].find(f) {
            Some(place) => answers[i] = noted(place),
            None => return Some(action),
        }
    }
    None
}
