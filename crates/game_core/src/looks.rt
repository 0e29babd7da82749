//! A look at one entry: whether the player can answer one step from it, and else what takes its place.

ghost use Rattle.std.specs.Prelude.{◌≡◌, ◌<◌, ◌≤◌, ℕ, ℤ, List, true, false, length, vec_len, IfOk, IfSome, IfNone, OnOk};
ghost use Rattle.std.specs.List.{All, AllPairs, list_any, list_all};
ghost use Rattle.counter_vec.specs.Counters.{at_or_below};
ghost use Rattle.cpre_step.specs.Refinement.{action_works, answers};
ghost use Rattle.game_form.specs.Vector.{IsVector};
ghost use Rattle.game_core.specs.Columns.{AreColumns, AreFull, HaveGrown};
ghost use Rattle.game_core.specs.Front.{IsApart, IsPiece, under};
ghost use Rattle.game_core.specs.Plan.{AreActions, IsPlan, NoneWorks, each_planned};
ghost use Rattle.game_core.specs.Remains.{AreRemains};
ghost use Rattle.game_core.specs.Tried.{HasTried};
ghost use Rattle.game_core.specs.Turns.{AreTurns};

use crate::columns::Column;
use crate::fronts::{Note, noted};
use crate::refinements::{refine_classes, refine_options};
use crate::searches::{answer_each, answer_one, fill, find_answer};
use crate::turns::{Turn, take_turn};
use counter_vec::Counters;
use game_form::Game;
use std::alloc::{AllocError, Global};
use word_core::Kind;

/// Looks at the entry `f`, of which something may be noted: the vectors that take its place, or None where the player
/// can answer one step from it. What is noted is tried.
pub fn look(
    alloc: Global,
    g: &Game,
    plan: &[Vec<u64>],
    vectors: &[Counters],
    f: &Counters,
    note: &mut Note,
    columns: &mut [Column],
) -> Result<Option<Vec<Counters>>, AllocError>
    requires plan { IsPlan g.now plan.now }
    requires vectors { All (IsVector g.now) vectors.now }
    requires entry { IsVector g.now f.now }
    requires wide { All (λ c. vec_len c ≤ vec_len note.old.answers) plan.now }
    requires each { length plan.now ≤ vec_len note.old.answers }
    requires columns { AreColumns g.now vectors.now columns.old }
    ensures answers { vec_len note.new.answers ≡ vec_len note.old.answers }
    ensures columns { AreColumns g.now vectors.now columns.new }
    ensures remains { IfOk result (λ o. IfSome o (λ v. AreRemains g.now vectors.now f.now v.items)) }
    ensures stays { IfOk result (λ o. IfNone o (answers g.now vectors.now f.now ≡ true)) }
{
    g.known();
    match g.kind() {
        Kind::Second => look_second(alloc, g, plan, vectors, f, note, columns),
        Kind::First => look_first(alloc, g, plan, vectors, f, note, columns),
    }
}

/// Looks at the entry `f` where what is noted may be trusted: the vectors that take its place. None says that it
/// needn't be replaced now. For kind second the classes are looked at by turns.
pub fn look_trusting(
    alloc: Global,
    g: &Game,
    plan: &[Vec<u64>],
    vectors: &[Counters],
    f: &Counters,
    note: &mut Note,
    columns: &mut [Column],
    turns: &mut Vec<Turn>,
) -> Result<Option<Vec<Counters>>, AllocError>
    requires plan { IsPlan g.now plan.now }
    requires vectors { All (IsVector g.now) vectors.now }
    requires entry { IsVector g.now f.now }
    requires wide { All (λ c. vec_len c ≤ vec_len note.old.answers) plan.now }
    requires each { length plan.now ≤ vec_len note.old.answers }
    requires columns { AreColumns g.now vectors.now columns.old }
    requires turns { AreTurns (length plan.now) turns.old.items }
    ensures answers { vec_len note.new.answers ≡ vec_len note.old.answers }
    ensures columns { AreColumns g.now vectors.now columns.new }
    ensures turns { OnOk result (AreTurns (length plan.now) turns.new.items) }
    ensures remains { IfOk result (λ o. IfSome o (λ v. AreRemains g.now vectors.now f.now v.items)) }
{
    g.known();
    match g.kind() {
        Kind::Second => look_by_turns(alloc, g, plan, vectors, f, note, columns, turns),
        Kind::First => look_first(alloc, g, plan, vectors, f, note, columns),
    }
}

/// What remains of `f`, which no entry answers by one of these options.
fn remains_of(
    alloc: Global,
    g: &Game,
    vectors: &[Counters],
    columns: &mut [Column],
    f: &Counters,
    options: &[u64],
) -> Result<Vec<Counters>, AllocError>
    requires vectors { All (IsVector g.now) vectors.now }
    requires options { AreActions (length g.now.actions) options.now }
    requires entry { IsVector g.now f.now }
    requires columns { AreColumns g.now vectors.now columns.old }
    requires refused { NoneWorks g.now vectors.now f.now options.now }
    ensures columns { AreColumns g.now vectors.now columns.new }
    ensures pieces { IfOk result (λ v. All (IsPiece f.now) v.items) }
    ensures apart { IfOk result (λ v. AllPairs IsApart v.items) }
    ensures whole { IfOk result (λ v. (u : List ℤ) → IsVector g.now u → at_or_below u f.now ≡ true → list_any (action_works g.now vectors.now u) options.now ≡ true → under v.items u ≡ true) }
{
    g.known();
    fill(alloc, g, vectors, columns, options)?;
    refine_options(alloc, f, columns, options)
}

/// For kind second: each class has an option that some entry answers.
fn look_second(
    alloc: Global,
    g: &Game,
    plan: &[Vec<u64>],
    vectors: &[Counters],
    f: &Counters,
    note: &mut Note,
    columns: &mut [Column],
) -> Result<Option<Vec<Counters>>, AllocError>
    requires plan { All (λ c. AreActions (length g.now.actions) c.items) plan.now }
    requires vectors { All (IsVector g.now) vectors.now }
    requires entry { IsVector g.now f.now }
    requires each { length plan.now ≤ vec_len note.old.answers }
    requires columns { AreColumns g.now vectors.now columns.old }
    ensures answers { vec_len note.new.answers ≡ vec_len note.old.answers }
    ensures columns { AreColumns g.now vectors.now columns.new }
    ensures pieces { IfOk result (λ o. IfSome o (λ v. All (IsPiece f.now) v.items)) }
    ensures apart { IfOk result (λ o. IfSome o (λ v. AllPairs IsApart v.items)) }
    ensures whole { IfOk result (λ o. IfSome o (λ v. (u : List ℤ) → IsVector g.now u → at_or_below u f.now ≡ true → each_planned (action_works g.now vectors.now u) plan.now ≡ true → under v.items u ≡ true)) }
    ensures stays { IfOk result (λ o. IfNone o (each_planned (action_works g.now vectors.now f.now) plan.now ≡ true)) }
{
    g.known();
    for c in 0..plan.len() {
        let options: &[u64] = &plan[c];
        let known = note.answers[c];
        match answer_one(alloc, g, vectors, columns, f, options, known)? {
            Some(place) => note.answers[c] = noted(place),
            None => return Ok(Some(remains_of(alloc, g, vectors, columns, f, options)?)),
        }
    }
    Ok(None)
}

/// The turn of a class that no entry answers, and the vectors that take the entry's place.
#[derive(Drop)]
struct Failed {
    turn: usize,
    pieces: Vec<Counters>,
}

/// For kind second: the first class by turns that no entry answers, among those for which no answer is noted.
fn find_failing(
    alloc: Global,
    g: &Game,
    plan: &[Vec<u64>],
    vectors: &[Counters],
    f: &Counters,
    note: &mut Note,
    columns: &mut [Column],
    turns: &[Turn],
) -> Result<Option<Failed>, AllocError>
    requires plan { All (λ c. AreActions (length g.now.actions) c.items) plan.now }
    requires vectors { All (IsVector g.now) vectors.now }
    requires entry { IsVector g.now f.now }
    requires each { length plan.now ≤ vec_len note.old.answers }
    requires columns { AreColumns g.now vectors.now columns.old }
    requires turns { AreTurns (length plan.now) turns.now }
    ensures answers { vec_len note.new.answers ≡ vec_len note.old.answers }
    ensures columns { AreColumns g.now vectors.now columns.new }
    ensures turn { IfOk result (λ o. IfSome o (λ r. r.turn < length turns.now)) }
    ensures pieces { IfOk result (λ o. IfSome o (λ r. All (IsPiece f.now) r.pieces.items)) }
    ensures apart { IfOk result (λ o. IfSome o (λ r. AllPairs IsApart r.pieces.items)) }
    ensures whole { IfOk result (λ o. IfSome o (λ r. (u : List ℤ) → IsVector g.now u → at_or_below u f.now ≡ true → each_planned (action_works g.now vectors.now u) plan.now ≡ true → under r.pieces.items u ≡ true)) }
{
    g.known();
    for turn in 0..turns.len() {
        let c = turns[turn].class;
        if note.answers[c] == 0 {
            let options: &[u64] = &plan[c];
            match find_answer(alloc, g, vectors, columns, f, options)? {
                Some(place) => note.answers[c] = noted(place),
                None => {
                    let pieces = remains_of(alloc, g, vectors, columns, f, options)?;
                    return Ok(Some(Failed { turn, pieces }));
                }
            }
        }
    }
    Ok(None)
}

/// For kind second: what takes the place of `f` by the first class that fails, which is weighed.
fn look_by_turns(
    alloc: Global,
    g: &Game,
    plan: &[Vec<u64>],
    vectors: &[Counters],
    f: &Counters,
    note: &mut Note,
    columns: &mut [Column],
    turns: &mut Vec<Turn>,
) -> Result<Option<Vec<Counters>>, AllocError>
    requires plan { All (λ c. AreActions (length g.now.actions) c.items) plan.now }
    requires vectors { All (IsVector g.now) vectors.now }
    requires entry { IsVector g.now f.now }
    requires each { length plan.now ≤ vec_len note.old.answers }
    requires columns { AreColumns g.now vectors.now columns.old }
    requires turns { AreTurns (length plan.now) turns.old.items }
    ensures answers { vec_len note.new.answers ≡ vec_len note.old.answers }
    ensures columns { AreColumns g.now vectors.now columns.new }
    ensures turns { OnOk result (AreTurns (length plan.now) turns.new.items) }
    ensures pieces { IfOk result (λ o. IfSome o (λ v. All (IsPiece f.now) v.items)) }
    ensures apart { IfOk result (λ o. IfSome o (λ v. AllPairs IsApart v.items)) }
    ensures whole { IfOk result (λ o. IfSome o (λ v. (u : List ℤ) → IsVector g.now u → at_or_below u f.now ≡ true → each_planned (action_works g.now vectors.now u) plan.now ≡ true → under v.items u ≡ true)) }
{
    match find_failing(alloc, g, plan, vectors, f, note, columns, turns)? {
        Some(failed) => {
            take_turn(turns, failed.turn, failed.pieces.len())?;
            Ok(Some(failed.pieces))
        }
        None => Ok(None),
    }
}

/// Fills the columns of all classes.
fn fill_all(
    alloc: Global,
    g: &Game,
    plan: &[Vec<u64>],
    vectors: &[Counters],
    columns: &mut [Column],
) -> Result<(), AllocError>
    requires plan { All (λ c. AreActions (length g.now.actions) c.items) plan.now }
    requires vectors { All (IsVector g.now) vectors.now }
    requires columns { AreColumns g.now vectors.now columns.old }
    ensures columns { AreColumns g.now vectors.now columns.new }
    ensures full { OnOk result (All (λ c. AreFull vectors.now columns.new c.items) plan.now) }
{
    for c in 0..plan.len() {
        fill(alloc, g, vectors, columns, &plan[c])?;
    }
    Ok(())
}

/// What a look at all classes says: one that works, or for each an option that no entry answers.
#[derive(Drop)]
enum Tried {
    Works,
    Fails(Vec<u64>),
}

/// Tries each class in turn.
fn try_classes(
    alloc: Global,
    plan: &[Vec<u64>],
    f: &Counters,
    note: &mut Note,
    columns: &[Column],
) -> Result<Tried, AllocError>
    requires plan { All (λ c. AreActions (length columns.now) c.items) plan.now }
    requires wide { All (λ c. vec_len c ≤ vec_len note.old.answers) plan.now }
    ensures answers { vec_len note.new.answers ≡ vec_len note.old.answers }
    ensures tried { IfOk result (HasTried f.now columns.now plan.now) }
{
    let mut failing = Vec::new(alloc);
    for c in 0..plan.len() {
        match answer_each(columns, f, &plan[c], &mut note.answers) {
            Some(action) => failing.push(action)?,
            None => return Ok(Tried::Works),
        }
    }
    Ok(Tried::Fails(failing))
}

/// For kind first: some class has all its options answered by entries.
fn look_first(
    alloc: Global,
    g: &Game,
    plan: &[Vec<u64>],
    vectors: &[Counters],
    f: &Counters,
    note: &mut Note,
    columns: &mut [Column],
) -> Result<Option<Vec<Counters>>, AllocError>
    requires plan { All (λ c. AreActions (length g.now.actions) c.items) plan.now }
    requires vectors { All (IsVector g.now) vectors.now }
    requires entry { IsVector g.now f.now }
    requires wide { All (λ c. vec_len c ≤ vec_len note.old.answers) plan.now }
    requires columns { AreColumns g.now vectors.now columns.old }
    ensures answers { vec_len note.new.answers ≡ vec_len note.old.answers }
    ensures columns { AreColumns g.now vectors.now columns.new }
    ensures pieces { IfOk result (λ o. IfSome o (λ v. All (IsPiece f.now) v.items)) }
    ensures apart { IfOk result (λ o. IfSome o (λ v. AllPairs IsApart v.items)) }
    ensures whole { IfOk result (λ o. IfSome o (λ v. (u : List ℤ) → IsVector g.now u → at_or_below u f.now ≡ true → list_any (λ c. list_all (action_works g.now vectors.now u) c.items) plan.now ≡ true → under v.items u ≡ true)) }
    ensures stays { IfOk result (λ o. IfNone o (list_any (λ c. list_all (action_works g.now vectors.now f.now) c.items) plan.now ≡ true)) }
{
    g.known();
    fill_all(alloc, g, plan, vectors, columns)?;
    match try_classes(alloc, plan, f, note, columns)? {
        Tried::Works => Ok(None),
        Tried::Fails(failing) => Ok(Some(refine_classes(alloc, f, columns, plan, &failing)?)),
    }
}
