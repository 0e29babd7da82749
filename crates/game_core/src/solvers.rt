//! The game, solved by one thread.

ghost use Rattle.std.specs.Prelude.{◌≡◌, ◌<◌, ◌≤◌, ℕ, ℤ, List, [], true, false, length, vec_len, IfOk, IfSome, IfNone, IsTrue, OnOk, slice_index_or};
ghost use Rattle.std.specs.List.{All};
ghost use Rattle.antichain_list.specs.Antichain.{IsAntichain};
ghost use Rattle.counter_vec.specs.Counters.{at_or_below, lexicographic};
ghost use Rattle.game_form.specs.Game.{lanes};
ghost use Rattle.game_form.specs.Vector.{IsVector, bound};
ghost use Rattle.cpre_step.specs.Refinement.{answers};
ghost use Rattle.game_core.specs.Board.{puts};
ghost use Rattle.game_core.specs.Columns.{AreColumns};
ghost use Rattle.game_core.specs.Entries.{AreEntries};
ghost use Rattle.game_core.specs.Front.{extent, under};
ghost use Rattle.game_core.specs.Known.{HaveAnswers};
ghost use Rattle.game_core.specs.Plan.{IsPlan};
ghost use Rattle.game_core.specs.Remains.{AreRemains};
ghost use Rattle.game_core.specs.Solved.{Covers, IsLost, IsSettled, IsSolution};
ghost use Rattle.game_core.specs.Start.{IsAttempt, IsStart};
ghost use Rattle.game_core.specs.Turns.{AreTurns};

use crate::columns::Column;
use crate::commits::put_left;
use crate::exchanges::{Entries, exchange};
use crate::fronts::{Note, is_under, next_entry, no_columns};
use crate::looks::{look, look_trusting};
use crate::plans::plan;
use crate::starts::{entries_of, everything};
use crate::turns::{Turn, turns_of};
use antichain_list::{Downset, ListDownset};
use counter_vec::Counters;
use game_form::Game;
use std::alloc::{AllocError, Global};

/// What is known of a game that was solved.
#[derive(Drop)]
pub enum Solved {
    /// The maximal vectors that the player can hold.
    Held(ListDownset<Counters>),
    /// The initial vector isn't held.
    Lost,
}

/// An entry that has to be replaced, by its place, and the vectors that take its place.
#[derive(Drop)]
struct Found {
    place: usize,
    pieces: Vec<Counters>,
}

/// Looks at each entry once: one that has to be replaced, or None where the player can answer one step from each.
fn look_at_all(
    alloc: Global,
    g: &Game,
    plan: &[Vec<u64>],
    vectors: &[Counters],
    notes: &mut [Note],
    columns: &mut [Column],
    slots: usize,
) -> Result<Option<Found>, AllocError>
    requires plan { IsPlan g.now plan.now }
    requires wide { All (λ c. vec_len c ≤ slots) plan.now }
    requires each { length plan.now ≤ slots }
    requires vectors { All (IsVector g.now) vectors.now }
    requires notes { length notes.old ≡ length vectors.now }
    requires answers { HaveAnswers slots notes.old }
    requires columns { AreColumns g.now vectors.now columns.old }
    ensures answers { HaveAnswers slots notes.new }
    ensures columns { AreColumns g.now vectors.now columns.new }
    ensures found { IfOk result (λ o. IfSome o (λ r. (r.place < length vectors.now) × ((f : List ℤ) → f ≡ slice_index_or vectors.now r.place f → AreRemains g.now vectors.now f r.pieces.items))) }
    ensures closed { IfOk result (λ o. IfNone o (All (λ f. answers g.now vectors.now f ≡ true) vectors.now)) }
{
    for place in 0..vectors.len() {
        let f = &vectors[place];
        let note = &mut notes[place];
        if let Some(pieces) = look(alloc, g, plan, vectors, f, note, columns)? {
            return Ok(Some(Found { place, pieces }));
        }
    }
    Ok(None)
}

/// Looks at entries until one has to be replaced. None where the player can answer one step from each.
///
/// The marks say which entries are worth a look, at which what is noted is trusted. At the end all are looked at once
/// more, and each noted answer is tried.
#[tactic(auto, using(crate::proofs::PendingMarks::marked_falls))]
fn settle(
    alloc: Global,
    g: &Game,
    plan: &[Vec<u64>],
    vectors: &[Counters],
    pending: &mut [bool],
    notes: &mut [Note],
    columns: &mut [Column],
    turns: &mut Vec<Turn>,
    slots: usize,
) -> Result<Option<Found>, AllocError>
    requires plan { IsPlan g.now plan.now }
    requires wide { All (λ c. vec_len c ≤ slots) plan.now }
    requires each { length plan.now ≤ slots }
    requires vectors { All (IsVector g.now) vectors.now }
    requires pending { length pending.old ≡ length vectors.now }
    requires notes { length notes.old ≡ length vectors.now }
    requires answers { HaveAnswers slots notes.old }
    requires columns { AreColumns g.now vectors.now columns.old }
    requires turns { AreTurns (length plan.now) turns.old.items }
    ensures answers { HaveAnswers slots notes.new }
    ensures columns { AreColumns g.now vectors.now columns.new }
    ensures turns { OnOk result (AreTurns (length plan.now) turns.new.items) }
    ensures found { IfOk result (λ o. IfSome o (λ r. (r.place < length vectors.now) × ((f : List ℤ) → f ≡ slice_index_or vectors.now r.place f → AreRemains g.now vectors.now f r.pieces.items))) }
    ensures closed { IfOk result (λ o. IfNone o (All (λ f. answers g.now vectors.now f ≡ true) vectors.now)) }
{
    while let Some(place) = next_entry(pending, notes) {
        let f = &vectors[place];
        let note = &mut notes[place];
        match look_trusting(alloc, g, plan, vectors, f, note, columns, turns)? {
            Some(pieces) => return Ok(Some(Found { place, pieces })),
            None => pending[place] = false,
        }
    }
    look_at_all(alloc, g, plan, vectors, notes, columns, slots)
}

/// How many answers an entry has: one for each class, or for each option of a class.
fn slots_of(plan: &[Vec<u64>]) -> usize
    ensures wide { All (λ c. vec_len c ≤ result) plan.now }
    ensures each { length plan.now ≤ result }
{
    let mut most = plan.len();
    for options in plan {
        most = most.max(options.len());
    }
    most
}

/// The list of these vectors.
fn downset_of(alloc: Global, vectors: Vec<Counters>) -> Result<ListDownset<Counters>, AllocError>
    ensures list { IfOk result (λ d. d ≡ puts [] vectors.items) }
    ensures antichain { IfOk result (IsAntichain at_or_below lexicographic) }
{
    let mut list = ListDownset::empty(alloc);
    put_left(&mut list, vectors)?;
    let _ = list.entries();
    Ok(list)
}

/// Whether no entry is at or above the initial vector, where only that is asked.
fn is_lost(vectors: &[Counters], initial: &Counters, whole: bool) -> bool
    ensures asked { IsTrue result → whole ≡ false }
    ensures missed { IsTrue result → under vectors.now initial.now ≡ false }
    ensures covered { result ≡ false → whole ≡ false → under vectors.now initial.now ≡ true }
{
    !whole && !is_under(vectors, initial)
}

/// Replaces entries until the player can answer one step from each. Says whether it stopped since the initial vector was lost.
fn refine_all(
    alloc: Global,
    g: &Game,
    plan: &[Vec<u64>],
    entries: &mut Entries,
    columns: &mut [Column],
    turns: &mut Vec<Turn>,
    slots: usize,
    whole: bool,
) -> Result<bool, AllocError>
    requires plan { IsPlan g.now plan.now }
    requires wide { All (λ c. vec_len c ≤ slots) plan.now }
    requires each { length plan.now ≤ slots }
    requires entries { AreEntries g.now slots entries.old.vectors.items entries.old.pending.items entries.old.notes.items }
    requires columns { AreColumns g.now entries.old.vectors.items columns.old }
    requires turns { AreTurns (length plan.now) turns.old.items }
    requires covers { Covers g.now entries.old.vectors.items }
    ensures lost { IfOk result (λ b. b ≡ true → IsLost g.now whole) }
    ensures settled { IfOk result (λ b. b ≡ false → IsSettled g.now whole entries.new.vectors.items) }
    ensures left { IfOk result (λ _. IsStart g.now entries.new.vectors.items) }
{
    g.known();
    let initial = Counters::initial(alloc, g)?;
    'refining: while let Some(found) = settle(
        alloc,
        g,
        plan,
        &entries.vectors,
        &mut entries.pending,
        &mut entries.notes,
        columns,
        turns,
        slots,
    )? {
        exchange(alloc, g, entries, columns, found.place, found.pieces, slots)?;
        if is_lost(&entries.vectors, &initial, whole) {
            return Ok(true);
        }
    }
    Ok(is_lost(&entries.vectors, &initial, whole))
}

/// The answer of `solve` on a game that isn't needed any more.
pub fn solve_alone(alloc: Global, g: Game, whole: bool) -> Result<Solved, AllocError>
    ensures { IfOk result (IsSolution g whole) }
{
    solve(alloc, &g, whole)
}

/// How an attempt that began with some vectors ended.
#[derive(Drop)]
pub enum Attempt {
    /// The maximal vectors that the player can hold.
    Held(ListDownset<Counters>),
    /// The initial vector isn't held. All that the player can hold is at or below these vectors.
    Lost(Vec<Counters>),
}

/// The answer of `solve`, found from vectors at or above all that the player can hold.
pub fn solve_from(
    alloc: Global,
    g: &Game,
    start: Vec<Counters>,
    whole: bool,
) -> Result<Attempt, AllocError>
    requires { IsStart g.now start.items }
    ensures { IfOk result (IsAttempt g.now whole) }
{
    let plan = plan(alloc, g)?;
    let slots = slots_of(&plan);
    let mut entries = entries_of(alloc, g, start, slots)?;
    let mut columns = no_columns(alloc, g.actions().len())?;
    let mut turns = turns_of(alloc, plan.len())?;
    if refine_all(
        alloc,
        g,
        &plan,
        &mut entries,
        &mut columns,
        &mut turns,
        slots,
        whole,
    )? {
        return Ok(Attempt::Lost(entries.vectors));
    }
    Ok(Attempt::Held(downset_of(alloc, entries.vectors)?))
}

/// The maximal held vectors; where `whole` is false and the initial vector isn't held, Lost instead.
pub fn solve(alloc: Global, g: &Game, whole: bool) -> Result<Solved, AllocError>
    ensures { IfOk result (IsSolution g.now whole) }
{
    let start = everything(alloc, g)?;
    match solve_from(alloc, g, start, whole)? {
        Attempt::Held(list) => Ok(Solved::Held(list)),
        Attempt::Lost(_) => Ok(Solved::Lost),
    }
}
