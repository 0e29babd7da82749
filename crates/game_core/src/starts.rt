//! What a solver begins with: every vector, or what was left at a smaller bound.

ghost use Rattle.std.specs.Prelude.{◌≡◌, ◌<◌, ◌≤◌, ◌≤ℤ◌, ℕ, pos, length, map, vec_len, IfOk};
ghost use Rattle.std.specs.List.{All};
ghost use Rattle.counter_vec.specs.Counters.{lifted};
ghost use Rattle.game_form.specs.Game.{lanes};
ghost use Rattle.game_form.specs.Vector.{size_of};
ghost use Rattle.game_core.specs.Entries.{AreEntries};
ghost use Rattle.game_core.specs.Known.{HaveAnswers};
ghost use Rattle.game_core.specs.Start.{IsStart, raised_by};

use crate::exchanges::Entries;
use crate::fronts::{Note, no_answers, sum_of};
use counter_vec::Counters;
use game_form::Game;
use std::alloc::{AllocError, Global};

/// The vector that every vector is at or below, alone.
pub fn everything(alloc: Global, g: &Game) -> Result<Vec<Counters>, AllocError>
    ensures { IfOk result (λ v. IsStart g.now v.items) }
{
    g.known();
    let top = Counters::top(alloc, g)?;
    Ok(vec![in alloc; top]?)
}

/// What was left at the bound of `g`, as what to begin with where the bound is greater by `by`, from 0 to 10,000.
pub fn lift(
    alloc: Global,
    g: &Game,
    left: &[Counters],
    by: i16,
) -> Result<Vec<Counters>, AllocError>
    requires start { IsStart g.now left.now }
    requires by { (pos 0 ≤ℤ by) × (by ≤ℤ pos 10000) }
    ensures { IfOk result (λ v. IsStart (raised_by (size_of by) g.now) v.items) }
{
    g.known();
    let mut higher = Vec::with_capacity(alloc, left.len())?;
    for i in 0..left.len() {
        higher.push(left[i].lift(alloc, by)?)?;
    }
    Ok(higher)
}

/// A note for each of these vectors, with so many answers, none of which is known.
fn notes_of(alloc: Global, vectors: &[Counters], slots: usize) -> Result<Vec<Note>, AllocError>
    ensures each { IfOk result (λ v. vec_len v ≡ length vectors.now) }
    ensures answers { IfOk result (λ v. HaveAnswers slots v.items) }
{
    let mut notes = Vec::with_capacity(alloc, vectors.len())?;
    for i in 0..vectors.len() {
        notes.push(Note {
            sum: sum_of(&vectors[i]),
            answers: no_answers(alloc, slots)?,
        })?;
    }
    Ok(notes)
}

/// These vectors as entries, all of which are to be looked at.
pub fn entries_of(
    alloc: Global,
    g: &Game,
    start: Vec<Counters>,
    slots: usize,
) -> Result<Entries, AllocError>
    requires { IsStart g.now start.items }
    ensures entries { IfOk result (λ e. AreEntries g.now slots e.vectors.items e.pending.items e.notes.items) }
    ensures vectors { IfOk result (λ e. e.vectors.items ≡ start.items) }
{
    let notes = notes_of(alloc, &start, slots)?;
    let pending = vec![in alloc; true; start.len()]?;
    Ok(Entries {
        vectors: start,
        pending,
        notes,
    })
}
