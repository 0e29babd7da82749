//! An entry is taken out, and vectors strictly below it take its place.

ghost use Rattle.std.specs.Prelude.{◌≡◌, ◌<◌, ◌≤◌, ◌+◌, ◌||◌, ℕ, ℤ, List, [], ◌∷◌, ◌++◌, false, true, length, vec_len, remove, IfOk, OnOk, IsTrue, ◌↔◌, slice_index_or, Vec};
ghost use Rattle.std.specs.declared.alloc.Global.{Global};
ghost use Rattle.std.specs.List.{All, AllPairs};
ghost use Rattle.game_form.specs.Game.{GameData, lanes};
ghost use Rattle.game_form.specs.Vector.{IsVector, bound};
ghost use Rattle.game_core.specs.Entries.{AreEntries};
ghost use Rattle.game_core.specs.Front.{IsApart, IsPiece, Misses, under, extent};
ghost use Rattle.game_core.specs.Columns.{AreColumns, ColumnData, IsColumn};
ghost use Rattle.game_core.specs.Known.{HaveAnswers};
ghost use Rattle.game_core.specs.Remains.{AreRemains, KeepsAnswered};
ghost use Rattle.counter_vec.specs.Counters.{at_or_below};

use crate::columns::Column;
use crate::fronts::{Note, forget_place, is_likely_under, sum_of};
use counter_vec::Counters;
use game_form::Game;
use std::alloc::{AllocError, Global};

/// Forgets entry `gone` in one note. Says whether it was there.
fn forget_in(note: &mut Note, gone: usize) -> bool
    ensures { vec_len note.new.answers ≡ vec_len note.old.answers }
{
    forget_place(&mut note.answers, gone)
}

/// Forgets entry `gone` in what is known of the others, which are to be looked at again where they relied on it.
fn forget(notes: &mut Vec<Note>, pending: &mut Vec<bool>, gone: usize)
    requires { length notes.old.items ≡ length pending.old.items }
    ensures notes { length notes.new.items ≡ length notes.old.items }
    ensures pending { length pending.new.items ≡ length pending.old.items }
    ensures answers { (slots : ℕ) → HaveAnswers slots notes.old.items → HaveAnswers slots notes.new.items }
{
    for at in 0..notes.len() {
        if forget_in(&mut notes[at], gone) {
            pending[at] = true;
        }
    }
}

/// Takes place `gone` out of a column, where it has it. One that isn't wanted for long is emptied.
#[tactic(auto, using(crate::proofs::ColumnReads::column_kept))]
fn drop_from(column: &mut Column, gone: usize)
    ensures { (g : GameData) (action : ℕ) (vectors : List (List ℤ)) → gone < length vectors → IsColumn g action vectors column.old.items → IsColumn g action (remove vectors gone) column.new.items }
{
    if column.is_idle() {
        column.clear();
    } else if gone < column.len() {
        column.take(gone);
    }
}

/// Takes place `gone` out of each column that has it.
fn drop_place(columns: &mut [Column], gone: usize)
    ensures { (g : GameData) (vectors : List (List ℤ)) → gone < length vectors → AreColumns g vectors columns.old → AreColumns g (remove vectors gone) columns.new }
{
    for at in 0..columns.len() {
        drop_from(&mut columns[at], gone);
    }
}

/// The entries with their marks and notes.
#[derive(Drop)]
pub struct Entries {
    pub vectors: Vec<Counters>,
    pub pending: Vec<bool>,
    pub notes: Vec<Note>,
}

/// One more entry, to be looked at, of which the answers of `note` are known.
fn push_entry(
    alloc: Global,
    entries: &mut Entries,
    v: Counters,
    note: &Note,
) -> Result<(), AllocError>
    ensures vectors { OnOk result (entries.new.vectors.items ≡ entries.old.vectors.items ++ v ∷ []) }
    ensures pending { OnOk result (length entries.new.pending.items ≡ length entries.old.pending.items + 1) }
    ensures notes { OnOk result (length entries.new.notes.items ≡ length entries.old.notes.items + 1) }
    ensures answers { OnOk result (HaveAnswers (vec_len note.now.answers) entries.old.notes.items → HaveAnswers (vec_len note.now.answers) entries.new.notes.items) }
{
    let known = Note {
        sum: sum_of(&v),
        answers: note.answers.clone()?,
    };
    entries.notes.push(known)?;
    entries.pending.push(true)?;
    entries.vectors.push(v)?;
    Ok(())
}

/// Puts one piece of `f`, where no entry is at or above it; that at `likely` is asked first. None is below it, since none
/// is below `f`.
#[tactic(auto, using(crate::proofs::Replacements::entries_pushed, crate::proofs::Replacements::misses_pushed, crate::proofs::Replacements::under_pushed, crate::proofs::ColumnReads::columns_pushed))]
fn put_piece(
    alloc: Global,
    entries: &mut Entries,
    f: &Counters,
    piece: Counters,
    note: &Note,
    g: &Game,
    likely: &mut usize,
) -> Result<(), AllocError>
    requires entry { IsVector g.now f.now }
    requires piece { IsPiece f.now piece }
    requires entries { AreEntries g.now (vec_len note.now.answers) entries.old.vectors.items entries.old.pending.items entries.old.notes.items }
    requires misses { Misses f.now entries.old.vectors.items }
    requires above { All (λ e. at_or_below e piece ≡ false) entries.old.vectors.items }
    ensures entries { OnOk result (AreEntries g.now (vec_len note.now.answers) entries.new.vectors.items entries.new.pending.items entries.new.notes.items) }
    ensures misses { OnOk result (Misses f.now entries.new.vectors.items) }
    ensures whole { OnOk result ((u : List ℤ) → under entries.new.vectors.items u ≡ (under entries.old.vectors.items u || at_or_below u piece)) }
    ensures rest { OnOk result ((rest : List (List ℤ)) → Misses piece rest → All (λ e. Misses e rest) entries.old.vectors.items → All (λ e. Misses e rest) entries.new.vectors.items) }
    ensures columns { OnOk result ((columns : List ColumnData) → AreColumns g.now entries.old.vectors.items columns → AreColumns g.now entries.new.vectors.items columns) }
    ensures under { (old : List (List ℤ)) → All (λ e. under (f.now ∷ old) e ≡ true) entries.old.vectors.items → OnOk result (All (λ e. under (f.now ∷ old) e ≡ true) entries.new.vectors.items) }
{
    if is_likely_under(&entries.vectors, &piece, likely) {
        return Ok(());
    }
    push_entry(alloc, entries, piece, note)?;
    Ok(())
}

/// Puts the pieces of `f` at or above which no entry is.
#[tactic(auto, using(crate::proofs::Replacements::under_more))]
fn put_pieces(
    alloc: Global,
    entries: &mut Entries,
    f: &Counters,
    pieces: Vec<Counters>,
    note: &Note,
    g: &Game,
) -> Result<(), AllocError>
    requires entry { IsVector g.now f.now }
    requires pieces { All (IsPiece f.now) pieces.items }
    requires apart { AllPairs IsApart pieces.items }
    requires entries { AreEntries g.now (vec_len note.now.answers) entries.old.vectors.items entries.old.pending.items entries.old.notes.items }
    requires misses { Misses f.now entries.old.vectors.items }
    requires above { All (λ e. at_or_below e f.now ≡ false) entries.old.vectors.items }
    ensures whole { OnOk result ((u : List ℤ) → under entries.new.vectors.items u ≡ (under entries.old.vectors.items u || under pieces.items u)) }
    ensures entries { OnOk result (AreEntries g.now (vec_len note.now.answers) entries.new.vectors.items entries.new.pending.items entries.new.notes.items) }
    ensures misses { OnOk result (Misses f.now entries.new.vectors.items) }
    ensures columns { OnOk result ((columns : List ColumnData) → AreColumns g.now entries.old.vectors.items columns → AreColumns g.now entries.new.vectors.items columns) }
    ensures under { OnOk result (All (λ e. under (f.now ∷ entries.old.vectors.items) e ≡ true) entries.new.vectors.items) }
{
    let mut likely = 0;
    for piece in pieces {
        put_piece(alloc, entries, f, piece, note, g, &mut likely)?;
    }
    Ok(())
}

/// Takes an entry out. Its vector, and what was known of it, are given back.
#[tactic(auto, using(crate::proofs::Replacements::answers_removed))]
fn take_entry(entries: &mut Entries, place: usize) -> (Counters, Note)
    requires place { place < length entries.old.vectors.items }
    requires pending { length entries.old.pending.items ≡ length entries.old.vectors.items }
    requires notes { length entries.old.notes.items ≡ length entries.old.vectors.items }
    ensures entry { result.0 ≡ slice_index_or entries.old.vectors.items place result.0 }
    ensures vectors { entries.new.vectors.items ≡ remove entries.old.vectors.items place }
    ensures pending { length entries.new.pending.items + 1 ≡ length entries.old.pending.items }
    ensures notes { length entries.new.notes.items + 1 ≡ length entries.old.notes.items }
    ensures answers { (slots : ℕ) → HaveAnswers slots entries.old.notes.items → HaveAnswers slots entries.new.notes.items }
    ensures note { (slots : ℕ) → HaveAnswers slots entries.old.notes.items → vec_len result.1.answers ≡ slots }
{
    let vector = entries.vectors.remove(place);
    entries.pending.remove(place);
    let mut note = entries.notes.remove(place);
    forget_in(&mut note, place);
    forget(&mut entries.notes, &mut entries.pending, place);
    (vector, note)
}

/// Replaces an entry by the pieces of it that are at or below no other entry.
#[tactic(auto, using(crate::proofs::Replacements::exchange_falls, crate::proofs::Replacements::misses_rest))]
pub fn exchange(
    alloc: Global,
    g: &Game,
    entries: &mut Entries,
    columns: &mut [Column],
    place: usize,
    pieces: Vec<Counters>,
    slots: usize,
) -> Result<(), AllocError>
    requires place { place < length entries.old.vectors.items }
    requires entries { AreEntries g.now slots entries.old.vectors.items entries.old.pending.items entries.old.notes.items }
    requires columns { AreColumns g.now entries.old.vectors.items columns.old }
    requires pieces { (f : List ℤ) → f ≡ slice_index_or entries.old.vectors.items place f → AreRemains g.now entries.old.vectors.items f pieces.items }
    ensures keeps { OnOk result (KeepsAnswered g.now entries.old.vectors.items entries.new.vectors.items) }
    ensures entries { OnOk result (AreEntries g.now slots entries.new.vectors.items entries.new.pending.items entries.new.notes.items) }
    ensures columns { OnOk result (AreColumns g.now entries.new.vectors.items columns.new) }
    ensures falls { OnOk result (extent (bound g.now) (lanes g.now) entries.new.vectors.items < extent (bound g.now) (lanes g.now) entries.old.vectors.items) }
{
    g.known();
    let (f, note) = take_entry(entries, place);
    drop_place(columns, place);
    put_pieces(alloc, entries, &f, pieces, &note, g)
}
