//! The maximal vectors that are still possible, and what is known of each.

ghost use Rattle.std.specs.Prelude.{◌≡◌, ◌≢◌, ◌<◌, ◌≤◌, ◌+◌, ◌-◌, ℕ, if◌then◌else◌, nat_eq, nat_lt, true, length, vec_len, IfOk, IfSome, IfNone, false, slice_index_or};
ghost use Rattle.std.specs.List.{All};
ghost use Rattle.counter_vec.specs.Counters.{at_or_below};
ghost use Rattle.game_core.specs.Front.{Misses, under};

use crate::columns::Column;
use antichain_list::Entry;
use counter_vec::Counters;
use std::alloc::{AllocError, Global};

/// What is known of an entry.
#[derive(Drop)]
pub struct Note {
    /// The sum of its numbers.
    pub sum: i64,
    /// For kind second, for each class the entry that answers it; for kind first, for each option of the class that
    /// works the entry that answers it: its place and 1, or 0 where none is known.
    pub answers: Vec<u32>,
}

/// The sum of the numbers of a vector.
pub fn sum_of(v: &Counters) -> i64 {
    let mut sum: i64 = 0;
    for x in v.lanes() {
        sum = sum.wrapping_add(*x as i64);
    }
    sum
}

/// So many answers, none of which is known.
pub fn no_answers(alloc: Global, count: usize) -> Result<Vec<u32>, AllocError>
    ensures { IfOk result (λ v. vec_len v ≡ count) }
{
    vec![in alloc; 0u32; count]
}

/// The entry of a place, as it is noted. One that is too great to be noted isn't known.
pub fn noted(place: usize) -> u32
    ensures { result ≢ 0 → result ≡ place + 1 }
{
    match u32::try_from(place) {
        Ok(small) => small.wrapping_add(1),
        Err(_) => 0,
    }
}

/// The place of the entry that is noted.
pub fn place_noted(answer: u32) -> Option<usize>
    ensures some { IfSome result (λ place. place + 1 ≡ answer) }
    ensures none { IfNone result (answer ≡ 0) }
{
    if answer == 0 {
        return None;
    }
    Some(answer as usize - 1)
}

/// So many columns, which are empty.
pub fn no_columns(alloc: Global, count: usize) -> Result<Vec<Column>, AllocError>
    ensures len { IfOk result (λ v. vec_len v ≡ count) }
    ensures empty { IfOk result (λ v. All (λ c. length c.items ≡ 0) v.items) }
{
    let mut columns = Vec::with_capacity(alloc, count)?;
    for _ in 0..count {
        columns.push(Column::empty(alloc))?;
    }
    Ok(columns)
}

/// The entry to look at next: the one of least sum, the earliest among equals.
pub fn next_entry(pending: &[bool], notes: &[Note]) -> Option<usize>
    requires { length notes.now ≡ length pending.now }
    ensures { IfSome result (λ i. (i < length pending.now) × (slice_index_or pending.now i false ≡ true)) }
{
    let mut best: Option<usize> = None;
    for i in 0..pending.len() {
        if pending[i] && comes_before(notes, i, best) {
            best = Some(i);
        }
    }
    best
}

/// Whether entry `i` has a smaller sum than the best one so far, if there is one.
fn comes_before(notes: &[Note], i: usize, best: Option<usize>) -> bool
    requires place { i < length notes.now }
    requires best { IfSome best (λ b. b < length notes.now) }
{
    match best {
        Some(b) => notes[i].sum < notes[b].sum,
        None => true,
    }
}

/// Forgets the place of an entry that is gone; those behind it have moved up. Says whether it was there.
pub fn forget_place(answers: &mut [u32], gone: usize) -> bool {
    let gone = noted(gone);
    let mut was_there = false;
    for answer in answers.iter_mut() {
        was_there |= *answer == gone;
        *answer = noted_without(*answer, gone);
    }
    was_there
}

/// What is noted of an answer when the entry `gone` is taken out.
fn noted_without(answer: u32, gone: u32) -> u32
    ensures { result ≡ (if nat_eq answer gone then 0 else (if nat_lt gone answer then answer - 1 else answer)) }
{
    if answer == gone {
        0
    } else if answer > gone {
        answer - 1
    } else {
        answer
    }
}

/// Whether an entry is at or above `v`.
pub fn is_under(vectors: &[Counters], v: &Counters) -> bool
    ensures { result ≡ under vectors.now v.now }
{
    find_cover(vectors, v).is_some()
}

/// Whether an entry is at or above `v`. That at the place `likely`, the last that was found, is tried first.
pub fn is_likely_under(vectors: &[Counters], v: &Counters, likely: &mut usize) -> bool
    ensures { result ≡ under vectors.now v.now }
{
    if *likely < vectors.len() && v.at_or_below(&vectors[*likely]) {
        return true;
    }
    match find_cover(vectors, v) {
        Some(place) => {
            *likely = place;
            true
        }
        None => false,
    }
}

/// The place of the last entry at or above `v`.
pub fn find_cover(vectors: &[Counters], v: &Counters) -> Option<usize>
    ensures some { IfSome result (λ i. i < length vectors.now) }
    ensures under { IfSome result (λ _. under vectors.now v.now ≡ true) }
    ensures none { IfNone result (Misses v.now vectors.now) }
{
    for i in (0..vectors.len()).rev() {
        if v.at_or_below(&vectors[i]) {
            return Some(i);
        }
    }
    None
}
