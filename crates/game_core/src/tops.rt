//! Vectors each of which points to one at or above it, so that only those that point to themselves need be looked at.

ghost use Rattle.std.specs.Prelude.{◌≡◌, ◌≢◌, ◌<◌, ◌≤◌, ◌+◌, ℕ, ℤ, List, true, false, [], ◌∷◌, ◌++◌, if◌then◌else◌, is_ok, length, remove, IfOk, OnOk, IfSome, IfNone, slice_index_or};
ghost use Rattle.std.specs.List.{All};
ghost use Rattle.counter_vec.specs.Counters.{at_or_below};
ghost use Rattle.game_core.specs.Flat.{IsFlat, over_at, low_at, moved_down, picked};
ghost use Rattle.game_core.specs.Front.{Misses, under};

use antichain_list::Entry;
use counter_vec::Counters;
use std::alloc::{AllocError, Global};

/// The place of a vector at or above `f` that points to itself.
pub fn find_top(lows: &Vec<Counters>, over: &Vec<usize>, f: &Counters) -> Option<usize>
    requires { IsFlat lows.now.items over.now.items }
    ensures some { IfSome result (λ i. (i < length lows.now.items) × (over_at over.now.items i ≡ i) × (at_or_below f.now (low_at lows.now.items i) ≡ true)) }
    ensures none { IfNone result (Misses f.now lows.now.items) }
{
    for i in 0..lows.len() {
        if over[i] == i && f.at_or_below(&lows[i]) {
            return Some(i);
        }
    }
    None
}

/// The place of a vector at or above that of `place`, which points to `gone`: one that points to itself, but not
/// `gone`, or else `place`.
fn find_other(lows: &Vec<Counters>, over: &Vec<usize>, place: usize, gone: usize) -> usize
    requires flat { IsFlat lows.now.items over.now.items }
    requires place { place < length lows.now.items }
    requires points { over_at over.now.items place ≡ gone }
    requires apart { place ≢ gone }
    ensures within { result < length lows.now.items }
    ensures other { result ≢ gone }
    ensures top { result ≢ place → over_at over.now.items result ≡ result }
    ensures above { at_or_below (low_at lows.now.items place) (low_at lows.now.items result) ≡ true }
{
    for i in 0..lows.len() {
        if over[i] == i && i != gone && lows[place].at_or_below(&lows[i]) {
            return i;
        }
    }
    place
}

/// Points each place elsewhere that points to `gone`, but `gone` itself. There is none where `gone` points elsewhere.
fn leave(lows: &Vec<Counters>, over: &mut Vec<usize>, gone: usize)
    requires flat { IsFlat lows.now.items over.old.items }
    requires gone { gone < length lows.now.items }
    ensures flat { IsFlat lows.now.items over.new.items }
    ensures left { (j : ℕ) → j < length lows.now.items → j ≢ gone → over_at over.new.items j ≢ gone }
{
    if over[gone] != gone {
        return;
    }
    for i in 0..over.len() {
        if over[i] == gone && i != gone {
            over[i] = find_other(lows, over, i, gone);
        }
    }
}

/// Takes a place to which no other points out of the list of places.
fn shift(over: &mut Vec<usize>, gone: usize)
    requires gone { gone < length over.old.items }
    ensures len { length over.new.items + 1 ≡ length over.old.items }
    ensures each { (j : ℕ) → j < length over.new.items → over_at over.new.items j ≡ moved_down gone (over_at (remove over.old.items gone) j) }
{
    over.remove(gone);
    for i in 0..over.len() {
        over[i] = place_without(over[i], gone);
    }
}

/// The place at which a place is when another one is taken out.
fn place_without(place: usize, gone: usize) -> usize
    ensures { result ≡ moved_down gone place }
{
    if place > gone { place - 1 } else { place }
}

/// Takes a vector out.
pub fn take_low(lows: &mut Vec<Counters>, over: &mut Vec<usize>, gone: usize)
    requires flat { IsFlat lows.old.items over.old.items }
    requires gone { gone < length lows.old.items }
    ensures flat { IsFlat lows.new.items over.new.items }
    ensures rest { lows.new.items ≡ remove lows.old.items gone }
{
    leave(lows, over, gone);
    shift(over, gone);
    lows.remove(gone);
}

/// Points each place to `to` that points to `from`.
fn point(lows: &Vec<Counters>, over: &mut Vec<usize>, from: usize, to: usize)
    requires flat { IsFlat lows.now.items over.old.items }
    requires from { from < length lows.now.items }
    requires to { to < length lows.now.items }
    requires apart { from ≢ to }
    requires top { over_at over.old.items to ≡ to }
    requires above { at_or_below (low_at lows.now.items from) (low_at lows.now.items to) ≡ true }
    ensures flat { IsFlat lows.now.items over.new.items }
    ensures top { over_at over.new.items to ≡ to }
{
    for i in 0..over.len() {
        if over[i] == from {
            over[i] = to;
        }
    }
}

/// Points all places to `to` that point to vectors at or below that of `to`.
fn gather(lows: &Vec<Counters>, over: &mut Vec<usize>, to: usize)
    requires flat { IsFlat lows.now.items over.old.items }
    requires to { to < length lows.now.items }
    requires top { over_at over.old.items to ≡ to }
    ensures flat { IsFlat lows.now.items over.new.items }
{
    for i in 0..lows.len() {
        if i != to && over[i] == i && lows[i].at_or_below(&lows[to]) {
            point(lows, over, i, to);
        }
    }
}

/// Puts a vector behind the others, which points to a place that points to itself, or to its own.
fn push_pointing(
    lows: &mut Vec<Counters>,
    over: &mut Vec<usize>,
    low: Counters,
    to: usize,
) -> Result<(), AllocError>
    requires flat { IsFlat lows.old.items over.old.items }
    requires within { to ≤ length lows.old.items }
    requires top { to < length lows.old.items → over_at over.old.items to ≡ to }
    requires above { to < length lows.old.items → at_or_below low (low_at lows.old.items to) ≡ true }
    ensures flat { IsFlat lows.new.items over.new.items }
    ensures rest { lows.new.items ≡ (if is_ok result then lows.old.items ++ low ∷ [] else lows.old.items) }
    ensures points { OnOk result (over_at over.new.items (length lows.old.items) ≡ to) }
{
    over.reserve(1)?;
    lows.push(low)?;
    match over.push(to) {
        Ok(()) => Ok(()),
        Err(_) => unreachable!(),
    }
}

/// Puts a vector behind the others.
pub fn push_low(
    lows: &mut Vec<Counters>,
    over: &mut Vec<usize>,
    low: Counters,
) -> Result<(), AllocError>
    requires flat { IsFlat lows.old.items over.old.items }
    ensures flat { IsFlat lows.new.items over.new.items }
    ensures rest { lows.new.items ≡ (if is_ok result then lows.old.items ++ low ∷ [] else lows.old.items) }
{
    let place = lows.len();
    match find_top(lows, over, &low) {
        Some(to) => push_pointing(lows, over, low, to),
        None => push_top(lows, over, low, place),
    }
}

/// Puts a vector behind the others, which points to itself.
fn push_top(
    lows: &mut Vec<Counters>,
    over: &mut Vec<usize>,
    low: Counters,
    place: usize,
) -> Result<(), AllocError>
    requires flat { IsFlat lows.old.items over.old.items }
    requires place { place ≡ length lows.old.items }
    ensures flat { IsFlat lows.new.items over.new.items }
    ensures rest { lows.new.items ≡ (if is_ok result then lows.old.items ++ low ∷ [] else lows.old.items) }
{
    push_pointing(lows, over, low, place)?;
    gather(lows, over, place);
    Ok(())
}

/// Puts a place behind the others, where it is wanted.
fn push_if(places: &mut Vec<usize>, place: usize, wanted: bool) -> Result<(), AllocError>
    ensures { OnOk result (places.new.items ≡ (if wanted then places.old.items ++ place ∷ [] else places.old.items)) }
{
    if wanted {
        places.push(place)?;
    }
    Ok(())
}

/// The places that point to themselves.
pub fn tops_of(
    alloc: Global,
    lows: &Vec<Counters>,
    over: &Vec<usize>,
) -> Result<Vec<usize>, AllocError>
    requires { IsFlat lows.now.items over.now.items }
    ensures within { IfOk result (λ v. All (λ i. i < length lows.now.items) v.items) }
    ensures under { IfOk result (λ v. (u : List ℤ) → under (picked lows.now.items v.items) u ≡ under lows.now.items u) }
{
    let mut tops = Vec::with_capacity(alloc, over.len())?;
    for i in 0..over.len() {
        push_if(&mut tops, i, over[i] == i)?;
    }
    Ok(tops)
}
