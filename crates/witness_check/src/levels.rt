//! How often runs can take marked edges.

ghost use Rattle.std.specs.Prelude.{ℕ, ◌≡◌, ◌<◌, ◌≤◌, ◌+◌, ◌⊎◌, ◌↔◌, Bool, true, false, length, map, take, IfOk, OnOk, IsTrue, slice_get, slice_set, ◌∷◌, ◌++◌, []};
ghost use Rattle.std.specs.List.{All, Contains};
ghost use Rattle.word_core.specs.Run.{Keeps};
ghost use Rattle.witness_check.specs.declared.products.Arc.{Arc};
ghost use Rattle.witness_check.specs.Levels.{arcs_at, is_in, Closed, IsAsked, IsListed, IsReached, IsBehind, IsVisited, AreWithin};

use crate::Memory;
use crate::products::{Arc, product};
use std::alloc::Global;
use word_core::{Automaton, Machine};

/// Whether every run of the automaton on every finite play of the machine has a count of at most k.
/// The automaton's signals are the machine's.
pub fn keeps(alloc: Global, a: &Automaton, m: &Machine, k: u32) -> Result<bool, Memory>
    requires { a.now.signals ≡ m.now.inputs + m.now.outputs }
    ensures { IfOk result (λ b. IsTrue b ↔ Keeps a.now m.now k) }
{
    let Some(init) = a.init() else {
        return Ok(true);
    };
    let arcs = product(alloc, a, m, init)?;
    let is_over = exceeds(alloc, &arcs, k)?;
    Ok(!is_over)
}

/// Whether some path from node 0 takes more than k marks.
fn exceeds(alloc: Global, arcs: &[Vec<Arc>], k: u32) -> Result<bool, Memory>
    requires some { 0 < length arcs.now }
    requires within { AreWithin (map (λ list. list.items) arcs.now) }
    ensures over { IfOk result (λ b. b ≡ true → (i : ℕ) × IsReached (map (λ list. list.items) arcs.now) (k + 1) i) }
    ensures kept { IfOk result (λ b. b ≡ false → (i : ℕ) → IsReached (map (λ list. list.items) arcs.now) (k + 1) i → ⊥) }
{
    let mut reached = first_level(alloc, arcs)?;
    for _marks in 0..u64::from(k) + 1 {
        let next = next_level(alloc, arcs, &reached)?;
        if !has_any(&next) {
            return Ok(false);
        }
        if is_within(&reached, &next) {
            return Ok(true);
        }
        reached = next;
    }
    Ok(true)
}

/// Whether a table has a node.
fn has_any(table: &[bool]) -> bool
    ensures some { result ≡ true → (i : ℕ) × (is_in table.now i ≡ true) }
    ensures none { result ≡ false → (i : ℕ) → is_in table.now i ≡ false }
{
    for is_in in table {
        if *is_in {
            return true;
        }
    }
    false
}

/// Whether the nodes of one table are all in another of its length.
fn is_within(first: &[bool], second: &[bool]) -> bool
    requires { length first.now ≡ length second.now }
    ensures { result ≡ true → (i : ℕ) → is_in first.now i ≡ true → is_in second.now i ≡ true }
{
    for node in 0..first.len() {
        if first[node] && !second[node] {
            return false;
        }
    }
    true
}

/// The nodes that are reached from node 0.
fn first_level(alloc: Global, arcs: &[Vec<Arc>]) -> Result<Vec<bool>, Memory>
    requires some { 0 < length arcs.now }
    requires within { AreWithin (map (λ list. list.items) arcs.now) }
    ensures same { IfOk result (λ r. length r.items ≡ length arcs.now) }
    ensures level { IfOk result (λ r. (i : ℕ) → (is_in r.items i ≡ true → IsReached (map (λ list. list.items) arcs.now) 0 i) × (IsReached (map (λ list. list.items) arcs.now) 0 i → is_in r.items i ≡ true)) }
{
    let mut reached = vec![in alloc; false; arcs.len()]?;
    let mut found = Vec::new(alloc);
    visit(&mut reached, &mut found, 0)?;
    close(arcs, &mut reached, &mut found)?;
    Ok(reached)
}

/// The nodes that are reached by one more mark than those of a table, and further arcs.
fn next_level(alloc: Global, arcs: &[Vec<Arc>], from: &[bool]) -> Result<Vec<bool>, Memory>
    requires within { AreWithin (map (λ list. list.items) arcs.now) }
    requires same { length from.now ≡ length arcs.now }
    ensures same { IfOk result (λ r. length r.items ≡ length arcs.now) }
    ensures level { IfOk result (λ r. (i : ℕ) → (is_in r.items i ≡ true → IsBehind (map (λ list. list.items) arcs.now) from.now i) × (IsBehind (map (λ list. list.items) arcs.now) from.now i → is_in r.items i ≡ true)) }
{
    let mut reached = vec![in alloc; false; arcs.len()]?;
    let mut found = Vec::new(alloc);
    for node in 0..arcs.len() {
        if !from[node] {
            continue;
        }
        visit_all(&mut reached, &mut found, &arcs[node], true)?;
    }
    close(arcs, &mut reached, &mut found)?;
    Ok(reached)
}

/// Adds the nodes to which arcs lead from those of a table. The list of the found ones has them in
/// the order in which they were found.
fn close(arcs: &[Vec<Arc>], reached: &mut Vec<bool>, found: &mut Vec<usize>) -> Result<(), Memory>
    requires within { AreWithin (map (λ list. list.items) arcs.now) }
    requires same { length reached.old.items ≡ length arcs.now }
    requires listed { IsListed reached.old.items found.old.items }
    ensures same { OnOk result (length reached.new.items ≡ length arcs.now) }
    ensures closed { OnOk result ((i : ℕ) → (is_in reached.new.items i ≡ true → Closed (map (λ list. list.items) arcs.now) reached.old.items i) × (Closed (map (λ list. list.items) arcs.now) reached.old.items i → is_in reached.new.items i ≡ true)) }
{
    for at in 0..arcs.len() {
        let Some(node) = found_at(found, at) else {
            return Ok(());
        };
        visit_all(reached, found, &arcs[node], false)?;
    }
    Ok(())
}

/// The node that was found at a place.
fn found_at(found: &[usize], at: usize) -> Option<usize>
    ensures { result ≡ slice_get found.now at }
{
    found.get(at).copied()
}

/// Visits the ends of all arcs, or of the marked ones alone.
fn visit_all(
    reached: &mut Vec<bool>,
    found: &mut Vec<usize>,
    arcs: &[Arc],
    only_marked: bool,
) -> Result<(), Memory>
    requires within { All (λ arc. arc.to < length reached.old.items) arcs.now }
    requires listed { IsListed reached.old.items found.old.items }
    ensures same { OnOk result (length reached.new.items ≡ length reached.old.items) }
    ensures listed { OnOk result (IsListed reached.new.items found.new.items) }
    ensures kept { OnOk result ((i : ℕ) → is_in reached.old.items i ≡ true → is_in reached.new.items i ≡ true) }
    ensures whole { OnOk result ((arc : Arc) → Contains arcs.now arc → IsAsked only_marked arc → is_in reached.new.items arc.to ≡ true) }
    ensures sound { OnOk result ((i : ℕ) → is_in reached.new.items i ≡ true → (is_in reached.old.items i ≡ true) ⊎ ((arc : Arc) × Contains arcs.now arc × IsAsked only_marked arc × (i ≡ arc.to))) }
    ensures order { OnOk result (take (length found.old.items) found.new.items ≡ found.old.items) }
{
    for arc in arcs {
        if !is_asked(only_marked, *arc) {
            continue;
        }
        visit(reached, found, arc.to)?;
    }
    Ok(())
}

/// Whether an arc is marked, or need not be.
fn is_asked(only_marked: bool, arc: Arc) -> bool
    ensures { result ≡ true ↔ IsAsked only_marked arc }
{
    arc.marked || !only_marked
}

/// Notes a node that is reached, and lists it once.
fn visit(reached: &mut Vec<bool>, found: &mut Vec<usize>, node: usize) -> Result<(), Memory>
    requires { node < length reached.old.items }
    ensures { OnOk result (IsVisited node reached.old.items found.old.items reached.new.items found.new.items) }
{
    if !reached[node] {
        found.push(node)?;
        reached[node] = true;
    }
    Ok(())
}
