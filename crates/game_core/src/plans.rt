//! Which actions a solver has to try, class by class.
//!
//! Two actions of one class are compared row by row. For kind second the one that leads nowhere above the other is
//! enough; for kind first the other one is, since both have to work. Classes are compared likewise.

ghost use Rattle.std.specs.Prelude.{◌≡◌, ◌<◌, ◌≤◌, ◌+◌, ◌||◌, ◌&&◌, ◌≤ℤ◌, ℕ, Bool, true, List, length, map, pos, vec_len, IfOk, IsTrue, slice_index_or};
ghost use Rattle.std.specs.List.{All, list_any, list_all};
ghost use Rattle.game_form.specs.Game.{lanes, action_at, row_at};
ghost use Rattle.game_form.specs.Vector.{number, size_of};
ghost use Rattle.game_core.specs.Plan.{AreActions, IsAtMost, Replaces, Respects, IsPlan, each_planned};

use game_form::{Class, Game, Step};
use std::alloc::{AllocError, Global};
use word_core::Kind;

/// Whether a step leads to lane `to` with at least this number.
fn leads_to(steps: &[Step], to: u32, least: i16) -> bool
    requires steps { All (λ s. (pos 1 ≤ℤ s.number) × (s.number ≤ℤ pos 2)) steps.now }
    ensures { IsTrue result → size_of least ≤ number steps.now to }
{
    for step in steps {
        if step.to == to {
            return least <= step.number;
        }
    }
    false
}

/// Whether no step of `a` is above the step of `b` to the same lane.
fn row_at_most(a: &[Step], b: &[Step]) -> bool
    requires a { All (λ s. (pos 1 ≤ℤ s.number) × (s.number ≤ℤ pos 2)) a.now }
    requires b { All (λ s. (pos 1 ≤ℤ s.number) × (s.number ≤ℤ pos 2)) b.now }
    ensures { IsTrue result → (p : ℕ) → number a.now p ≤ number b.now p }
{
    for step in a {
        if !leads_to(b, step.to, step.number) {
            return false;
        }
    }
    true
}

/// Whether no row of `a` is above the row of `b` for the same lane.
fn action_at_most(g: &Game, a: u64, b: u64) -> bool
    requires a { a < length g.now.actions }
    requires b { b < length g.now.actions }
    ensures { IsTrue result → IsAtMost g.now a b }
{
    for q in 0..g.lanes() {
        if !row_at_most(&g.row(a, q).steps, &g.row(b, q).steps) {
            return false;
        }
    }
    true
}

/// Whether option `b` needn't be tried where option `a` is.
fn replaces(g: &Game, a: u64, b: u64) -> bool
    requires a { a < length g.now.actions }
    requires b { b < length g.now.actions }
    ensures { IsTrue result → Replaces g.now a b }
{
    match g.kind() {
        Kind::Second => action_at_most(g, a, b),
        Kind::First => action_at_most(g, b, a),
    }
}

/// Whether one of these options replaces `b`.
fn some_replaces(g: &Game, options: &[u64], b: u64) -> bool
    requires options { AreActions (length g.now.actions) options.now }
    requires b { b < length g.now.actions }
    ensures { IsTrue result → (test : ℕ → Bool) → Respects g.now test → test b ≡ true → list_any test options.now ≡ true }
{
    for a in options {
        if replaces(g, *a, b) {
            return true;
        }
    }
    false
}

/// The actions of a class in order.
fn actions_of(alloc: Global, class: &Class) -> Result<Vec<u64>, AllocError>
    ensures { IfOk result (λ v. v.items ≡ map (λ o. o.0) class.now.options) }
{
    let mut actions = Vec::with_capacity(alloc, class.options.len())?;
    for (action, _) in &class.options {
        actions.push(*action)?;
    }
    Ok(actions)
}

/// Those options that `b` doesn't replace, and `b`.
fn with_option(alloc: Global, g: &Game, options: &[u64], b: u64) -> Result<Vec<u64>, AllocError>
    requires options { AreActions (length g.now.actions) options.now }
    requires b { b < length g.now.actions }
    ensures actions { IfOk result (λ v. AreActions (length g.now.actions) v.items) }
    ensures same { IfOk result (λ v. (test : ℕ → Bool) → Respects g.now test → list_any test v.items ≡ (list_any test options.now || test b)) }
{
    let mut kept = Vec::new(alloc);
    for a in options {
        if !replaces(g, b, *a) {
            kept.push(*a)?;
        }
    }
    kept.push(b)?;
    Ok(kept)
}

/// Options that stand for these: none of them replaces another one.
fn least_options(alloc: Global, g: &Game, options: &[u64]) -> Result<Vec<u64>, AllocError>
    requires { AreActions (length g.now.actions) options.now }
    ensures actions { IfOk result (λ v. AreActions (length g.now.actions) v.items) }
    ensures same { IfOk result (λ v. (test : ℕ → Bool) → Respects g.now test → list_any test v.items ≡ list_any test options.now) }
{
    let mut kept = Vec::new(alloc);
    for b in options {
        if !some_replaces(g, &kept, *b) {
            kept = with_option(alloc, g, &kept, *b)?;
        }
    }
    Ok(kept)
}

/// Whether each option of `a` is replaced by one of `b`.
///
/// A class with the options `b` needn't be looked at then where one with the options `a` is: for kind second it
/// works wherever that one works, and for kind first that one works wherever it does.
fn all_replaced(g: &Game, a: &[u64], b: &[u64]) -> bool
    requires a { AreActions (length g.now.actions) a.now }
    requires b { AreActions (length g.now.actions) b.now }
    ensures { IsTrue result → (test : ℕ → Bool) → Respects g.now test → list_any test a.now ≡ true → list_any test b.now ≡ true }
{
    for x in a {
        if !some_replaces(g, b, *x) {
            return false;
        }
    }
    true
}

/// Whether a class with these options needn't be looked at, since one of the list is.
fn is_needless(g: &Game, classes: &[Vec<u64>], options: &[u64]) -> bool
    requires classes { All (λ v. AreActions (length g.now.actions) v.items) classes.now }
    requires options { AreActions (length g.now.actions) options.now }
    ensures { IsTrue result → (test : ℕ → Bool) → Respects g.now test → each_planned test classes.now ≡ true → list_any test options.now ≡ true }
{
    for class in classes {
        if all_replaced(g, class, options) {
            return true;
        }
    }
    false
}

/// The classes that are to be looked at where one with these options is, and that one.
fn with_class(
    alloc: Global,
    g: &Game,
    classes: Vec<Vec<u64>>,
    options: Vec<u64>,
) -> Result<Vec<Vec<u64>>, AllocError>
    requires classes { All (λ v. AreActions (length g.now.actions) v.items) classes.items }
    requires options { AreActions (length g.now.actions) options.items }
    ensures actions { IfOk result (λ v. All (λ c. AreActions (length g.now.actions) c.items) v.items) }
    ensures same { IfOk result (λ v. (test : ℕ → Bool) → Respects g.now test → each_planned test v.items ≡ (each_planned test classes.items && list_any test options.items)) }
{
    let mut needed = Vec::new(alloc);
    for class in classes {
        if !all_replaced(g, &options, &class) {
            needed.push(class)?;
        }
    }
    needed.push(options)?;
    Ok(needed)
}

/// The actions to try, class by class.
pub fn plan(alloc: Global, g: &Game) -> Result<Vec<Vec<u64>>, AllocError>
    ensures { IfOk result (λ v. IsPlan g.now v.items) }
{
    g.known();
    let mut needed = Vec::new(alloc);
    for c in 0..g.classes().len() {
        let all = actions_of(alloc, g.class(c as u64))?;
        let options = least_options(alloc, g, &all)?;
        if !is_needless(g, &needed, &options) {
            needed = with_class(alloc, g, needed, options)?;
        }
    }
    Ok(needed)
}
