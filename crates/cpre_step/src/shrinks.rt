//! The parts of a set that work for options and classes.

ghost use Rattle.std.specs.Prelude.{◌≡◌, ◌<◌, ◌||◌, ◌&&◌, ◌∷◌, [], ℕ, ℤ, List, length, IfOk, OnOk, is_ok, if◌then◌else◌};
ghost use Rattle.std.specs.List.{list_any, list_all};
ghost use Rattle.antichain_list.specs.Antichain.{covered, added};
ghost use Rattle.counter_vec.specs.Counters.{at_or_below, lexicographic};
ghost use Rattle.game_form.specs.Vector.{IsVector};
ghost use Rattle.game_form.specs.Game.{lanes, IsClass};
ghost use Rattle.cpre_step.specs.Refinement.{AreVectors, action_works, some_works, all_work};

use antichain_list::{Downset, ListDownset};
use counter_vec::Counters;
use game_form::{Class, Game};
use std::alloc::{AllocError, Global};

/// The vectors at or below `f` from which every class has an option that works.
pub fn shrunk_second<D: Downset<Counters>>(
    alloc: Global,
    g: &Game,
    f: &Counters,
    d: &D,
) -> Result<ListDownset<Counters>, AllocError>
    requires vector { IsVector g.now f.now }
    requires entries { AreVectors g.now (D.entries d.now) }
    ensures vectors { IfOk result (λ list. AreVectors g.now list) }
    ensures covers { IfOk result (λ list. (u : List ℤ) → IsVector g.now u → covered at_or_below u list ≡ (at_or_below u f.now && list_all (λ c. some_works g.now (D.entries d.now) u c) g.now.classes)) }
{
    let mut left = only(alloc, f)?;
    for c in 0..g.classes().len() {
        left = some_option(alloc, g, &left, g.class(c as u64), d)?;
    }
    Ok(left)
}

/// The vectors at or below `f` from which all options of some class work.
pub fn shrunk_first<D: Downset<Counters>>(
    alloc: Global,
    g: &Game,
    f: &Counters,
    d: &D,
) -> Result<ListDownset<Counters>, AllocError>
    requires vector { IsVector g.now f.now }
    requires entries { AreVectors g.now (D.entries d.now) }
    ensures vectors { IfOk result (λ list. AreVectors g.now list) }
    ensures covers { IfOk result (λ list. (u : List ℤ) → IsVector g.now u → covered at_or_below u list ≡ (at_or_below u f.now && list_any (λ c. all_work g.now (D.entries d.now) u c) g.now.classes)) }
{
    let mut left = ListDownset::empty(alloc);
    for c in 0..g.classes().len() {
        let part = all_options(alloc, g, f, g.class(c as u64), d)?;
        put_all(alloc, g, &mut left, &part)?;
    }
    Ok(left)
}

/// The part of `from` for which some option of the class works.
fn some_option<D: Downset<Counters>>(
    alloc: Global,
    g: &Game,
    from: &ListDownset<Counters>,
    class: &Class,
    d: &D,
) -> Result<ListDownset<Counters>, AllocError>
    requires class { IsClass g.now class.now }
    requires vectors { AreVectors g.now from.now }
    requires entries { AreVectors g.now (D.entries d.now) }
    ensures vectors { IfOk result (λ list. AreVectors g.now list) }
    ensures covers { IfOk result (λ list. (u : List ℤ) → IsVector g.now u → covered at_or_below u list ≡ (covered at_or_below u from.now && some_works g.now (D.entries d.now) u class.now)) }
{
    let mut left = ListDownset::empty(alloc);
    for option in &class.options {
        put_working(alloc, g, from, option.0, d, &mut left)?;
    }
    Ok(left)
}

/// The part below `f` for which all options of the class work.
fn all_options<D: Downset<Counters>>(
    alloc: Global,
    g: &Game,
    f: &Counters,
    class: &Class,
    d: &D,
) -> Result<ListDownset<Counters>, AllocError>
    requires class { IsClass g.now class.now }
    requires vector { IsVector g.now f.now }
    requires entries { AreVectors g.now (D.entries d.now) }
    ensures vectors { IfOk result (λ list. AreVectors g.now list) }
    ensures covers { IfOk result (λ list. (u : List ℤ) → IsVector g.now u → covered at_or_below u list ≡ (at_or_below u f.now && all_work g.now (D.entries d.now) u class.now)) }
{
    let mut left = only(alloc, f)?;
    for option in &class.options {
        let mut next = ListDownset::empty(alloc);
        put_working(alloc, g, &left, option.0, d, &mut next)?;
        left = next;
    }
    Ok(left)
}

/// Puts into `left` the part of `from` whose successors under the action are at or below an entry.
fn put_working<D: Downset<Counters>>(
    alloc: Global,
    g: &Game,
    from: &ListDownset<Counters>,
    action: u64,
    d: &D,
    left: &mut ListDownset<Counters>,
) -> Result<(), AllocError>
    requires action { action < length g.now.actions }
    requires vectors { AreVectors g.now from.now }
    requires entries { AreVectors g.now (D.entries d.now) }
    requires left { AreVectors g.now left.old }
    ensures vectors { AreVectors g.now left.new }
    ensures covers { OnOk result ((u : List ℤ) → IsVector g.now u → covered at_or_below u left.new ≡ (covered at_or_below u left.old || (covered at_or_below u from.now && action_works g.now (D.entries d.now) u action))) }
{
    g.known();
    for i in 0..d.len() {
        let most = d.entry(i).pre(alloc, g, action)?;
        put_meets(alloc, g, from, &most, left)?;
    }
    Ok(())
}

/// Puts into `left` the part of `from` that is at or below `most`.
fn put_meets(
    alloc: Global,
    g: &Game,
    from: &ListDownset<Counters>,
    most: &Counters,
    left: &mut ListDownset<Counters>,
) -> Result<(), AllocError>
    requires vectors { AreVectors g.now from.now }
    requires most { IsVector g.now most.now }
    requires left { AreVectors g.now left.old }
    ensures vectors { AreVectors g.now left.new }
    ensures covers { OnOk result ((u : List ℤ) → covered at_or_below u left.new ≡ (covered at_or_below u left.old || (covered at_or_below u from.now && at_or_below u most.now))) }
{
    for v in from.entries() {
        put(left, v.meet(alloc, most)?)?;
    }
    Ok(())
}

/// Puts all these vectors.
fn put_all(
    alloc: Global,
    g: &Game,
    left: &mut ListDownset<Counters>,
    part: &ListDownset<Counters>,
) -> Result<(), AllocError>
    requires part { AreVectors g.now part.now }
    requires left { AreVectors g.now left.old }
    ensures vectors { AreVectors g.now left.new }
    ensures covers { OnOk result ((u : List ℤ) → covered at_or_below u left.new ≡ (covered at_or_below u left.old || covered at_or_below u part.now)) }
{
    for v in part.entries() {
        put(left, v.copy(alloc)?)?;
    }
    Ok(())
}

/// Puts a vector. Want of memory lets it go.
fn put(left: &mut ListDownset<Counters>, v: Counters) -> Result<(), AllocError>
    ensures { left.new ≡ (if is_ok result then added at_or_below lexicographic v left.old else left.old) }
{
    match left.put(v) {
        Ok(()) => Ok(()),
        Err(_) => Err(AllocError),
    }
}

/// The set below one vector.
fn only(alloc: Global, f: &Counters) -> Result<ListDownset<Counters>, AllocError>
    ensures { IfOk result (λ list. list ≡ f.now ∷ []) }
{
    let mut list = ListDownset::empty(alloc);
    put(&mut list, f.copy(alloc)?)?;
    Ok(list)
}
