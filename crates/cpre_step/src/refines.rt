//! What is left below a vector.

ghost use Rattle.std.specs.Prelude.{◌≡◌, ◌<◌, ◌&&◌, ℕ, ℤ, List, length, IfOk};
ghost use Rattle.antichain_list.specs.Antichain.{covered};
ghost use Rattle.counter_vec.specs.Counters.{at_or_below};
ghost use Rattle.game_form.specs.Vector.{IsVector};
ghost use Rattle.cpre_step.specs.Refinement.{AreVectors, answers};
ghost use Rattle.cpre_step.specs.Outcome.{Refines};
ghost use Rattle.cpre_step.specs.Valuations.{RefinesByValuations};
ghost use Rattle.game_form.specs.Covering.{CoversLetters};
ghost use Rattle.game_form.specs.Letters.{HasLetters};

use crate::shrinks::{shrunk_first, shrunk_second};
use antichain_list::{Downset, ListDownset};
use counter_vec::Counters;
use game_form::Game;
use std::alloc::{AllocError, Global};
use word_core::Kind;

/// Whether a vector stays as it is, or else the maximal vectors below it that stay.
#[derive(Debug, Drop)]
pub enum Refined {
    Kept,
    Shrunk(Vec<Counters>),
}

/// Kept exactly where `f` is in the predecessor of `d`. Else Shrunk has, ascending, exactly the maximal
/// vectors at or below `f` that are in it.
///
/// By classes and options this is so for every game, by single valuations for those whose classes and
/// options are those of their letters.
pub fn pre_below<D: Downset<Counters>>(
    alloc: Global,
    g: &Game,
    f: &Counters,
    d: &D,
) -> Result<Refined, AllocError>
    requires vector { IsVector g.now f.now }
    requires entries { AreVectors g.now (D.entries d.now) }
    ensures options { IfOk result (λ r. Refines g.now (D.entries d.now) f.now r) }
    ensures valuations { HasLetters g.now → CoversLetters g.now → IfOk result (λ r. RefinesByValuations g.now (D.entries d.now) f.now r) }
{
    g.known();
    by_options(alloc, g, f, d)
}

/// The same by classes and options.
fn by_options<D: Downset<Counters>>(
    alloc: Global,
    g: &Game,
    f: &Counters,
    d: &D,
) -> Result<Refined, AllocError>
    requires vector { IsVector g.now f.now }
    requires entries { AreVectors g.now (D.entries d.now) }
    ensures { IfOk result (λ r. Refines g.now (D.entries d.now) f.now r) }
{
    let left = left_below(alloc, g, f, d)?;
    if left.covers(f) {
        return Ok(Refined::Kept);
    }
    Ok(Refined::Shrunk(left.into_entries()))
}

/// The set of the vectors at or below `f` that are in the predecessor of `d`.
fn left_below<D: Downset<Counters>>(
    alloc: Global,
    g: &Game,
    f: &Counters,
    d: &D,
) -> Result<ListDownset<Counters>, AllocError>
    requires vector { IsVector g.now f.now }
    requires entries { AreVectors g.now (D.entries d.now) }
    ensures vectors { IfOk result (λ list. AreVectors g.now list) }
    ensures covers { IfOk result (λ list. (u : List ℤ) → IsVector g.now u → covered at_or_below u list ≡ (at_or_below u f.now && answers g.now (D.entries d.now) u)) }
{
    match g.kind() {
        Kind::First => shrunk_first(alloc, g, f, d),
        Kind::Second => shrunk_second(alloc, g, f, d),
    }
}
