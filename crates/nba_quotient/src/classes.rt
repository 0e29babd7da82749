//! Classes of states: two states are in one class where they have the same edges up to the classes of their ends. An
//! edge that another one absorbs counts for nothing: the other leads to the same class, holds each letter that it holds,
//! and is marked where it is.

ghost use Rattle.std.specs.Prelude.{ℕ, ◌≡◌, ◌<◌, ◌≤◌, ◌+◌, ◌^◌, ◌⊎◌, length, All, IfOk, map};
ghost use Rattle.nba_quotient.specs.Classes.{AreClasses, AreStable, known};
ghost use Rattle.nba_quotient.specs.Kinds.{kind_of};
ghost use Rattle.nba_quotient.specs.Ways.{AreWays, Within, class_at, IsNumberOf};

use crate::ways::{Way, ways_of};
use indexmap::IndexSet;
use std::alloc::{AllocError, Global};
use word_core::Automaton;

/// What states of one class have in common: the class before, and the edges.
type Kind = (u32, Vec<Way>);

/// The class of each state, and a state of each class. Classes are numbered in the order of their least states.
#[derive(Drop)]
pub struct Classes {
    pub of: Vec<u32>,
    pub leasts: Vec<u32>,
}

/// Classes in which the states of one class have the same edges up to the classes of their ends: the coarsest ones.
pub fn classes_of(alloc: Global, a: &Automaton) -> Result<Classes, AllocError>
    ensures classes { IfOk result (AreClasses (length a.now.states)) }
    ensures stable { IfOk result (AreStable a.now) }
{
    let mut classes = one_class(alloc, a.states().len())?;
    loop {
        let finer = split(alloc, a, &classes)?;
        if finer.of == classes.of {
            return Ok(classes);
        }
        classes = finer;
    }
}

/// All states in one class; no class where there is no state.
fn one_class(alloc: Global, count: usize) -> Result<Classes, AllocError>
    requires { count < 2 ^ 32 }
    ensures { IfOk result (AreClasses count) }
{
    let of = vec![in alloc; 0; count]?;
    if count == 0 {
        let leasts = Vec::new(alloc);
        return Ok(Classes { of, leasts });
    }
    let leasts = vec![in alloc; 0]?;
    Ok(Classes { of, leasts })
}

/// The classes split by the edges up to classes.
fn split(alloc: Global, a: &Automaton, classes: &Classes) -> Result<Classes, AllocError>
    requires { AreClasses (length a.now.states) classes.now }
    ensures classes { IfOk result (AreClasses (length a.now.states)) }
    ensures alike { IfOk result (λ finer. (s t : ℕ) → s < length a.now.states → t < length a.now.states → class_at finer.of.items s ≡ class_at finer.of.items t → Within a.now classes.now.of.items s t) }
    ensures more { IfOk result (λ finer. (finer.of.items ≡ classes.now.of.items) ⊎ (length classes.now.leasts.items < length finer.leasts.items)) }
{
    let mut kinds: IndexSet<Kind> = IndexSet::new(alloc);
    let mut of = Vec::with_capacity(alloc, a.states().len())?;
    for state in 0..a.states().len() {
        let ways = ways_of(alloc, a, state as u32, &classes.of)?;
        let class = number_of(&mut kinds, (classes.of[state], ways))?;
        of.push(class as u32)?;
    }
    let leasts = leasts_of(alloc, &of, kinds.len())?;
    Ok(Classes { of, leasts })
}

/// A state of each class, the least, where so many states have these classes.
fn leasts_of(alloc: Global, of: &[u32], count: usize) -> Result<Vec<u32>, AllocError>
    requires small { length of.now < 2 ^ 32 }
    requires few { count ≤ length of.now }
    requires classes { All (λ n. n < count) of.now }
    ensures count { IfOk result (λ v. length v.items ≡ count) }
    ensures states { IfOk result (λ v. All (λ q. q < length of.now) v.items) }
    ensures own { IfOk result (λ v. (s : ℕ) → s < length of.now → class_at of.now (class_at v.items (class_at of.now s)) ≡ class_at of.now s) }
{
    let mut leasts = vec![in alloc; 0; count]?;
    for back in 0..of.len() {
        let state = of.len() - 1 - back;
        leasts[of[state] as usize] = state as u32;
    }
    Ok(leasts)
}

/// The number of a kind, by its first occurrence.
fn number_of(kinds: &mut IndexSet<Kind>, kind: Kind) -> Result<usize, AllocError>
    ensures { IfOk result (λ n. IsNumberOf (map kind_of kinds.old.keys) (map kind_of kinds.new.keys) (kind_of kind) n) }
{
    let (number, _) = kinds.insert_full(kind)?;
    Ok(number)
}
