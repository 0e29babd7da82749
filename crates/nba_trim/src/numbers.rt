//! New numbers of the states that are kept.

ghost use Rattle.std.specs.Prelude.{if◌then◌else◌, ◌≡◌, ◌<◌, ◌≤◌, ◌^◌, ◌++◌, ◌∷◌, [], length, IfOk, IfSome, OnOk};
ghost use Rattle.nba_trim.specs.Numbers.{AreTrue, AreNumbers};
ghost use Rattle.nba_trim.specs.Search.{AreStates};
ghost use Rattle.nba_trim.specs.Trimmed.{number_of};

use std::alloc::{AllocError, Global};
use std::marker::Model;

/// The kept states in order, and by old number the new number of each that is kept.
#[derive(Drop)]
pub struct Numbers {
    numbers: Vec<Option<u32>>,
    kept: Vec<u32>,
}

impl Model for Numbers {
    ghost use Rattle.nba_trim.specs.Numbers.{NumbersData, AreNumbers};

    ghost Value = { NumbersData };

    ghost view = { λ n. record { numbers = n.numbers.items; kept = n.kept.items } };

    ghost invariant = { λ n. AreNumbers n.numbers.items n.kept.items };
}

impl Numbers {
    /// Numbers those states of which `reached` says so.
    pub fn new(alloc: Global, reached: &[bool]) -> Result<Numbers, AllocError>
        requires { length reached.now < 2 ^ 32 }
        ensures numbers { IfOk result (λ n. length n.numbers ≡ length reached.now) }
        ensures kept { IfOk result (λ n. AreTrue reached.now n.kept) }
    {
        let kept = kept_of(alloc, reached)?;
        let numbers = numbers_of(alloc, reached, &kept)?;
        Ok(Numbers { numbers, kept })
    }

    /// The kept states.
    pub fn kept(&self) -> &[u32]
        ensures value { result.now ≡ self.now.kept }
        ensures states { AreStates (length self.now.numbers) self.now.kept }
        ensures fewer { length self.now.kept ≤ length self.now.numbers }
    {
        &self.kept
    }

    /// The new number of a state, if it is kept.
    pub fn of(&self, q: u32) -> Option<u32>
        requires { q < length self.now.numbers }
        ensures value { result ≡ number_of self.now.kept q }
        ensures within { IfSome result (λ k. k < length self.now.kept) }
    {
        self.numbers[q as usize]
    }
}

/// The states of which `reached` says so, in ascending order.
fn kept_of(alloc: Global, reached: &[bool]) -> Result<Vec<u32>, AllocError>
    requires { length reached.now < 2 ^ 32 }
    ensures { IfOk result (λ kept. AreTrue reached.now kept.items) }
{
    let mut kept = Vec::new(alloc);
    for q in 0..reached.len() {
        push_if(&mut kept, q as u32, reached[q])?;
    }
    Ok(kept)
}

/// Adds a number to a list, where it is wanted.
fn push_if(list: &mut Vec<u32>, q: u32, is_wanted: bool) -> Result<(), AllocError>
    ensures { OnOk result (list.new.items ≡ (if is_wanted then list.old.items ++ q ∷ [] else list.old.items)) }
{
    if is_wanted {
        list.push(q)?;
    }
    Ok(())
}

/// By state its place among the kept ones.
fn numbers_of(alloc: Global, reached: &[bool], kept: &[u32]) -> Result<Vec<Option<u32>>, AllocError>
    requires counted { length reached.now < 2 ^ 32 }
    requires kept { AreTrue reached.now kept.now }
    ensures count { IfOk result (λ numbers. length numbers.items ≡ length reached.now) }
    ensures exact { IfOk result (λ numbers. AreNumbers numbers.items kept.now) }
{
    let mut numbers = vec![in alloc; None; reached.len()]?;
    for k in 0..kept.len() {
        numbers[kept[k] as usize] = Some(k as u32);
    }
    Ok(numbers)
}
