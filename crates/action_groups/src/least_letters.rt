//! The letters by which actions are numbered.

ghost use Rattle.std.specs.Prelude.{◌≡◌, ◌<◌, ◌≤◌, ◌+◌, ◌-◌, ◌^◌, ◌++◌, ℕ, length, map, vec_len, IfOk, OnOk};
ghost use Rattle.action_groups.specs.First.{AreOptions};
ghost use Rattle.action_groups.specs.Part.{ArePairs};
ghost use Rattle.action_groups.specs.Sides.{leads, follows, letter_with, letters_of};

use crate::orders::Order;
use indexmap::IndexSet;
use std::alloc::{AllocError, Global};

/// Adds the letters of a first valuation with each of its options, with the options' labels.
fn add_letters(
    order: Order,
    first: u64,
    options: &[(u64, u64)],
    count: usize,
    met: &mut Vec<(u64, u64)>,
) -> Result<(), AllocError>
    requires first { first < 2 ^ leads order }
    requires options { ArePairs (follows order) count options.now }
    requires met { ArePairs 64 count met.old.items }
    ensures met { ArePairs 64 count met.new.items }
    ensures value { OnOk result (met.new.items ≡ met.old.items ++ map (letter_with order first) options.now) }
{
    for (value, label) in options {
        met.push((order.letter(first, *value), *label))?;
    }
    Ok(())
}

/// The letters of the least valuations of classes with each of their options, with the options' labels. Of each label
/// the least letter is among them.
pub fn met_letters(
    alloc: Global,
    order: Order,
    classes: &[(u64, u64)],
    lists: &IndexSet<Vec<(u64, u64)>>,
    count: usize,
) -> Result<Vec<(u64, u64)>, AllocError>
    requires classes { ArePairs (leads order) (length lists.now.keys) classes.now }
    requires options { AreOptions (follows order) count lists.now.keys }
    requires some { 0 < length classes.now }
    ensures met { IfOk result (λ v. ArePairs 64 count v.items) }
    ensures some { IfOk result (λ v. 0 < length v.items) }
    ensures value { IfOk result (λ v. v.items ≡ letters_of order lists.now.keys classes.now) }
{
    let mut met = Vec::new(alloc);
    for (least, class) in classes {
        let options = &lists.as_slice()[*class as usize];
        add_letters(order, *least, options, count, &mut met)?;
    }
    Ok(met)
}
