//! What the player chooses among classes and options.

ghost use Rattle.std.specs.Prelude.{◌≡◌, ◌<◌, ℕ, true, length, IfOk, IsSome, Some};
ghost use Rattle.game_form.specs.Game.{IsClass, class_at};
ghost use Rattle.strategy_play.specs.Lead.{lead, pick, ArePicks, all_lead, leader, AreTargets, AreNumbers};

use game_form::{Class, Game};
use indexmap::IndexSet;
use std::alloc::{AllocError, Global};

/// The valuation and the entry of the first option that leads to one.
fn first_option(g: &Game, nexts: &[Option<u64>], class: &Class) -> (u64, u64)
    requires class { IsClass g.now class.now }
    requires count { length nexts.now ≡ length g.now.actions }
    requires some { IsSome (pick (lead nexts.now) class.now.options) }
    ensures { pick (lead nexts.now) class.now.options ≡ Some result }
{
    for option in &class.options {
        if let Some(next) = nexts[option.0 as usize] {
            return (option.1, next);
        }
    }
    unreachable!()
}

/// For each class the valuation and the entry of its first option that leads to one.
pub fn class_picks(
    alloc: Global,
    g: &Game,
    nexts: &[Option<u64>],
) -> Result<Vec<(u64, u64)>, AllocError>
    requires count { length nexts.now ≡ length g.now.actions }
    requires some { (c : ℕ) → c < length g.now.classes → IsSome (pick (lead nexts.now) (class_at g.now c).options) }
    ensures { IfOk result (λ v. ArePicks g.now (lead nexts.now) v.items) }
{
    let count = g.classes().len();
    let mut out = Vec::with_capacity(alloc, count)?;
    for c in 0..count {
        out.push(first_option(g, nexts, g.class(c as u64)))?;
    }
    Ok(out)
}

/// The number of each pick among the different ones, in the order in which they come.
pub fn numbers_of(alloc: Global, picks: &[(u64, u64)]) -> Result<Vec<u64>, AllocError>
    ensures { IfOk result (λ v. AreNumbers picks.now v.items) }
{
    let mut different = IndexSet::new(alloc);
    let mut out = Vec::with_capacity(alloc, picks.len())?;
    for pick in picks {
        let (number, _) = different.insert_full(*pick)?;
        out.push(number as u64)?;
    }
    Ok(out)
}

/// Whether all options of the class lead to an entry.
fn leads(g: &Game, nexts: &[Option<u64>], class: &Class) -> bool
    requires class { IsClass g.now class.now }
    requires count { length nexts.now ≡ length g.now.actions }
    ensures { result ≡ all_lead (lead nexts.now) class.now.options }
{
    for option in &class.options {
        if nexts[option.0 as usize].is_none() {
            return false;
        }
    }
    true
}

/// The first class all of whose options lead to an entry.
pub fn leading_class(g: &Game, nexts: &[Option<u64>]) -> u64
    requires count { length nexts.now ≡ length g.now.actions }
    requires some { IsSome (leader (lead nexts.now) g.now.classes) }
    ensures { leader (lead nexts.now) g.now.classes ≡ Some result }
{
    for c in 0..g.classes().len() {
        if leads(g, nexts, g.class(c as u64)) {
            return c as u64;
        }
    }
    unreachable!()
}

/// For each action the entry to which it leads, where an option of the class has it, and else the first entry.
pub fn targets(
    alloc: Global,
    g: &Game,
    nexts: &[Option<u64>],
    class: &Class,
) -> Result<Vec<u64>, AllocError>
    requires class { IsClass g.now class.now }
    requires count { length nexts.now ≡ length g.now.actions }
    requires lead { all_lead (lead nexts.now) class.now.options ≡ true }
    ensures { IfOk result (λ v. AreTargets nexts.now class.now.options v.items) }
{
    let mut out = vec![in alloc; 0; nexts.len()]?;
    for option in &class.options {
        match nexts[option.0 as usize] {
            Some(next) => out[option.0 as usize] = next,
            None => unreachable!(),
        }
    }
    Ok(out)
}
