//! The formula that the sections make.

ghost use Rattle.std.specs.Prelude.{◌≡◌, ◌∷◌, [], IfOk, true, false};
ghost use Rattle.ltl_form.specs.declared.formulas.Ltl.TheVariants.{Not, All, Implies, Globally, Weak};
ghost use Rattle.tlsf_basic.specs.Composition.{conjunction, formula_of};

use crate::copies::copy;
use crate::mains::Sections;
use ltl_form::Ltl;
use sqlite_items::{Boxed, Items};
use std::alloc::{AllocError, Global};

/// All entries of a section.
fn conjunction(entries: Items<Ltl>) -> Ltl
    ensures { result ≡ conjunction entries }
{
    let mut entries = entries;
    match entries.len() {
        0 => Ltl::True,
        1 => entries.remove(0),
        _ => Ltl::All(entries),
    }
}

fn both(alloc: Global, first: Ltl, second: Ltl) -> Result<Ltl, AllocError>
    ensures { IfOk result (λ f. f ≡ All (first ∷ second ∷ [])) }
{
    let mut operands = Items::new(alloc);
    operands.push(first)?;
    operands.push(second)?;
    Ok(Ltl::All(operands))
}

fn all_three(alloc: Global, first: Ltl, second: Ltl, third: Ltl) -> Result<Ltl, AllocError>
    ensures { IfOk result (λ f. f ≡ All (first ∷ second ∷ third ∷ [])) }
{
    let mut operands = Items::new(alloc);
    operands.push(first)?;
    operands.push(second)?;
    operands.push(third)?;
    Ok(Ltl::All(operands))
}

fn not(alloc: Global, operand: Ltl) -> Result<Ltl, AllocError>
    ensures { IfOk result (λ f. f ≡ Not operand) }
{
    Ok(Ltl::Not(Boxed::new(alloc, operand)?))
}

fn globally(alloc: Global, operand: Ltl) -> Result<Ltl, AllocError>
    ensures { IfOk result (λ f. f ≡ Globally operand) }
{
    Ok(Ltl::Globally(Boxed::new(alloc, operand)?))
}

fn implies(alloc: Global, left: Ltl, right: Ltl) -> Result<Ltl, AllocError>
    ensures { IfOk result (λ f. f ≡ Implies left right) }
{
    let left = Boxed::new(alloc, left)?;
    let right = Boxed::new(alloc, right)?;
    Ok(Ltl::Implies(left, right))
}

fn weak(alloc: Global, first: Ltl, second: Ltl) -> Result<Ltl, AllocError>
    ensures { IfOk result (λ f. f ≡ Weak first second) }
{
    let first = Boxed::new(alloc, first)?;
    let second = Boxed::new(alloc, second)?;
    Ok(Ltl::Weak(first, second))
}

/// The first at every step, and the second.
fn always_and(alloc: Global, first: Ltl, second: Ltl) -> Result<Ltl, AllocError>
    ensures { IfOk result (λ f. f ≡ All (Globally first ∷ second ∷ [])) }
{
    both(alloc, globally(alloc, first)?, second)
}

/// The first as long as the second has held.
fn while_held(alloc: Global, first: Ltl, second: &Ltl) -> Result<Ltl, AllocError>
    ensures { IfOk result (λ f. f ≡ Weak first (Not second.now)) }
{
    let failed = not(alloc, copy(alloc, second)?)?;
    weak(alloc, first, failed)
}

/// What is owed where the first holds: the second, and the last where the assumed holds.
fn owed(
    alloc: Global,
    initial: Ltl,
    at_once: Ltl,
    assumed: Ltl,
    demanded: Ltl,
) -> Result<Ltl, AllocError>
    ensures { IfOk result (λ f. f ≡ Implies initial (All (at_once ∷ Implies assumed demanded ∷ []))) }
{
    let demanded = implies(alloc, assumed, demanded)?;
    implies(alloc, initial, both(alloc, at_once, demanded)?)
}

/// The same, with one more formula that is owed.
fn owed_with(
    alloc: Global,
    initial: Ltl,
    at_once: Ltl,
    kept: Ltl,
    assumed: Ltl,
    demanded: Ltl,
) -> Result<Ltl, AllocError>
    ensures { IfOk result (λ f. f ≡ Implies initial (All (at_once ∷ kept ∷ Implies assumed demanded ∷ []))) }
{
    let demanded = implies(alloc, assumed, demanded)?;
    let all = all_three(alloc, at_once, kept, demanded)?;
    implies(alloc, initial, all)
}

/// The formula of the sections where the semantics isn't strict.
fn plain(alloc: Global, sections: Sections) -> Result<Ltl, AllocError>
    ensures { IfOk result (λ f. f ≡ formula_of false sections) }
{
    let required = conjunction(sections.require);
    let assumed = always_and(alloc, required, conjunction(sections.assume))?;
    let asserted = conjunction(sections.assert);
    let demanded = always_and(alloc, asserted, conjunction(sections.guarantee))?;
    let initial = conjunction(sections.initially);
    owed(
        alloc,
        initial,
        conjunction(sections.preset),
        assumed,
        demanded,
    )
}

/// The formula of the sections where the semantics is strict.
fn strict(alloc: Global, sections: Sections) -> Result<Ltl, AllocError>
    ensures { IfOk result (λ f. f ≡ formula_of true sections) }
{
    let required = conjunction(sections.require);
    let kept = while_held(alloc, conjunction(sections.assert), &required)?;
    let assumed = always_and(alloc, required, conjunction(sections.assume))?;
    let demanded = conjunction(sections.guarantee);
    let initial = conjunction(sections.initially);
    owed_with(
        alloc,
        initial,
        conjunction(sections.preset),
        kept,
        assumed,
        demanded,
    )
}

/// The formula of the sections.
pub fn formula_of(alloc: Global, is_strict: bool, sections: Sections) -> Result<Ltl, AllocError>
    ensures { IfOk result (λ f. f ≡ formula_of is_strict sections) }
{
    if is_strict {
        strict(alloc, sections)
    } else {
        plain(alloc, sections)
    }
}
