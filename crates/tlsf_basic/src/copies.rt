//! Copies of formulas.

ghost use Rattle.std.specs.Prelude.{◌≡◌, IfOk};

use ltl_form::Ltl;
use sqlite_items::{Boxed, Items};
use std::alloc::{AllocError, Global};

/// An equal formula.
#[cycle(copy)]
pub fn copy(alloc: Global, formula: &Ltl) -> Result<Ltl, AllocError>
    ensures { IfOk result (λ f. f ≡ formula.now) }
{
    Ok(match formula {
        Ltl::True => Ltl::True,
        Ltl::False => Ltl::False,
        Ltl::Signal(number) => Ltl::Signal(*number),
        Ltl::Not(f) => Ltl::Not(copy_boxed(alloc, f)?),
        Ltl::All(fs) => Ltl::All(copy_items(alloc, fs)?),
        Ltl::Any(fs) => Ltl::Any(copy_items(alloc, fs)?),
        Ltl::Implies(f, g) => Ltl::Implies(copy_boxed(alloc, f)?, copy_boxed(alloc, g)?),
        Ltl::Equiv(f, g) => Ltl::Equiv(copy_boxed(alloc, f)?, copy_boxed(alloc, g)?),
        Ltl::Next(f) => Ltl::Next(copy_boxed(alloc, f)?),
        Ltl::Finally(f) => Ltl::Finally(copy_boxed(alloc, f)?),
        Ltl::Globally(f) => Ltl::Globally(copy_boxed(alloc, f)?),
        Ltl::Until(f, g) => Ltl::Until(copy_boxed(alloc, f)?, copy_boxed(alloc, g)?),
        Ltl::Release(f, g) => Ltl::Release(copy_boxed(alloc, f)?, copy_boxed(alloc, g)?),
        Ltl::Weak(f, g) => Ltl::Weak(copy_boxed(alloc, f)?, copy_boxed(alloc, g)?),
    })
}

#[cycle(copy)]
fn copy_boxed(alloc: Global, formula: &Boxed<Ltl>) -> Result<Boxed<Ltl>, AllocError>
    ensures { IfOk result (λ f. f ≡ formula.now) }
{
    Boxed::new(alloc, copy(alloc, formula.get())?)
}

#[cycle(copy)]
fn copy_items(alloc: Global, formulas: &Items<Ltl>) -> Result<Items<Ltl>, AllocError>
    ensures { IfOk result (λ fs. fs ≡ formulas.now) }
{
    let mut out = Items::new(alloc);
    for formula in formulas.as_slice() {
        out.push(copy(alloc, formula)?)?;
    }
    Ok(out)
}
