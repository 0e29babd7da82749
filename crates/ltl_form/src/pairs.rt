//! Formulas and their negations, folded from the inside outwards.

ghost use Rattle.std.specs.Prelude.{◌≡◌, true, IfOk, map};
ghost use Rattle.ltl_form.specs.Form.{MadePair, MadeTwo};
ghost use Rattle.ltl_form.specs.Formula.{signals_below, all_below};
ghost use Rattle.ltl_form.specs.Tree.{sides, true_sides, false_sides, until_sides, release_sides, all_sides, any_sides};

use crate::forms::{Forms, Pair, opposite};
use crate::formulas::Ltl;
use std::alloc::AllocError;

/// The normal forms of `f` and of its negation.
#[cycle(pairs)]
pub fn pair_of(forms: &mut Forms, f: &Ltl) -> Result<Pair, AllocError>
    requires { signals_below 64 f.now ≡ true }
    ensures { IfOk result (λ p. MadePair forms.old forms.new p (sides f.now)) }
{
    match f {
        Ltl::True => forms.verum(),
        Ltl::False => forms.falsum(),
        Ltl::Signal(x) => forms.literal(*x),
        Ltl::Not(f) => Ok(opposite(pair_of(forms, f.get())?)),
        Ltl::All(fs) => all_of(forms, fs.as_slice()),
        Ltl::Any(fs) => any_of(forms, fs.as_slice()),
        Ltl::Next(f) => {
            let f = pair_of(forms, f.get())?;
            forms.later(f)
        }
        Ltl::Finally(f) => finally_of(forms, f.get()),
        Ltl::Globally(f) => globally_of(forms, f.get()),
        Ltl::Implies(f, g) => {
            let (f, g) = two_of(forms, f.get(), g.get())?;
            forms.either(opposite(f), g)
        }
        Ltl::Equiv(f, g) => {
            let (f, g) = two_of(forms, f.get(), g.get())?;
            forms.same(f, g)
        }
        Ltl::Until(f, g) => {
            let (f, g) = two_of(forms, f.get(), g.get())?;
            forms.ending(f, g)
        }
        Ltl::Release(f, g) => {
            let (f, g) = two_of(forms, f.get(), g.get())?;
            forms.lasting(f, g)
        }
        Ltl::Weak(f, g) => {
            let (f, g) = two_of(forms, f.get(), g.get())?;
            let one = forms.either(f, g)?;
            forms.lasting(g, one)
        }
    }
}

/// `F f` is `true U f`.
#[cycle(pairs)]
fn finally_of(forms: &mut Forms, f: &Ltl) -> Result<Pair, AllocError>
    requires { signals_below 64 f.now ≡ true }
    ensures { IfOk result (λ p. MadePair forms.old forms.new p (until_sides true_sides (sides f.now))) }
{
    let before = forms.verum()?;
    let f = pair_of(forms, f)?;
    forms.ending(before, f)
}

/// `G f` is `false R f`.
#[cycle(pairs)]
fn globally_of(forms: &mut Forms, f: &Ltl) -> Result<Pair, AllocError>
    requires { signals_below 64 f.now ≡ true }
    ensures { IfOk result (λ p. MadePair forms.old forms.new p (release_sides false_sides (sides f.now))) }
{
    let released = forms.falsum()?;
    let f = pair_of(forms, f)?;
    forms.lasting(released, f)
}

/// A left and a right operand.
#[cycle(pairs)]
fn two_of(forms: &mut Forms, f: &Ltl, g: &Ltl) -> Result<(Pair, Pair), AllocError>
    requires left { signals_below 64 f.now ≡ true }
    requires right { signals_below 64 g.now ≡ true }
    ensures { IfOk result (λ p. MadeTwo forms.old forms.new p.0 p.1 (sides f.now) (sides g.now)) }
{
    let f = pair_of(forms, f)?;
    let g = pair_of(forms, g)?;
    Ok((f, g))
}

/// The conjunction, grouped to the left; that of no formula is true.
#[cycle(pairs)]
fn all_of(forms: &mut Forms, fs: &[Ltl]) -> Result<Pair, AllocError>
    requires { all_below 64 fs.now ≡ true }
    ensures { IfOk result (λ p. MadePair forms.old forms.new p (all_sides (map sides fs.now))) }
{
    let mut whole = forms.verum()?;
    for f in fs {
        let f = pair_of(forms, f)?;
        whole = forms.both(whole, f)?;
    }
    Ok(whole)
}

/// The disjunction, grouped to the left; that of no formula is false.
#[cycle(pairs)]
fn any_of(forms: &mut Forms, fs: &[Ltl]) -> Result<Pair, AllocError>
    requires { all_below 64 fs.now ≡ true }
    ensures { IfOk result (λ p. MadePair forms.old forms.new p (any_sides (map sides fs.now))) }
{
    let mut whole = forms.falsum()?;
    for f in fs {
        let f = pair_of(forms, f)?;
        whole = forms.either(whole, f)?;
    }
    Ok(whole)
}
