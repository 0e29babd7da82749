//! Folded formulas, each one kept once.

ghost use Rattle.std.specs.Prelude.{◌≡◌, ◌<◌, ◌≤◌, length, true, false, ℕ, IfOk, [], slice_index_or};
ghost use Rattle.ltl_form.specs.Form.{IsFormAt, IsFormList, IsPairBelow, Made, MadePair, tree_of, trees_after, tree_at, sides_at};
ghost use Rattle.ltl_form.specs.Tree.{conjunction, disjunction, next_of, until_of, release_of, true_sides, false_sides, signal_sides, not_sides, and_sides, or_sides, equiv_sides, next_sides, until_sides, release_sides, is_truth, is_falsity};

use indexmap::IndexSet;
use std::alloc::{AllocError, Global};
use std::marker::Model;

/// A folded formula, with its operands by their places.
#[derive(Debug, Clone, Copy, PartialEq, Eq, Hash)]
pub enum Form {
    True,
    False,
    Lit { signal: u32, positive: bool },
    And(usize, usize),
    Or(usize, usize),
    Next(usize),
    Until(usize, usize),
    Release(usize, usize),
}

/// The places of a formula and of its negation.
#[derive(Debug, Clone, Copy)]
pub struct Pair {
    pub positive: usize,
    pub negative: usize,
}

/// Folded formulas by place, the operands of each before it.
#[derive(Drop)]
pub struct Forms {
    set: IndexSet<Form>,
}

impl Model for Forms {
    ghost use Rattle.std.specs.Prelude.{List};
    ghost use Rattle.ltl_form.specs.declared.forms.Form.{Form};
    ghost use Rattle.ltl_form.specs.Form.{IsFormList};

    ghost Value = { List Form };

    ghost view = { λ t. t.set.keys };

    ghost invariant = { λ t. IsFormList t.set.keys };
}

impl Forms {
    pub fn new(alloc: Global) -> Forms
        ensures { result ≡ [] }
    {
        Forms {
            set: IndexSet::new(alloc),
        }
    }

    /// The formulas by place.
    pub fn as_slice(&self) -> &[Form]
        ensures value { result.now ≡ self.now }
        ensures forms { IsFormList self.now }
    {
        self.set.as_slice()
    }

    /// The place of `form`, which is put last where it is new.
    fn intern(&mut self, form: Form) -> Result<usize, AllocError>
        requires { IsFormAt (length self.old) form }
        ensures { IfOk result (λ at. Made self.old self.new at (tree_of (trees_after [] self.old) form)) }
    {
        let (at, _) = self.set.insert_full(form)?;
        Ok(at)
    }

    fn is_true(&self, at: usize) -> bool
        requires { at < length self.now }
        ensures { result ≡ is_truth (tree_at self.now at) }
    {
        self.set.as_slice()[at] == Form::True
    }

    fn is_false(&self, at: usize) -> bool
        requires { at < length self.now }
        ensures { result ≡ is_falsity (tree_at self.now at) }
    {
        self.set.as_slice()[at] == Form::False
    }

    fn and(&mut self, f: usize, g: usize) -> Result<usize, AllocError>
        requires left { f < length self.old }
        requires right { g < length self.old }
        ensures { IfOk result (λ at. Made self.old self.new at (conjunction (tree_at self.old f) (tree_at self.old g))) }
    {
        if self.is_true(f) {
            Ok(g)
        } else if self.is_true(g) {
            Ok(f)
        } else if self.is_false(f) {
            Ok(f)
        } else if self.is_false(g) {
            Ok(g)
        } else {
            self.intern(Form::And(f, g))
        }
    }

    fn or(&mut self, f: usize, g: usize) -> Result<usize, AllocError>
        requires left { f < length self.old }
        requires right { g < length self.old }
        ensures { IfOk result (λ at. Made self.old self.new at (disjunction (tree_at self.old f) (tree_at self.old g))) }
    {
        if self.is_true(f) {
            Ok(f)
        } else if self.is_true(g) {
            Ok(g)
        } else if self.is_false(f) {
            Ok(g)
        } else if self.is_false(g) {
            Ok(f)
        } else {
            self.intern(Form::Or(f, g))
        }
    }

    fn next(&mut self, f: usize) -> Result<usize, AllocError>
        requires { f < length self.old }
        ensures { IfOk result (λ at. Made self.old self.new at (next_of (tree_at self.old f))) }
    {
        if self.is_true(f) {
            Ok(f)
        } else if self.is_false(f) {
            Ok(f)
        } else {
            self.intern(Form::Next(f))
        }
    }

    fn until(&mut self, f: usize, g: usize) -> Result<usize, AllocError>
        requires left { f < length self.old }
        requires right { g < length self.old }
        ensures { IfOk result (λ at. Made self.old self.new at (until_of (tree_at self.old f) (tree_at self.old g))) }
    {
        if self.is_true(g) {
            Ok(g)
        } else if self.is_false(g) {
            Ok(g)
        } else if self.is_false(f) {
            Ok(g)
        } else {
            self.intern(Form::Until(f, g))
        }
    }

    fn release(&mut self, f: usize, g: usize) -> Result<usize, AllocError>
        requires left { f < length self.old }
        requires right { g < length self.old }
        ensures { IfOk result (λ at. Made self.old self.new at (release_of (tree_at self.old f) (tree_at self.old g))) }
    {
        if self.is_true(g) {
            Ok(g)
        } else if self.is_false(g) {
            Ok(g)
        } else if self.is_true(f) {
            Ok(g)
        } else {
            self.intern(Form::Release(f, g))
        }
    }

    /// True, and its negation.
    pub fn verum(&mut self) -> Result<Pair, AllocError>
        ensures { IfOk result (λ p. MadePair self.old self.new p true_sides) }
    {
        let positive = self.intern(Form::True)?;
        let negative = self.intern(Form::False)?;
        Ok(Pair { positive, negative })
    }

    /// False, and its negation.
    pub fn falsum(&mut self) -> Result<Pair, AllocError>
        ensures { IfOk result (λ p. MadePair self.old self.new p false_sides) }
    {
        Ok(opposite(self.verum()?))
    }

    /// A signal, and its negation.
    pub fn literal(&mut self, signal: u32) -> Result<Pair, AllocError>
        requires { signal < 64 }
        ensures { IfOk result (λ p. MadePair self.old self.new p (signal_sides signal)) }
    {
        let positive = self.intern(Form::Lit {
            signal,
            positive: true,
        })?;
        let negative = self.intern(Form::Lit {
            signal,
            positive: false,
        })?;
        Ok(Pair { positive, negative })
    }

    /// `f and g`, and its negation.
    pub fn both(&mut self, f: Pair, g: Pair) -> Result<Pair, AllocError>
        requires left { IsPairBelow (length self.old) f }
        requires right { IsPairBelow (length self.old) g }
        ensures { IfOk result (λ p. MadePair self.old self.new p (and_sides (sides_at self.old f) (sides_at self.old g))) }
    {
        let positive = self.and(f.positive, g.positive)?;
        let negative = self.or(f.negative, g.negative)?;
        Ok(Pair { positive, negative })
    }

    /// `f or g`, and its negation.
    pub fn either(&mut self, f: Pair, g: Pair) -> Result<Pair, AllocError>
        requires left { IsPairBelow (length self.old) f }
        requires right { IsPairBelow (length self.old) g }
        ensures { IfOk result (λ p. MadePair self.old self.new p (or_sides (sides_at self.old f) (sides_at self.old g))) }
    {
        let positive = self.or(f.positive, g.positive)?;
        let negative = self.and(f.negative, g.negative)?;
        Ok(Pair { positive, negative })
    }

    /// `f <-> g`, and its negation.
    pub fn same(&mut self, f: Pair, g: Pair) -> Result<Pair, AllocError>
        requires left { IsPairBelow (length self.old) f }
        requires right { IsPairBelow (length self.old) g }
        ensures { IfOk result (λ p. MadePair self.old self.new p (equiv_sides (sides_at self.old f) (sides_at self.old g))) }
    {
        let positive = self.either_of_both(f, g)?;
        let negative = self.either_of_both(f, opposite(g))?;
        Ok(Pair { positive, negative })
    }

    /// `(pos f and pos g) or (neg f and neg g)`.
    fn either_of_both(&mut self, f: Pair, g: Pair) -> Result<usize, AllocError>
        requires left { IsPairBelow (length self.old) f }
        requires right { IsPairBelow (length self.old) g }
        ensures { IfOk result (λ at. Made self.old self.new at (equiv_sides (sides_at self.old f) (sides_at self.old g)).positive) }
    {
        let true_both = self.and(f.positive, g.positive)?;
        let false_both = self.and(f.negative, g.negative)?;
        self.or(true_both, false_both)
    }

    /// `X f`, and its negation.
    pub fn later(&mut self, f: Pair) -> Result<Pair, AllocError>
        requires { IsPairBelow (length self.old) f }
        ensures { IfOk result (λ p. MadePair self.old self.new p (next_sides (sides_at self.old f))) }
    {
        let positive = self.next(f.positive)?;
        let negative = self.next(f.negative)?;
        Ok(Pair { positive, negative })
    }

    /// `f U g`, and its negation.
    pub fn ending(&mut self, f: Pair, g: Pair) -> Result<Pair, AllocError>
        requires left { IsPairBelow (length self.old) f }
        requires right { IsPairBelow (length self.old) g }
        ensures { IfOk result (λ p. MadePair self.old self.new p (until_sides (sides_at self.old f) (sides_at self.old g))) }
    {
        let positive = self.until(f.positive, g.positive)?;
        let negative = self.release(f.negative, g.negative)?;
        Ok(Pair { positive, negative })
    }

    /// `f R g`, and its negation.
    pub fn lasting(&mut self, f: Pair, g: Pair) -> Result<Pair, AllocError>
        requires left { IsPairBelow (length self.old) f }
        requires right { IsPairBelow (length self.old) g }
        ensures { IfOk result (λ p. MadePair self.old self.new p (release_sides (sides_at self.old f) (sides_at self.old g))) }
    {
        let positive = self.release(f.positive, g.positive)?;
        let negative = self.until(f.negative, g.negative)?;
        Ok(Pair { positive, negative })
    }
}

/// The negation, and the formula.
pub fn opposite(f: Pair) -> Pair
    ensures positive { result.positive ≡ f.negative }
    ensures negative { result.negative ≡ f.positive }
{
    Pair {
        positive: f.negative,
        negative: f.positive,
    }
}
