//! The normal form: negations at signals alone, constants folded, equal formulas numbered once.

ghost use Rattle.std.specs.Prelude.{not, if◌then◌else◌, ◌≡◌, ◌<◌, ◌≤◌, ◌+◌, length, true, IfOk, IfErr, ℕ, []};
ghost use Rattle.ltl_form.specs.Formula.{signals_below};
ghost use Rattle.ltl_form.specs.Meaning.{holds_at, tree_holds};
ghost use Rattle.ltl_form.specs.Form.{IsFormList, tree_at};
ghost use Rattle.ltl_form.specs.Tree.{normal_tree, tree_below};
ghost use Rattle.word_core.specs.Lasso.{LassoData, size};
ghost use Rattle.ltl_form.specs.Normal.{IsNormal, LiteralsBelow};
ghost use Rattle.ltl_form.specs.NodeTrees.{node_trees, formula_at};
ghost use Rattle.ltl_form.specs.Numbered.{numbered, AreDistinct};
ghost use Rattle.ltl_form.specs.declared.normals.FormError.TheVariants.{Memory, TooManyFormulas};

use crate::forms::{Form, Forms, Pair};
use crate::formulas::Ltl;
use crate::numberings::Numbering;
use crate::pairs::pair_of;
use std::alloc::{AllocError, AllocFailed, Global};
use std::marker::Model;
use thiserror::Error;

/// A formula in normal form; its operands are numbers of other formulas.
#[derive(Debug, Clone, Copy, PartialEq, Eq, Hash)]
pub enum Node {
    True,
    False,
    Lit { signal: u32, positive: bool },
    And(u32, u32),
    Or(u32, u32),
    Next(u32),
    Until(u32, u32),
    Release(u32, u32),
}

/// A formula and those inside it by number: from 1 to 512 of them, the operands of each below it, and
/// the formula itself, the root, last.
#[derive(Debug, Drop)]
pub struct Normal {
    nodes: Vec<Node>,
    root: u32,
}

impl Model for Normal {
    ghost use Rattle.ltl_form.specs.Normal.{NormalData, IsNormal};

    ghost Value = { NormalData };

    ghost view = { λ f. record { nodes = f.nodes.items; root = f.root } };

    ghost invariant = { λ f. IsNormal f.nodes.items f.root };
}

impl Normal {
    /// The formulas in the order of their numbers.
    pub fn nodes(&self) -> &[Node]
        ensures value { result.now ≡ self.now.nodes }
        ensures normal { IsNormal self.now.nodes self.now.root }
    {
        &self.nodes
    }

    /// The number of the whole formula, which is the last one.
    pub fn root(&self) -> u32
        ensures value { result ≡ self.now.root }
        ensures last { result + 1 ≡ length self.now.nodes }
        ensures few { result < 512 }
    {
        self.root
    }
}

/// Why a formula has no normal form.
#[derive(Debug, Clone, Copy, PartialEq, Eq, Drop, Error)]
pub enum FormError {
    /// It has more than 512 formulas.
    #[error("more than 512 formulas")]
    TooManyFormulas,
    #[error("out of memory")]
    Memory,
}

impl From<AllocError> for FormError {
    ghost from_gives = { λ _ e. e ≡ Memory };

    fn from(_e: AllocError) -> FormError {
        FormError::Memory
    }
}

impl<T: Drop> From<AllocFailed<T>> for FormError {
    ghost from_gives = { λ _ e. e ≡ Memory };

    fn from(_e: AllocFailed<T>) -> FormError {
        FormError::Memory
    }
}

/// The normal form of `f`, or of its negation where `positive` is false.
///
/// Every signal is below 64. TooManyFormulas exactly where the normal form has more than 512 formulas.
pub fn nnf(alloc: Global, f: &Ltl, positive: bool) -> Result<Normal, FormError>
    requires { signals_below 64 f.now ≡ true }
    ensures exact { IfOk result (λ normal. node_trees normal.nodes ≡ numbered (normal_tree f.now positive) []) }
    ensures root { IfOk result (λ normal. formula_at normal.nodes normal.root ≡ normal_tree f.now positive) }
    ensures distinct { IfOk result (λ normal. AreDistinct (node_trees normal.nodes)) }
    ensures few { IfOk result (λ normal. length (numbered (normal_tree f.now positive) []) ≤ 512) }
    ensures too_many { IfErr result (λ e. e ≡ TooManyFormulas → 512 < length (numbered (normal_tree f.now positive) [])) }
    ensures meaning { (w : LassoData) (p : ℕ) → 0 < size w → IfOk result (λ normal. tree_holds w (formula_at normal.nodes normal.root) p ≡ (if positive then holds_at w f.now p else not (holds_at w f.now p))) }
    ensures literals { (n : ℕ) → signals_below n f.now ≡ true → IfOk result (λ normal. LiteralsBelow n normal.nodes) }
{
    let mut forms = Forms::new(alloc);
    let pair = pair_of(&mut forms, f)?;
    let place = chosen(pair, positive);
    normal_at(alloc, forms.as_slice(), place)
}

/// The normal form that is the form at a place.
fn normal_at(alloc: Global, forms: &[Form], place: usize) -> Result<Normal, FormError>
    requires forms { IsFormList forms.now }
    requires place { place < length forms.now }
    ensures exact { IfOk result (λ normal. node_trees normal.nodes ≡ numbered (tree_at forms.now place) []) }
    ensures root { IfOk result (λ normal. formula_at normal.nodes normal.root ≡ tree_at forms.now place) }
    ensures distinct { IfOk result (λ normal. AreDistinct (node_trees normal.nodes)) }
    ensures few { IfOk result (λ normal. length (numbered (tree_at forms.now place) []) ≤ 512) }
    ensures too_many { IfErr result (λ e. e ≡ TooManyFormulas → 512 < length (numbered (tree_at forms.now place) [])) }
    ensures literals { (n : ℕ) → tree_below n (tree_at forms.now place) ≡ true → IfOk result (λ normal. LiteralsBelow n normal.nodes) }
{
    let mut numbering = Numbering::new(alloc, forms.len())?;
    let root = numbering.new_number(forms, place, 0)?;
    let nodes = numbering.nodes(alloc)?;
    Ok(Normal { nodes, root })
}

/// The place of the formula, or of its negation.
fn chosen(pair: Pair, positive: bool) -> usize
    ensures { result ≡ (if positive then pair.positive else pair.negative) }
{
    if positive {
        pair.positive
    } else {
        pair.negative
    }
}
