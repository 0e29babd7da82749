//! Numbers of formulas, in the order of their first occurrence.

ghost use Rattle.std.specs.Prelude.{◌≡◌, ◌<◌, ◌≤◌, ◌+◌, length, List, max, IfOk, IfErr, []};
ghost use Rattle.ltl_form.specs.declared.forms.Form.{Form};
ghost use Rattle.ltl_form.specs.Form.{IsFormAt, IsFormList, tree_at, tree_of, trees_after};
ghost use Rattle.ltl_form.specs.Normal.{IsNodeAt};
ghost use Rattle.ltl_form.specs.NodeTrees.{node_tree, node_trees};
ghost use Rattle.ltl_form.specs.Numbered.{numbered, height, with_tree};
ghost use Rattle.ltl_form.specs.Numbering.{IsNumbered, AreOf, Numbers, NumbersTwo, NumbersInside, Puts, operands_numbered};
ghost use Rattle.ltl_form.specs.declared.normals.FormError.TheVariants.{TooManyFormulas};

use crate::forms::Form;
use crate::normals::{FormError, Node};
use indexmap::IndexSet;
use std::alloc::{AllocError, Global};
use std::marker::Model;

/// The most formulas of a normal form.
pub const MOST: usize = 512;

/// The formulas that have numbers, and the number of each form that has one.
#[derive(Drop)]
pub struct Numbering {
    nodes: IndexSet<Node>,
    numbers: Vec<Option<u32>>,
}

impl Model for Numbering {
    ghost use Rattle.std.specs.Prelude.{List, Option};
    ghost use Rattle.ltl_form.specs.Numbering.{NumberingData, IsNumbered};

    ghost Value = { NumberingData };

    ghost view = { λ n. record { nodes = n.nodes.keys; numbers = n.numbers.items } };

    ghost invariant = { λ n. IsNumbered n.nodes.keys };
}

impl Numbering {
    /// No form has a number yet.
    pub fn new(alloc: Global, forms: usize) -> Result<Numbering, AllocError>
        ensures nodes { IfOk result (λ n. n.nodes ≡ []) }
        ensures forms { IfOk result (λ n. length n.numbers ≡ forms) }
        ensures are { IfOk result (λ n. (list : List Form) → AreOf list n) }
    {
        let numbers = vec![in alloc; None; forms]?;
        Ok(Numbering {
            nodes: IndexSet::new(alloc),
            numbers,
        })
    }

    /// A copy of the formulas by number.
    pub fn nodes(&self, alloc: Global) -> Result<Vec<Node>, AllocError>
        ensures value { IfOk result (λ nodes. nodes.items ≡ self.now.nodes) }
        ensures numbered { IsNumbered self.now.nodes }
    {
        self.nodes.as_slice().iter().copied().collect(alloc)
    }

    /// The number of the form at a place, inside `depth` others.
    #[cycle(number)]
    fn number(&mut self, forms: &[Form], at: usize, depth: usize) -> Result<u32, FormError>
        requires forms { IsFormList forms.now }
        requires numbers { length self.old.numbers ≡ length forms.now }
        requires are { AreOf forms.now self.old }
        requires place { at < length forms.now }
        requires depth { depth ≤ 512 }
        ensures exact { IfOk result (λ n. Numbers forms.now self.old self.new at n) }
        ensures over { IfErr result (λ e. e ≡ TooManyFormulas → 512 < max (length (numbered (tree_at forms.now at) (node_trees self.old.nodes))) (depth + height (tree_at forms.now at))) }
    {
        if let Some(number) = self.numbers[at] {
            return Ok(number);
        }
        self.new_number(forms, at, depth)
    }

    /// The number of a form that has none yet, after those inside it.
    #[cycle(number)]
    pub fn new_number(&mut self, forms: &[Form], at: usize, depth: usize) -> Result<u32, FormError>
        requires forms { IsFormList forms.now }
        requires numbers { length self.old.numbers ≡ length forms.now }
        requires are { AreOf forms.now self.old }
        requires place { at < length forms.now }
        requires depth { depth ≤ 512 }
        ensures exact { IfOk result (λ n. Numbers forms.now self.old self.new at n) }
        ensures over { IfErr result (λ e. e ≡ TooManyFormulas → 512 < max (length (numbered (tree_at forms.now at) (node_trees self.old.nodes))) (depth + height (tree_at forms.now at))) }
    {
        if depth == MOST {
            return Err(FormError::TooManyFormulas);
        }
        let node = self.node(forms, at, depth)?;
        self.put(at, node)
    }

    /// The formula at a place, by the numbers of its operands, which get theirs first.
    #[cycle(number)]
    fn node(&mut self, forms: &[Form], at: usize, depth: usize) -> Result<Node, FormError>
        requires forms { IsFormList forms.now }
        requires numbers { length self.old.numbers ≡ length forms.now }
        requires are { AreOf forms.now self.old }
        requires place { at < length forms.now }
        requires depth { depth < 512 }
        ensures exact { IfOk result (λ node. NumbersInside forms.now self.old self.new at node) }
        ensures over { IfErr result (λ e. e ≡ TooManyFormulas → 512 < max (length (operands_numbered (tree_at forms.now at) (node_trees self.old.nodes))) (depth + height (tree_at forms.now at))) }
    {
        match form_at(forms, at) {
            Form::True => Ok(Node::True),
            Form::False => Ok(Node::False),
            Form::Lit { signal, positive } => Ok(Node::Lit { signal, positive }),
            Form::Next(f) => Ok(Node::Next(self.number(forms, f, depth + 1)?)),
            Form::And(f, g) => {
                let (f, g) = self.two_numbers(forms, f, g, depth + 1)?;
                Ok(Node::And(f, g))
            }
            Form::Or(f, g) => {
                let (f, g) = self.two_numbers(forms, f, g, depth + 1)?;
                Ok(Node::Or(f, g))
            }
            Form::Until(f, g) => {
                let (f, g) = self.two_numbers(forms, f, g, depth + 1)?;
                Ok(Node::Until(f, g))
            }
            Form::Release(f, g) => {
                let (f, g) = self.two_numbers(forms, f, g, depth + 1)?;
                Ok(Node::Release(f, g))
            }
        }
    }

    /// The numbers of a left and of a right operand.
    #[cycle(number)]
    fn two_numbers(
        &mut self,
        forms: &[Form],
        f: usize,
        g: usize,
        depth: usize,
    ) -> Result<(u32, u32), FormError>
        requires forms { IsFormList forms.now }
        requires numbers { length self.old.numbers ≡ length forms.now }
        requires are { AreOf forms.now self.old }
        requires left { f < length forms.now }
        requires right { g < length forms.now }
        requires depth { depth ≤ 512 }
        ensures exact { IfOk result (λ n. NumbersTwo forms.now self.old self.new f g n.0 n.1) }
        ensures over { IfErr result (λ e. e ≡ TooManyFormulas → 512 < max (length (numbered (tree_at forms.now g) (numbered (tree_at forms.now f) (node_trees self.old.nodes)))) (depth + max (height (tree_at forms.now f)) (height (tree_at forms.now g)))) }
    {
        let f = self.number(forms, f, depth)?;
        let g = self.number(forms, g, depth)?;
        Ok((f, g))
    }

    /// Gives the form at a place the number of its formula, which is the next one where it is new.
    fn put(&mut self, at: usize, node: Node) -> Result<u32, FormError>
        requires place { at < length self.old.numbers }
        requires node { IsNodeAt (length self.old.nodes) node }
        ensures exact { IfOk result (λ n. Puts self.old self.new at node n) }
        ensures over { IfErr result (λ e. e ≡ TooManyFormulas → 512 < length (with_tree (node_trees self.old.nodes) (node_tree (node_trees self.old.nodes) node))) }
    {
        if self.nodes.len() == MOST && !self.nodes.contains(&node) {
            return Err(FormError::TooManyFormulas);
        }
        let (number, _) = self.nodes.insert_full(node)?;
        let number = number as u32;
        self.numbers[at] = Some(number);
        Ok(number)
    }
}

/// The form at a place.
fn form_at(forms: &[Form], at: usize) -> Form
    requires forms { IsFormList forms.now }
    requires place { at < length forms.now }
    ensures fits { IsFormAt at result }
    ensures tree { tree_at forms.now at ≡ tree_of (trees_after [] forms.now) result }
{
    forms[at]
}
