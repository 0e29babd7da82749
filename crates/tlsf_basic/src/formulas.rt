//! Formulas of entries.

ghost use Rattle.std.specs.Prelude.{◌≡◌, ◌∷◌, [], IfOk, drop, length};
ghost use Rattle.ltl_form.specs.declared.formulas.Ltl.TheVariants.{Implies};
ghost use Rattle.tlsf_basic.specs.Reads.{Gives, behind_by, turns};
ghost use Rattle.tlsf_basic.specs.Marks.{is_and, is_or};
ghost use Rattle.tlsf_basic.specs.Formulas.{read_atom, read_prefixed, read_parens, read_unary, one_more, read_conjuncts, read_all_from, read_all, read_disjuncts, read_any_from, read_implied, read_arrow_from, read_arrow, read_second, read_formula, nested};
ghost use Rattle.tlsf_basic.specs.Values.{with_unary, with_lone};

use crate::faults::TextFault;
use crate::stops::{Read, Stop, behind, close, expected, front, is_and, is_or};
use crate::symbols::{Lexeme, Lone, Symbol, Unary};
use ltl_form::Ltl;
use sqlite_items::{Boxed, Items};
use std::alloc::{AllocError, Global};

fn with_unary(alloc: Global, operator: Unary, operand: Ltl) -> Result<Ltl, AllocError>
    ensures { IfOk result (λ f. f ≡ with_unary operator operand) }
{
    let operand = Boxed::new(alloc, operand)?;
    Ok(match operator {
        Unary::Not => Ltl::Not(operand),
        Unary::Next => Ltl::Next(operand),
        Unary::Finally => Ltl::Finally(operand),
        Unary::Globally => Ltl::Globally(operand),
    })
}

fn with_lone(alloc: Global, operator: Lone, first: Ltl, second: Ltl) -> Result<Ltl, AllocError>
    ensures { IfOk result (λ f. f ≡ with_lone operator first second) }
{
    let first = Boxed::new(alloc, first)?;
    let second = Boxed::new(alloc, second)?;
    Ok(match operator {
        Lone::Equiv => Ltl::Equiv(first, second),
        Lone::Until => Ltl::Until(first, second),
        Lone::Release => Ltl::Release(first, second),
        Lone::Weak => Ltl::Weak(first, second),
    })
}

fn implies(alloc: Global, left: Ltl, right: Ltl) -> Result<Ltl, AllocError>
    ensures { IfOk result (λ f. f ≡ Implies left right) }
{
    let left = Boxed::new(alloc, left)?;
    let right = Boxed::new(alloc, right)?;
    Ok(Ltl::Implies(left, right))
}

/// A constant or a signal.
#[tactic(auto, unfolding(crate::specs::Formulas::read_atom))]
fn read_atom<'a>(tokens: &'a [Lexeme]) -> Read<'a, Ltl>
    ensures { Gives behind_by result (read_atom tokens.now) }
{
    let formula = match front(tokens) {
        Symbol::True => Ltl::True,
        Symbol::False => Ltl::False,
        Symbol::Signal(number) => Ltl::Signal(number),
        Symbol::Unknown => Ltl::Signal(u32::MAX),
        _ => return Err(Stop::Fault(expected(tokens), tokens)),
    };
    Ok((formula, behind(tokens)))
}

/// A formula, where `left` further levels of nesting are allowed.
#[cycle(formula)]
#[tactic(auto, unfolding(crate::specs::Formulas::read_formula))]
pub fn read_formula<'a>(alloc: Global, left: u32, tokens: &'a [Lexeme]) -> Read<'a, Ltl>
    ensures { Gives behind_by result (read_formula (nested left) tokens.now) }
{
    let (first, rest) = read_unary(alloc, left, tokens)?;
    match front(rest) {
        Symbol::Lone(operator) => read_second(alloc, left, operator, first, rest),
        _ => read_arrow_from(alloc, left, first, rest),
    }
}

/// The operator at the front, and its second operand.
#[cycle(formula)]
#[tactic(auto, unfolding(crate::specs::Formulas::read_second))]
fn read_second<'a>(
    alloc: Global,
    left: u32,
    operator: Lone,
    first: Ltl,
    tokens: &'a [Lexeme],
) -> Read<'a, Ltl>
    ensures { Gives behind_by result (read_second (nested left) operator first tokens.now) }
{
    let (second, rest) = read_unary(alloc, left, behind(tokens))?;
    Ok((with_lone(alloc, operator, first, second)?, rest))
}

/// An operand with the operators before it.
#[cycle(formula)]
#[tactic(auto, unfolding(crate::specs::Formulas::read_unary))]
fn read_unary<'a>(alloc: Global, left: u32, tokens: &'a [Lexeme]) -> Read<'a, Ltl>
    ensures { Gives behind_by result (read_unary (nested left) tokens.now) }
{
    match front(tokens) {
        Symbol::Unary(operator) => read_prefixed(alloc, left, operator, tokens),
        Symbol::Open => read_parens(alloc, left, tokens),
        _ => read_atom(tokens),
    }
}

/// The operator at the front, and its operand, one level deeper.
#[cycle(formula)]
#[tactic(auto, unfolding(crate::specs::Formulas::read_prefixed))]
fn read_prefixed<'a>(
    alloc: Global,
    left: u32,
    operator: Unary,
    tokens: &'a [Lexeme],
) -> Read<'a, Ltl>
    ensures { Gives behind_by result (read_prefixed (nested left) operator tokens.now) }
{
    let (operand, rest) = nested_unary(alloc, left, tokens)?;
    Ok((with_unary(alloc, operator, operand)?, rest))
}

/// A formula in parentheses, one level deeper.
#[cycle(formula)]
#[tactic(auto, unfolding(crate::specs::Formulas::read_parens))]
fn read_parens<'a>(alloc: Global, left: u32, tokens: &'a [Lexeme]) -> Read<'a, Ltl>
    ensures { Gives behind_by result (read_parens (nested left) tokens.now) }
{
    let (formula, rest) = nested_formula(alloc, left, tokens)?;
    Ok((formula, close(rest)?))
}

/// A chain of `->`.
#[cycle(formula)]
#[tactic(auto, unfolding(crate::specs::Formulas::read_arrow))]
fn read_arrow<'a>(alloc: Global, left: u32, tokens: &'a [Lexeme]) -> Read<'a, Ltl>
    ensures { Gives behind_by result (read_arrow (nested left) tokens.now) }
{
    let (first, rest) = read_unary(alloc, left, tokens)?;
    read_arrow_from(alloc, left, first, rest)
}

/// A chain of `->`, behind its first operand.
#[cycle(formula)]
#[tactic(auto, unfolding(crate::specs::Formulas::read_arrow_from))]
fn read_arrow_from<'a>(alloc: Global, left: u32, first: Ltl, tokens: &'a [Lexeme]) -> Read<'a, Ltl>
    ensures { Gives behind_by result (read_arrow_from (nested left) first tokens.now) }
{
    let (any, rest) = read_any_from(alloc, left, first, tokens)?;
    match front(rest) {
        Symbol::Arrow => read_implied(alloc, left, any, rest),
        _ => Ok((any, rest)),
    }
}

/// The `->` at the front, and its right side, one level deeper.
#[cycle(formula)]
#[tactic(auto, unfolding(crate::specs::Formulas::read_implied))]
fn read_implied<'a>(alloc: Global, left: u32, any: Ltl, tokens: &'a [Lexeme]) -> Read<'a, Ltl>
    ensures { Gives behind_by result (read_implied (nested left) any tokens.now) }
{
    let (right, rest) = nested_arrow(alloc, left, tokens)?;
    Ok((implies(alloc, any, right)?, rest))
}

/// A chain of `||`, behind its first operand.
#[cycle(formula)]
#[tactic(auto, unfolding(crate::specs::Formulas::read_any_from))]
fn read_any_from<'a>(alloc: Global, left: u32, first: Ltl, tokens: &'a [Lexeme]) -> Read<'a, Ltl>
    ensures { Gives behind_by result (read_any_from (nested left) first tokens.now) }
{
    let (all, rest) = read_all_from(alloc, left, first, tokens)?;
    match front(rest) {
        Symbol::Or => read_disjuncts(alloc, left, all, rest),
        _ => Ok((all, rest)),
    }
}

/// The further operands of a chain of `||`.
#[cycle(formula)]
#[tactic(auto, unfolding(crate::specs::Formulas::read_disjuncts))]
fn read_disjuncts<'a>(alloc: Global, left: u32, first: Ltl, tokens: &'a [Lexeme]) -> Read<'a, Ltl>
    ensures { Gives behind_by result (read_disjuncts (nested left) first tokens.now) }
{
    let mut operands = Items::new(alloc);
    operands.push(first)?;
    let mut rest = tokens;
    for _ in 0..tokens.len() {
        if !is_or(front(rest)) {
            break;
        }
        let (operand, after) = read_all(alloc, left, behind(rest))?;
        operands.push(operand)?;
        rest = after;
    }
    Ok((Ltl::Any(operands), rest))
}

/// A chain of `&&`.
#[cycle(formula)]
#[tactic(auto, unfolding(crate::specs::Formulas::read_all))]
fn read_all<'a>(alloc: Global, left: u32, tokens: &'a [Lexeme]) -> Read<'a, Ltl>
    ensures { Gives behind_by result (read_all (nested left) tokens.now) }
{
    let (first, rest) = read_unary(alloc, left, tokens)?;
    read_all_from(alloc, left, first, rest)
}

/// A chain of `&&`, behind its first operand.
#[cycle(formula)]
#[tactic(auto, unfolding(crate::specs::Formulas::read_all_from))]
fn read_all_from<'a>(alloc: Global, left: u32, first: Ltl, tokens: &'a [Lexeme]) -> Read<'a, Ltl>
    ensures { Gives behind_by result (read_all_from (nested left) first tokens.now) }
{
    match front(tokens) {
        Symbol::And => read_conjuncts(alloc, left, first, tokens),
        _ => Ok((first, tokens)),
    }
}

/// The further operands of a chain of `&&`.
#[cycle(formula)]
#[tactic(auto, unfolding(crate::specs::Formulas::read_conjuncts))]
fn read_conjuncts<'a>(alloc: Global, left: u32, first: Ltl, tokens: &'a [Lexeme]) -> Read<'a, Ltl>
    ensures { Gives behind_by result (read_conjuncts (nested left) first tokens.now) }
{
    let mut operands = Items::new(alloc);
    operands.push(first)?;
    let mut rest = tokens;
    for _ in 0..tokens.len() {
        if !is_and(front(rest)) {
            break;
        }
        let (operand, after) = read_unary(alloc, left, behind(rest))?;
        operands.push(operand)?;
        rest = after;
    }
    Ok((Ltl::All(operands), rest))
}

/// An operand behind the token at the front, which nests it.
#[cycle(formula)]
fn nested_unary<'a>(alloc: Global, left: u32, tokens: &'a [Lexeme]) -> Read<'a, Ltl>
    ensures { Gives behind_by result ((nested left).unary tokens.now) }
{
    if left == 0 {
        return Err(Stop::Fault(TextFault::TooDeep, tokens));
    }
    read_unary(alloc, left - 1, behind(tokens))
}

/// A formula behind the token at the front, which nests it.
#[cycle(formula)]
fn nested_formula<'a>(alloc: Global, left: u32, tokens: &'a [Lexeme]) -> Read<'a, Ltl>
    ensures { Gives behind_by result ((nested left).formula tokens.now) }
{
    if left == 0 {
        return Err(Stop::Fault(TextFault::TooDeep, tokens));
    }
    read_formula(alloc, left - 1, behind(tokens))
}

/// A chain of `->` behind the token at the front, which nests it.
#[cycle(formula)]
fn nested_arrow<'a>(alloc: Global, left: u32, tokens: &'a [Lexeme]) -> Read<'a, Ltl>
    ensures { Gives behind_by result ((nested left).arrow tokens.now) }
{
    if left == 0 {
        return Err(Stop::Fault(TextFault::TooDeep, tokens));
    }
    read_arrow(alloc, left - 1, behind(tokens))
}
