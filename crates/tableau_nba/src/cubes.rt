//! The cubes of literals.

ghost use Rattle.std.specs.Prelude.{◌≡◌, ℕ, ◌<◌, ◌≤◌, length, All, IfOk};
ghost use Rattle.ltl_form.specs.Normal.{LiteralsBelow};
ghost use Rattle.cover_sets.specs.Bits.{set_of};
ghost use Rattle.tableau_nba.specs.Tableau.{AreLiterals};
ghost use Rattle.tableau_nba.specs.Walks.{cube_in, literal_at, literals_in, with_literal};
ghost use Rattle.std.specs.Option.{option_to_list};
ghost use Rattle.word_core.specs.Cube.{IsCube};

use cover_sets::NumberSet;
use ltl_form::Node;
use std::alloc::{AllocError, Global};
use word_core::Cube;

/// A literal by its number.
#[derive(Clone, Copy)]
pub struct Literal {
    pub number: u32,
    pub signal: u32,
    pub positive: bool,
}

/// The literals among the formulas.
pub fn literals_of(alloc: Global, nodes: &[Node], signals: u32) -> Result<Vec<Literal>, AllocError>
    requires literals { LiteralsBelow signals nodes.now }
    requires nodes { length nodes.now ≤ 512 }
    ensures value { IfOk result (λ literals. literals.items ≡ literals_in nodes.now) }
    ensures numbers { IfOk result (λ literals. AreLiterals signals literals.items) }
{
    let mut literals = Vec::new(alloc);
    for (n, node) in nodes.iter().enumerate() {
        if let Some(literal) = literal_of(n as u32, node) {
            literals.push(literal)?;
        }
    }
    Ok(literals)
}

/// The letters that meet those of the literals that are in the set. The literals are of so many signals.
pub fn cube_of(literals: &[Literal], signals: u32, set: &NumberSet) -> Cube
    requires literals { AreLiterals signals literals.now }
    requires signals { signals ≤ 64 }
    ensures value { result ≡ cube_in literals.now (set_of set.now) }
    ensures cube { IsCube signals result }
{
    let mut cube = Cube { care: 0, want: 0 };
    for literal in literals {
        if set.contains(literal.number) {
            cube = one_more(&cube, literal, signals);
        }
    }
    cube
}

/// The letters of the cube that meet the literal, which takes the place of one of its signal.
fn one_more(cube: &Cube, literal: &Literal, signals: u32) -> Cube
    requires cube { IsCube signals cube.now }
    requires literal { literal.now.signal < signals }
    requires signals { signals ≤ 64 }
    ensures value { result ≡ with_literal cube.now literal.now }
    ensures cube { IsCube signals result }
{
    let bit = 1 << literal.signal;
    let want = if literal.positive {
        cube.want | bit
    } else {
        cube.want
    };
    Cube {
        care: cube.care | bit,
        want,
    }
}

/// The literal, if the formula is one.
fn literal_of(number: u32, node: &Node) -> Option<Literal>
    ensures { option_to_list result ≡ literal_at number node.now }
{
    match *node {
        Node::Lit { signal, positive } => Some(Literal {
            number,
            signal,
            positive,
        }),
        _ => None,
    }
}
