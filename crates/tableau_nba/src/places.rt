//! The states of a tableau: sets of formulas, with levels.

ghost use Rattle.std.specs.Prelude.{◌≡◌, ◌<◌, ◌≤◌, length, min, All, IfOk};
ghost use Rattle.cover_sets.specs.Bits.{sets_of};
ghost use Rattle.tableau_nba.specs.Tableau.{AreUntils};
ghost use Rattle.tableau_nba.specs.Walks.{is_marked, is_until as spec_until, risen, spot_of, target, untils_in};

use cover_sets::{BitCover, NumberSet};
use ltl_form::Node;
use std::alloc::{AllocError, Global};

/// A set of formulas that hold from here on, and how many untils in a row were met since the last mark.
#[derive(Debug, Clone, Copy, PartialEq, Eq, Hash)]
pub struct Place {
    pub set: NumberSet,
    pub level: u32,
}

/// Where an edge leads, and whether it is marked.
#[derive(Debug, Clone, Copy)]
pub struct Step {
    pub to: Place,
    pub marked: bool,
}

/// The step from a level by a cover, where `untils` are the numbers of the untils, ascending.
///
/// The level rises as long as the next until isn't put off. Past the last one it is 0 again, and the edge is marked.
pub fn step_from(untils: &[u32], level: u32, cover: &BitCover) -> Step
    requires { AreUntils untils.now }
    ensures to { spot_of result.to ≡ target untils.now level (sets_of cover.now) }
    ensures marked { result.marked ≡ is_marked untils.now level (sets_of cover.now) }
{
    let reached = reached(untils, level, cover);
    let marked = reached as usize == untils.len();
    let level = if marked { 0 } else { reached };
    Step {
        to: Place {
            set: cover.next,
            level,
        },
        marked,
    }
}

/// The level up to which the untils are met.
fn reached(untils: &[u32], level: u32, cover: &BitCover) -> u32
    requires { AreUntils untils.now }
    ensures { result ≡ min (length untils.now) (risen untils.now level (sets_of cover.now)) }
{
    for at in level as usize..untils.len() {
        if cover.postponed.contains(untils[at]) {
            return at as u32;
        }
    }
    untils.len() as u32
}

/// The untils among the formulas, ascending.
pub fn untils_of(alloc: Global, nodes: &[Node]) -> Result<Vec<u32>, AllocError>
    requires { length nodes.now ≤ 512 }
    ensures value { IfOk result (λ untils. untils.items ≡ untils_in nodes.now) }
    ensures numbers { IfOk result (λ untils. AreUntils untils.items) }
{
    let mut untils = Vec::new(alloc);
    for (n, node) in nodes.iter().enumerate() {
        if is_until(node) {
            untils.push(n as u32)?;
        }
    }
    Ok(untils)
}

/// Whether the formula is an until.
fn is_until(node: &Node) -> bool
    ensures { result ≡ spec_until node.now }
{
    matches!(*node, Node::Until(_, _))
}
