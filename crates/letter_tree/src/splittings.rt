//! A tree's function by cubes.

ghost use Rattle.std.specs.Prelude.{ℕ, ◌≡◌, ◌++◌, ◌^◌, ◌<◌, ◌≤◌, ◌+◌, Some, IfOk, OnOk, All, length, slice_get};
ghost use Rattle.word_core.specs.Cube.{IsCube};
ghost use Rattle.word_core.specs.Tree.{label_of};
ghost use Rattle.letter_tree.specs.Diagram.{IsDiagram, top};
ghost use Rattle.letter_tree.specs.Splitting.{fixed, lines_at, splitting, pattern_of};

use crate::trees::Tree;
use std::alloc::{AllocError, Global};
use word_core::{Branch, Cube};

/// The splitting of a tree's function: cubes with their labels, of which one holds each valuation.
/// Signals are taken in order, the part for 0 comes before the part for 1, and a signal on which
/// nothing depends is passed over.
pub fn patterns(alloc: Global, t: &Tree) -> Result<Vec<(Cube, u64)>, AllocError>
    ensures lines { IfOk result (λ v. v.items ≡ splitting t.now.nodes) }
    ensures cubes { IfOk result (λ v. All (λ p. IsCube t.now.width p.0) v.items) }
    ensures label { IfOk result (λ v. (bits : ℕ) → pattern_of v.items bits ≡ Some (label_of t.now.nodes bits)) }
{
    let nodes = t.branches();
    let mut out = Vec::new(alloc);
    let all = Cube { care: 0, want: 0 };
    put_patterns(nodes, t.width(), nodes.len() as u64 - 1, all, &mut out)?;
    Ok(out)
}

/// Puts the splitting of a node's function behind the list, inside a cube of earlier signals.
fn put_patterns(
    nodes: &[Branch],
    width: u32,
    at: u64,
    inside: Cube,
    out: &mut Vec<(Cube, u64)>,
) -> Result<(), AllocError>
    requires diagram { IsDiagram width nodes.now }
    requires at_in { at < length nodes.now }
    requires earlier { IsCube (top width (slice_get nodes.now at)) inside }
    ensures { OnOk result (out.new.items ≡ out.old.items ++ lines_at nodes.now at inside) }
{
    match nodes[at as usize] {
        Branch::Leaf(label) => {
            out.push((inside, label))?;
            Ok(())
        }
        Branch::Split { signal, low, high } => {
            let zero = with_signal(inside, signal, false);
            put_patterns(nodes, width, low, zero, out)?;
            let one = with_signal(inside, signal, true);
            put_patterns(nodes, width, high, one, out)?;
            Ok(())
        }
    }
}

/// The cube that also fixes a signal above all for which it cares.
fn with_signal(cube: Cube, signal: u32, value: bool) -> Cube
    requires small { signal < 64 }
    requires earlier { IsCube signal cube }
    ensures cube { result ≡ fixed cube signal value }
    ensures earlier { IsCube (signal + 1) result }
{
    let bit = 1 << signal;
    let care = cube.care + bit;
    if value {
        Cube {
            care,
            want: cube.want + bit,
        }
    } else {
        Cube {
            care,
            want: cube.want,
        }
    }
}
