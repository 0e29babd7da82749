//! Which letters the lines of a machine really decide.

ghost use Rattle.std.specs.Prelude.{ℕ, ◌≡◌, ◌<◌, ◌≤◌, ◌+◌, ◌^◌, ◌↔◌, true, false, List, None, length, take, bit_and, IsTrue, slice_index_or};
ghost use Rattle.std.specs.List.{All};
ghost use Rattle.word_core.specs.declared.machines.Line.{Line};
ghost use Rattle.word_core.specs.Cube.{holds, IsCube};
ghost use Rattle.word_core.specs.Machine.{IsLine, choice, own_of, other_of};
ghost use Rattle.witness_check.specs.Product.{IsTaken, IsPart, HasGap, AreApart};

use crate::sides::{joined, sides};
use word_core::{Cube, Edge, Line, Machine, least_gap};

/// Whether the edge holds a letter that the line decides: it has the line's own part, and an other
/// part that the line holds and no earlier one does.
pub fn is_taken(m: &Machine, edge: Edge, line: Line, earlier: &[Line]) -> bool
    requires edge_in { IsCube (m.now.inputs + m.now.outputs) edge.cube }
    requires line_in { IsLine (own_of m.now) (other_of m.now) (length m.now.states) line }
    requires earlier_in { All (λ l. IsCube (other_of m.now) l.when) earlier.now }
    ensures { IsTrue result ↔ IsTaken m.now edge line earlier.now }
{
    let (own, other) = sides(m.player(), m.inputs(), edge.cube);
    own.holds(line.own) && has_gap(line.when, other, earlier)
}

/// Whether some valuation is held by two cubes and by none of the lines.
fn has_gap(when: Cube, other: Cube, earlier: &[Line]) -> bool
    requires when_in { IsPart when }
    requires other_in { IsPart other }
    ensures { IsTrue result ↔ HasGap when other earlier.now }
{
    let Some(inner) = joined(when, other) else {
        return false;
    };
    match least_gap(earlier, inner) {
        Some(_gap) => true,
        None => false,
    }
}

/// Whether no two of the lines hold a valuation in common.
pub fn are_apart(lines: &[Line]) -> bool
    requires { All (λ l. IsPart l.when) lines.now }
    ensures { IsTrue result → AreApart lines.now }
{
    for (number, line) in lines.iter().enumerate() {
        if meets_any(line.when, &lines[..number]) {
            return false;
        }
    }
    true
}

/// Whether a cube and one of the lines agree, so that they hold a valuation in common.
fn meets_any(cube: Cube, lines: &[Line]) -> bool
    ensures { result ≡ false → (x : ℕ) → holds cube x ≡ true → choice lines.now x ≡ None }
{
    for line in lines {
        if let Some(_both) = joined(line.when, cube) {
            return true;
        }
    }
    false
}
