//! The nodes that a root reaches.

ghost use Rattle.std.specs.Prelude.{ℕ, ◌≡◌, ◌+◌, ◌-◌, ◌<◌, ◌≤◌, ◌∷◌, [], ◌++◌, Some, None, IfOk, OnOk, length, slice_get, slice_set};
ghost use Rattle.letter_tree.specs.Diagram.{IsDiagram, AreDistinct, Visits, top};
ghost use Rattle.letter_tree.specs.Copy.{IsCopying, GoesOn, IsReached, IsPut};

use std::alloc::{AllocError, Global};
use word_core::Branch;

/// The nodes that a root reaches: those of the part for 0, those of the part for 1, then the node,
/// each once. Each signal's number is made smaller by `floor`, which is at most the root's signal.
pub fn reached(
    alloc: Global,
    nodes: &[Branch],
    width: u32,
    floor: u32,
    root: u64,
) -> Result<Vec<Branch>, AllocError>
    requires diagram { IsDiagram width nodes.now }
    requires root_in { root < length nodes.now }
    requires above { floor ≤ top width (slice_get nodes.now root) }
    requires distinct { AreDistinct nodes.now }
    ensures { IfOk result (λ out. IsReached nodes.now width floor root out.items) }
{
    let mut out = Vec::with_capacity(alloc, nodes.len())?;
    let mut places = vec![in alloc; None; nodes.len()]?;
    visit(nodes, width, floor, &mut out, &mut places, root)?;
    Ok(out)
}

/// The place in `out` of a node, which is put there behind its parts where it isn't there yet.
fn visit(
    nodes: &[Branch],
    width: u32,
    floor: u32,
    out: &mut Vec<Branch>,
    places: &mut [Option<u64>],
    at: u64,
) -> Result<u64, AllocError>
    requires diagram { IsDiagram width nodes.now }
    requires copying { IsCopying nodes.now width floor out.old.items places.old }
    requires at_in { at < length nodes.now }
    requires above { floor ≤ top width (slice_get nodes.now at) }
    ensures copying { OnOk result (IsCopying nodes.now width floor out.new.items places.new) }
    ensures goes_on { OnOk result (GoesOn out.old.items places.old out.new.items places.new) }
    ensures copied { IfOk result (λ place. slice_get places.new at ≡ Some (Some place)) }
    ensures later { OnOk result ((i : ℕ) → at < i → slice_get places.new i ≡ slice_get places.old i) }
    ensures walk { IfOk result (λ place. Visits out.new.items (length out.old.items) place (length out.new.items)) }
    ensures fresh { slice_get places.old at ≡ Some None → IfOk result (λ place. place + 1 ≡ length out.new.items) }
{
    if let Some(place) = places[at as usize] {
        return Ok(place);
    }
    match nodes[at as usize] {
        Branch::Leaf(label) => put(out, places, at, Branch::Leaf(label)),
        Branch::Split { signal, low, high } => {
            let zero = visit(nodes, width, floor, out, places, low)?;
            let one = visit(nodes, width, floor, out, places, high)?;
            let signal = signal - floor;
            put(
                out,
                places,
                at,
                Branch::Split {
                    signal,
                    low: zero,
                    high: one,
                },
            )
        }
    }
}

/// Puts a node behind the others, and notes its place.
fn put(
    out: &mut Vec<Branch>,
    places: &mut [Option<u64>],
    at: u64,
    node: Branch,
) -> Result<u64, AllocError>
    requires { at < length places.old }
    ensures { IfOk result (IsPut out.old.items places.old at node out.new.items places.new) }
{
    let place = out.len() as u64;
    out.push(node)?;
    places[at as usize] = Some(place);
    Ok(place)
}
