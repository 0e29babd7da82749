//! The product of a machine and an automaton, as far as it is reached.

ghost use Rattle.std.specs.Prelude.{ℕ, ◌≡◌, ◌<◌, ◌≤◌, ◌+◌, ◌⊎◌, ◌∷◌, ◌++◌, [], List, Bool, true, false, length, map, take, IfOk, OnOk, IsTrue, Some, slice_get, slice_index_or};
ghost use Rattle.std.specs.List.{All, Contains};
ghost use Rattle.word_core.specs.declared.automata.Edge.{Edge};
ghost use Rattle.word_core.specs.declared.machines.Line.{Line};
ghost use Rattle.word_core.specs.Automaton.{edges_at};
ghost use Rattle.word_core.specs.Cube.{holds, IsCube};
ghost use Rattle.word_core.specs.Machine.{IsMachine, choice, lines_at, other_of};
ghost use Rattle.witness_check.specs.Product.{IsNode, LeadsWithin, IsTaken, AreApart, IsArc, HasArc, AreArcs, Extends, IsProduct};

use crate::Memory;
use crate::choices::{are_apart, is_taken};
use indexmap::IndexSet;
use std::alloc::Global;
use word_core::{Automaton, Line, Machine};

/// A state of the machine and one of the automaton.
#[derive(Debug, Clone, Copy, PartialEq, Eq, Hash)]
pub struct Node {
    pub state: u64,
    pub place: u32,
}

/// A step of the product: the number of the node that it leads to, and the mark of its edge.
#[derive(Debug, Clone, Copy, PartialEq, Eq)]
pub struct Arc {
    pub to: usize,
    pub marked: bool,
}

/// The arcs of each node that is reached from state 0 and the first state, in the order in which
/// the nodes are found.
pub fn product(
    alloc: Global,
    a: &Automaton,
    m: &Machine,
    init: u32,
) -> Result<Vec<Vec<Arc>>, Memory>
    requires signals { a.now.signals ≡ m.now.inputs + m.now.outputs }
    requires init_in { init < length a.now.states }
    ensures product { IfOk result (λ arcs. (keys : List Node) × IsProduct a.now m.now init keys (map (λ list. list.items) arcs.items)) }
    ensures machine { OnOk result (IsMachine m.now) }
{
    let apart = apart_states(alloc, m)?;
    let mut nodes = IndexSet::new(alloc);
    let mut arcs = Vec::new(alloc);
    let first = Node {
        state: 0,
        place: init,
    };
    number_of(&mut nodes, first)?;
    for at in 0..usize::MAX {
        let Some(node) = nodes.get_index(at) else {
            return Ok(arcs);
        };
        let node = *node;
        let is_apart = apart[node.state as usize];
        let list = arcs_of(alloc, a, m, &mut nodes, node, is_apart)?;
        arcs.push(list)?;
    }
    unreachable!()
}

/// For each state, whether no two of its lines hold a valuation in common, so that every line
/// decides all that it holds.
fn apart_states(alloc: Global, m: &Machine) -> Result<Vec<bool>, Memory>
    ensures all { IfOk result (λ v. length v.items ≡ length m.now.states) }
    ensures valid { IsMachine m.now }
    ensures apart { IfOk result (λ v. (s : ℕ) → s < length m.now.states → slice_index_or v.items s false ≡ true → AreApart (lines_at m.now s)) }
{
    let mut apart = Vec::new(alloc);
    for state in 0..m.states().len() {
        apart.push(are_apart(m.lines(state as u64)))?;
    }
    Ok(apart)
}

/// The number of a node, which is added where it wasn't found before.
fn number_of(nodes: &mut IndexSet<Node>, node: Node) -> Result<usize, Memory>
    ensures extends { Extends nodes.old.keys nodes.new.keys }
    ensures stored { IfOk result (λ n. slice_get nodes.new.keys n ≡ Some node) }
    ensures first { OnOk result (nodes.old.keys ≡ [] → slice_get nodes.new.keys 0 ≡ Some node) }
    ensures ranged { (states places : ℕ) → All (IsNode states places) nodes.old.keys → IsNode states places node → All (IsNode states places) nodes.new.keys }
{
    let (number, _) = nodes.insert_full(node)?;
    Ok(number)
}

/// The arcs that leave a node; those that it leads to get numbers. `apart` says that the lines of its
/// state hold no valuation in common.
fn arcs_of(
    alloc: Global,
    a: &Automaton,
    m: &Machine,
    nodes: &mut IndexSet<Node>,
    node: Node,
    apart: bool,
) -> Result<Vec<Arc>, Memory>
    requires signals { a.now.signals ≡ m.now.inputs + m.now.outputs }
    requires from { IsNode (length m.now.states) (length a.now.states) node }
    requires apart_in { apart ≡ true → AreApart (lines_at m.now node.state) }
    requires ranged { All (IsNode (length m.now.states) (length a.now.states)) nodes.old.keys }
    ensures extends { Extends nodes.old.keys nodes.new.keys }
    ensures arcs { IfOk result (λ list. AreArcs a.now m.now nodes.new.keys node list.items) }
    ensures ranged { All (IsNode (length m.now.states) (length a.now.states)) nodes.new.keys }
{
    let lines = m.lines(node.state);
    let mut list = Vec::new(alloc);
    for number in 0..lines.len() {
        let earlier = before(lines, number, apart);
        push_arcs(&mut list, a, m, nodes, node, number, earlier)?;
    }
    Ok(list)
}

/// The lines before one, among which none is needed where all are apart.
fn before(lines: &[Line], number: usize, apart: bool) -> &[Line]
    requires number_in { number < length lines.now }
    requires apart_in { apart ≡ true → AreApart lines.now }
    ensures same { (l : Line) → slice_get lines.entry.now number ≡ Some l → (x : ℕ) → holds l.when x ≡ true → choice result.now x ≡ choice (take number lines.entry.now) x }
    ensures ranged { (others : ℕ) → All (λ l. IsCube others l.when) lines.entry.now → All (λ l. IsCube others l.when) result.now }
{
    if apart { &lines[..0] } else { &lines[..number] }
}

/// The arcs of one line, which decides what no earlier line holds.
fn push_arcs(
    list: &mut Vec<Arc>,
    a: &Automaton,
    m: &Machine,
    nodes: &mut IndexSet<Node>,
    node: Node,
    number: usize,
    earlier: &[Line],
) -> Result<(), Memory>
    requires signals { a.now.signals ≡ m.now.inputs + m.now.outputs }
    requires from { IsNode (length m.now.states) (length a.now.states) node }
    requires number_in { number < length (lines_at m.now node.state) }
    requires earlier_in { All (λ l. IsCube (other_of m.now) l.when) earlier.now }
    requires same { (l : Line) → slice_get (lines_at m.now node.state) number ≡ Some l → (x : ℕ) → holds l.when x ≡ true → choice earlier.now x ≡ choice (take number (lines_at m.now node.state)) x }
    requires ranged { All (IsNode (length m.now.states) (length a.now.states)) nodes.old.keys }
    ensures extends { Extends nodes.old.keys nodes.new.keys }
    ensures sound { OnOk result (All (IsArc a.now m.now nodes.old.keys node) list.old.items → All (IsArc a.now m.now nodes.new.keys node) list.new.items) }
    ensures kept { OnOk result ((n : Node) (marked : Bool) → HasArc nodes.old.keys list.old.items n marked → HasArc nodes.new.keys list.new.items n marked) }
    ensures whole { OnOk result ((l : Line) (e : Edge) → slice_get (lines_at m.now node.state) number ≡ Some l → Contains (edges_at a.now node.place) e → IsTaken m.now e l (take number (lines_at m.now node.state)) → HasArc nodes.new.keys list.new.items (record { state = l.next; place = e.next }) e.marked) }
    ensures ranged { All (IsNode (length m.now.states) (length a.now.states)) nodes.new.keys }
{
    let line = m.lines(node.state)[number];
    for edge in a.edges(node.place) {
        if !is_taken(m, *edge, line, earlier) {
            continue;
        }
        let end = Node {
            state: line.next,
            place: edge.next,
        };
        let to = number_of(nodes, end)?;
        let arc = Arc {
            to,
            marked: edge.marked,
        };
        push_new(list, arc)?;
    }
    Ok(())
}

/// Adds an arc that the list doesn't have yet.
fn push_new(list: &mut Vec<Arc>, arc: Arc) -> Result<(), Memory>
    ensures has { OnOk result (Contains list.new.items arc) }
    ensures same { OnOk result ((list.new.items ≡ list.old.items) ⊎ (list.new.items ≡ list.old.items ++ arc ∷ [])) }
{
    if !list.contains(&arc) {
        list.push(arc)?;
    }
    Ok(())
}
