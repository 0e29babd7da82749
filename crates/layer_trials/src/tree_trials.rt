//! Trees beside lists of labels.

ghost use Rattle.std.specs.Prelude.{◌≡◌, IfOk, IsTrue, Some};
ghost use Rattle.word_core.specs.Tree.{IsTree, IsNodeAt, TestsBelow, AllTestBelow};

use crate::draws::Draws;
use crate::slow_tables::{
    count_of, cut_in_two, distinct, drawn_labels, first_label, label_at, labels_of, nodes_of,
    splitting,
};
use letter_tree::{Tree, apply, equal, labels, least, nodes, patterns, split};
use std::alloc::{AllocError, Global};
use std::process::Abort;
use std::test::Fail;
use word_core::{Branch, Cube, walk};

/// How many cases a trial has.
const CASES: u64 = 300;

/// The tree of labels.
fn tree_of(rt: &impl Abort, alloc: Global, width: u32, labels: &[u64]) -> Result<Tree, Fail>
    ensures { IfOk result (λ t. t.width ≡ width) }
{
    assert!(rt; width <= 16);
    assert_eq!(rt; labels.len(), 1usize << width);
    Ok(Tree::from_labels(alloc, width, labels)?)
}

/// Whether a tree has these labels, by walking its nodes.
fn walks_to(alloc: Global, t: &Tree, labels: &[u64]) -> Result<bool, AllocError> {
    let all = nodes(alloc, t)?;
    for (bits, label) in labels.iter().enumerate() {
        if walk(&all, bits as u64) != *label {
            return Ok(false);
        }
    }
    Ok(true)
}

/// Whether it is the reduced tree of these labels.
fn is_tree_of(alloc: Global, t: &Tree, labels: &[u64], width: u32) -> Result<bool, AllocError> {
    let found = nodes(alloc, t)?;
    let wanted = nodes_of(alloc, labels, width)?;
    Ok(t.width() == width && found.as_slice() == wanted.as_slice() && walks_to(alloc, t, labels)?)
}

#[test]
fn reads_labels(rt: HostRuntime) -> Result<(), Fail> {
    let alloc = rt.alloc();
    for case in 0..CASES {
        let mut draws = Draws::of_case(case);
        let width = draws.below(5) as u32;
        let table = drawn_labels(alloc, &mut draws, width)?;
        let t = tree_of(&rt, alloc, width, &table)?;
        assert!(rt; is_tree_of(alloc, &t, &table, width)?, "case {case}");
    }
    Ok(())
}

/// The labels of a cube.
fn cube_labels(
    alloc: Global,
    width: u32,
    cube: Cube,
    yes: u64,
    no: u64,
) -> Result<Vec<u64>, AllocError> {
    let mut table = Vec::new(alloc);
    for bits in 0..count_of(width) {
        let differs = (bits ^ cube.want) & cube.care;
        table.push(if differs == 0 { yes } else { no })?;
    }
    Ok(table)
}

#[test]
fn reads_cubes(rt: HostRuntime) -> Result<(), Fail> {
    let alloc = rt.alloc();
    for case in 0..CASES {
        let mut draws = Draws::of_case(case);
        let width = draws.below(5) as u32;
        let care = draws.below(count_of(width).max(1));
        let want = draws.any() & care;
        let cube = Cube { care, want };
        assert!(rt; cube.is_over(width));
        let (yes, no) = (draws.below(3), draws.below(3));
        let t = Tree::from_cube(alloc, width, cube, yes, no)?;
        let table = cube_labels(alloc, width, cube, yes, no)?;
        assert!(rt; is_tree_of(alloc, &t, &table, width)?, "case {case}");
    }
    Ok(())
}

/// A node behind so many others.
fn drawn_node(draws: &mut Draws, place: u64, width: u32) -> Branch {
    if place == 0 || width == 0 || draws.below(4) == 0 {
        return Branch::Leaf(draws.below(3));
    }
    Branch::Split {
        signal: draws.below(width as u64) as u32,
        low: draws.below(place),
        high: draws.below(place),
    }
}

/// One to twelve nodes, each behind those to which it leads.
fn drawn_nodes(alloc: Global, draws: &mut Draws, width: u32) -> Result<Vec<Branch>, AllocError> {
    let mut list = Vec::new(alloc);
    for place in 0..1 + draws.below(12) {
        list.push(drawn_node(draws, place, width))?;
    }
    Ok(list)
}

/// Whether a node tests a signal below the width, at most 64, and leads to earlier places.
fn is_node(node: Branch, place: u64, width: u32) -> bool
    ensures node { IsTrue result → IsNodeAt place (Some node) }
    ensures signal { IsTrue result → TestsBelow width (Some node) }
{
    match node {
        Branch::Leaf(_) => true,
        Branch::Split { signal, low, high } => {
            width <= 64 && signal < width && low < place && high < place
        }
    }
}

/// Whether there is a node, and each is one at its place.
fn is_tree(list: &[Branch], width: u32) -> bool
    ensures tree { IsTrue result → IsTree list.now }
    ensures signals { IsTrue result → AllTestBelow width list.now }
{
    for place in 0..list.len() {
        if !is_node(list[place], place as u64, width) {
            return false;
        }
    }
    list.len() > 0
}

#[test]
fn reads_nodes(rt: HostRuntime) -> Result<(), Fail> {
    let alloc = rt.alloc();
    for case in 0..CASES {
        let mut draws = Draws::of_case(case);
        let width = draws.below(5) as u32;
        let list = drawn_nodes(alloc, &mut draws, width)?;
        assert!(rt; is_tree(&list, width));
        assert!(rt; width <= 64);
        let t = Tree::from_nodes(alloc, width, &list)?;
        let table = labels_of(alloc, &list, width)?;
        assert!(rt; is_tree_of(alloc, &t, &table, width)?, "case {case}");
        assert!(rt;
            equal(&t, &tree_of(&rt, alloc, width, &table)?),
            "case {case}"
        );
    }
    Ok(())
}

/// The sums of labels.
fn sums(alloc: Global, a: &[u64], b: &[u64]) -> Result<Vec<u64>, AllocError> {
    let mut out = Vec::new(alloc);
    for (x, y) in a.iter().zip(b) {
        out.push(x.wrapping_add(*y))?;
    }
    Ok(out)
}

#[test]
fn applies_sums(rt: HostRuntime) -> Result<(), Fail> {
    let alloc = rt.alloc();
    for case in 0..CASES {
        let mut draws = Draws::of_case(case);
        let width = draws.below(5) as u32;
        let one = drawn_labels(alloc, &mut draws, width)?;
        let two = drawn_labels(alloc, &mut draws, width)?;
        let (a, b) = (
            tree_of(&rt, alloc, width, &one)?,
            tree_of(&rt, alloc, width, &two)?,
        );
        let t = apply(alloc, &a, &b, |x, y| x.wrapping_add(y))?;
        let table = sums(alloc, &one, &two)?;
        assert!(rt; is_tree_of(alloc, &t, &table, width)?, "case {case}");
    }
    Ok(())
}

#[test]
fn tells_equal_functions(rt: HostRuntime) -> Result<(), Fail> {
    let alloc = rt.alloc();
    let mut found = 0u64;
    for case in 0..CASES {
        let mut draws = Draws::of_case(case);
        let width = draws.below(3) as u32;
        let one = drawn_labels(alloc, &mut draws, width)?;
        let two = drawn_labels(alloc, &mut draws, width)?;
        let same = one.as_slice() == two.as_slice();
        let (a, b) = (
            tree_of(&rt, alloc, width, &one)?,
            tree_of(&rt, alloc, width, &two)?,
        );
        assert_eq!(rt; equal(&a, &b), same, "case {case}");
        found = found.wrapping_add(if same { 1 } else { 0 });
    }
    assert!(rt; found > 20, "{found} equal pairs");
    Ok(())
}

/// The first valuation with a label.
fn first_with(table: &[u64], label: u64) -> Option<u64> {
    for (bits, found) in table.iter().enumerate() {
        if *found == label {
            return Some(bits as u64);
        }
    }
    None
}

#[test]
fn finds_labels(rt: HostRuntime) -> Result<(), Fail> {
    let alloc = rt.alloc();
    for case in 0..CASES {
        let mut draws = Draws::of_case(case);
        let width = draws.below(5) as u32;
        let table = drawn_labels(alloc, &mut draws, width)?;
        let t = tree_of(&rt, alloc, width, &table)?;
        for label in 0..4 {
            assert_eq!(rt; least(&t, label), first_with(&table, label), "case {case}");
        }
        let seen = labels(alloc, &t)?;
        let wanted = distinct(alloc, &table)?;
        assert_eq!(rt; seen.as_slice(), wanted.as_slice(), "case {case}");
    }
    Ok(())
}

/// Whether these are the reduced trees of these functions.
fn are_trees_of(
    alloc: Global,
    trees: &[Tree],
    tables: &[Vec<u64>],
    width: u32,
) -> Result<bool, AllocError> {
    for (t, table) in trees.iter().zip(tables) {
        if !is_tree_of(alloc, t, table, width)? {
            return Ok(false);
        }
    }
    Ok(trees.len() == tables.len())
}

/// Whether a tree falls into its two halves behind a signal.
fn falls_in_two(
    rt: &impl Abort,
    alloc: Global,
    t: &Tree,
    table: &[u64],
    width: u32,
    cut: u32,
) -> Result<bool, Fail> {
    assert!(rt; cut <= t.width());
    let (front, rests) = split(alloc, t, cut)?;
    let wanted = cut_in_two(alloc, table, width, cut)?;
    let behind = width.wrapping_sub(cut);
    Ok(
        is_tree_of(alloc, &front, &wanted.numbers, cut)?
            && are_trees_of(alloc, &rests, &wanted.rests, behind)?,
    )
}

#[test]
fn cuts_at_each_width(rt: HostRuntime) -> Result<(), Fail> {
    let alloc = rt.alloc();
    for case in 0..CASES {
        let mut draws = Draws::of_case(case);
        let width = draws.below(5) as u32;
        let table = drawn_labels(alloc, &mut draws, width)?;
        let t = tree_of(&rt, alloc, width, &table)?;
        for cut in 0..width + 1 {
            assert!(rt;
                falls_in_two(&rt, alloc, &t, &table, width, cut)?,
                "case {case} cut {cut}"
            );
        }
    }
    Ok(())
}

#[test]
fn splits_into_lines(rt: HostRuntime) -> Result<(), Fail> {
    let alloc = rt.alloc();
    for case in 0..CASES {
        let mut draws = Draws::of_case(case);
        let width = draws.below(5) as u32;
        let table = drawn_labels(alloc, &mut draws, width)?;
        let lines = patterns(alloc, &tree_of(&rt, alloc, width, &table)?)?;
        let wanted = splitting(alloc, &table, width)?;
        assert_eq!(rt; lines.as_slice(), wanted.as_slice(), "case {case}");
        for bits in 0..count_of(width) {
            let label = label_at(&table, bits);
            assert_eq!(rt; first_label(&lines, bits), Some(label), "case {case}");
        }
    }
    Ok(())
}
