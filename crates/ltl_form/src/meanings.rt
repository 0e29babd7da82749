//! Truth on lassos.

ghost use Rattle.std.specs.Prelude.{ℕ, ◌≡◌, ◌<◌, ◌≤◌, ◌+◌, ◌-◌, ◌&&◌, ◌||◌, not, suc, nat_eq, nat_lt, if◌then◌else◌, length, List, All, IfOk};
ghost use Rattle.std.specs.Int.{bit_at};
ghost use Rattle.ltl_form.specs.Meaning.{after, until_at, until_within, release_at, release_within, tree_holds};
ghost use Rattle.ltl_form.specs.Normal.{IsNodeAt};
ghost use Rattle.ltl_form.specs.NodeTrees.{node_tree, formula_at};
ghost use Rattle.ltl_form.specs.Rows.{at, Tells, AreRows};
ghost use Rattle.ltl_form.specs.Tree.{Tree, literal};
ghost use Rattle.word_core.specs.Lasso.{size};

use crate::normals::{Node, Normal};
use std::alloc::{AllocError, Global};
use word_core::{Lasso, Letter};

/// Whether `f` holds at the first position of `w`.
pub fn holds(alloc: Global, f: &Normal, w: &Lasso) -> Result<bool, AllocError>
    ensures { IfOk result (λ b. b ≡ tree_holds w.now (formula_at f.now.nodes f.now.root) 0) }
{
    let mut rows: Vec<Vec<bool>> = Vec::new(alloc);
    for node in f.nodes() {
        let row = row_of(alloc, w, rows.as_slice(), node)?;
        rows.push(row)?;
    }
    prove!(0 < w.len());
    Ok(rows[f.root() as usize][0])
}

/// Where a formula holds, by position, if `rows` says so of those below it.
fn row_of(
    alloc: Global,
    w: &Lasso,
    rows: &[Vec<bool>],
    node: &Node,
) -> Result<Vec<bool>, AllocError>
    requires node { IsNodeAt (length rows.now) node.now }
    requires rows { All (λ row. length row.items ≡ size w.now) rows.now }
    ensures long { IfOk result (λ row. length row.items ≡ size w.now) }
    ensures exact { (trees : List Tree) → AreRows w.now trees rows.now → IfOk result (λ row. Tells (size w.now) (tree_holds w.now (node_tree trees node.now)) row.items) }
{
    prove!(0 < w.cycle().len());
    match *node {
        Node::True => vec![in alloc; true; w.len()],
        Node::False => vec![in alloc; false; w.len()],
        Node::Lit { signal, positive } => literal_row(alloc, w, signal, positive),
        Node::And(f, g) => and_row(alloc, &rows[f as usize], &rows[g as usize]),
        Node::Or(f, g) => or_row(alloc, &rows[f as usize], &rows[g as usize]),
        Node::Next(f) => next_row(alloc, &rows[f as usize], w),
        Node::Until(f, g) => until_row(alloc, &rows[f as usize], &rows[g as usize], w),
        Node::Release(f, g) => release_row(alloc, &rows[f as usize], &rows[g as usize], w),
    }
}

/// Where a literal holds.
fn literal_row(
    alloc: Global,
    w: &Lasso,
    signal: u32,
    positive: bool,
) -> Result<Vec<bool>, AllocError>
    requires { signal < 64 }
    ensures { IfOk result (λ row. Tells (size w.now) (tree_holds w.now (literal signal positive)) row.items) }
{
    let mut row = Vec::with_capacity(alloc, w.len())?;
    for p in 0..w.len() {
        row.push(is_literal(w.at(p), signal, positive))?;
    }
    Ok(row)
}

/// Whether a literal holds in a letter.
fn is_literal(letter: Letter, signal: u32, positive: bool) -> bool
    requires { signal < 64 }
    ensures { result ≡ (if positive then nat_eq (bit_at letter.0 signal) 1 else not (nat_eq (bit_at letter.0 signal) 1)) }
{
    let is_set = letter.0 >> signal & 1 == 1;
    is_set == positive
}

/// Where both hold.
fn and_row(alloc: Global, fs: &[bool], gs: &[bool]) -> Result<Vec<bool>, AllocError>
    requires { length gs.now ≡ length fs.now }
    ensures { IfOk result (λ row. Tells (length fs.now) (λ p. at fs.now p && at gs.now p) row.items) }
{
    let mut row = Vec::with_capacity(alloc, fs.len())?;
    for p in 0..fs.len() {
        row.push(fs[p] & gs[p])?;
    }
    Ok(row)
}

/// Where one of the two holds.
fn or_row(alloc: Global, fs: &[bool], gs: &[bool]) -> Result<Vec<bool>, AllocError>
    requires { length gs.now ≡ length fs.now }
    ensures { IfOk result (λ row. Tells (length fs.now) (λ p. at fs.now p || at gs.now p) row.items) }
{
    let mut row = Vec::with_capacity(alloc, fs.len())?;
    for p in 0..fs.len() {
        row.push(fs[p] | gs[p])?;
    }
    Ok(row)
}

/// Where `f` holds at the position after.
fn next_row(alloc: Global, fs: &[bool], w: &Lasso) -> Result<Vec<bool>, AllocError>
    requires { length fs.now ≡ size w.now }
    ensures { IfOk result (λ row. Tells (size w.now) (λ p. at fs.now (after w.now p)) row.items) }
{
    let stem = cycle_start(w);
    let mut row = Vec::with_capacity(alloc, fs.len())?;
    for p in 0..fs.len() {
        row.push(fs[place_after(p, fs.len(), stem)])?;
    }
    Ok(row)
}

/// Where `g` holds at some place of the walk, and `f` at every earlier one.
///
/// The first pass walks to the last position, the second one on through the cycle.
fn until_row(alloc: Global, fs: &[bool], gs: &[bool], w: &Lasso) -> Result<Vec<bool>, AllocError>
    requires left { length fs.now ≡ size w.now }
    requires right { length gs.now ≡ size w.now }
    ensures { IfOk result (λ row. Tells (size w.now) (until_at w.now (at fs.now) (at gs.now)) row.items) }
{
    prove!(0 < w.cycle().len());
    let row = vec![in alloc; false; fs.len()]?;
    let once = until_pass(row, fs, gs, w);
    Ok(until_pass(once, fs, gs, w))
}

/// Where `g` holds, or `f` does and the position after is in `row`, from the last position back.
fn until_pass(mut row: Vec<bool>, fs: &[bool], gs: &[bool], w: &Lasso) -> Vec<bool>
    requires row { length row.items ≡ size w.now }
    requires left { length fs.now ≡ size w.now }
    requires right { length gs.now ≡ size w.now }
    ensures long { length result.items ≡ size w.now }
    ensures exact { (m : ℕ) → at row.items (length w.now.stem) ≡ until_within w.now (at fs.now) (at gs.now) m (length w.now.stem) → Tells (size w.now) (λ p. until_within w.now (at fs.now) (at gs.now) (size w.now - p + m) p) result.items }
{
    let stem = cycle_start(w);
    for done in 0..fs.len() {
        let p = fs.len() - 1 - done;
        row[p] = until_step(fs[p], gs[p], row[place_after(p, fs.len(), stem)]);
    }
    row
}

/// `g`, or `f` and what comes after.
fn until_step(f: bool, g: bool, rest: bool) -> bool
    ensures { result ≡ (g || (f && rest)) }
{
    g || f && rest
}

/// Where at each place of the walk `g` holds or `f` does at an earlier one.
fn release_row(alloc: Global, fs: &[bool], gs: &[bool], w: &Lasso) -> Result<Vec<bool>, AllocError>
    requires left { length fs.now ≡ size w.now }
    requires right { length gs.now ≡ size w.now }
    ensures { IfOk result (λ row. Tells (size w.now) (release_at w.now (at fs.now) (at gs.now)) row.items) }
{
    prove!(0 < w.cycle().len());
    let row = vec![in alloc; true; fs.len()]?;
    let once = release_pass(row, fs, gs, w);
    Ok(release_pass(once, fs, gs, w))
}

/// Where `g` holds, and `f` does or the position after is in `row`, from the last position back.
fn release_pass(mut row: Vec<bool>, fs: &[bool], gs: &[bool], w: &Lasso) -> Vec<bool>
    requires row { length row.items ≡ size w.now }
    requires left { length fs.now ≡ size w.now }
    requires right { length gs.now ≡ size w.now }
    ensures long { length result.items ≡ size w.now }
    ensures exact { (m : ℕ) → at row.items (length w.now.stem) ≡ release_within w.now (at fs.now) (at gs.now) m (length w.now.stem) → Tells (size w.now) (λ p. release_within w.now (at fs.now) (at gs.now) (size w.now - p + m) p) result.items }
{
    let stem = cycle_start(w);
    for done in 0..fs.len() {
        let p = fs.len() - 1 - done;
        row[p] = release_step(fs[p], gs[p], row[place_after(p, fs.len(), stem)]);
    }
    row
}

/// `g`, and `f` or what comes after.
fn release_step(f: bool, g: bool, rest: bool) -> bool
    ensures { result ≡ (g && (f || rest)) }
{
    g && (f || rest)
}

/// The position after `p`: the next one, or the first of the cycle.
fn place_after(p: usize, len: usize, stem: usize) -> usize
    requires place { p < len }
    requires stem { stem < len }
    ensures value { result ≡ (if nat_lt (suc p) len then suc p else stem) }
    ensures within { result < len }
{
    if p + 1 < len { p + 1 } else { stem }
}

/// The first position of the cycle, which comes again after the last position.
fn cycle_start(w: &Lasso) -> usize
    ensures value { result ≡ length w.now.stem }
    ensures within { result < size w.now }
{
    w.len() - w.cycle().len()
}
