//! The reduced covers of each formula.

ghost use Rattle.std.specs.Prelude.{◌≡◌, ◌<◌, ◌≤◌, ◌+◌, ◌++◌, ◌∷◌, ◌^◌, ℕ, true, slice_index_or, length, All, IfOk, IfErr, IfSome, OnOk, Some, None, map, []};
ghost use Rattle.cover_sets.specs.declared.cover_lists.CoverError.TheVariants.{TooWide};
ghost use Rattle.cover_sets.specs.Bits.{set_of, sets_of};
ghost use Rattle.cover_sets.specs.Cover.{ArePairs, covers_in, IsRowConsistent, table_of};
ghost use Rattle.cover_sets.specs.Covers.{contrary, narrow, negations, node_at, no_demand, only, opposites, pairs_with, products, raw_of, reduced, reduced_row, release_raw, row_at, rows_after, set_row, until_raw, with_two};
ghost use Rattle.cover_sets.specs.Union.{AreConsistent, covers_of};
ghost use Rattle.ltl_form.specs.declared.normals.Node.{Node};
ghost use Rattle.ltl_form.specs.Normal.{IsNodeAt};

use crate::bit_covers::BitCover;
use crate::cover_lists::CoverError;
use crate::number_sets::NumberSet;
use crate::reductions::{minimal_unions, ordered, product, reduced_list};
use crate::rows::Row;
use ltl_form::{Node, Normal};
use std::alloc::{AllocError, Global};
use std::marker::Model;

/// The reduced list of covers of each formula, by number; none where a list that its own one needs is too wide.
#[derive(Drop)]
pub struct CoverTable {
    opposites: Vec<(u32, u32)>,
    rows: Vec<Row>,
}

impl Model for CoverTable {
    ghost use Rattle.cover_sets.specs.Cover.{TableData, IsTable};

    ghost Value = { TableData };

    ghost view = { λ t. record { opposites = t.opposites.items; rows = t.rows.items } };

    ghost invariant = { λ t. IsTable t.opposites.items t.rows.items };
}

impl CoverTable {
    /// The table of the formulas of `f`.
    pub fn new(alloc: Global, f: &Normal) -> Result<CoverTable, AllocError>
        ensures value { IfOk result (λ table. table ≡ table_of f.now.nodes) }
        ensures each { IfOk result (λ table. length table.rows ≡ length f.now.nodes) }
    {
        let opposites = opposites_of(alloc, f.nodes())?;
        let rows = rows_of(alloc, &opposites, f.nodes())?;
        Ok(CoverTable { opposites, rows })
    }

    /// The reduced list of covers of a set of formulas.
    pub fn of_set(&self, alloc: Global, set: &NumberSet) -> Result<Vec<BitCover>, CoverError>
        ensures value { IfOk result (λ list. covers_in self.now (set_of set.now) ≡ Some (covers_of list.items)) }
        ensures wide { IfErr result (λ e. e ≡ TooWide → covers_in self.now (set_of set.now) ≡ None) }
        ensures narrow { IfOk result (λ list. length list.items ≤ 1024) }
    {
        list_of_set(alloc, &self.opposites, &self.rows, set)
    }
}

/// The reduced list of a set of formulas with these rows.
fn list_of_set(
    alloc: Global,
    opposites: &[(u32, u32)],
    rows: &[Row],
    set: &NumberSet,
) -> Result<Vec<BitCover>, CoverError>
    requires pairs { ArePairs opposites.now }
    requires few { length rows.now ≤ 512 }
    requires rows { All (IsRowConsistent opposites.now) rows.now }
    ensures value { IfOk result (λ list. set_row opposites.now rows.now (set_of set.now) ≡ Some (covers_of list.items)) }
    ensures wide { IfErr result (λ e. e ≡ TooWide → set_row opposites.now rows.now (set_of set.now) ≡ None) }
    ensures narrow { IfOk result (λ list. length list.items ≤ 1024) }
{
    let mut list = one(alloc, &BitCover::EMPTY)?;
    for n in 0..rows.len() {
        if set.contains(n as u32) {
            let row = covers_at(opposites, rows, n as u32)?;
            list = minimal_unions(alloc, opposites, &list, row)?;
        }
    }
    Ok(ordered(list)?)
}

/// The rows of all formulas, where these are the pairs of a literal and its negation.
fn rows_of(alloc: Global, opposites: &[(u32, u32)], nodes: &[Node]) -> Result<Vec<Row>, AllocError>
    requires pairs { ArePairs opposites.now }
    requires few { length nodes.now ≤ 512 }
    requires below { (n : ℕ) (d : Node) → n < length nodes.now → IsNodeAt n (slice_index_or nodes.now n d) }
    ensures value { IfOk result (λ rows. rows.items ≡ rows_after opposites.now [] nodes.now) }
    ensures consistent { IfOk result (λ rows. All (IsRowConsistent opposites.now) rows.items) }
    ensures each { IfOk result (λ rows. length rows.items ≡ length nodes.now) }
{
    let mut rows = Vec::new(alloc);
    for node in nodes {
        let row = row_of(alloc, opposites, &rows, node)?;
        rows.push(row)?;
    }
    Ok(rows)
}

/// The row of the formula after those of these rows.
fn row_of(
    alloc: Global,
    opposites: &[(u32, u32)],
    rows: &[Row],
    node: &Node,
) -> Result<Row, AllocError>
    requires pairs { ArePairs opposites.now }
    requires rows { All (IsRowConsistent opposites.now) rows.now }
    requires node { IsNodeAt (length rows.now) node.now }
    requires room { length rows.now < 512 }
    ensures value { IfOk result (λ row. row ≡ reduced_row opposites.now (raw_of rows.now (length rows.now) node.now)) }
    ensures consistent { IfOk result (IsRowConsistent opposites.now) }
{
    match list_of(alloc, opposites, rows, node) {
        Ok(list) => Ok(Row::new(list)),
        Err(CoverError::TooWide) => Ok(Row::wide()),
        Err(CoverError::Memory) => Err(AllocError),
    }
}

/// The reduced list of the formula after those of these rows.
fn list_of(
    alloc: Global,
    opposites: &[(u32, u32)],
    rows: &[Row],
    node: &Node,
) -> Result<Vec<BitCover>, CoverError>
    requires pairs { ArePairs opposites.now }
    requires rows { All (IsRowConsistent opposites.now) rows.now }
    requires node { IsNodeAt (length rows.now) node.now }
    requires room { length rows.now < 512 }
    ensures value { IfOk result (λ list. reduced_row opposites.now (raw_of rows.now (length rows.now) node.now) ≡ Some (covers_of list.items)) }
    ensures wide { IfErr result (λ e. e ≡ TooWide → reduced_row opposites.now (raw_of rows.now (length rows.now) node.now) ≡ None) }
    ensures narrow { IfOk result (λ list. length list.items ≤ 1024) }
    ensures consistent { IfOk result (λ list. AreConsistent opposites.now list.items) }
{
    let n = rows.len() as u32;
    match *node {
        Node::True => Ok(one(alloc, &BitCover::EMPTY)?),
        Node::False => Ok(Vec::new(alloc)),
        Node::Lit {
            signal: _,
            positive: _,
        } => Ok(one(alloc, &literal(n))?),
        Node::Next(f) => Ok(one(alloc, &later(f))?),
        Node::And(f, g) => all_of(alloc, opposites, rows, f, g),
        Node::Or(f, g) => any_of(alloc, opposites, rows, f, g),
        Node::Until(f, g) => until(alloc, opposites, rows, f, g),
        Node::Release(f, g) => release(alloc, opposites, rows, f, g),
    }
}

/// The list of a formula with a row.
fn covers_at<'a>(
    opposites: &[(u32, u32)],
    rows: &'a [Row],
    n: u32,
) -> Result<&'a [BitCover], CoverError>
    requires rows { All (IsRowConsistent opposites.now) rows.now }
    requires place { n < length rows.now }
    ensures value { IfOk result (λ list. row_at rows.now n ≡ Some (covers_of list.now)) }
    ensures wide { IfErr result (λ e. row_at rows.now n ≡ None) }
    ensures narrow { IfOk result (λ list. length list.now ≤ 1024) }
    ensures consistent { IfOk result (λ list. AreConsistent opposites.now list.now) }
{
    rows[n as usize].list()
}

/// The covers of both.
fn all_of(
    alloc: Global,
    opposites: &[(u32, u32)],
    rows: &[Row],
    f: u32,
    g: u32,
) -> Result<Vec<BitCover>, CoverError>
    requires pairs { ArePairs opposites.now }
    requires rows { All (IsRowConsistent opposites.now) rows.now }
    requires f { f < length rows.now }
    requires g { g < length rows.now }
    ensures value { IfOk result (λ list. reduced_row opposites.now (with_two products (row_at rows.now f) (row_at rows.now g)) ≡ Some (covers_of list.items)) }
    ensures wide { IfErr result (λ e. e ≡ TooWide → reduced_row opposites.now (with_two products (row_at rows.now f) (row_at rows.now g)) ≡ None) }
    ensures narrow { IfOk result (λ list. length list.items ≤ 1024) }
    ensures consistent { IfOk result (λ list. AreConsistent opposites.now list.items) }
{
    let fs = covers_at(opposites, rows, f)?;
    let gs = covers_at(opposites, rows, g)?;
    product(alloc, opposites, fs, gs)
}

/// The covers of one of the two.
fn any_of(
    alloc: Global,
    opposites: &[(u32, u32)],
    rows: &[Row],
    f: u32,
    g: u32,
) -> Result<Vec<BitCover>, CoverError>
    requires pairs { ArePairs opposites.now }
    requires rows { All (IsRowConsistent opposites.now) rows.now }
    requires f { f < length rows.now }
    requires g { g < length rows.now }
    ensures value { IfOk result (λ list. reduced_row opposites.now (with_two ◌++◌ (row_at rows.now f) (row_at rows.now g)) ≡ Some (covers_of list.items)) }
    ensures wide { IfErr result (λ e. e ≡ TooWide → reduced_row opposites.now (with_two ◌++◌ (row_at rows.now f) (row_at rows.now g)) ≡ None) }
    ensures narrow { IfOk result (λ list. length list.items ≤ 1024) }
    ensures consistent { IfOk result (λ list. AreConsistent opposites.now list.items) }
{
    let fs = covers_at(opposites, rows, f)?;
    let gs = covers_at(opposites, rows, g)?;
    let raw = joined_lists(alloc, fs, gs)?;
    reduced_list(alloc, opposites, &raw)
}

/// `f U g = g or (f and X (f U g))`, where the second branch puts the until off.
fn until(
    alloc: Global,
    opposites: &[(u32, u32)],
    rows: &[Row],
    f: u32,
    g: u32,
) -> Result<Vec<BitCover>, CoverError>
    requires pairs { ArePairs opposites.now }
    requires rows { All (IsRowConsistent opposites.now) rows.now }
    requires room { length rows.now < 512 }
    requires f { f < length rows.now }
    requires g { g < length rows.now }
    ensures value { IfOk result (λ list. reduced_row opposites.now (with_two (until_raw (length rows.now)) (row_at rows.now f) (row_at rows.now g)) ≡ Some (covers_of list.items)) }
    ensures wide { IfErr result (λ e. e ≡ TooWide → reduced_row opposites.now (with_two (until_raw (length rows.now)) (row_at rows.now f) (row_at rows.now g)) ≡ None) }
    ensures narrow { IfOk result (λ list. length list.items ≤ 1024) }
    ensures consistent { IfOk result (λ list. AreConsistent opposites.now list.items) }
{
    let fs = covers_at(opposites, rows, f)?;
    let gs = covers_at(opposites, rows, g)?;
    let raw = put_off(alloc, rows.len() as u32, fs, gs)?;
    reduced_list(alloc, opposites, &raw)
}

/// `f R g = g and (f or X (f R g))`.
fn release(
    alloc: Global,
    opposites: &[(u32, u32)],
    rows: &[Row],
    f: u32,
    g: u32,
) -> Result<Vec<BitCover>, CoverError>
    requires pairs { ArePairs opposites.now }
    requires rows { All (IsRowConsistent opposites.now) rows.now }
    requires room { length rows.now < 512 }
    requires f { f < length rows.now }
    requires g { g < length rows.now }
    ensures value { IfOk result (λ list. reduced_row opposites.now (with_two (release_raw (length rows.now)) (row_at rows.now f) (row_at rows.now g)) ≡ Some (covers_of list.items)) }
    ensures wide { IfErr result (λ e. e ≡ TooWide → reduced_row opposites.now (with_two (release_raw (length rows.now)) (row_at rows.now f) (row_at rows.now g)) ≡ None) }
    ensures narrow { IfOk result (λ list. length list.items ≤ 1024) }
    ensures consistent { IfOk result (λ list. AreConsistent opposites.now list.items) }
{
    let fs = covers_at(opposites, rows, f)?;
    let gs = covers_at(opposites, rows, g)?;
    let ends = one(alloc, &later(rows.len() as u32))?;
    let ends = joined_lists(alloc, fs, &ends)?;
    product(alloc, opposites, gs, &ends)
}

/// One list and then the other.
fn joined_lists(
    alloc: Global,
    xs: &[BitCover],
    ys: &[BitCover],
) -> Result<Vec<BitCover>, AllocError>
    requires xs { length xs.now ≤ 1024 }
    requires ys { length ys.now ≤ 1024 }
    ensures { IfOk result (λ list. list.items ≡ xs.now ++ ys.now) }
{
    let mut list = Vec::with_capacity(alloc, xs.len() + ys.len())?;
    list.extend_from_slice(xs)?;
    list.extend_from_slice(ys)?;
    Ok(list)
}

/// The covers of the second list, and those of the first one with the until with this number put off.
fn put_off(
    alloc: Global,
    n: u32,
    fs: &[BitCover],
    gs: &[BitCover],
) -> Result<Vec<BitCover>, AllocError>
    requires number { n < 512 }
    requires fs { length fs.now ≤ 1024 }
    requires gs { length gs.now ≤ 1024 }
    ensures value { IfOk result (λ list. covers_of list.items ≡ until_raw n (covers_of fs.now) (covers_of gs.now)) }
    ensures length { IfOk result (λ list. length list.items ≡ length gs.now + length fs.now) }
{
    let postponed = postponement(n);
    let mut raw = Vec::with_capacity(alloc, fs.len() + gs.len())?;
    raw.extend_from_slice(gs)?;
    for f in fs {
        raw.push(f.join(&postponed))?;
    }
    Ok(raw)
}

/// The cover that demands the until with this number of the next position, and puts it off.
fn postponement(n: u32) -> BitCover
    requires { n < 512 }
    ensures { sets_of result ≡ only 0 (2 ^ n) (2 ^ n) }
{
    BitCover {
        literals: NumberSet::EMPTY,
        next: NumberSet::EMPTY.with(n),
        postponed: NumberSet::EMPTY.with(n),
    }
}

/// The pairs of a literal and its negation, by number.
fn opposites_of(alloc: Global, nodes: &[Node]) -> Result<Vec<(u32, u32)>, AllocError>
    requires { length nodes.now ≤ 512 }
    ensures value { IfOk result (λ pairs. pairs.items ≡ opposites nodes.now) }
    ensures pairs { IfOk result (λ pairs. ArePairs pairs.items) }
{
    let mut opposites = Vec::new(alloc);
    for n in 0..nodes.len() {
        add_negations(&mut opposites, nodes, n)?;
    }
    Ok(opposites)
}

/// Adds the pairs of the formula `n` and its negations, where it is a signal.
fn add_negations(
    opposites: &mut Vec<(u32, u32)>,
    nodes: &[Node],
    n: usize,
) -> Result<(), AllocError>
    requires nodes { length nodes.now ≤ 512 }
    requires n { n < length nodes.now }
    ensures { OnOk result (opposites.new.items ≡ opposites.old.items ++ pairs_with n (negations nodes.now (node_at nodes.now n))) }
{
    for (m, node) in nodes.iter().enumerate() {
        if are_contrary(&nodes[n], node) {
            opposites.push((n as u32, m as u32))?;
        }
    }
    Ok(())
}

/// Whether these are a signal and its negation.
fn are_contrary(literal: &Node, other: &Node) -> bool
    ensures { result ≡ contrary literal.now other.now }
{
    if let Node::Lit {
        signal,
        positive: true,
    } = *literal
    {
        *other
            == Node::Lit {
                signal,
                positive: false,
            }
    } else {
        false
    }
}

/// The list of this cover alone.
fn one(alloc: Global, cover: &BitCover) -> Result<Vec<BitCover>, AllocError>
    ensures { IfOk result (λ list. list.items ≡ cover.now ∷ []) }
{
    let mut list = Vec::new(alloc);
    list.push(*cover)?;
    Ok(list)
}

/// The cover that demands the literal with this number.
fn literal(n: u32) -> BitCover
    requires { n < 512 }
    ensures { sets_of result ≡ only (2 ^ n) 0 0 }
{
    BitCover {
        literals: NumberSet::EMPTY.with(n),
        next: NumberSet::EMPTY,
        postponed: NumberSet::EMPTY,
    }
}

/// The cover that demands the formula with this number of the next position.
fn later(n: u32) -> BitCover
    requires { n < 512 }
    ensures { sets_of result ≡ only 0 (2 ^ n) 0 }
{
    BitCover {
        literals: NumberSet::EMPTY,
        next: NumberSet::EMPTY.with(n),
        postponed: NumberSet::EMPTY,
    }
}
