//! Products of lists of covers, reduced.

ghost use Rattle.std.specs.Prelude.{◌≡◌, ◌<◌, ◌≤◌, ◌+◌, ◌++◌, ◌^◌, ℕ, true, not, ◌&&◌, nat_eq, bit_and, length, map, All, IfOk, IfErr, OnOk, Some, None};
ghost use Rattle.std.specs.List.{filter, list_any};
ghost use Rattle.std.specs.List.Sorted.{IsPermutation};
ghost use Rattle.cover_sets.specs.declared.cover_lists.CoverError.TheVariants.{TooWide, Memory};
ghost use Rattle.cover_sets.specs.Bits.{set_of, sets_of, signature_of};
ghost use Rattle.cover_sets.specs.Cover.{ArePairs};
ghost use Rattle.cover_sets.specs.Covers.{ascending, narrow, part_of, products, reduced};
ghost use Rattle.cover_sets.specs.Numbers.{has};
ghost use Rattle.cover_sets.specs.Union.{all_consistent, AreBySize, AreConsistent, AreDifferent, AreUnions, clashes, covers_of, HaveSizes, kept_after, union_at, unions_with};

use crate::bit_covers::BitCover;
use crate::cover_lists::CoverError;
use crate::number_sets::NumberSet;
use std::alloc::{AllocError, Global};

/// The most covers of a reduced list.
const WIDEST: usize = 1024;

/// The places of two covers, with the size of their union.
#[derive(Clone, Copy)]
struct Union {
    size: u32,
    left: u32,
    right: u32,
}

/// The reduced list of the unions of each of `xs` with each of `ys`.
///
/// `opposites` are the pairs of a literal and its negation.
pub fn product(
    alloc: Global,
    opposites: &[(u32, u32)],
    xs: &[BitCover],
    ys: &[BitCover],
) -> Result<Vec<BitCover>, CoverError>
    requires pairs { ArePairs opposites.now }
    requires left { length xs.now ≤ 2048 }
    requires right { length ys.now ≤ 2048 }
    requires xs { AreConsistent opposites.now xs.now }
    requires ys { AreConsistent opposites.now ys.now }
    ensures value { IfOk result (λ list. narrow (reduced opposites.now (products (covers_of xs.now) (covers_of ys.now))) ≡ Some (covers_of list.items)) }
    ensures wide { IfErr result (λ e. e ≡ TooWide → narrow (reduced opposites.now (products (covers_of xs.now) (covers_of ys.now))) ≡ None) }
    ensures narrow { IfOk result (λ list. length list.items ≤ 1024) }
    ensures consistent { IfOk result (λ list. AreConsistent opposites.now list.items) }
{
    let list = minimal_unions(alloc, opposites, xs, ys)?;
    Ok(ordered(list)?)
}

/// The covers of the reduced list of the unions of each of `xs` with each of `ys`, in any order.
///
/// Smaller unions come first, so that what was kept is never dropped again.
pub fn minimal_unions(
    alloc: Global,
    opposites: &[(u32, u32)],
    xs: &[BitCover],
    ys: &[BitCover],
) -> Result<Vec<BitCover>, CoverError>
    requires pairs { ArePairs opposites.now }
    requires left { length xs.now ≤ 2048 }
    requires right { length ys.now ≤ 2048 }
    requires xs { AreConsistent opposites.now xs.now }
    requires ys { AreConsistent opposites.now ys.now }
    ensures value { IfOk result (λ list. narrow (reduced opposites.now (products (covers_of xs.now) (covers_of ys.now))) ≡ Some (ascending (covers_of list.items))) }
    ensures different { IfOk result (λ list. AreDifferent (covers_of list.items)) }
    ensures wide { IfErr result (λ e. e ≡ TooWide → narrow (reduced opposites.now (products (covers_of xs.now) (covers_of ys.now))) ≡ None) }
    ensures narrow { IfOk result (λ list. length list.items ≤ 1024) }
    ensures consistent { IfOk result (λ list. AreConsistent opposites.now list.items) }
{
    let unions = unions_of(alloc, opposites, xs, ys)?;
    let room = xs.len().max(ys.len());
    let mut kept = Kept {
        covers: Vec::with_capacity(alloc, room)?,
        signatures: Vec::with_capacity(alloc, room)?,
    };
    for union in &unions {
        let cover = xs[union.left as usize].join(&ys[union.right as usize]);
        kept.offer(&cover)?;
    }
    Ok(kept.covers)
}

/// The reduced list of these covers.
pub fn reduced_list(
    alloc: Global,
    opposites: &[(u32, u32)],
    raw: &[BitCover],
) -> Result<Vec<BitCover>, CoverError>
    requires pairs { ArePairs opposites.now }
    requires few { length raw.now ≤ 2048 }
    requires raw { AreConsistent opposites.now raw.now }
    ensures value { IfOk result (λ list. narrow (reduced opposites.now (covers_of raw.now)) ≡ Some (covers_of list.items)) }
    ensures wide { IfErr result (λ e. e ≡ TooWide → narrow (reduced opposites.now (covers_of raw.now)) ≡ None) }
    ensures narrow { IfOk result (λ list. length list.items ≤ 1024) }
    ensures consistent { IfOk result (λ list. AreConsistent opposites.now list.items) }
{
    product(alloc, opposites, raw, &[BitCover::EMPTY])
}

/// The consistent unions, the smaller ones first.
fn unions_of(
    alloc: Global,
    opposites: &[(u32, u32)],
    xs: &[BitCover],
    ys: &[BitCover],
) -> Result<Vec<Union>, AllocError>
    requires pairs { ArePairs opposites.now }
    requires left { length xs.now ≤ 2048 }
    requires right { length ys.now ≤ 2048 }
    requires xs { AreConsistent opposites.now xs.now }
    requires ys { AreConsistent opposites.now ys.now }
    ensures places { IfOk result (λ unions. AreUnions (length xs.now) (length ys.now) unions.items) }
    ensures all { IfOk result (λ unions. IsPermutation (all_consistent opposites.now (products (covers_of xs.now) (covers_of ys.now))) (map (union_at (covers_of xs.now) (covers_of ys.now)) unions.items)) }
    ensures order { IfOk result (λ unions. AreBySize (map (union_at (covers_of xs.now) (covers_of ys.now)) unions.items)) }
{
    let mut unions = Vec::with_capacity(alloc, WIDEST.min(xs.len() * ys.len()))?;
    for left in 0..xs.len() {
        add_unions(&mut unions, opposites, xs, left, ys)?;
    }
    unions.sort_by_key(|union| union.size)?;
    Ok(unions)
}

/// Adds the consistent unions of the cover at the place `left` with each of `ys`.
fn add_unions(
    unions: &mut Vec<Union>,
    opposites: &[(u32, u32)],
    xs: &[BitCover],
    left: usize,
    ys: &[BitCover],
) -> Result<(), AllocError>
    requires pairs { ArePairs opposites.now }
    requires place { left < length xs.now }
    requires left { length xs.now ≤ 2048 }
    requires right { length ys.now ≤ 2048 }
    requires xs { AreConsistent opposites.now xs.now }
    requires ys { AreConsistent opposites.now ys.now }
    requires places { AreUnions (length xs.now) (length ys.now) unions.old.items }
    requires sizes { HaveSizes (covers_of xs.now) (covers_of ys.now) unions.old.items }
    ensures places { OnOk result (AreUnions (length xs.now) (length ys.now) unions.new.items) }
    ensures sizes { OnOk result (HaveSizes (covers_of xs.now) (covers_of ys.now) unions.new.items) }
    ensures more { OnOk result (map (union_at (covers_of xs.now) (covers_of ys.now)) unions.new.items ≡ map (union_at (covers_of xs.now) (covers_of ys.now)) unions.old.items ++ unions_with opposites.now (covers_of xs.now) (covers_of ys.now) left) }
{
    let x = &xs[left];
    let against = against(opposites, &x.literals);
    for (right, y) in ys.iter().enumerate() {
        if !against.meets(&y.literals) {
            let size = x.size_with(y);
            unions.push(Union {
                size,
                left: left as u32,
                right: right as u32,
            })?;
        }
    }
    Ok(())
}

/// The negations of these literals, as far as they have numbers.
fn against(opposites: &[(u32, u32)], literals: &NumberSet) -> NumberSet
    requires { ArePairs opposites.now }
    ensures { (y : ℕ) → nat_eq (bit_and (set_of result) y) 0 ≡ not (clashes opposites.now (set_of literals.now) y) }
{
    let mut against = NumberSet::EMPTY;
    for (positive, negative) in opposites {
        against = denied(&against, literals, *positive, *negative);
        against = denied(&against, literals, *negative, *positive);
    }
    against
}

/// The set with the negation of a literal, where that is one of these literals.
fn denied(against: &NumberSet, literals: &NumberSet, literal: u32, negation: u32) -> NumberSet
    requires literal { literal < 512 }
    requires negation { negation < 512 }
    ensures { (y : ℕ) → nat_eq (bit_and (set_of result) y) 0 ≡ (nat_eq (bit_and (set_of against.now) y) 0 && not (has (set_of literals.now) literal && has y negation)) }
{
    if literals.contains(literal) {
        against.with(negation)
    } else {
        *against
    }
}

/// Covers of which none contains another one, at most 1,024, with their signatures.
#[derive(Drop)]
struct Kept {
    covers: Vec<BitCover>,
    signatures: Vec<u64>,
}

impl Kept {
    /// Keeps the cover, where it contains none that is kept.
    fn offer(&mut self, cover: &BitCover) -> Result<(), CoverError>
        requires few { length self.old.covers.items ≤ 1024 }
        requires signed { self.old.signatures.items ≡ map signature_of self.old.covers.items }
        ensures kept { OnOk result (covers_of self.new.covers.items ≡ kept_after (covers_of self.old.covers.items) (sets_of cover.now)) }
        ensures few { OnOk result (length self.new.covers.items ≤ 1024) }
        ensures signed { OnOk result (self.new.signatures.items ≡ map signature_of self.new.covers.items) }
        ensures wide { IfErr result (λ e. e ≡ TooWide → 1024 < length (kept_after (covers_of self.old.covers.items) (sets_of cover.now))) }
    {
        let signature = cover.signature();
        if self.has_part_of(cover, signature) {
            return Ok(());
        }
        if self.covers.len() == WIDEST {
            return Err(CoverError::TooWide);
        }
        self.covers.push(*cover)?;
        self.signatures.push(signature)?;
        Ok(())
    }

    /// Whether some kept cover is a part of this one.
    fn has_part_of(&self, cover: &BitCover, signature: u64) -> bool
        requires signed { self.now.signatures.items ≡ map signature_of self.now.covers.items }
        requires signature { signature ≡ signature_of cover.now }
        ensures { result ≡ list_any (λ k. part_of k (sets_of cover.now)) (covers_of self.now.covers.items) }
    {
        for (at, own) in self.signatures.iter().enumerate() {
            if *own & signature == *own && self.covers[at].is_part_of(cover) {
                return true;
            }
        }
        false
    }
}

/// The covers in their order.
pub fn ordered(mut covers: Vec<BitCover>) -> Result<Vec<BitCover>, AllocError>
    requires { AreDifferent (covers_of covers.items) }
    ensures all { IfOk result (λ list. IsPermutation covers.items list.items) }
    ensures value { IfOk result (λ list. covers_of list.items ≡ ascending (covers_of covers.items)) }
{
    covers.sort_by(|a, b| a.compare(b))?;
    Ok(covers)
}
