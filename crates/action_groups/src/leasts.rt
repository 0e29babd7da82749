//! Pairs of least valuations and numbers.

ghost use Rattle.std.specs.Prelude.{◌≡◌, ◌<◌, ◌≤◌, ◌^◌, ℕ, length, vec_len, IfOk};
ghost use Rattle.std.specs.List.{All, AllPairs};
ghost use Rattle.action_groups.specs.Options.{IsOnce};
ghost use Rattle.action_groups.specs.Part.{ArePairs};

use std::alloc::{AllocError, Global};

/// Of the pairs of each number that with the least valuation, in the order of these.
pub fn least_of_each(
    alloc: Global,
    mut pairs: Vec<(u64, u64)>,
    width: u32,
    count: usize,
) -> Result<Vec<(u64, u64)>, AllocError>
    requires pairs { ArePairs width count pairs.items }
    requires some { 0 < length pairs.items }
    ensures pairs { IfOk result (λ v. ArePairs width count v.items) }
    ensures some { IfOk result (λ v. 0 < length v.items) }
    ensures once { IfOk result (λ v. IsOnce pairs.items v.items) }
{
    pairs.sort()?;
    first_of_each(alloc, &pairs, width, count)
}

/// Of the pairs of each number, which stand in the order of their valuations, the first.
fn first_of_each(
    alloc: Global,
    pairs: &[(u64, u64)],
    width: u32,
    count: usize,
) -> Result<Vec<(u64, u64)>, AllocError>
    requires pairs { ArePairs width count pairs.now }
    requires some { 0 < length pairs.now }
    requires sorted { AllPairs (λ p q. p.0 ≤ q.0) pairs.now }
    ensures pairs { IfOk result (λ v. ArePairs width count v.items) }
    ensures some { IfOk result (λ v. 0 < length v.items) }
    ensures once { IfOk result (λ v. IsOnce pairs.now v.items) }
{
    let mut seen = vec![in alloc; false; count]?;
    let mut kept = Vec::new(alloc);
    kept.push(pairs[0])?;
    seen[pairs[0].1 as usize] = true;
    for i in 1..pairs.len() {
        let pair = pairs[i];
        if !seen[pair.1 as usize] {
            seen[pair.1 as usize] = true;
            kept.push(pair)?;
        }
    }
    Ok(kept)
}
