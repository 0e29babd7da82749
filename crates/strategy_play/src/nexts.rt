//! Where actions lead from an entry.

ghost use Rattle.std.specs.Prelude.{◌≡◌, ◌<◌, IfOk};
ghost use Rattle.game_form.specs.Vector.{IsVector};
ghost use Rattle.strategy_play.specs.Lead.{place_above, AreNexts};

use antichain_list::{Entry, ListDownset};
use counter_vec::Counters;
use game_form::Game;
use std::alloc::{AllocError, Global};

/// The place of the first entry at or above a vector.
pub fn first_above(d: &ListDownset<Counters>, v: &Counters) -> Option<u64>
    ensures { result ≡ place_above d.now v.now }
{
    for (place, entry) in d.entries().iter().enumerate() {
        if v.at_or_below(entry) {
            return Some(place as u64);
        }
    }
    None
}

/// For each action the place of the first entry at or above the successor of `f`.
pub fn next_entries(
    alloc: Global,
    g: &Game,
    d: &ListDownset<Counters>,
    f: &Counters,
) -> Result<Vec<Option<u64>>, AllocError>
    requires { IsVector g.now f.now }
    ensures { IfOk result (λ v. AreNexts g.now d.now f.now v.items) }
{
    let count = g.actions().len();
    let mut out = Vec::with_capacity(alloc, count)?;
    for action in 0..count {
        let next = f.succ(alloc, g, action as u64)?;
        out.push(first_above(d, &next))?;
    }
    Ok(out)
}
