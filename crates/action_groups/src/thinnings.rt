//! Edges without those that another one makes needless.

ghost use Rattle.std.specs.Prelude.{◌≡◌, ◌<◌, ◌≤◌, ◌+◌, true, length, map, IfOk};
ghost use Rattle.std.specs.List.{All, Contains, filter};
ghost use Rattle.action_groups.specs.Tests.{allows, signal_of};
ghost use Rattle.action_groups.specs.Thinned.{AllowSame, GivesWay, Replaces, cares_for_none, decided_way};
ghost use Rattle.action_groups.specs.Way.{IsWay};

use crate::orders::Order;
use crate::ways::{Way, bit_of, decided, restricted};
use indexmap::IndexSet;
use std::alloc::{AllocError, Global};
use word_core::Cube;

/// The edges that hold letters with this value of the signal at a place, each once, without what they ask of the signal.
/// An edge is left out where another one between the same states cares for no later signal and is marked if the edge is.
pub fn part_of(
    alloc: Global,
    ways: &[Way],
    order: Order,
    place: u32,
    value: u64,
    count: usize,
) -> Result<Vec<Way>, AllocError>
    requires place { place < order.inputs + order.outputs }
    requires ways { All (IsWay count) ways.now }
    ensures ways { IfOk result (λ v. All (IsWay count) v.items) }
    ensures same { IfOk result (λ v. AllowSame order (place + 1) v.items (filter (λ w. allows w.edge.cube (signal_of order place) value) ways.now)) }
{
    let signal = order.signal(place);
    let part = restricted(alloc, ways, signal, value, count)?;
    let once = settled(alloc, &part, signal, count)?;
    thinned(alloc, &once, order, place + 1, count)
}

/// The edges as they are where the signal is decided, each once.
fn settled(alloc: Global, ways: &[Way], signal: u32, count: usize) -> Result<Vec<Way>, AllocError>
    requires signal { signal < 64 }
    requires ways { All (IsWay count) ways.now }
    ensures ways { IfOk result (λ v. All (IsWay count) v.items) }
    ensures within { IfOk result (λ v. All (Contains (map (decided_way signal) ways.now)) v.items) }
    ensures each { IfOk result (λ v. All (Contains v.items) (map (decided_way signal) ways.now)) }
{
    let mut seen = IndexSet::new(alloc);
    for way in ways {
        seen.insert(decided(*way, signal))?;
    }
    Ok(seen.as_slice().to_vec(alloc)?)
}

/// The edges without those that give way to another one, where the signals before the place are decided.
fn thinned(
    alloc: Global,
    ways: &[Way],
    order: Order,
    place: u32,
    count: usize,
) -> Result<Vec<Way>, AllocError>
    requires place { place ≤ order.inputs + order.outputs }
    requires ways { All (IsWay count) ways.now }
    ensures ways { IfOk result (λ v. All (IsWay count) v.items) }
    ensures same { IfOk result (λ v. AllowSame order place v.items ways.now) }
{
    let mut leaders = vec![in alloc; 0_usize; count]?;
    let mut kept = Vec::with_capacity(alloc, ways.len())?;
    for i in 0..ways.len() {
        let way = ways[i];
        refresh_leaders(ways, i, order, place, &mut leaders);
        let leader = ways[leaders[way.edge.next as usize]];
        if !gives_way(way, leader, order, place) {
            kept.push(way)?;
        }
    }
    Ok(kept)
}

/// Notes the leaders of a state where its first edge stands at the place.
fn refresh_leaders(ways: &[Way], i: usize, order: Order, place: u32, leaders: &mut Vec<usize>)
    requires within { i < length ways.now }
    requires place { place ≤ order.inputs + order.outputs }
    requires ways { All (IsWay (length leaders.old.items)) ways.now }
    requires leaders { All (λ j. j < length ways.now) leaders.old.items }
    ensures count { length leaders.new.items ≡ length leaders.old.items }
    ensures leaders { All (λ j. j < length ways.now) leaders.new.items }
{
    if i == 0 || ways[i - 1].from != ways[i].from {
        note_leaders(ways, i, order, place, leaders);
    }
}

/// Notes for the ends of a state's edges, the first of which stands at a place, an edge that cares for no later signal,
/// if there is one, and a marked one before others.
fn note_leaders(ways: &[Way], first: usize, order: Order, place: u32, leaders: &mut Vec<usize>)
    requires first { first < length ways.now }
    requires place { place ≤ order.inputs + order.outputs }
    requires ways { All (IsWay (length leaders.old.items)) ways.now }
    requires leaders { All (λ j. j < length ways.now) leaders.old.items }
    ensures count { length leaders.new.items ≡ length leaders.old.items }
    ensures leaders { All (λ j. j < length ways.now) leaders.new.items }
{
    for i in first..ways.len() {
        let way = ways[i];
        if way.from != ways[first].from {
            return;
        }
        let end = way.edge.next as usize;
        if is_decided(way.edge.cube, order, place)
            && !replaces(ways[leaders[end]], way, order, place)
        {
            leaders[end] = i;
        }
    }
}

/// Whether an edge is needless where another one is.
fn gives_way(way: Way, leader: Way, order: Order, place: u32) -> bool
    requires { place ≤ order.inputs + order.outputs }
    ensures { result ≡ true → GivesWay order place way leader }
{
    replaces(leader, way, order, place) && !is_decided(way.edge.cube, order, place)
}

/// Whether an edge cares for no later signal, is between the same states as another one, and is marked if that is.
fn replaces(leader: Way, way: Way, order: Order, place: u32) -> bool
    requires { place ≤ order.inputs + order.outputs }
    ensures { result ≡ true → Replaces order place leader way }
{
    leader.from == way.from
        && leader.edge.next == way.edge.next
        && (leader.edge.marked || !way.edge.marked)
        && is_decided(leader.edge.cube, order, place)
}

/// Whether the cube cares for no signal that is tested from the place on.
fn is_decided(cube: Cube, order: Order, place: u32) -> bool
    requires { place ≤ order.inputs + order.outputs }
    ensures { result ≡ cares_for_none order place cube }
{
    for k in place..order.width() {
        if bit_of(cube.care, order.signal(k)) != 0 {
            return false;
        }
    }
    true
}
