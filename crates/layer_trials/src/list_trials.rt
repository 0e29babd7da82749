//! Lists of vectors beside sets of all vectors.

use crate::draws::Draws;
use crate::layer_vectors::counters_of;
use crate::slow_vectors::{
    all_vectors, covered_answers, drawn_numbers, is_below, is_list, maximal, members, place_of,
};
use antichain_list::{Downset, ListDownset};
use counter_vec::Counters;
use std::alloc::Global;
use std::process::Abort;
use std::test::Fail;

/// How many cases a trial has.
const CASES: u64 = 200;

/// How many changes each case has.
const CHANGES: u64 = 24;

/// The bound.
const BOUND: u8 = 2;

/// Says true for each vector at or below `v`.
fn add_below(vectors: &[Vec<i16>], v: &[i16], answers: &mut [bool]) {
    for (u, answer) in vectors.iter().zip(answers.iter_mut()) {
        *answer = *answer || is_below(u, v);
    }
}

/// Puts a drawn vector into the list and into the set.
fn put_both(
    rt: &impl Abort,
    alloc: Global,
    draws: &mut Draws,
    list: &mut ListDownset<Counters>,
    vectors: &[Vec<i16>],
    answers: &mut Vec<bool>,
) -> Result<(), Fail> {
    let lanes = match vectors.first() {
        Some(u) => u.len(),
        None => 0,
    };
    let numbers = drawn_numbers(alloc, draws, lanes, BOUND)?;
    let v = counters_of(rt, alloc, &numbers)?;
    let place = place_of(&numbers, BOUND) as usize;
    let is_there = answers.get(place).copied();
    assert_eq!(rt; Some(list.covers(&v)), is_there);
    list.put(v).ok();
    add_below(vectors, &numbers, answers);
    Ok(())
}

/// Takes a drawn entry out of the list and out of the set.
fn take_both(
    rt: &impl Abort,
    alloc: Global,
    draws: &mut Draws,
    list: &mut ListDownset<Counters>,
    vectors: &[Vec<i16>],
    answers: &mut Vec<bool>,
) -> Result<(), Fail> {
    let mut entries = maximal(alloc, &members(alloc, vectors, answers)?)?;
    let count = list.len();
    assert_eq!(rt; count, entries.len());
    if count == 0 {
        return Ok(());
    }
    let place = draws.below(count as u64) as usize;
    let taken = list.take(place);
    let wanted = entries.remove(place);
    assert_eq!(rt; taken.lanes(), wanted.as_slice());
    *answers = covered_answers(alloc, vectors, &entries)?;
    Ok(())
}

#[test]
fn puts_and_takes(rt: HostRuntime) -> Result<(), Fail> {
    let alloc = rt.alloc();
    for case in 0..CASES {
        let mut draws = Draws::of_case(case);
        let vectors = all_vectors(alloc, 1 + draws.below(3) as usize, BOUND)?;
        let mut list = ListDownset::empty(alloc);
        let mut answers = vec![in alloc; false; vectors.len()]?;
        for _ in 0..CHANGES {
            if draws.below(4) == 0 {
                take_both(&rt, alloc, &mut draws, &mut list, &vectors, &mut answers)?;
            } else {
                put_both(&rt, alloc, &mut draws, &mut list, &vectors, &mut answers)?;
            }
            let wanted = maximal(alloc, &members(alloc, &vectors, &answers)?)?;
            assert!(rt; is_list(list.entries(), &wanted), "case {case}");
        }
    }
    Ok(())
}
