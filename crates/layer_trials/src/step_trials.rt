//! One step backwards beside all vectors and all choices.

use crate::draws::Draws;
use crate::layer_vectors::{list_of, vector_of};
use crate::slow_games::{Sizes, Trial};
use crate::slow_vectors::{
    all_vectors, covered_answers, drawn_numbers, is_below, is_list, maximal,
};
use cpre_step::{Refined, pre_below};
use std::alloc::{AllocError, Global};
use std::test::Fail;

/// How many cases the trial has.
const CASES: u64 = 600;

/// How large what is drawn may be.
const SIZES: Sizes = Sizes {
    states: 3,
    signals: 3,
    k: 2,
};

/// A vector with large numbers.
fn large_numbers(
    alloc: Global,
    draws: &mut Draws,
    lanes: usize,
    k: u8,
) -> Result<Vec<i16>, AllocError> {
    let mut numbers = Vec::new(alloc);
    for _ in 0..lanes {
        numbers.push(draws.lane(k).max(draws.lane(k)))?;
    }
    Ok(numbers)
}

/// None to four vectors.
fn drawn_list(
    alloc: Global,
    draws: &mut Draws,
    lanes: usize,
    k: u8,
) -> Result<Vec<Vec<i16>>, AllocError> {
    let mut list = Vec::new(alloc);
    for _ in 0..draws.below(5) {
        list.push(large_numbers(alloc, draws, lanes, k)?)?;
    }
    Ok(list)
}

/// The vectors at or below `f` from which the player can go on.
fn left_below(
    alloc: Global,
    trial: &Trial,
    vectors: &[Vec<i16>],
    f: &[i16],
    answers: &[bool],
) -> Result<Vec<Vec<i16>>, AllocError> {
    let mut left = Vec::new(alloc);
    for u in vectors {
        if is_below(u, f) && trial.goes_on(u, answers) {
            left.push(Vec::from_slice(alloc, u)?)?;
        }
    }
    Ok(left)
}

/// Whether this is what is left of `f`.
fn is_left(refined: &Refined, keeps: bool, left: &[Vec<i16>]) -> bool {
    match refined {
        Refined::Kept => keeps,
        Refined::Shrunk(vectors) => !keeps && is_list(vectors, left),
    }
}

#[test]
fn shrinks_to_what_goes_on(rt: HostRuntime) -> Result<(), Fail> {
    let alloc = rt.alloc();
    let mut kept = 0u64;
    for case in 0..CASES {
        let mut draws = Draws::of_case(case);
        let trial = Trial::draw(&rt, alloc, &mut draws, SIZES)?;
        let g = trial.game(&rt, alloc)?;
        let vectors = all_vectors(alloc, trial.lanes(), trial.k)?;
        let list = drawn_list(alloc, &mut draws, trial.lanes(), trial.k)?;
        let numbers = drawn_numbers(alloc, &mut draws, trial.lanes(), trial.k)?;
        let answers = covered_answers(alloc, &vectors, &list)?;
        let keeps = trial.goes_on(&numbers, &answers);
        let left = left_below(alloc, &trial, &vectors, &numbers, &answers)?;
        let f = vector_of(&rt, alloc, &g, &numbers)?;
        let d = list_of(&rt, alloc, &g, &list)?;
        let refined = pre_below(alloc, &g, &f, &d)?;
        assert!(rt;
            is_left(&refined, keeps, &maximal(alloc, &left)?),
            "case {case}"
        );
        kept = kept.wrapping_add(if keeps { 1 } else { 0 });
    }
    assert!(rt; kept > 60 && kept < CASES - 60, "{kept} kept");
    Ok(())
}
