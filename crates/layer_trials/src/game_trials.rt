//! Games of automata and their vectors beside single letters and all vectors.

use crate::draws::Draws;
use crate::layer_vectors::{counters_of, vector_of};
use crate::slow_classes::{SlowClass, action_at, class_moves, group_letters};
use crate::slow_games::{Sizes, Trial, successor};
use crate::slow_vectors::{all_vectors, at, drawn_numbers, is_below, maximal, place_of};
use counter_vec::Counters;
use game_form::{Action, Class, Game, Step};
use std::alloc::{AllocError, Global};
use std::cmp::Ordering;
use std::process::Abort;
use std::test::Fail;
use word_core::fits;

/// How many cases a trial has.
const CASES: u64 = 300;

/// How large what is drawn may be.
const SIZES: Sizes = Sizes {
    states: 4,
    signals: 3,
    k: 2,
};

/// The steps of a lane, from its numbers.
fn steps_of(
    alloc: Global,
    numbers: &[i16],
    lane: usize,
    lanes: u32,
) -> Result<Vec<Step>, AllocError> {
    let mut steps = Vec::new(alloc);
    for to in 0..lanes {
        let place = lane.wrapping_mul(lanes as usize).wrapping_add(to as usize);
        let number = at(numbers, place);
        if number > 0 {
            steps.push(Step { to, number })?;
        }
    }
    Ok(steps)
}

/// Whether an action has these numbers.
fn has_numbers(
    alloc: Global,
    action: &Action,
    numbers: &[i16],
    lanes: u32,
) -> Result<bool, AllocError> {
    for (lane, row) in action.rows.iter().enumerate() {
        let steps = steps_of(alloc, numbers, lane, lanes)?;
        if row.steps.as_slice() != steps.as_slice() {
            return Ok(false);
        }
    }
    Ok(action.rows.len() == lanes as usize)
}

/// Whether the actions have these numbers.
fn have_numbers(
    alloc: Global,
    actions: &[Action],
    list: &[Vec<i16>],
    lanes: u32,
) -> Result<bool, AllocError> {
    for (action, numbers) in actions.iter().zip(list) {
        if !has_numbers(alloc, action, numbers, lanes)? {
            return Ok(false);
        }
    }
    Ok(actions.len() == list.len())
}

fn is_class(class: &Class, wanted: &SlowClass) -> bool {
    class.least == wanted.least && class.options.as_slice() == wanted.options.as_slice()
}

/// Whether the classes are these.
fn are_classes(classes: &[Class], wanted: &[SlowClass]) -> bool {
    for (class, one) in classes.iter().zip(wanted) {
        if !is_class(class, one) {
            return false;
        }
    }
    classes.len() == wanted.len()
}

/// The action that a game gives a letter.
fn action_of(rt: &impl Abort, g: &Game, own: u64, other: u64) -> u64 {
    let (own_width, other_width) = (g.own_width(), g.other_width());
    assert!(rt; own_width <= 64);
    assert!(rt; other_width <= 64);
    assert!(rt; fits(own, own_width));
    assert!(rt; fits(other, other_width));
    g.action_of(own, other)
}

/// The class that a game gives a valuation of the side that moves first.
fn class_of(rt: &impl Abort, g: &Game, first: u64) -> u64 {
    let width = g.first_width();
    assert!(rt; width <= 64);
    assert!(rt; fits(first, width));
    g.class_of(first)
}

/// Whether a game gives all letters with a choice of the player their actions.
fn has_actions(rt: &impl Abort, g: &Game, trial: &Trial, of_letter: &[u64], own: u64) -> bool {
    for other in 0..trial.others() {
        let wanted = action_at(of_letter, trial.letter(own, other));
        if action_of(rt, g, own, other) != wanted {
            return false;
        }
    }
    true
}

#[test]
fn groups_letters(rt: HostRuntime) -> Result<(), Fail> {
    let alloc = rt.alloc();
    for case in 0..CASES {
        let trial = Trial::draw(&rt, alloc, &mut Draws::of_case(case), SIZES)?;
        let g = trial.game(&rt, alloc)?;
        let letters = group_letters(alloc, &trial)?;
        let lanes = trial.lanes() as u32;
        assert!(rt;
            have_numbers(alloc, g.actions(), &letters.numbers, lanes)?,
            "case {case}"
        );
        for own in 0..trial.owns() {
            let same = has_actions(&rt, &g, &trial, &letters.of_letter, own);
            assert!(rt; same, "case {case} own {own}");
        }
    }
    Ok(())
}

#[test]
fn groups_first_moves(rt: HostRuntime) -> Result<(), Fail> {
    let alloc = rt.alloc();
    for case in 0..CASES {
        let trial = Trial::draw(&rt, alloc, &mut Draws::of_case(case), SIZES)?;
        let g = trial.game(&rt, alloc)?;
        let moves = class_moves(alloc, &trial, &group_letters(alloc, &trial)?.of_letter)?;
        assert!(rt; are_classes(g.classes(), &moves.classes), "case {case}");
        for (first, class) in moves.of_first.iter().enumerate() {
            assert_eq!(rt; class_of(&rt, &g, first as u64), *class, "case {case}");
        }
    }
    Ok(())
}

/// The vectors whose successors are at or below `v`.
fn vectors_before(
    alloc: Global,
    vectors: &[Vec<i16>],
    numbers: &[i16],
    v: &[i16],
    k: u8,
) -> Result<Vec<Vec<i16>>, AllocError> {
    let mut found = Vec::new(alloc);
    for u in vectors {
        if is_below(&successor(alloc, numbers, u, k)?, v) {
            found.push(Vec::from_slice(alloc, u)?)?;
        }
    }
    Ok(found)
}

/// Whether it is the one vector of a list.
fn is_only(v: &Counters, list: &[Vec<i16>]) -> bool {
    match list {
        [only] => v.lanes() == only.as_slice(),
        _ => false,
    }
}

#[test]
fn steps_forth_and_back(rt: HostRuntime) -> Result<(), Fail> {
    let alloc = rt.alloc();
    for case in 0..CASES {
        let mut draws = Draws::of_case(case);
        let trial = Trial::draw(&rt, alloc, &mut draws, SIZES)?;
        let g = trial.game(&rt, alloc)?;
        let vectors = all_vectors(alloc, trial.lanes(), trial.k)?;
        let numbers = drawn_numbers(alloc, &mut draws, trial.lanes(), trial.k)?;
        let v = vector_of(&rt, alloc, &g, &numbers)?;
        for (action, of_action) in group_letters(alloc, &trial)?.numbers.iter().enumerate() {
            assert!(rt; action < g.actions().len());
            let after = v.succ(alloc, &g, action as u64)?;
            let wanted = successor(alloc, of_action, &numbers, trial.k)?;
            assert_eq!(rt; after.lanes(), wanted.as_slice(), "case {case}");
            let before = v.pre(alloc, &g, action as u64)?;
            let all = vectors_before(alloc, &vectors, of_action, &numbers, trial.k)?;
            assert!(rt; is_only(&before, &maximal(alloc, &all)?), "case {case}");
        }
    }
    Ok(())
}

/// The vectors at or below both.
fn vectors_below(
    alloc: Global,
    vectors: &[Vec<i16>],
    a: &[i16],
    b: &[i16],
) -> Result<Vec<Vec<i16>>, AllocError> {
    let mut found = Vec::new(alloc);
    for u in vectors {
        if is_below(u, a) && is_below(u, b) {
            found.push(Vec::from_slice(alloc, u)?)?;
        }
    }
    Ok(found)
}

/// The first numbers, so many.
fn first_numbers(alloc: Global, numbers: &[i16], count: u64) -> Result<Vec<i16>, AllocError> {
    let mut out = Vec::new(alloc);
    for place in 0..count {
        out.push(at(numbers, place as usize))?;
    }
    Ok(out)
}

#[test]
fn meets_and_compares(rt: HostRuntime) -> Result<(), Fail> {
    let alloc = rt.alloc();
    for case in 0..CASES {
        let mut draws = Draws::of_case(case);
        let (lanes, k) = (draws.below(5), draws.below(3) as u8);
        let vectors = all_vectors(alloc, lanes as usize, k)?;
        let one = drawn_numbers(alloc, &mut draws, lanes as usize, k)?;
        let two = drawn_numbers(alloc, &mut draws, lanes as usize, k)?;
        let (a, b) = (
            counters_of(&rt, alloc, &one)?,
            counters_of(&rt, alloc, &two)?,
        );
        assert_eq!(rt; a.lanes().len(), b.lanes().len());
        let both = vectors_below(alloc, &vectors, &one, &two)?;
        assert!(rt;
            is_only(&a.meet(alloc, &b)?, &maximal(alloc, &both)?),
            "case {case}"
        );
        let order = place_of(&one, k).cmp(&place_of(&two, k));
        assert_eq!(rt; a.compare_lex(&b), order, "case {case}");
        let count = draws.below(lanes + 1);
        let begins = counters_of(&rt, alloc, &first_numbers(alloc, &one, count)?)?;
        let shorter = if count < lanes {
            Ordering::Less
        } else {
            Ordering::Equal
        };
        assert_eq!(rt; begins.compare_lex(&a), shorter, "case {case}");
    }
    Ok(())
}

/// Whether it is the first lane.
fn is_first(trial: &Trial, lane: usize) -> bool {
    match trial.automaton.init() {
        Some(first) => first as usize == lane,
        None => false,
    }
}

#[test]
fn begins_and_tops(rt: HostRuntime) -> Result<(), Fail> {
    let alloc = rt.alloc();
    for case in 0..CASES {
        let trial = Trial::draw(&rt, alloc, &mut Draws::of_case(case), SIZES)?;
        let g = trial.game(&rt, alloc)?;
        let (top, initial) = (Counters::top(alloc, &g)?, Counters::initial(alloc, &g)?);
        assert_eq!(rt; top.lanes().len(), trial.lanes(), "case {case}");
        assert_eq!(rt; initial.lanes().len(), trial.lanes(), "case {case}");
        assert!(rt;
            top.lanes().iter().all(|x| *x == trial.k as i16),
            "case {case}"
        );
        for (lane, number) in initial.lanes().iter().enumerate() {
            let wanted = if is_first(&trial, lane) { 0 } else { -1 };
            assert_eq!(rt; *number, wanted, "case {case}");
        }
    }
    Ok(())
}
