//! The actions and classes of a game, letter by letter.

use crate::slow_games::Trial;
use std::alloc::{AllocError, Global};

/// Letters by what they do: the action of each letter, and the numbers of each action.
#[derive(Drop)]
pub struct Grouped {
    pub of_letter: Vec<u64>,
    pub numbers: Vec<Vec<i16>>,
}

/// The place of numbers in a list, the length where they aren't there.
fn place_of(list: &[Vec<i16>], numbers: &[i16]) -> u64 {
    list.iter()
        .take_while(|other| other.as_slice() != numbers)
        .count() as u64
}

/// The letters in order, each with its action: that of an earlier letter with the same numbers, or else the next one.
pub fn group_letters(alloc: Global, trial: &Trial) -> Result<Grouped, AllocError> {
    let (mut of_letter, mut numbers) = (Vec::new(alloc), Vec::new(alloc));
    for of_this in &trial.numbers {
        let action = place_of(&numbers, of_this);
        of_letter.push(action)?;
        if action == numbers.len() as u64 {
            numbers.push(Vec::from_slice(alloc, of_this)?)?;
        }
    }
    Ok(Grouped { of_letter, numbers })
}

/// The action of a letter.
pub fn action_at(of_letter: &[u64], letter: u64) -> u64 {
    match of_letter.get(letter as usize) {
        Some(action) => *action,
        None => 0,
    }
}

/// The options of a valuation of the side that moves first: each action with its least reply, in order of replies.
fn options_of(
    alloc: Global,
    trial: &Trial,
    of_letter: &[u64],
    first: u64,
) -> Result<Vec<(u64, u64)>, AllocError> {
    let mut options: Vec<(u64, u64)> = Vec::new(alloc);
    for second in 0..trial.seconds() {
        let action = action_at(of_letter, trial.letter_of_moves(first, second));
        if !options.iter().any(|option| option.0 == action) {
            options.push((action, second))?;
        }
    }
    Ok(options)
}

/// A class: its least valuation and its options.
#[derive(Drop)]
pub struct SlowClass {
    pub least: u64,
    pub options: Vec<(u64, u64)>,
}

/// Valuations of the side that moves first by their options: the class of each, and the classes.
#[derive(Drop)]
pub struct Classed {
    pub of_first: Vec<u64>,
    pub classes: Vec<SlowClass>,
}

/// The place of options in a list of classes, the length where they aren't there.
fn class_with(classes: &[SlowClass], options: &[(u64, u64)]) -> u64 {
    classes
        .iter()
        .take_while(|class| class.options.as_slice() != options)
        .count() as u64
}

/// The valuations in order, each with its class: that of an earlier one with the same options, or else the next one.
pub fn class_moves(alloc: Global, trial: &Trial, of_letter: &[u64]) -> Result<Classed, AllocError> {
    let (mut of_first, mut classes) = (Vec::new(alloc), Vec::new(alloc));
    for first in 0..trial.firsts() {
        let options = options_of(alloc, trial, of_letter, first)?;
        let class = class_with(&classes, &options);
        of_first.push(class)?;
        if class == classes.len() as u64 {
            classes.push(SlowClass {
                least: first,
                options,
            })?;
        }
    }
    Ok(Classed { of_first, classes })
}
