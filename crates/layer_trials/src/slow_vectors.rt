//! Vectors of numbers from -1 to a bound, all of them, and sets of them by one answer each.

use crate::draws::Draws;
use counter_vec::Counters;
use std::alloc::{AllocError, Global};

/// The number at a place, 0 where there is none.
pub fn at(numbers: &[i16], place: usize) -> i16 {
    match numbers.get(place) {
        Some(number) => *number,
        None => 0,
    }
}

/// How many vectors of so many lanes there are with numbers from -1 to `k`.
pub fn count_vectors(lanes: usize, k: u8) -> u64 {
    let mut count = 1u64;
    for _ in 0..lanes {
        count = count.wrapping_mul(k as u64 + 2);
    }
    count
}

/// The vector at a place of the lexicographic order.
fn vector_at(alloc: Global, place: u64, lanes: usize, k: u8) -> Result<Vec<i16>, AllocError> {
    let mut vector = Vec::new(alloc);
    let mut left = place;
    for _ in 0..lanes {
        vector.push((left % (k as u64 + 2)) as i16 - 1)?;
        left /= k as u64 + 2;
    }
    vector.reverse();
    Ok(vector)
}

/// All vectors of so many lanes with numbers from -1 to `k`, in lexicographic order.
pub fn all_vectors(alloc: Global, lanes: usize, k: u8) -> Result<Vec<Vec<i16>>, AllocError> {
    let mut all = Vec::new(alloc);
    for place in 0..count_vectors(lanes, k) {
        all.push(vector_at(alloc, place, lanes, k)?)?;
    }
    Ok(all)
}

/// A place in the lexicographic order, with one more number behind it.
pub fn next_place(place: u64, number: i16, k: u8) -> u64 {
    let digit = if number < 0 { 0 } else { number as u64 + 1 };
    place.wrapping_mul(k as u64 + 2).wrapping_add(digit)
}

/// The place of a vector in the lexicographic order.
pub fn place_of(vector: &[i16], k: u8) -> u64 {
    let mut place = 0;
    for number in vector {
        place = next_place(place, *number, k);
    }
    place
}

/// Whether each number is at most the other's.
pub fn is_below(u: &[i16], v: &[i16]) -> bool {
    u.len() == v.len() && u.iter().zip(v).all(|pair| pair.0 <= pair.1)
}

/// Whether a vector is at or below one of the list.
pub fn is_covered(u: &[i16], list: &[Vec<i16>]) -> bool {
    list.iter().any(|v| is_below(u, v))
}

/// Whether another vector of the list is above this one.
fn is_topped(u: &[i16], list: &[Vec<i16>]) -> bool {
    list.iter().any(|v| is_below(u, v) && !is_below(v, u))
}

/// The vectors of a list that no other one is above, in the list's order.
pub fn maximal(alloc: Global, list: &[Vec<i16>]) -> Result<Vec<Vec<i16>>, AllocError> {
    let mut most = Vec::new(alloc);
    for u in list {
        if !is_topped(u, list) {
            most.push(Vec::from_slice(alloc, u)?)?;
        }
    }
    Ok(most)
}

/// The vectors whose answer is true.
pub fn members(
    alloc: Global,
    vectors: &[Vec<i16>],
    answers: &[bool],
) -> Result<Vec<Vec<i16>>, AllocError> {
    let mut chosen = Vec::new(alloc);
    for (u, answer) in vectors.iter().zip(answers) {
        if *answer {
            chosen.push(Vec::from_slice(alloc, u)?)?;
        }
    }
    Ok(chosen)
}

/// For each vector whether it is at or below one of the list.
pub fn covered_answers(
    alloc: Global,
    vectors: &[Vec<i16>],
    list: &[Vec<i16>],
) -> Result<Vec<bool>, AllocError> {
    let mut answers = Vec::new(alloc);
    for u in vectors {
        answers.push(is_covered(u, list))?;
    }
    Ok(answers)
}

/// Whether these are the same vectors in the same order.
pub fn is_list(entries: &[Counters], list: &[Vec<i16>]) -> bool {
    entries.len() == list.len()
        && entries
            .iter()
            .zip(list)
            .all(|pair| pair.0.lanes() == pair.1.as_slice())
}

/// Vectors as lists of numbers.
pub fn plain(alloc: Global, entries: &[Counters]) -> Result<Vec<Vec<i16>>, AllocError> {
    let mut list = Vec::new(alloc);
    for v in entries {
        list.push(Vec::from_slice(alloc, v.lanes())?)?;
    }
    Ok(list)
}

/// A number drawn for each lane.
pub fn drawn_numbers(
    alloc: Global,
    draws: &mut Draws,
    lanes: usize,
    k: u8,
) -> Result<Vec<i16>, AllocError> {
    let mut numbers = Vec::new(alloc);
    for _ in 0..lanes {
        numbers.push(draws.lane(k))?;
    }
    Ok(numbers)
}
