//! Functions as lists of labels, one for each valuation, and what trees make of them, by trying all valuations.

use crate::draws::Draws;
use std::alloc::{AllocError, Global};
use word_core::{Branch, Cube};

/// So many signals have so many valuations.
pub fn count_of(width: u32) -> u64 {
    1u64.wrapping_shl(width)
}

/// Labels below 3 for the valuations of so many signals.
pub fn drawn_labels(alloc: Global, draws: &mut Draws, width: u32) -> Result<Vec<u64>, AllocError> {
    let mut labels = Vec::new(alloc);
    let kinds = 1 + draws.below(3);
    for _ in 0..count_of(width) {
        labels.push(draws.below(kinds.max(1)))?;
    }
    Ok(labels)
}

/// The label of a valuation.
pub fn label_at(labels: &[u64], bits: u64) -> u64 {
    match labels.get(bits as usize) {
        Some(label) => *label,
        None => 0,
    }
}

/// The same function where the signals of a mask are as in `bits`.
fn part(alloc: Global, labels: &[u64], mask: u64, bits: u64) -> Result<Vec<u64>, AllocError> {
    let mut out = Vec::new(alloc);
    for place in 0..labels.len() as u64 {
        out.push(label_at(labels, place & !mask | bits & mask))?;
    }
    Ok(out)
}

/// The place of a function in a list, the length where it isn't there.
fn place_of(functions: &[Vec<u64>], labels: &[u64]) -> u64 {
    functions
        .iter()
        .take_while(|f| f.as_slice() != labels)
        .count() as u64
}

/// Whether the function depends on a signal, inside a cube.
fn depends(labels: &[u64], cube: Cube, signal: u32) -> bool {
    for (bits, label) in labels.iter().enumerate() {
        let bits = bits as u64;
        let other = label_at(labels, bits ^ count_of(signal));
        if bits & cube.care == cube.want && other != *label {
            return true;
        }
    }
    false
}

/// The cubes, each that depends on a signal split by it, the part for 0 first.
fn split_by(
    alloc: Global,
    labels: &[u64],
    cubes: &[Cube],
    signal: u32,
) -> Result<Vec<Cube>, AllocError> {
    let mut out = Vec::new(alloc);
    for cube in cubes {
        if depends(labels, *cube, signal) {
            let care = cube.care | count_of(signal);
            let want = cube.want | count_of(signal);
            out.push(Cube {
                care,
                want: cube.want,
            })?;
            out.push(Cube { care, want })?;
        } else {
            out.push(*cube)?;
        }
    }
    Ok(out)
}

/// The cubes of the splitting by all signals in order.
fn split_cubes(alloc: Global, labels: &[u64], width: u32) -> Result<Vec<Cube>, AllocError> {
    let mut cubes = vec![in alloc; Cube { care: 0, want: 0 }]?;
    for signal in 0..width {
        cubes = split_by(alloc, labels, &cubes, signal)?;
    }
    Ok(cubes)
}

/// The splitting: cubes with labels.
pub fn splitting(
    alloc: Global,
    labels: &[u64],
    width: u32,
) -> Result<Vec<(Cube, u64)>, AllocError> {
    let mut lines = Vec::new(alloc);
    for cube in &split_cubes(alloc, labels, width)? {
        lines.push((*cube, label_at(labels, cube.want)))?;
    }
    Ok(lines)
}

/// The label of the first line that holds a valuation.
pub fn first_label(lines: &[(Cube, u64)], bits: u64) -> Option<u64> {
    for (cube, label) in lines {
        if bits & cube.care == cube.want {
            return Some(*label);
        }
    }
    None
}

/// Puts the function of the last `open` signals behind the list, unless it is there, where the leaf is the last one
/// with its values of the others.
fn put_open(
    alloc: Global,
    labels: &[u64],
    width: u32,
    leaf: u64,
    open: u32,
    functions: &mut Vec<Vec<u64>>,
) -> Result<(), AllocError> {
    let low = count_of(open).wrapping_sub(1);
    if leaf & low != low {
        return Ok(());
    }
    let bits = leaf.reverse_bits().wrapping_shr(64u32.wrapping_sub(width));
    let mask = count_of(width.wrapping_sub(open)).wrapping_sub(1);
    let function = part(alloc, labels, mask, bits)?;
    if place_of(functions, &function) == functions.len() as u64 {
        functions.push(function)?;
    }
    Ok(())
}

/// Puts the functions that are whole with this leaf, from the leaf upwards. In leaves the signal 0 changes last.
fn put_ended(
    alloc: Global,
    labels: &[u64],
    width: u32,
    leaf: u64,
    functions: &mut Vec<Vec<u64>>,
) -> Result<(), AllocError> {
    for open in 0..width.min(60) + 1 {
        put_open(alloc, labels, width, leaf, open, functions)?;
    }
    Ok(())
}

/// The functions of the parts for 0, those of the parts for 1, then the function itself, each once.
fn functions_of(alloc: Global, labels: &[u64], width: u32) -> Result<Vec<Vec<u64>>, AllocError> {
    let mut functions = Vec::new(alloc);
    for leaf in 0..count_of(width) {
        put_ended(alloc, labels, width, leaf, &mut functions)?;
    }
    Ok(functions)
}

/// The least signal on which a function depends.
fn first_signal(labels: &[u64], width: u32) -> Option<u32> {
    for signal in 0..width {
        if depends(labels, Cube { care: 0, want: 0 }, signal) {
            return Some(signal);
        }
    }
    None
}

/// The node of a function among those of a list.
fn node_of(
    alloc: Global,
    functions: &[Vec<u64>],
    labels: &[u64],
    width: u32,
) -> Result<Branch, AllocError> {
    let Some(signal) = first_signal(labels, width) else {
        return Ok(Branch::Leaf(label_at(labels, 0)));
    };
    let bit = count_of(signal);
    Ok(Branch::Split {
        signal,
        low: place_of(functions, &part(alloc, labels, bit, 0)?),
        high: place_of(functions, &part(alloc, labels, bit, bit)?),
    })
}

/// The nodes of the reduced tree.
pub fn nodes_of(alloc: Global, labels: &[u64], width: u32) -> Result<Vec<Branch>, AllocError> {
    let functions = functions_of(alloc, labels, width)?;
    let mut nodes = Vec::new(alloc);
    for function in &functions {
        nodes.push(node_of(alloc, &functions, function, width)?)?;
    }
    Ok(nodes)
}

/// The label to which nodes lead, the last of all their labels.
fn label_of(alloc: Global, nodes: &[Branch], bits: u64) -> Result<u64, AllocError> {
    let mut labels = Vec::new(alloc);
    for node in nodes {
        let label = match node {
            Branch::Leaf(label) => *label,
            Branch::Split { signal, low, high } => {
                let is_high = bits.wrapping_shr(*signal) & 1 == 1;
                label_at(&labels, if is_high { *high } else { *low })
            }
        };
        labels.push(label)?;
    }
    Ok(labels.pop().unwrap_or(0))
}

/// The labels of the function of nodes.
pub fn labels_of(alloc: Global, nodes: &[Branch], width: u32) -> Result<Vec<u64>, AllocError> {
    let mut labels = Vec::new(alloc);
    for bits in 0..count_of(width) {
        labels.push(label_of(alloc, nodes, bits)?)?;
    }
    Ok(labels)
}

/// The function of the signals behind the first ones, where these are as in `front`.
fn rest_of(
    alloc: Global,
    labels: &[u64],
    width: u32,
    cut: u32,
    front: u64,
) -> Result<Vec<u64>, AllocError> {
    let mut rest = Vec::new(alloc);
    for bits in 0..count_of(width.wrapping_sub(cut)) {
        rest.push(label_at(labels, front | bits.wrapping_shl(cut)))?;
    }
    Ok(rest)
}

/// A function cut in two: the numbers of the first signals' valuations, and the functions that they number.
#[derive(Drop)]
pub struct Halves {
    pub numbers: Vec<u64>,
    pub rests: Vec<Vec<u64>>,
}

/// The function cut behind a signal.
pub fn cut_in_two(
    alloc: Global,
    labels: &[u64],
    width: u32,
    cut: u32,
) -> Result<Halves, AllocError> {
    let (mut numbers, mut rests) = (Vec::new(alloc), Vec::new(alloc));
    for front in 0..count_of(cut) {
        let rest = rest_of(alloc, labels, width, cut, front)?;
        let number = place_of(&rests, &rest);
        numbers.push(number)?;
        if number == rests.len() as u64 {
            rests.push(rest)?;
        }
    }
    Ok(Halves { numbers, rests })
}

/// The labels that occur, each once, in order of place.
pub fn distinct(alloc: Global, labels: &[u64]) -> Result<Vec<u64>, AllocError> {
    let mut seen = Vec::new(alloc);
    for label in labels {
        if !seen.iter().any(|l| *l == *label) {
            seen.push(*label)?;
        }
    }
    Ok(seen)
}
