//! A shelf of files, with standard input under the name `-`.

ghost use Rattle.std.specs.Prelude.{◌≡◌, ◌≤◌, ◌+◌, vec_len, IfOk, Option, None, option_map, string_bytes};

use crate::shelves::{Shelf, ShelfError};
use std::alloc::Global;
use std::io::{self, ErrorKind, Read};
use std::rt::Files;

/// The most bytes that one read takes.
const PIECE: usize = 16_384;

/// The files of the system by their paths, and standard input as `-`, read on from where it
/// stands. Of their contents it tells nothing.
#[derive(Drop)]
pub struct FileShelf<'a, R: Files + Input> {
    rt: &'a R,
    faults: u64,
    last_failed: Option<String>,
}

impl<'a, R: Files + Input> FileShelf<'a, R> {
    /// The files that `rt` reaches.
    pub fn open(rt: &'a R) -> FileShelf<'a, R> {
        FileShelf {
            rt,
            faults: 0,
            last_failed: None,
        }
    }
}

/// Why reading stopped: want of memory by that name, and anything else as a fault.
fn fault_of(error: &io::Error) -> ShelfError {
    match error.kind() {
        ErrorKind::OutOfMemory => ShelfError::Memory,
        _ => ShelfError::Failed,
    }
}

/// Reads to the end, or until there are `cap` bytes.
fn read_up_to<T: Read>(alloc: Global, reader: &mut T, cap: usize) -> Result<Vec<u8>, ShelfError>
    ensures { IfOk result (λ text. vec_len text ≤ cap) }
{
    let mut text = Vec::new(alloc);
    let mut piece = [0u8; PIECE];
    for _ in 0..cap {
        let wanted = PIECE.min(cap - text.len());
        let count = match reader.read(&mut piece[..wanted]) {
            Ok(count) => count,
            Err(error) => return Err(fault_of(&error)),
        };
        if count == 0 {
            break;
        }
        text.extend_from_slice(&piece[..count])?;
    }
    Ok(text)
}

/// Reads the file of this name, or standard input.
fn read_named<R: Files + Input>(
    rt: &R,
    alloc: Global,
    name: &str,
    cap: usize,
) -> Result<Vec<u8>, ShelfError> {
    if name == "-" {
        return read_up_to(alloc, &mut rt.reader(), cap);
    }
    match std::fs::open(rt, name) {
        Ok(mut file) => read_up_to(alloc, &mut file, cap),
        Err(error) => Err(fault_of(&error)),
    }
}

impl<'a, R: Files + Input> Shelf for FileShelf<'a, R> {
    ghost texts = { λ _. None };

    ghost faults = { λ s. s.faults };

    ghost last_failed = { λ s. option_map string_bytes s.last_failed };

    fn fetch(&mut self, alloc: Global, name: &str, cap: usize) -> Result<Vec<u8>, ShelfError> {
        let kept = String::from_str(alloc, name)?;
        let result = read_named(self.rt, alloc, name, cap);
        if let Err(ShelfError::Failed) = result {
            self.faults = self.faults.saturating_add(1);
            self.last_failed = Some(kept);
        }
        result
    }
}
