//! What workers do to a board, one event after another, and what they are answered.

use crate::boards::Committed;

/// One step of a worker.
#[derive(Debug, Clone, Copy, PartialEq, Eq)]
pub enum Event {
    /// It gets the next number.
    Draw { worker: u32 },
    /// It asks the board for a job, with its number.
    Claim { worker: u32 },
    /// It does the work of its job, and commits the outcome.
    Commit { worker: u32 },
}

/// What a worker is answered.
#[derive(Debug, Clone, Copy, PartialEq, Eq)]
pub enum Played {
    /// The number that it got.
    Drawn(u64),
    /// It has a job.
    Claimed,
    /// Every entry of the board is fresh.
    Closed,
    /// What the commit did.
    Done(Committed),
    /// It holds no number, or no job, and nothing changed.
    Idle,
}
