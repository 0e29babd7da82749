//! Orders, and why words are none.

ghost use Rattle.std.specs.Prelude.{◌≡◌};
ghost use Rattle.bonsai_words.specs.declared.orders.WordsError.TheVariants.{Memory};

use std::alloc::AllocError;
use word_core::Player;

/// What the words ask for. Names aren't empty.
#[derive(Debug, PartialEq, Eq, Drop)]
pub enum Order {
    /// The verdict on a specification, with a machine. `bounds` are the first, the step and the
    /// last of the bounds to try: first at most last, step from 1, step and last up to 10,000.
    Synth {
        name: String,
        bounds: (u32, u32, u32),
        /// From 1 to 64.
        workers: u32,
        as_written: bool,
    },
    /// The maximal vectors that the player holds at the bound, which is at most 10,000.
    Downset {
        name: String,
        player: Player,
        bound: u32,
        as_written: bool,
    },
    /// Whether a machine keeps the bound, which is at most 10,000.
    Check {
        name: String,
        machine: String,
        bound: u32,
        as_written: bool,
    },
    /// Whether the formula holds on a lasso.
    Eval {
        name: String,
        lasso: String,
        as_written: bool,
    },
    /// The text for an arbiter of 1 to 8 clients, with its answer.
    Gen {
        clients: u32,
        /// From 1 to 64.
        workers: u32,
    },
}

/// Why words are read as no order.
#[derive(Clone, Copy, Debug, PartialEq, Eq, thiserror::Error)]
pub enum WordsError {
    /// The words are no order.
    #[error("the words are no order")]
    Usage,
    /// Memory ran out.
    #[error("out of memory")]
    Memory,
}

impl From<AllocError> for WordsError {
    ghost from_gives = { λ _ e. e ≡ Memory };

    fn from(_: AllocError) -> Self {
        WordsError::Memory
    }
}
