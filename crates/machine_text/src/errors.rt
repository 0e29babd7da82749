//! Why a text is no machine, or no lasso.

ghost use Rattle.std.specs.Prelude.{◌≡◌};

use std::alloc::{AllocError, AllocFailed};
use thiserror::Error;

/// Want of memory.
pub type Memory = AllocError;

/// Why a text gives no machine.
#[derive(Debug, Clone, Copy, PartialEq, Eq, Drop, Error)]
pub enum MachineError {
    /// The first line, counted from 1, that isn't as the grammar demands.
    #[error("line {0} is not expected here")]
    Line(u32),
    /// The least state in which some valuation of the other side is held by no line.
    #[error("state {0} has an input without a line")]
    Gap(u64),
    /// The least state of kind First whose own choice depends on the input.
    #[error("state {0} has an own choice that depends on the input")]
    NotFirst(u64),
    /// Want of memory.
    #[error("out of memory")]
    Memory,
}

/// Why a text gives no lasso.
#[derive(Debug, Clone, Copy, PartialEq, Eq, Drop, Error)]
pub enum LassoError {
    /// The first line, counted from 1, that isn't as the grammar demands.
    #[error("line {0} is not expected here")]
    Line(u32),
    /// Want of memory.
    #[error("out of memory")]
    Memory,
}

/// A line that isn't as the grammar demands, counted from 1.
#[derive(Debug, Clone, Copy, Drop)]
pub struct BadLine(pub u32);

impl From<BadLine> for MachineError {
    ghost use Rattle.machine_text.specs.declared.errors.MachineError.TheVariants.{Line};

    ghost from_gives = { λ b e. e ≡ Line b.0 };

    fn from(bad: BadLine) -> MachineError {
        MachineError::Line(bad.0)
    }
}

impl From<BadLine> for LassoError {
    ghost use Rattle.machine_text.specs.declared.errors.LassoError.TheVariants.{Line};

    ghost from_gives = { λ b e. e ≡ Line b.0 };

    fn from(bad: BadLine) -> LassoError {
        LassoError::Line(bad.0)
    }
}

impl From<AllocError> for MachineError {
    ghost use Rattle.machine_text.specs.declared.errors.MachineError.TheVariants.{Memory};

    ghost from_gives = { λ _ e. e ≡ Memory };

    fn from(_none: AllocError) -> MachineError {
        MachineError::Memory
    }
}

impl<T: Drop> From<AllocFailed<T>> for MachineError {
    ghost use Rattle.machine_text.specs.declared.errors.MachineError.TheVariants.{Memory};

    ghost from_gives = { λ _ e. e ≡ Memory };

    fn from(_none: AllocFailed<T>) -> MachineError {
        MachineError::Memory
    }
}

impl From<AllocError> for LassoError {
    ghost use Rattle.machine_text.specs.declared.errors.LassoError.TheVariants.{Memory};

    ghost from_gives = { λ _ e. e ≡ Memory };

    fn from(_none: AllocError) -> LassoError {
        LassoError::Memory
    }
}

impl<T: Drop> From<AllocFailed<T>> for LassoError {
    ghost use Rattle.machine_text.specs.declared.errors.LassoError.TheVariants.{Memory};

    ghost from_gives = { λ _ e. e ≡ Memory };

    fn from(_none: AllocFailed<T>) -> LassoError {
        LassoError::Memory
    }
}
