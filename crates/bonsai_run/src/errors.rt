//! The errors of lower steps as faults.

ghost use Rattle.std.specs.Prelude.{◌≡◌};
ghost use Rattle.bonsai_run.specs.declared.faults.Fault.TheVariants.{Memory};
ghost use Rattle.bonsai_run.specs.Errors.{of_text, of_form, of_game, of_machine, of_lasso};

use crate::faults::Fault;
use dual_game::GameError;
use ltl_form::FormError;
use machine_text::{LassoError, MachineError};
use std::alloc::{AllocError, AllocFailed};
use tlsf_basic::TextError;

impl From<AllocError> for Fault {
    ghost from_gives = { λ _ e. e ≡ Memory };

    fn from(_error: AllocError) -> Fault {
        Fault::Memory
    }
}

impl<T: Drop> From<AllocFailed<T>> for Fault {
    ghost from_gives = { λ _ e. e ≡ Memory };

    fn from(_error: AllocFailed<T>) -> Fault {
        Fault::Memory
    }
}

impl From<TextError> for Fault {
    ghost from_gives = { λ error e. e ≡ of_text error };

    fn from(error: TextError) -> Fault {
        match error {
            TextError::Fault { what, place } => Fault::Text { what, place },
            TextError::Memory => Fault::Memory,
        }
    }
}

impl From<FormError> for Fault {
    ghost from_gives = { λ error e. e ≡ of_form error };

    fn from(error: FormError) -> Fault {
        match error {
            FormError::TooManyFormulas => Fault::Formulas,
            FormError::Memory => Fault::Memory,
        }
    }
}

impl From<GameError> for Fault {
    ghost from_gives = { λ error e. e ≡ of_game error };

    fn from(error: GameError) -> Fault {
        match error {
            GameError::TooManyFormulas => Fault::Formulas,
            GameError::TooWide => Fault::Covers,
            GameError::TooManyStates => Fault::States,
            GameError::Memory => Fault::Memory,
        }
    }
}

impl From<MachineError> for Fault {
    ghost from_gives = { λ error e. e ≡ of_machine error };

    fn from(error: MachineError) -> Fault {
        match error {
            MachineError::Line(line) => Fault::Line(line),
            MachineError::Gap(state) => Fault::Gap(state),
            MachineError::NotFirst(state) => Fault::NotFirst(state),
            MachineError::Memory => Fault::Memory,
        }
    }
}

impl From<LassoError> for Fault {
    ghost from_gives = { λ error e. e ≡ of_lasso error };

    fn from(error: LassoError) -> Fault {
        match error {
            LassoError::Line(line) => Fault::Line(line),
            LassoError::Memory => Fault::Memory,
        }
    }
}
