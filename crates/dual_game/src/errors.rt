//! Why a specification gives no automaton.

ghost use Rattle.std.specs.Prelude.{◌≡◌};
ghost use Rattle.dual_game.specs.declared.errors.GameError.TheVariants.{Memory};
ghost use Rattle.dual_game.specs.Errors.{of_form, of_tableau};

use ltl_form::FormError;
use std::alloc::AllocError;
use tableau_nba::TableauError;
use thiserror::Error;

/// Why a specification gives no automaton.
#[derive(Debug, Clone, Copy, PartialEq, Eq, Drop, Error)]
pub enum GameError {
    /// The normal form has more than 512 formulas.
    #[error("more than 512 formulas")]
    TooManyFormulas,
    /// A reduced list of covers is longer than 1,024.
    #[error("more than 1,024 covers")]
    TooWide,
    /// There would be a 4,097th state.
    #[error("more than 4,096 states")]
    TooManyStates,
    #[error("out of memory")]
    Memory,
}

impl From<AllocError> for GameError {
    ghost from_gives = { λ _ e. e ≡ Memory };

    fn from(_error: AllocError) -> GameError {
        GameError::Memory
    }
}

impl From<FormError> for GameError {
    ghost from_gives = { λ error e. e ≡ of_form error };

    fn from(error: FormError) -> GameError {
        match error {
            FormError::TooManyFormulas => GameError::TooManyFormulas,
            FormError::Memory => GameError::Memory,
        }
    }
}

impl From<TableauError> for GameError {
    ghost from_gives = { λ error e. e ≡ of_tableau error };

    fn from(error: TableauError) -> GameError {
        match error {
            TableauError::TooWide => GameError::TooWide,
            TableauError::TooManyStates => GameError::TooManyStates,
            TableauError::Memory => GameError::Memory,
        }
    }
}
