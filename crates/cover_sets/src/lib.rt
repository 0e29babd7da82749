//! Covers: what a letter and the next position must meet so that a set of formulas holds now.
#![tactic(auto)]

mod bit_covers;
mod cover_lists;
mod laws;
mod number_sets;
mod reductions;
mod rows;
mod tables;

pub use bit_covers::BitCover;
pub use cover_lists::{Cover, CoverError, covers};
pub use laws::reduced_is_exact;
pub use number_sets::NumberSet;
pub use tables::CoverTable;
