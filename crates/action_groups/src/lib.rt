//! The game of an automaton: letters of equal effect are one action.
#![tactic(auto)]

mod firsts;
mod games;
mod groups;
mod laws;
mod least_letters;
mod leasts;
mod memos;
mod orders;
mod parts;
mod ranks;
mod rows;
mod thinnings;
mod ways;

pub use games::make_game;
pub use laws::grouping_is_one;
