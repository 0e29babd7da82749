//! The automata and the games of both players of a specification, and the bounds that are tried.
#![tactic(auto)]

mod bounds;
mod errors;
mod games;
mod laws;
mod quotient_games;

pub use bounds::Bounds;
pub use errors::GameError;
pub use games::{Pair, automata, automaton, game, kind_of, normal_of};
pub use laws::{
    automaton_is_one, counting_is_exact, counting_is_sound, held_list_is_one, held_machine_is_one,
    keeps_above, kept_is_refused, lanes_are_counts, only_one_wins, play_is_one, plays_meet_once,
    whole_machine_is_one,
};
pub use quotient_games::quotient_game;
