//! The vectors that a player can hold, as the maximal ones.
#![tactic(auto)]

mod boards;
mod columns;
mod commits;
mod events;
mod exchanges;
mod finishes;
mod fronts;
mod games;
mod jobs;
mod laws;
mod looks;
mod marks;
mod plans;
mod refinements;
mod rounds;
mod sames;
mod searches;
mod solvers;
mod starts;
mod steps;
mod tops;
mod turns;
mod worlds;

pub use boards::{Board, Committed};
pub use events::{Event, Played};
pub use finishes::{finish, solve_logged};
pub use jobs::{Job, Outcome, work};
pub use laws::{
    answer_is_one, closed_is_held, held_is_closed, held_is_one, replay_is_one, replay_is_sound,
};
pub use solvers::{Attempt, Solved, solve, solve_alone, solve_from};
pub use starts::{everything, lift};
pub use steps::Step;
pub use worlds::World;

#[cfg(test)]
mod tests;
