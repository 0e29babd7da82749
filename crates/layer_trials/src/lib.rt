//! The layers of the game beside plain slow computations, over random small cases.
//!
//! Each trial draws its cases from numbers that follow from the case's number, so that each run has the same ones.
//! What is expected is found from the definition by trying all that there is, and never by a layer.
#![tactic(auto)]

#[cfg(test)]
mod draws;
#[cfg(test)]
mod game_trials;
#[cfg(test)]
mod lane_trials;
#[cfg(test)]
mod layer_vectors;
#[cfg(test)]
mod list_trials;
#[cfg(test)]
mod slow_classes;
#[cfg(test)]
mod slow_games;
#[cfg(test)]
mod slow_tables;
#[cfg(test)]
mod slow_vectors;
#[cfg(test)]
mod step_trials;
#[cfg(test)]
mod tree_trials;
#[cfg(test)]
mod worked_games;
#[cfg(test)]
mod world_trials;
