//! Worked answers of the steps between a text and its game, whose values no contract states yet.
#![tactic(auto)]

#[cfg(test)]
mod limits;
#[cfg(test)]
mod tests;
