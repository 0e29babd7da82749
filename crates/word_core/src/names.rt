//! Players, the order of their moves, and the names of the signals.

/// Whether a player's choice may depend on the other's valuation of the same step.
#[derive(Debug, Clone, Copy, PartialEq, Eq)]
pub enum Kind {
    /// It chooses first, and its choice doesn't depend on the other's.
    First,
    /// It sees the other's valuation before it chooses.
    Second,
}

/// Who plays: the system chooses the outputs, the environment the inputs.
#[derive(Debug, Clone, Copy, PartialEq, Eq)]
pub enum Player {
    System,
    Environment,
}

/// What a controller is: under Mealy it sees the inputs of a step before it chooses the outputs.
#[derive(Debug, Clone, Copy, PartialEq, Eq)]
pub enum Target {
    Mealy,
    Moore,
}

/// The signals of a specification by name, and its target.
#[derive(Debug, PartialEq, Eq, Drop)]
pub struct Names {
    pub inputs: Vec<String>,
    pub outputs: Vec<String>,
    pub target: Target,
}
