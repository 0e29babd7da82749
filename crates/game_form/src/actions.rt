//! Actions: what a letter does to each lane.

use std::marker::Model;

/// A way into the lane `to`: 1, or 2 where it is counted.
#[derive(Debug, Clone, Copy, PartialEq, Eq)]
pub struct Step {
    pub to: u32,
    pub number: i16,
}

/// The ways out of a lane, with ascending ends. A lane that no step names has the number 0.
#[derive(Debug, Drop)]
pub struct Row {
    pub steps: Vec<Step>,
}

impl Model for Row {
    ghost use Rattle.std.specs.Prelude.{List};
    ghost use Rattle.game_form.specs.declared.actions.Step.{Step};

    ghost Value = { List Step };

    ghost view = { λ r. r.steps.items };
}

/// One row per lane.
#[derive(Debug, Drop)]
pub struct Action {
    pub rows: Vec<Row>,
}

impl Model for Action {
    ghost use Rattle.std.specs.Prelude.{List};
    ghost use Rattle.game_form.specs.declared.actions.Step.{Step};

    ghost Value = { List (List Step) };

    ghost view = { λ a. a.rows.items };
}
