//! Classes of valuations of the side that moves first.

use std::marker::Model;

/// The valuations of the first mover with the same options: pairs of an action and the least valuation of the
/// second mover with it, ordered by that valuation. `least` is the least of them.
#[derive(Debug, Drop)]
pub struct Class {
    pub least: u64,
    pub options: Vec<(u64, u64)>,
}

impl Model for Class {
    ghost use Rattle.game_form.specs.Game.{ClassData};

    ghost Value = { ClassData };

    ghost view = { λ c. record { least = c.least; options = c.options.items } };
}
