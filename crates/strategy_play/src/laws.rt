//! What holds of every machine of a list of vectors.

ghost use Rattle.strategy_play.specs.Laws.{MachineIsOne};

/// A list of vectors of a game has one machine. So what is said of such a machine is said of the one that is made.
pub fn machine_is_one()
    ensures { MachineIsOne }
{}
