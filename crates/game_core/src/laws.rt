//! Laws of closed lists and held vectors.

ghost use Rattle.game_core.specs.Laws.{AnswerIsOne, ClosedIsHeld, HeldIsClosed, HeldIsOne, ReplayIsOne, ReplayIsSound};

/// Every vector at or below a member of a closed list is held, by a machine whose states are vectors of the list.
pub fn closed_is_held()
    ensures { ClosedIsHeld }
{}

/// The maximal held vectors are a closed list: from each of them the player can answer one step.
pub fn held_is_closed()
    ensures { HeldIsClosed }
{}

/// At most one ascending antichain is the list of the maximal held vectors.
pub fn held_is_one()
    ensures { HeldIsOne }
{}

/// A game has one answer, also where its classes aren't those of its letters. So `solve`, `finish` and `solve_logged`
/// give equal lists, or are Lost together.
pub fn answer_is_one()
    ensures { AnswerIsOne }
{}

/// After every list of events, at each moment, what is known of boards and jobs holds, however stale the snapshots are.
pub fn replay_is_sound()
    ensures { ReplayIsSound }
{}

/// The world after a list of events, and the list of answers, are a function of the list.
pub fn replay_is_one()
    ensures { ReplayIsOne }
{}
