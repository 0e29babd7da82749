//! What a tableau accepts.

ghost use Rattle.tableau_nba.specs.Acceptance.{AcceptsByTruth};

/// A tableau accepts exactly the lassos on which its formula holds.
pub fn accepts_by_truth()
    ensures { AcceptsByTruth }
{}
