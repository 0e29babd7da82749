//! What holds of every text.

ghost use Rattle.std.specs.Prelude.{ℕ, Bool, List};
ghost use Rattle.tlsf_basic.specs.Laws.{HasOneAnswer};

/// A text has one fault at one place, or one specification, and not both.
pub fn one_answer()
    ensures { (text : List ℕ) (as_written : Bool) → HasOneAnswer text as_written }
{}
