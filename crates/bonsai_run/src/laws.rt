//! What holds of every verdict and of every answer.

ghost use Rattle.shelf_io.specs.Texts.{Texts};
ghost use Rattle.bonsai_run.specs.Laws.{AnswerIsOne, VerdictIsOne, VerdictsAreAlike};

/// A specification has one verdict for given bounds: one bound with one machine of the player that wins there, or none.
pub fn verdict_is_one()
    ensures alike { VerdictsAreAlike }
    ensures one { VerdictIsOne }
{}

/// For given texts an order has one answer: one status and one text. So what is said of an answer is said of the one that
/// is given.
pub fn answer_is_one()
    ensures { (told : Texts) → AnswerIsOne told }
{}
