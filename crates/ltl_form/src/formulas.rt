//! Formulas as they are written.

use sqlite_items::{Boxed, Items};

/// A formula over signals that are numbered from 0.
///
/// `All` of nothing is true, and `Any` of nothing is false.
#[derive(Debug, Drop)]
pub enum Ltl {
    True,
    False,
    Signal(u32),
    Not(Boxed<Ltl>),
    All(Items<Ltl>),
    Any(Items<Ltl>),
    Implies(Boxed<Ltl>, Boxed<Ltl>),
    Equiv(Boxed<Ltl>, Boxed<Ltl>),
    Next(Boxed<Ltl>),
    Finally(Boxed<Ltl>),
    Globally(Boxed<Ltl>),
    Until(Boxed<Ltl>, Boxed<Ltl>),
    Release(Boxed<Ltl>, Boxed<Ltl>),
    /// The left side holds until the right one does, or for ever.
    Weak(Boxed<Ltl>, Boxed<Ltl>),
}
