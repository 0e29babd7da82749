//! Values with a partial order, and a total one to list them by.

ghost use Rattle.std.specs.Prelude.{◌≡◌, IfOk, Bool};
ghost use Rattle.std.specs.declared.cmp.Ordering.{Ordering};
ghost use Rattle.antichain_list.specs.Antichain.{IsEntryOrder};

use std::alloc::{AllocError, Global};
use std::cmp::Ordering;

/// A value with a partial order, in which sets are closed downwards, and a total order that agrees
/// with equality, in which entries are listed.
pub trait Entry: Sized + Drop {
    ghost below: { Self → Self → Bool };

    ghost order: { Self → Self → Ordering };

    /// Whether it is at or below the other in the partial order.
    fn at_or_below(&self, other: &Self) -> bool
        ensures { result ≡ below self.now other.now };

    /// Its place beside the other in the total order.
    fn compare(&self, other: &Self) -> Ordering
        ensures { result ≡ order self.now other.now };

    /// An equal value.
    fn copy(&self, alloc: Global) -> Result<Self, AllocError>
        ensures { IfOk result (λ v. v ≡ self.now) };

    ghost laws: { IsEntryOrder below order };
}
