//! Laws of covers.

ghost use Rattle.cover_sets.specs.Reduced.{ReducedIsExact};

/// A list is the reduced one exactly where it has consistent covers of the raw list, of which none contains another
/// consistent one, each consistent one contains one of them, and they ascend.
pub fn reduced_is_exact()
    ensures { ReducedIsExact }
{}
