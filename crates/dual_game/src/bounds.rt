//! The bounds that are tried.

ghost use Rattle.std.specs.Prelude.{◌≡◌, ◌<◌, ◌≤◌, IfSome};
ghost use Rattle.dual_game.specs.Bounds.{AreBounds, tried_after};

/// The bounds first, first + step and so on below last, then last. First is at most last, and step
/// at least 1.
#[derive(Debug, Clone, Copy, PartialEq, Eq)]
pub struct Bounds {
    pub first: u32,
    pub step: u32,
    pub last: u32,
}

impl Bounds {
    /// The bound that is tried after `k`, which is at most last. None exactly after the last one.
    pub fn after(&self, k: u32) -> Option<u32>
        requires bounds { AreBounds self.now }
        requires tried { k ≤ self.now.last }
        ensures value { result ≡ tried_after self.now k }
        ensures rises { IfSome result (λ next. k < next) }
        ensures within { IfSome result (λ next. next ≤ self.now.last) }
    {
        if k == self.last {
            return None;
        }
        Some(k.saturating_add(self.step).min(self.last))
    }
}
