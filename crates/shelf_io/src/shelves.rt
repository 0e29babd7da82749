//! Where texts come from.

ghost use Rattle.std.specs.Prelude.{◌≡◌, ◌≤◌, ℕ, List, Option, Some, None, IfOk, IsErrOf};
ghost use Rattle.shelf_io.specs.declared.shelves.ShelfError.TheVariants.{Failed, Memory};
ghost use Rattle.shelf_io.specs.Faults.{Rose};
ghost use Rattle.shelf_io.specs.Texts.{Texts, Fetched, failed_after, text_of};

use std::alloc::{AllocError, AllocFailed, Global};

/// Why a fetch gives no text.
#[derive(Clone, Copy, Debug, PartialEq, Eq, Drop, thiserror::Error)]
pub enum ShelfError {
    /// There is no text of this name, or it can't be read.
    #[error("the text cannot be read")]
    Failed,
    /// Memory ran out.
    #[error("out of memory")]
    Memory,
}

impl From<AllocError> for ShelfError {
    ghost from_gives = { λ _ e. e ≡ Memory };

    fn from(_: AllocError) -> Self {
        ShelfError::Memory
    }
}

/// Texts by name, with a count of faults.
pub trait Shelf {
    /// The texts, where they are told.
    ghost texts: { Self → Option Texts };

    /// How often a fetch has failed.
    ghost faults: { Self → ℕ };

    /// The name of the last fetch that failed, if any did.
    ghost last_failed: { Self → Option (List ℕ) };

    /// The first bytes of the text of this name, at most `cap`.
    ///
    /// `Failed` comes only where the count of faults rose in this call, as it does for a name
    /// without a text. `Memory` may come at any call.
    fn fetch(&mut self, alloc: Global, name: &str, cap: usize) -> Result<Vec<u8>, ShelfError>
        ensures bytes { IfOk result (λ v. (told : Texts) → texts self.old ≡ Some told → Fetched told name.now cap v.items) }
        ensures missing { (told : Texts) → texts self.old ≡ Some told → text_of told name.now ≡ None → Rose (faults self.old) (faults self.new) }
        ensures cause { IsErrOf result Failed → Rose (faults self.old) (faults self.new) }
        ensures last { last_failed self.new ≡ failed_after result name.now (last_failed self.old) }
        ensures texts_stay { texts self.new ≡ texts self.old }
        ensures later { faults self.old ≤ faults self.new };
}
