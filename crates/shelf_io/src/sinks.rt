//! Where bytes go.

ghost use Rattle.std.specs.Prelude.{◌≡◌, ◌≤◌, ℕ, List, Option, OnOk, OnErr};
ghost use Rattle.shelf_io.specs.Faults.{Rose};
ghost use Rattle.shelf_io.specs.Written.{appended, AppendsPrefix};

/// A write that failed.
#[derive(Clone, Copy, Debug, PartialEq, Eq)]
pub struct Failed;

/// Bytes that are written one after another, with a count of faults.
pub trait Sink {
    /// The bytes that were written, where they are told.
    ghost written: { Self → Option (List ℕ) };

    /// How often a write has failed.
    ghost faults: { Self → ℕ };

    /// Appends all of the bytes, or fails after a part of them.
    ///
    /// `Failed` comes only where the count of faults rose in this call.
    fn write_all(&mut self, bytes: &[u8]) -> Result<(), Failed>
        ensures all { OnOk result (written self.new ≡ appended (written self.old) bytes.now) }
        ensures part { OnErr result (AppendsPrefix (written self.old) (written self.new) bytes.now) }
        ensures cause { OnErr result (Rose (faults self.old) (faults self.new)) }
        ensures later { faults self.old ≤ faults self.new };
}
