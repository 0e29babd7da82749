//! What every set closed downwards answers.

ghost use Rattle.std.specs.Prelude.{◌≡◌, ◌<◌, ℕ, List, length, slice_index_or, IfErr, is_ok, remove, if◌then◌else◌};
ghost use Rattle.antichain_list.specs.Antichain.{IsAntichain, covered, added};

use crate::entries::Entry;

/// Want of memory, with the entry that had no room.
#[derive(Drop)]
pub struct NoRoom<E>(pub E);

/// A set closed downwards, seen as the ascending list of its maximal members.
pub trait Downset<E: Entry> {
    ghost entries: { Self → List E };

    /// Whether some entry is at or above `v`.
    fn covers(&self, v: &E) -> bool
        ensures { result ≡ covered E.below v.now (entries self.now) };

    /// The number of entries. No two are comparable, and they ascend.
    fn len(&self) -> usize
        ensures count { result ≡ length (entries self.now) }
        ensures antichain { IsAntichain E.below E.order (entries self.now) };

    /// The entry at a place of the list.
    fn entry(&self, i: usize) -> &E
        requires { i < length (entries self.now) }
        ensures { result.now ≡ slice_index_or (entries self.now) i result.now };

    /// Puts `v` in the place of the entries below it, unless it is covered. Want of memory leaves the
    /// list as it is, and gives `v` back.
    fn put(&mut self, v: E) -> Result<(), NoRoom<E>>
        ensures after { entries self.new ≡ (if is_ok result then added E.below E.order v (entries self.old) else entries self.old) }
        ensures value_returned { IfErr result (λ e. e.0 ≡ v) };

    /// Takes out the entry at a place of the list.
    fn take(&mut self, i: usize) -> E
        requires { i < length (entries self.old) }
        ensures entry { result ≡ slice_index_or (entries self.old) i result }
        ensures rest { entries self.new ≡ remove (entries self.old) i };
}
