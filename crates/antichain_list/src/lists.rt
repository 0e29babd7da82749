//! A set closed downwards as a plain list.

ghost use Rattle.std.specs.Prelude.{◌≡◌, ◌<◌, ◌≤◌, ◌+◌, not, [], List, length, slice_index_or, IfOk, IfErr, is_ok, remove, insert, if◌then◌else◌};
ghost use Rattle.std.specs.List.{filter};
ghost use Rattle.std.specs.Vec.{vec_len, vec_capacity};
ghost use Rattle.antichain_list.specs.Antichain.{IsAntichain, covered, added, placed, without_below};

use crate::downsets::{Downset, NoRoom};
use crate::entries::Entry;
use std::alloc::{AllocError, Global};
use std::cmp::Ordering;
use std::marker::Model;

/// A set closed downwards, kept as the ascending list of its maximal members.
#[derive(Drop)]
pub struct ListDownset<E: Entry> {
    entries: Vec<E>,
}

impl<E: Entry> Model for ListDownset<E> {
    ghost use Rattle.std.specs.Prelude.{List};
    ghost use Rattle.antichain_list.specs.Antichain.{IsAntichain};

    ghost Value = { List E };

    ghost view = { λ s. s.entries.items };

    ghost invariant = { λ s. IsAntichain E.below E.order s.entries.items };
}

impl<E: Entry> ListDownset<E> {
    /// The empty set.
    pub fn empty(alloc: Global) -> ListDownset<E>
        ensures { result ≡ [] }
    {
        ListDownset {
            entries: Vec::new(alloc),
        }
    }

    /// The entries in order.
    pub fn entries(&self) -> &[E]
        ensures value { result.now ≡ self.now }
        ensures antichain { IsAntichain E.below E.order self.now }
    {
        &self.entries
    }

    /// The list of the entries.
    pub fn into_entries(self) -> Vec<E>
        ensures value { result.items ≡ self }
        ensures antichain { IsAntichain E.below E.order self }
    {
        self.entries
    }

    /// The set of these entries.
    pub fn from_entries(entries: Vec<E>) -> ListDownset<E>
        requires { IsAntichain E.below E.order entries.items }
        ensures { result ≡ entries.items }
    {
        ListDownset { entries }
    }

    /// An equal list.
    pub fn copy(&self, alloc: Global) -> Result<ListDownset<E>, AllocError>
        ensures { IfOk result (λ d. d ≡ self.now) }
    {
        let entries = copied(alloc, &self.entries)?;
        Ok(ListDownset { entries })
    }
}

impl<E: Entry> Downset<E> for ListDownset<E> {
    ghost entries = { λ s. s };

    fn covers(&self, v: &E) -> bool {
        self.entries.iter().any(|e| v.at_or_below(e))
    }

    fn len(&self) -> usize {
        self.entries.len()
    }

    fn entry(&self, i: usize) -> &E {
        &self.entries[i]
    }

    fn put(&mut self, v: E) -> Result<(), NoRoom<E>> {
        if self.covers(&v) {
            return Ok(());
        }
        put_entry(&mut self.entries, v)
    }

    fn take(&mut self, i: usize) -> E {
        self.entries.remove(i)
    }
}

fn copied<E: Entry>(alloc: Global, entries: &Vec<E>) -> Result<Vec<E>, AllocError>
    ensures { IfOk result (λ v. v.items ≡ entries.now.items) }
{
    let mut copies = Vec::new(alloc);
    for e in entries {
        copies.push(e.copy(alloc)?)?;
    }
    Ok(copies)
}

fn put_entry<E: Entry>(entries: &mut Vec<E>, v: E) -> Result<(), NoRoom<E>>
    ensures after { entries.new.items ≡ (if is_ok result then placed E.order v (without_below E.below v entries.old.items) else entries.old.items) }
    ensures value_returned { IfErr result (λ e. e.0 ≡ v) }
{
    if entries.reserve(1).is_err() {
        return Err(NoRoom(v));
    }
    drop_below(entries, &v);
    let at = place(entries, &v);
    match entries.insert(at, v) {
        Ok(()) => Ok(()),
        Err(_) => unreachable!(),
    }
}

fn drop_below<E: Entry>(entries: &mut Vec<E>, v: &E)
    ensures items { entries.new.items ≡ without_below E.below v.now entries.old.items }
    ensures len { vec_len entries.new ≤ vec_len entries.old }
    ensures capacity { vec_capacity entries.new ≡ vec_capacity entries.old }
{
    entries.retain(|e| !e.at_or_below(v));
}

fn place<E: Entry>(entries: &Vec<E>, v: &E) -> usize
    ensures within { result ≤ vec_len entries.now }
    ensures placed { insert entries.now.items result v.now ≡ placed E.order v.now entries.now.items }
{
    for (i, e) in entries.iter().enumerate() {
        if v.compare(e) == Ordering::Less {
            return i;
        }
    }
    entries.len()
}
