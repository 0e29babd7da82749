//! A shelf in memory, some of whose calls fail by plan.

ghost use Rattle.std.specs.Prelude.{◌≡◌, ◌≤◌, ℕ, List, [], Option, Some, None, true, false, IfOk, IsErrOf, IsErr, option_map, OnErr, OnOk, ◌||◌};
ghost use Rattle.shelf_io.specs.declared.shelves.ShelfError.TheVariants.{Failed, Memory};
ghost use Rattle.shelf_io.specs.Faults.{Rose, raised};
ghost use Rattle.shelf_io.specs.Texts.{Texts, Fetched, NamesDiffer, failed_after, text_of};
ghost use Rattle.shelf_io.specs.MemShelf.{texts_of};

use crate::shelves::{Shelf, ShelfError};
use std::alloc::Global;
use std::marker::Model;

/// Texts in memory. A call fails where its number, counted from 1, is one of those to fail, or
/// where there is no text of its name.
#[derive(Debug, Drop)]
pub struct MemShelf {
    texts: Vec<(String, Vec<u8>)>,
    failing: Vec<u64>,
    calls: u64,
    faults: u64,
    last_failed: Option<String>,
}

impl Model for MemShelf {
    ghost use Rattle.std.specs.Prelude.{option_map, string_bytes};
    ghost use Rattle.shelf_io.specs.MemShelf.{ShelfData, texts_of};
    ghost use Rattle.shelf_io.specs.Texts.{NamesDiffer};

    ghost Value = { ShelfData };

    ghost view = { λ s. record {
      texts = texts_of s.texts.items;
      failing = s.failing.items;
      calls = s.calls;
      faults = s.faults;
      last_failed = option_map string_bytes s.last_failed;
    } };

    ghost invariant = { λ s. NamesDiffer (texts_of s.texts.items) };
}

impl MemShelf {
    /// A shelf of these texts, whose calls of these numbers fail.
    pub fn open(texts: Vec<(String, Vec<u8>)>, failing: Vec<u64>) -> MemShelf
        requires { NamesDiffer (texts_of texts.items) }
        ensures { result ≡ record { texts = texts_of texts.items; failing = failing.items; calls = 0; faults = 0; last_failed = None } }
    {
        MemShelf {
            texts,
            failing,
            calls: 0,
            faults: 0,
            last_failed: None,
        }
    }
}

/// The first text of this name.
fn find_text<'a>(texts: &'a [(String, Vec<u8>)], name: &str) -> Option<&'a [u8]>
    ensures { option_map (λ t. t.now) result ≡ text_of (texts_of texts.now) name.now }
{
    for (own, text) in texts {
        if own.as_str() == name {
            return Some(text.as_slice());
        }
    }
    None
}

impl Shelf for MemShelf {
    ghost use Rattle.shelf_io.specs.MemShelf.{next_fails, faults_after};

    ghost texts = { λ s. Some s.texts };

    ghost faults = { λ s. s.faults };

    ghost last_failed = { λ s. s.last_failed };

    fn fetch(&mut self, alloc: Global, name: &str, cap: usize) -> Result<Vec<u8>, ShelfError>
        ensures bytes { IfOk result (λ v. (told : Texts) → Some self.old.texts ≡ Some told → Fetched told name.now cap v.items) }
        ensures fails { next_fails self.old name.now ≡ true → IsErr result }
        ensures cause_exact { IsErrOf result Failed → next_fails self.old name.now ≡ true }
        ensures after { self.new ≡ record self.old {
          calls = raised self.old.calls;
          faults = faults_after (next_fails self.old name.now) self.old.faults;
          last_failed = failed_after result name.now self.old.last_failed;
        } }
        ensures missing { (told : Texts) → Some self.old.texts ≡ Some told → text_of told name.now ≡ None → Rose self.old.faults self.new.faults }
        ensures cause { IsErrOf result Failed → Rose self.old.faults self.new.faults }
        ensures last { self.new.last_failed ≡ failed_after result name.now self.old.last_failed }
        ensures texts_stay { Some self.new.texts ≡ Some self.old.texts }
        ensures later { self.old.faults ≤ self.new.faults }
    {
        let kept = String::from_str(alloc, name);
        self.calls = self.calls.saturating_add(1);
        let found = if self.failing.contains(&self.calls) {
            None
        } else {
            find_text(&self.texts, name)
        };
        match found {
            Some(text) => {
                kept?;
                Ok(text[..cap.min(text.len())].to_vec(alloc)?)
            }
            None => {
                self.faults = self.faults.saturating_add(1);
                self.last_failed = Some(kept?);
                Err(ShelfError::Failed)
            }
        }
    }
}
