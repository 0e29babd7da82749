//! A sink in memory, some of whose calls fail by plan.

ghost use Rattle.std.specs.Prelude.{◌≡◌, ◌≤◌, ℕ, List, [], ◌++◌, take, length, Option, Some, None, true, false, IfOk, OnErr, OnOk, is_err, option_map, find, ◌==◌};
ghost use Rattle.shelf_io.specs.Faults.{Rose, raised};
ghost use Rattle.shelf_io.specs.MemShelf.{faults_after};
ghost use Rattle.shelf_io.specs.MemSink.{NumbersDiffer};
ghost use Rattle.shelf_io.specs.Written.{appended, AppendsPrefix};

use crate::sinks::{Failed, Sink};
use std::alloc::{AllocError, Global};
use std::marker::Model;

/// Bytes in memory, up to a fixed room. A call whose number, counted from 1, is planned to fail
/// appends as many bytes as the plan says, and a call whose bytes pass the room those that fit.
#[derive(Debug, Drop)]
pub struct MemSink {
    bytes: Vec<u8>,
    room: usize,
    failing: Vec<(u64, usize)>,
    calls: u64,
    faults: u64,
}

impl Model for MemSink {
    ghost use Rattle.std.specs.Prelude.{◌≤◌, vec_len, vec_capacity};
    ghost use Rattle.shelf_io.specs.MemSink.{SinkData};

    ghost Value = { SinkData };

    ghost view = { λ s. record {
      written = s.bytes.items;
      room = s.room;
      failing = s.failing.items;
      calls = s.calls;
      faults = s.faults;
    } };

    ghost invariant = { λ s. (vec_len s.bytes ≤ s.room) × (s.room ≤ vec_capacity s.bytes) };
}

impl MemSink {
    /// An empty sink with room for so many bytes, which it takes at once. A pair `(n, b)` plans
    /// that call n fails after b bytes.
    pub fn open(
        alloc: Global,
        room: usize,
        failing: Vec<(u64, usize)>,
    ) -> Result<MemSink, AllocError>
        requires { NumbersDiffer failing.items }
        ensures { IfOk result (λ s. s ≡ record { written = []; room = room; failing = failing.items; calls = 0; faults = 0 }) }
    {
        Ok(MemSink {
            bytes: Vec::with_capacity(alloc, room)?,
            room,
            failing,
            calls: 0,
            faults: 0,
        })
    }

    /// What was written.
    pub fn bytes(&self) -> &[u8]
        ensures { result.now ≡ self.now.written }
    {
        &self.bytes
    }
}

/// After how many bytes this call is planned to fail, if it is.
fn find_plan(failing: &[(u64, usize)], call: u64) -> Option<usize>
    ensures { result ≡ option_map (λ p. p.1) (find (λ p. p.0 == call) failing.now) }
{
    for (own, count) in failing {
        if *own == call {
            return Some(*count);
        }
    }
    None
}

impl Sink for MemSink {
    ghost use Rattle.shelf_io.specs.MemSink.{next_count, next_fails};

    ghost written = { λ s. Some s.written };

    ghost faults = { λ s. s.faults };

    /// Takes no memory.
    fn write_all(&mut self, bytes: &[u8]) -> Result<(), Failed>
        ensures fails { is_err result ≡ next_fails self.old (length bytes.now) }
        ensures after { self.new ≡ record self.old {
          written = self.old.written ++ take (next_count self.old (length bytes.now)) bytes.now;
          calls = raised self.old.calls;
          faults = faults_after (next_fails self.old (length bytes.now)) self.old.faults;
        } }
        ensures all { OnOk result (Some self.new.written ≡ appended (Some self.old.written) bytes.now) }
        ensures part { OnErr result (AppendsPrefix (Some self.old.written) (Some self.new.written) bytes.now) }
        ensures cause { OnErr result (Rose self.old.faults self.new.faults) }
        ensures later { self.old.faults ≤ self.new.faults }
    {
        self.calls = self.calls.saturating_add(1);
        let planned = find_plan(&self.failing, self.calls);
        let left = self.room - self.bytes.len();
        let wanted = match planned {
            Some(count) => count.min(bytes.len()),
            None => bytes.len(),
        };
        self.bytes
            .extend_from_slice(&bytes[..wanted.min(left)])
            .unwrap();
        if planned.is_some() || left < bytes.len() {
            self.faults = self.faults.saturating_add(1);
            return Err(Failed);
        }
        Ok(())
    }
}
