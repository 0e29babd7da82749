//! A sink over a stream.

ghost use Rattle.std.specs.Prelude.{None};

use crate::sinks::{Failed, Sink};
use std::io::Write;

/// A stream to which bytes are written. Of what it shows it tells nothing.
#[derive(Drop)]
pub struct StreamSink<W: Write + Drop> {
    stream: W,
    faults: u64,
}

impl<W: Write + Drop> StreamSink<W> {
    /// A sink over this stream.
    pub fn open(stream: W) -> StreamSink<W> {
        StreamSink { stream, faults: 0 }
    }
}

/// Writes all of the bytes, and says whether that went well.
fn write_pieces<W: Write>(stream: &mut W, bytes: &[u8]) -> bool {
    let mut done = 0;
    while done < bytes.len() {
        match stream.write(&bytes[done..]) {
            Ok(0) | Err(_) => return false,
            Ok(count) => done += count,
        }
    }
    true
}

impl<W: Write + Drop> Sink for StreamSink<W> {
    ghost written = { λ _. None };

    ghost faults = { λ s. s.faults };

    fn write_all(&mut self, bytes: &[u8]) -> Result<(), Failed> {
        if write_pieces(&mut self.stream, bytes) {
            return Ok(());
        }
        self.faults = self.faults.saturating_add(1);
        Err(Failed)
    }
}
