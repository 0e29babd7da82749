//! Texts that are fetched by name and bytes that are written out, with counted faults.
//!
//! A shelf and a sink each keep a count of faults that never falls. A call fails only where the
//! count rose in that call, so an answer that blames a fault can be held against the count.
#![tactic(auto)]

mod file_shelves;
mod mem_shelves;
mod mem_sinks;
mod shelves;
mod sinks;
mod stream_sinks;
#[cfg(test)]
mod tests;

pub use file_shelves::FileShelf;
pub use mem_shelves::MemShelf;
pub use mem_sinks::MemSink;
pub use shelves::{Shelf, ShelfError};
pub use sinks::{Failed, Sink};
pub use stream_sinks::StreamSink;
