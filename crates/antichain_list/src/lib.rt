//! Sets that are closed downwards, kept by their maximal members.
#![tactic(auto)]

mod downsets;
mod entries;
mod lists;

pub use downsets::{Downset, NoRoom};
pub use entries::Entry;
pub use lists::ListDownset;
