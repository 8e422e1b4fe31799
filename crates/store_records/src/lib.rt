//! The records of the journaled store, as bytes of its log.
//!
//! `specs/Payloads` says which bytes a record has. `read_entry` gives the record whose bytes a payload is, and refuses every
//! other one. `Branch` takes the changes of a branch as they come, and gives the frame of its record and the bytes that it needs
//! of the log; `ending_frame` is the frame of the record that ends it. `mem_store` stands on this crate.
#![tactic(auto)]

mod branch;
mod entry;
mod reading;
mod writing;

pub use branch::{Branch, Ending, Form, encoded, ending_frame};
pub use entry::{Entry, StoredDeltas};
pub use reading::{ReadFault, read_entry};

#[cfg(test)]
mod tests;
