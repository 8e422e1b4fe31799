//! What the log of a journaled store leaves: its records, taken one after the other.
//!
//! `specs/Replay` says which tables and which prepared branch the bytes of a log leave, and what they read as under
//! definitions. `open_store` opens a log and takes its records into tables in memory, in one walk, and `read_store` takes those
//! of a log that is open. A log that is no store's, or whose tables break their definitions, is refused by its first fault. The
//! fault of tables is named by a second walk, into lists, so that a log without one is read once and no order of rows is kept.
//! `mem_store` stands on this crate.
#![tactic(auto)]

mod lists;
mod opening;
mod replay;
mod walk;

pub use opening::{Opened, Waiting, open_store, read_store};

#[cfg(test)]
mod tests;
