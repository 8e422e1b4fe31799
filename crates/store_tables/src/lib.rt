//! The tables of the journaled store in memory.
//!
//! A table is an ordered map from each row to how often it is kept and how often the branch sees it, and another one of its
//! primary keys. So a change costs a few look-ups a row and takes its memory before anything is changed, and the end of a
//! branch walks over the rows that it touched and takes none. A `Shelf` has one table for each of the attached definitions.
//! `mem_store` stands on this crate.
#![tactic(auto)]

mod counting;
mod place;
mod shelf;
mod table;
mod tally;

pub use place::{by_number, place_of};
pub use shelf::Shelf;
pub use table::Keys;

#[cfg(test)]
mod tests;
