//! The trait that every store meets, its memory form, and lanes, which are stores under the names of connections.
//!
//! `Resource` says call by call what a store answers and what that leaves of what it tells: its state, its tables as they are
//! kept and as a branch sees them, and the images, which are what a stop would leave of it. Where a store doesn't tell its
//! contents, what can be said without them still holds. A call fails only where the count of faults rose, and then the images
//! are bounded: they are those of before, or beside them the one that the call was to make. `MemResource` tells everything
//! and fails exactly at its listed calls; it is the yardstick for the other stores, and `stopped` gives each image of it. It
//! is asked for filtered columns of one table at a time. The engine and every store stand on this crate; `passing_cut`, `takes`
//! and its like for rows, `check_tables`, `cut`, `take_out` and `StoredDelta` are here for the stores.
#![tactic(auto)]

mod asked;
mod checks;
mod inner;
mod keys;
mod lane;
mod making;
mod mem_resource;
mod mode;
mod resource;
mod stored;
mod tables;

pub use asked::passing_cut;
pub use checks::{check_tables, takes, takes_row, takes_rows};
pub use keys::cut;
pub use lane::{Lane, Lanes};
pub use mem_resource::{MemResource, asks_one_table};
pub use resource::{AttachFault, ChangeFault, ResFault, ResState, Resource, Vote};
pub use stored::{StoredDelta, StoredTable, Tables};
pub use tables::take_out;

#[cfg(test)]
mod tests;
