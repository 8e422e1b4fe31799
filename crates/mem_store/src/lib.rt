//! The journaled store: tables in memory, whose changes are kept in a log on a disk.
//!
//! `MemStore` meets `Resource` over any disk. Its tables are what the records of its log leave, and stand in memory. A branch's
//! changes are made there as they come, and kept as bytes of the record that a prepare or a commit in one phase will write. What
//! it tells are the bytes of its disk: over a disk that tells them its contents are told, and its images are what each content
//! that a stop may leave reads as. `bench_work` makes such stores, `vdb` none yet.
#![tactic(auto)]

mod attached;
mod attaching;
mod changing;
mod ending;
mod inner;
mod store;

pub use store::MemStore;

#[cfg(test)]
mod tests;
#[cfg(test)]
mod yardstick;
