//! A log of records in one file that a stop leaves whole: each record stands behind a gate, one byte that is opened only
//! when the record is on the disk.
//!
//! `Disk` is a file as the log sees it, with the disk model: what a stop may leave between two syncs. `MemDisk` and
//! `FileDisk` are disks; a real file tells no contents, and nothing is proved of what it holds. `Log` opens a disk that a
//! stop may have left, walks its records and appends to them.
//!
//! For every disk that tells its contents, and at every exit of every call: each content that a stop may leave has the
//! records of before, or in `append` those and the new one; after Ok each has the new one. `Bad` comes exactly where the
//! bytes break the format, `Full` exactly where the frame is longer than what is left, and `Failed` only where the disk's
//! count of faults rose. No call of the log takes memory. The journaled store stands on this crate, and the journal of
//! decisions is to.
#![tactic(auto)]

mod append;
mod disk;
mod file_disk;
mod log;
mod mem_disk;
mod opening;

pub use append::AppendFault;
pub use disk::Disk;
pub use file_disk::FileDisk;
pub use log::{Log, OpenRefused, Span};
pub use mem_disk::MemDisk;
pub use opening::OpenCause;

#[cfg(test)]
mod tests;
