//! What a file says of a table.

use vdb_base::Rows;

#[derive(Drop)]
pub enum Said {
    Rows(Rows),
    /// The form of the file is broken.
    Broken,
    /// The first cell that its column doesn't take. Row and column count from 1.
    BadCell { row: u64, col: u64 },
}

/// The place of a cell, from 1.
#[derive(Clone, Copy)]
pub struct Place {
    pub row: u64,
    pub col: u64,
}
