//! Tables and deltas as a store in memory holds them, by names.

ghost use Rattle.std.specs.Prelude.{◌≡◌, IfOk};

use std::alloc::Global;
use vdb_base::{Duplicate, NoMemory, Rows, Seq, Text};
use vdb_model::Delta;

/// Rows that are stored under a source name.
#[derive(Debug, Drop)]
pub struct StoredTable {
    pub source: Text,
    pub rows: Rows,
}

pub type Tables = Seq<StoredTable>;

/// A change of the table with a source name.
#[derive(Debug, Drop)]
pub struct StoredDelta {
    pub source: Text,
    pub removed: Rows,
    pub added: Rows,
}

impl StoredTable {
    pub fn copy(&self, alloc: Global) -> Result<StoredTable, NoMemory>
        ensures { IfOk result (λ made. made ≡ self.now) }
    {
        Ok(StoredTable {
            source: self.source.copy(alloc)?,
            rows: self.rows.copy(alloc)?,
        })
    }
}

impl Duplicate for StoredTable {
    fn copy(&self, alloc: Global) -> Result<StoredTable, NoMemory> {
        self.copy(alloc)
    }
}

impl StoredDelta {
    /// The delta, for the table of this name.
    pub fn named(alloc: Global, source: &Text, delta: &Delta) -> Result<StoredDelta, NoMemory>
        ensures { IfOk result (λ made. made ≡ record { source = source.now; removed = delta.now.removed; added = delta.now.added }) }
    {
        Ok(StoredDelta {
            source: source.copy(alloc)?,
            removed: delta.removed.copy(alloc)?,
            added: delta.added.copy(alloc)?,
        })
    }
}
