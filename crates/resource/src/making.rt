//! What a change makes of stored tables.

ghost use Rattle.resource.specs.Making.{MakesOf};

use crate::keys::keeps_key;
use crate::stored::{StoredDelta, StoredTable, Tables};
use crate::tables::{changed, put_rows, rows_named};
use std::alloc::Global;
use vdb_base::NoMemory;
use vdb_model::{Delta, TableDef};

/// A delta as it is stored, and the tables after it.
#[derive(Drop)]
pub struct Made {
    pub delta: StoredDelta,
    pub tables: Tables,
}

/// The change of a table, or none where its primary key would stand twice.
pub fn make_change(
    alloc: Global,
    tables: &[StoredTable],
    def: &TableDef,
    delta: &Delta,
) -> Result<Option<Made>, NoMemory>
    ensures { MakesOf def.now delta.now tables.now result }
{
    let rows = changed(alloc, delta, rows_named(tables, &def.source))?;
    if !keeps_key(alloc, &def.key, rows.as_slice())? {
        return Ok(None);
    }
    Ok(Some(Made {
        tables: put_rows(alloc, &def.source, rows, tables)?,
        delta: StoredDelta::named(alloc, &def.source, delta)?,
    }))
}
