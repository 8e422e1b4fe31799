//! Looking up definitions, and the deltas of their tables.

ghost use Rattle.std.specs.Prelude.{◌≡◌, Option, IfOk};
ghost use Rattle.resource.specs.Stored as stored;
ghost use Rattle.store_tables.specs.Numbering.{NumberedIs};
ghost use Rattle.store_tables.specs.Shelves.{PlaceIs};

use resource::StoredDelta;
use std::alloc::Global;
use vdb_base::{NoMemory, Text};
use vdb_model::{Delta, TableDef};

/// Where the definition with the number stands.
pub fn place_of(defs: &[TableDef], number: u32) -> Option<usize>
    ensures { PlaceIs number defs.now result }
{
    for i in 0..defs.len() {
        if defs[i].number == number {
            return Some(i);
        }
    }
    None
}

/// The number of the table that the store has under the name.
fn number_named(defs: &[TableDef], source: &Text) -> Option<u32>
    ensures { result ≡ stored.number_named source.now defs.now }
{
    for def in defs {
        if *source == def.source {
            return Some(def.number);
        }
    }
    None
}

/// The delta of a defined table, by its number; none where no definition has the name.
pub fn by_number(
    alloc: Global,
    defs: &[TableDef],
    delta: &StoredDelta,
) -> Result<Option<Delta>, NoMemory>
    ensures { IfOk result (NumberedIs delta.now defs.now) }
{
    match number_named(defs, &delta.source) {
        Some(table) => Ok(Some(Delta {
            table,
            removed: delta.removed.copy(alloc)?,
            added: delta.added.copy(alloc)?,
        })),
        None => Ok(None),
    }
}
