//! The fault of a start that an attach's fault is.

ghost use Rattle.std.specs.Prelude.{◌≡◌, ℕ, IfOk};
ghost use Rattle.vdb_session.specs.Starting as spec;
ghost use Rattle.vdb_model.specs.Defs as defs;
ghost use Rattle.vdb_model.specs.NameText.{dotted};
ghost use Rattle.resource.specs.declared.resource.AttachFault.TheVariants.{BadCell, BadStore};

use crate::parts::StartFault;
use resource::AttachFault;
use std::alloc::Global;
use vdb_base::{NoMemory, Text};
use vdb_model::{DeployFault, TableDef, dotted, printed};

/// The name of the table with the number, within its schema.
fn name_of_table(alloc: Global, tables: &[TableDef], number: u64) -> Result<Text, NoMemory>
    ensures { IfOk result (λ text. text ≡ dotted (defs.def_of tables.now number).schema (defs.def_of tables.now number).name) }
{
    for def in tables {
        if u64::from(def.number) == number {
            return dotted(alloc, &def.schema, &def.name);
        }
    }
    dotted(alloc, &Text::new(alloc), &Text::new(alloc))
}

/// The name of a table that is told by its number plus 1.
fn table_text(alloc: Global, tables: &[TableDef], plus_one: u64) -> Result<Text, NoMemory>
    ensures { IfOk result (λ text. text ≡ spec.table_text tables.now plus_one) }
{
    name_of_table(alloc, tables, plus_one.saturating_sub(1))
}

/// A table that is told by its number plus 1, where it isn't the whole store.
fn store_table(alloc: Global, tables: &[TableDef], plus_one: u64) -> Result<Option<Text>, NoMemory>
    ensures { IfOk result (λ text. text ≡ spec.store_table tables.now plus_one) }
{
    if plus_one == 0 {
        return Ok(None);
    }
    match table_text(alloc, tables, plus_one) {
        Ok(text) => Ok(Some(text)),
        Err(NoMemory) => Err(NoMemory),
    }
}

fn bad_cell(
    alloc: Global,
    server: &Text,
    tables: &[TableDef],
    table: u64,
    row: u64,
    col: u64,
) -> StartFault
    ensures { (at : ℕ) → spec.IsStartFault server.now tables.now at (BadCell table row col) result }
{
    match (printed(alloc, server), table_text(alloc, tables, table)) {
        (Ok(server), Ok(table)) => StartFault::Refused(DeployFault::BadCell {
            server,
            table,
            row,
            col,
        }),
        _ => StartFault::Memory,
    }
}

fn bad_store(alloc: Global, server: &Text, tables: &[TableDef], table: u64) -> StartFault
    ensures { (at : ℕ) → spec.IsStartFault server.now tables.now at (BadStore table) result }
{
    match (printed(alloc, server), store_table(alloc, tables, table)) {
        (Ok(server), Ok(table)) => { StartFault::Refused(DeployFault::BadStore { server, table }) }
        _ => StartFault::Memory,
    }
}

/// The fault of the start, where the attach of the lane at the place had this one.
pub fn start_fault(
    alloc: Global,
    server: &Text,
    tables: &[TableDef],
    at: u32,
    fault: AttachFault,
) -> StartFault
    ensures { spec.IsStartFault server.now tables.now at fault result }
{
    match fault {
        AttachFault::BadCell { table, row, col } => {
            bad_cell(alloc, server, tables, table, row, col)
        }
        AttachFault::BadStore { table } => bad_store(alloc, server, tables, table),
        AttachFault::Failed => StartFault::Failed { lane: at },
        AttachFault::Memory => StartFault::Memory,
    }
}
