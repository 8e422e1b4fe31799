//! Checking stored tables under definitions.

ghost use Rattle.std.specs.Prelude.{◌≡◌, ◌+◌};
ghost use Rattle.std.specs.Option.{unwrap_or};
ghost use Rattle.vdb_model.specs.World as world;
ghost use Rattle.resource.specs.Stored as spec;
ghost use Rattle.resource.specs.Checked.{IsCheckAnswer, both_fault, stored_fault};

use crate::keys::keeps_key;
use crate::resource::AttachFault;
use crate::stored::{StoredTable, Tables};
use crate::tables::rows_named;
use std::alloc::Global;
use vdb_base::{Fit, Row, Value, fits};
use vdb_model::{ColumnDef, TableDef};

/// Whether the cell fits its column, and isn't NULL where that is forbidden. It takes no memory.
pub fn takes(column: &ColumnDef, v: &Value) -> bool
    ensures { result ≡ world.takes_cell column.now v.now }
{
    matches!(fits(v, column.ty), Fit::Yes) && !(column.not_null && matches!(v, Value::Null))
}

/// Whether the row has a cell for each column, which takes it, and no other.
pub fn takes_row(columns: &[ColumnDef], row: &[Value]) -> bool
    ensures { result ≡ world.takes_row columns.now row.now }
{
    if row.len() != columns.len() {
        return false;
    }
    for i in 0..columns.len() {
        if !takes(&columns[i], &row[i]) {
            return false;
        }
    }
    true
}

/// Whether the columns take each of the rows.
pub fn takes_rows(columns: &[ColumnDef], rows: &[Row]) -> bool
    ensures { result ≡ world.takes_rows columns.now rows.now }
{
    for row in rows {
        if !takes_row(columns, row.as_slice()) {
            return false;
        }
    }
    true
}

/// The place, from 1, of the first cell that its column doesn't take.
pub fn bad_column(columns: &[ColumnDef], row: &[Value]) -> Option<usize>
    ensures { result ≡ spec.bad_column 1 columns.now row.now }
{
    for i in 0..columns.len().min(row.len()) {
        if !takes(&columns[i], &row[i]) {
            return Some(i + 1);
        }
    }
    None
}

/// The first bad cell of a table, whose number plus 1 is given.
fn check_cells(table: u64, columns: &[ColumnDef], rows: &[Row]) -> Result<(), AttachFault>
    ensures { IsCheckAnswer (spec.cell_fault table columns.now 1 rows.now) result }
{
    for (i, row) in rows.iter().enumerate() {
        if let Some(col) = bad_column(columns, row.as_slice()) {
            return Err(AttachFault::BadCell {
                table,
                row: i as u64 + 1,
                col: col as u64,
            });
        }
    }
    Ok(())
}

fn all_long(rows: &[Row], width: usize) -> bool
    ensures { result ≡ spec.all_long width rows.now }
{
    for row in rows {
        if row.len() != width {
            return false;
        }
    }
    true
}

/// The form of a table, and then its cells.
fn check_table(alloc: Global, def: &TableDef, rows: &[Row]) -> Result<(), AttachFault>
    ensures { IsCheckAnswer (spec.table_fault def.now rows.now) result }
{
    let table = u64::from(def.number) + 1;
    if !all_long(rows, def.columns.len()) {
        return Err(AttachFault::BadStore { table });
    }
    let Ok(kept) = keeps_key(alloc, &def.key, rows) else {
        return Err(AttachFault::Memory);
    };
    if !kept {
        return Err(AttachFault::BadStore { table });
    }
    check_cells(table, def.columns.as_slice(), rows)
}

/// A table as it is kept, and then as a branch would leave it, where there is one.
fn check_both(
    alloc: Global,
    def: &TableDef,
    kept: &[StoredTable],
    left: &Option<Tables>,
) -> Result<(), AttachFault>
    ensures { IsCheckAnswer (both_fault def.now kept.now (unwrap_or left.now kept.now)) result }
{
    match check_table(alloc, def, rows_named(kept, &def.source)) {
        Ok(()) => {}
        Err(fault) => return Err(fault),
    }
    match left {
        Some(left) => check_table(alloc, def, rows_named(left.as_slice(), &def.source)),
        None => Ok(()),
    }
}

/// Whether stored tables are sound under definitions: each as it is kept, and then as a branch would leave it where `left` is
/// given. The first fault is told, in the order of the definitions, a table's form before its cells.
pub fn check_tables(
    alloc: Global,
    defs: &[TableDef],
    kept: &[StoredTable],
    left: &Option<Tables>,
) -> Result<(), AttachFault>
    ensures { IsCheckAnswer (stored_fault defs.now kept.now (unwrap_or left.now kept.now)) result }
{
    for def in defs {
        match check_both(alloc, def, kept, left) {
            Ok(()) => {}
            Err(fault) => return Err(fault),
        }
    }
    Ok(())
}
