//! Looking up stored tables, and changing them.

ghost use Rattle.std.specs.Prelude.{◌≡◌, Option, IfOk};
ghost use Rattle.std.specs.Option.{option_copied};
ghost use Rattle.vdb_model.specs.Deltas as deltas;
ghost use Rattle.vdb_model.specs.Defs as defs;
ghost use Rattle.resource.specs.Stored as spec;
ghost use Rattle.resource.specs.Checked.{rows_numbered, rows_asked, FindsDef};

use crate::stored::{StoredTable, Tables};
use std::alloc::Global;
use vdb_base::{NoMemory, Nums, Row, Rows, Seq, Text, cmp_rows};
use vdb_model::{Delta, TableDef, TableDefs};

/// The rows that are stored under a name.
pub fn rows_named<'a>(stored: &'a [StoredTable], source: &Text) -> &'a [Row]
    ensures { result.now ≡ spec.rows_named source.now stored.now }
{
    for table in stored {
        if table.source == *source {
            return table.rows.as_slice();
        }
    }
    &[]
}

/// The rows that are stored for the table with the number.
fn table_rows<'a>(stored: &'a [StoredTable], defs: &[TableDef], number: u32) -> &'a [Row]
    ensures { result.now ≡ rows_numbered number stored.now defs.now }
{
    for def in defs {
        if def.number == number {
            return rows_named(stored, &def.source);
        }
    }
    &[]
}

/// The rows that are stored for the first of the tables.
pub fn asked_rows<'a>(
    stored: &'a [StoredTable],
    defs: &Option<TableDefs>,
    tables: &Nums,
) -> &'a [Row]
    ensures { result.now ≡ rows_asked stored.now defs.now tables.now }
{
    match (defs, tables.get(0)) {
        (Some(defs), Some(number)) => table_rows(stored, defs.as_slice(), *number),
        _ => &[],
    }
}

/// Takes a row out once, where it stands.
pub fn take_out(rows: &mut Vec<Row>, row: &Row)
    ensures { rows.new.items ≡ deltas.without_one row.now rows.old.items }
{
    for i in 0..rows.len() {
        if cmp_rows(row, &rows[i]).is_eq() {
            let _row = rows.remove(i);
            return;
        }
    }
}

/// The rows after a change.
pub fn changed(alloc: Global, delta: &Delta, rows: &[Row]) -> Result<Rows, NoMemory>
    ensures { IfOk result (λ made. made ≡ deltas.changed delta.now rows.now) }
{
    let mut made = copy_rows(alloc, rows)?;
    for row in delta.removed.as_slice() {
        take_out(&mut made, row);
    }
    let mut made = Seq::from_vec(made);
    made.append(delta.added.copy(alloc)?)?;
    Ok(made)
}

fn copy_rows(alloc: Global, rows: &[Row]) -> Result<Vec<Row>, NoMemory>
    ensures { IfOk result (λ made. made.items ≡ rows.now) }
{
    let mut made = Vec::with_capacity(alloc, rows.len())?;
    for row in rows {
        made.push(row.copy(alloc)?)?;
    }
    Ok(made)
}

/// The tables, with these rows under the name.
pub fn put_rows(
    alloc: Global,
    source: &Text,
    rows: Rows,
    tables: &[StoredTable],
) -> Result<Tables, NoMemory>
    ensures { IfOk result (λ made. made ≡ spec.put_rows source.now rows tables.now) }
{
    let mut made = Seq::new(alloc);
    made.push(StoredTable {
        source: source.copy(alloc)?,
        rows,
    })?;
    for table in tables {
        if table.source != *source {
            made.push(table.copy(alloc)?)?;
        }
    }
    Ok(made)
}

/// The definition with the number.
pub fn find_def(defs: &[TableDef], number: u32) -> Option<&TableDef>
    ensures { FindsDef number defs.now (option_copied result) }
{
    for def in defs {
        if def.number == number {
            return Some(def);
        }
    }
    None
}
