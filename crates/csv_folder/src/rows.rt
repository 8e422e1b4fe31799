//! Rows and keys from records.

ghost use Rattle.std.specs.Prelude.{◌≡◌, IfOk, Some, slice_index_or};
ghost use Rattle.csv.specs.Records.{fields_of};
ghost use Rattle.vdb_base.specs.declared.value.Value.TheVariants.{Null};
ghost use Rattle.csv_folder.specs.Keys as keys;
ghost use Rattle.csv_folder.specs.Places.{cells_at, IsRow};

use crate::cells::cell_of;
use crate::records::field;
use csv::ByteRecord;
use std::alloc::Global;
use vdb_base::{NoMemory, Row, Seq, Value};
use vdb_model::ColumnDef;

/// A record as a row, or the place, from 1, of the first cell that its column doesn't take.
#[derive(Drop)]
pub enum RowRead {
    Row(Row),
    Bad(usize),
}

/// The cell of a column, by its place among the columns.
fn cell_at(
    alloc: Global,
    columns: &[ColumnDef],
    places: &[usize],
    fields: &ByteRecord,
    at: usize,
) -> Result<Option<Value>, NoMemory>
    ensures { IfOk result (λ v. v ≡ slice_index_or (cells_at columns.now places.now (fields_of fields.now)) at (Some Null)) }
{
    if columns.len().min(places.len()) <= at {
        return Ok(Some(Value::Null));
    }
    cell_of(alloc, &columns[at], field(fields, places[at]))
}

/// A record as a row of the columns, which have these places in it.
pub fn read_row(
    alloc: Global,
    columns: &[ColumnDef],
    places: &[usize],
    fields: &ByteRecord,
) -> Result<RowRead, NoMemory>
    ensures { IfOk result (IsRow (cells_at columns.now places.now (fields_of fields.now))) }
{
    let mut row = Vec::with_capacity(alloc, columns.len())?;
    for at in 0..columns.len().min(places.len()) {
        match cell_of(alloc, &columns[at], field(fields, places[at]))? {
            Some(v) => row.push(v)?,
            None => return Ok(RowRead::Bad(at + 1)),
        }
    }
    Ok(RowRead::Row(Seq::from_vec(row)))
}

/// The values of a record in the columns of a key, where each has one.
pub fn key_of(
    alloc: Global,
    columns: &[ColumnDef],
    places: &[usize],
    fields: &ByteRecord,
    ats: &[u32],
) -> Result<Option<Row>, NoMemory>
    ensures { IfOk result (λ key. key ≡ keys.key_of ats.now (cells_at columns.now places.now (fields_of fields.now))) }
{
    let mut key = Vec::with_capacity(alloc, ats.len())?;
    for at in ats {
        match cell_at(alloc, columns, places, fields, *at as usize)? {
            Some(v) => key.push(v)?,
            None => return Ok(None),
        }
    }
    Ok(Some(Seq::from_vec(key)))
}
