//! A table from the bytes of its file.

ghost use Rattle.std.specs.Prelude.{◌≡◌, ◌∷◌, Some, IfOk, OnOk};
ghost use Rattle.csv.specs.Records.{fields_of};
ghost use Rattle.csv_folder.specs.Records.{IsGoing, left_of};
ghost use Rattle.csv_folder.specs.Table.{file_says, records_say, said_of};
ghost use Rattle.csv_folder.specs.Places.{cells_at};
ghost use Rattle.csv_folder.specs.SoFar.{IsFresh, left_say};

use crate::header::{are_apart, places_of};
use crate::records::{read_next, reader_of};
use crate::rows::{RowRead, key_of, read_row};
use crate::said::{Place, Said};
use crate::seen::Seen;
use csv::{ByteRecord, Reader};
use std::alloc::Global;
use vdb_base::{NoMemory, Nums, Row, Rows, Seq};
use vdb_model::{ColumnDef, TableDef};

/// The most bytes that a file may have.
const FILE_LIMIT: usize = 67_108_864;

/// The rows of the records so far, up to the first bad cell.
#[derive(Drop)]
pub struct Made {
    pub rows: Rows,
    pub bad: Option<Place>,
}

impl Made {
    ghost use Rattle.csv_folder.specs.SoFar.{TakesRow};

    /// Takes a record as a row, where no cell was bad yet.
    fn take(
        &mut self,
        alloc: Global,
        columns: &[ColumnDef],
        places: &[usize],
        fields: &ByteRecord,
        row: u64,
    ) -> Result<(), NoMemory>
        ensures { OnOk result (TakesRow row (cells_at columns.now places.now (fields_of fields.now)) self.old self.new) }
    {
        if self.bad.is_some() {
            return Ok(());
        }
        match read_row(alloc, columns, places, fields)? {
            RowRead::Row(cells) => self.rows.push(cells)?,
            RowRead::Bad(col) => {
                self.bad = Some(Place {
                    row,
                    col: col as u64,
                });
            }
        }
        Ok(())
    }

    fn end(self) -> Said
        ensures { result ≡ said_of self.bad self.rows }
    {
        let Made { rows, bad } = self;
        match bad {
            Some(place) => Said::BadCell {
                row: place.row,
                col: place.col,
            },
            None => Said::Rows(rows),
        }
    }
}

/// Whether the key of a record is new, where one is declared and the record has one.
fn is_fresh(
    alloc: Global,
    key: &Option<Nums>,
    columns: &[ColumnDef],
    places: &[usize],
    fields: &ByteRecord,
    seen: &mut Seen<Row>,
) -> Result<bool, NoMemory>
    ensures { IfOk result (IsFresh key.now (cells_at columns.now places.now (fields_of fields.now)) seen.old seen.new) }
{
    let Some(ats) = key else {
        return Ok(true);
    };
    match key_of(alloc, columns, places, fields, ats.as_slice())? {
        Some(key) => seen.add(key),
        None => Ok(true),
    }
}

/// What the records that are left say, in one pass. The form of all of them stands before the first bad cell.
fn read_records(
    alloc: Global,
    def: &TableDef,
    places: &[usize],
    width: usize,
    reader: &mut Reader<&[u8]>,
) -> Result<Said, NoMemory>
    requires { IsGoing reader.old }
    ensures { IfOk result (λ said. said ≡ left_say def.now places.now width (left_of reader.old)) }
{
    let columns = def.columns.as_slice();
    let mut fields = ByteRecord::new(alloc);
    let mut seen = Seen::new(alloc);
    let mut made = Made {
        rows: Seq::new(alloc),
        bad: None,
    };
    for at in 0..u64::MAX {
        if !read_next(reader, &mut fields)? {
            return Ok(made.end());
        }
        if fields.len() != width {
            return Ok(Said::Broken);
        }
        if !is_fresh(alloc, &def.key, columns, places, &fields, &mut seen)? {
            return Ok(Said::Broken);
        }
        made.take(alloc, columns, places, &fields, at + 1)?;
    }
    Err(NoMemory)
}

/// What the records say under a header.
fn read_under(
    alloc: Global,
    def: &TableDef,
    header: &ByteRecord,
    reader: &mut Reader<&[u8]>,
) -> Result<Said, NoMemory>
    requires { IsGoing reader.old }
    ensures { IfOk result (λ said. said ≡ records_say def.now (fields_of header.now ∷ left_of reader.old)) }
{
    if !are_apart(alloc, header)? {
        return Ok(Said::Broken);
    }
    match places_of(alloc, def.columns.as_slice(), header)? {
        Some(places) => read_records(alloc, def, places.as_slice(), header.len(), reader),
        None => Ok(Said::Broken),
    }
}

/// What a file says of a table.
pub fn read_table(alloc: Global, def: &TableDef, bytes: &[u8]) -> Result<Said, NoMemory>
    ensures { IfOk result (λ said. said ≡ file_says def.now (Some bytes.now)) }
{
    if FILE_LIMIT < bytes.len() {
        return Ok(Said::Broken);
    }
    let mut reader = reader_of(alloc, bytes);
    let mut header = ByteRecord::new(alloc);
    if !read_next(&mut reader, &mut header)? {
        return Ok(Said::Broken);
    }
    read_under(alloc, def, &header, &mut reader)
}
