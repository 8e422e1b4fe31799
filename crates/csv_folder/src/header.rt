//! The header of a file: the names of its columns.

ghost use Rattle.std.specs.Prelude.{◌≡◌, IfOk};
ghost use Rattle.std.specs.Str.{str_to_ascii_lowercase};
ghost use Rattle.csv.specs.Records.{fields_of};
ghost use Rattle.csv_folder.specs.Cells.{same_folded};
ghost use Rattle.csv_folder.specs.Header as spec;
ghost use Rattle.csv_folder.specs.Places.{FindsPlace, FindsPlaces};

use crate::cells::same_folded;
use crate::records::field;
use crate::seen::Seen;
use csv::ByteRecord;
use std::alloc::Global;
use vdb_base::{Bytes, NoMemory, Seq};
use vdb_model::ColumnDef;

fn folded(alloc: Global, name: &[u8]) -> Result<Bytes, NoMemory>
    ensures { IfOk result (λ made. made ≡ str_to_ascii_lowercase name.now) }
{
    Ok(Seq::from_vec(name.to_ascii_lowercase(alloc)?))
}

/// Whether no name stands twice.
pub fn are_apart(alloc: Global, header: &ByteRecord) -> Result<bool, NoMemory>
    ensures { IfOk result (λ apart. apart ≡ spec.are_apart same_folded (fields_of header.now)) }
{
    let mut seen: Seen<Bytes> = Seen::new(alloc);
    for at in 0..header.len() {
        let name = folded(alloc, field(header, at))?;
        if !seen.add(name)? {
            return Ok(false);
        }
    }
    Ok(true)
}

/// Where a name stands.
fn place_of(name: &[u8], header: &ByteRecord) -> Option<usize>
    ensures { FindsPlace name.now (fields_of header.now) result }
{
    for at in 0..header.len() {
        if same_folded(name, field(header, at)) {
            return Some(at);
        }
    }
    None
}

/// Where the columns stand, by their source names; none where one doesn't.
pub fn places_of(
    alloc: Global,
    columns: &[ColumnDef],
    header: &ByteRecord,
) -> Result<Option<Vec<usize>>, NoMemory>
    ensures { IfOk result (FindsPlaces columns.now (fields_of header.now)) }
{
    let mut places = Vec::with_capacity(alloc, columns.len())?;
    for column in columns {
        match place_of(column.source.as_bytes(), header) {
            Some(place) => places.push(place)?,
            None => return Ok(None),
        }
    }
    Ok(Some(places))
}
