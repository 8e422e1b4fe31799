//! Reading the records of a file one by one.

ghost use Rattle.std.specs.Prelude.{◌≡◌, IfOk, slice_index_or, []};
ghost use Rattle.csv.specs.Records.{fields_of};
ghost use Rattle.csv_folder.specs.Records.{IsGoing, IsNext, left_of, records_in};

use csv::{ByteRecord, Reader, ReaderBuilder};
use std::alloc::Global;
use vdb_base::NoMemory;

/// A reader of the records of a file. No record is a header to it, and records may differ in length.
pub fn reader_of(alloc: Global, bytes: &[u8]) -> Reader<&[u8]>
    ensures going { IsGoing result }
    ensures left { left_of result ≡ records_in bytes.now }
{
    ReaderBuilder::new()
        .has_headers(false)
        .flexible(true)
        .from_reader(alloc, bytes)
}

/// The next record into `fields`, and whether there was one. Over bytes in memory `csv` fails for want of memory alone.
pub fn read_next(reader: &mut Reader<&[u8]>, fields: &mut ByteRecord) -> Result<bool, NoMemory>
    requires { IsGoing reader.old }
    ensures { IfOk result (λ found. IsNext found reader.old reader.new (fields_of fields.new)) }
{
    match reader.read_byte_record(fields).ok() {
        Some(found) => Ok(found),
        None => Err(NoMemory),
    }
}

/// The field at a place; past the end of the record one without bytes.
pub fn field(fields: &ByteRecord, at: usize) -> &[u8]
    ensures { result.now ≡ slice_index_or (fields_of fields.now) at [] }
{
    match fields.get(at) {
        Some(field) => field,
        None => &[],
    }
}
