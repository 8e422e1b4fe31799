//! The tables of a folder.

ghost use Rattle.std.specs.Prelude.{◌≡◌, IfOk};
ghost use Rattle.std.specs.Option.{option_map};
ghost use Rattle.vdb_model.specs.World as world;
ghost use Rattle.csv_folder.specs.Folder as spec;
ghost use Rattle.csv_folder.specs.Told.{ReadsTables};
ghost use Rattle.csv_folder.specs.Saying.{IsTableAnswer};

use crate::file::File;
use crate::said::Said;
use crate::table::read_table;
use resource::AttachFault;
use std::alloc::Global;
use vdb_base::{NoMemory, Row, Rows, Seq, Text};
use vdb_model::TableDef;

/// The file with the name.
fn bytes_named<'a>(files: &'a [File], name: &Text) -> Option<&'a [u8]>
    ensures { option_map (λ bytes. bytes.now) result ≡ spec.bytes_named name.now files.now }
{
    for file in files {
        if file.name == *name {
            return Some(file.bytes.as_slice());
        }
    }
    None
}

fn file_name(alloc: Global, def: &TableDef) -> Result<Text, NoMemory>
    ensures { IfOk result (λ made. made ≡ spec.file_name def.now) }
{
    let mut name = def.source.copy(alloc)?;
    name.push_str(".csv")?;
    Ok(name)
}

/// What the file of a table says.
fn said_of(alloc: Global, files: &[File], def: &TableDef) -> Result<Said, NoMemory>
    ensures { IfOk result (λ said. said ≡ spec.table_says files.now def.now) }
{
    let name = file_name(alloc, def)?;
    match bytes_named(files, &name) {
        Some(bytes) => read_table(alloc, def, bytes),
        None => Ok(Said::Broken),
    }
}

/// The rows of a table.
fn table_of(alloc: Global, files: &[File], def: &TableDef) -> Result<Rows, AttachFault>
    ensures { IsTableAnswer def.now (spec.table_says files.now def.now) result }
{
    let table = u64::from(def.number) + 1;
    match said_of(alloc, files, def) {
        Ok(Said::Rows(rows)) => Ok(rows),
        Ok(Said::Broken) => Err(AttachFault::BadStore { table }),
        Ok(Said::BadCell { row, col }) => Err(AttachFault::BadCell { table, row, col }),
        Err(NoMemory) => Err(AttachFault::Memory),
    }
}

/// The rows of each table in turn, up to the first fault.
pub fn read_tables(
    alloc: Global,
    files: &[File],
    defs: &[TableDef],
) -> Result<Seq<Rows>, AttachFault>
    ensures { ReadsTables (spec.read_folder files.now defs.now) result }
{
    let mut tables = Seq::new(alloc);
    for def in defs {
        match table_of(alloc, files, def) {
            Ok(rows) => {
                if tables.push(rows).is_err() {
                    return Err(AttachFault::Memory);
                }
            }
            Err(fault) => return Err(fault),
        }
    }
    Ok(tables)
}

/// The rows of the table with the number, among those of the definitions in turn.
pub fn rows_of<'a>(tables: &'a [Rows], defs: &[TableDef], number: u32) -> &'a [Row]
    ensures { result.now ≡ world.table_rows defs.now tables.now number }
{
    for at in 0..tables.len().min(defs.len()) {
        if defs[at].number == number {
            return tables[at].as_slice();
        }
    }
    &[]
}
