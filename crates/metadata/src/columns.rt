//! What stands between the commas of a foreign table: its columns, and its primary key.

ghost use Rattle.std.specs.Prelude.{◌≡◌, IfOk};
ghost use Rattle.std.specs.List.{list_any};
ghost use Rattle.metadata.specs.Columns as spec;

use crate::options::source_of;
use crate::so_far::number;
use crate::types::type_of;
use sql_reader::tree::Name;
use std::alloc::Global;
use vdb_base::{NoMemory, Nums, Seq, Text};
use vdb_ddl::tree::TablePart;
use vdb_model::{ColumnDef, ColumnDefs};

/// How many columns there are.
pub(crate) fn column_count(parts: &[TablePart]) -> usize
    ensures { result ≡ spec.column_count parts.now }
{
    let mut count = 0;
    for part in parts {
        match part {
            TablePart::Column { .. } => count += 1,
            TablePart::PrimaryKey { .. } => {}
        }
    }
    count
}

/// Whether the name is one of these.
fn is_named(name: &Text, names: &[Name]) -> bool
    ensures { result ≡ list_any (spec.names name.now) names.now }
{
    for other in names {
        if other.text == *name {
            return true;
        }
    }
    false
}

/// Whether a primary key has the column.
fn is_in_key(parts: &[TablePart], name: &Text) -> bool
    ensures { result ≡ spec.is_in_key parts.now name.now }
{
    for part in parts {
        match part {
            TablePart::Column { .. } => {}
            TablePart::PrimaryKey { columns } => {
                if is_named(name, columns.as_slice()) {
                    return true;
                }
            }
        }
    }
    false
}

/// The columns of a table with these parts.
pub(crate) fn columns_of(alloc: Global, parts: &[TablePart]) -> Result<ColumnDefs, NoMemory>
    ensures { IfOk result (λ made. made ≡ spec.columns_of parts.now parts.now) }
{
    let mut made = Seq::new(alloc);
    for part in parts {
        match part {
            TablePart::Column {
                name,
                ty,
                not_null,
                options,
            } => {
                made.push(ColumnDef {
                    name: name.text.copy(alloc)?,
                    source: source_of(alloc, &name.text, options.as_slice())?,
                    ty: type_of(ty),
                    not_null: *not_null || is_in_key(parts, &name.text),
                })?;
            }
            TablePart::PrimaryKey { .. } => {}
        }
    }
    Ok(made)
}

/// The place of the column of the name, or past the last where none has it.
fn place_of(columns: &[ColumnDef], name: &Text) -> usize
    ensures { result ≡ spec.place_from 0 columns.now name.now }
{
    for (at, column) in columns.iter().enumerate() {
        if column.name == *name {
            return at;
        }
    }
    columns.len()
}

fn places_of(alloc: Global, columns: &[ColumnDef], names: &[Name]) -> Result<Nums, NoMemory>
    ensures { IfOk result (λ made. made ≡ spec.places_of columns.now names.now) }
{
    let mut made = Seq::new(alloc);
    for name in names {
        made.push(number(place_of(columns, &name.text))?)?;
    }
    Ok(made)
}

/// The columns of the primary key by their places; one without columns is no key.
pub(crate) fn key_of(
    alloc: Global,
    columns: &[ColumnDef],
    parts: &[TablePart],
) -> Result<Option<Nums>, NoMemory>
    ensures { IfOk result (λ made. made ≡ spec.key_of columns.now parts.now) }
{
    for part in parts {
        match part {
            TablePart::Column { .. } => {}
            TablePart::PrimaryKey { columns: names } => {
                if names.len() != 0 {
                    return Ok(Some(places_of(alloc, columns, names.as_slice())?));
                }
            }
        }
    }
    Ok(None)
}
