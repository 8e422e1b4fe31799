//! CREATE FOREIGN TABLE.

ghost use Rattle.std.specs.Prelude.{◌≡◌, IfOk};
ghost use Rattle.std.specs.List.{list_any};
ghost use Rattle.metadata.specs.Answers.{Passes, Becomes};
ghost use Rattle.metadata.specs.Sound.{IsSound};
ghost use Rattle.metadata.specs.Tables as spec;
ghost use Rattle.metadata.specs.Tests.{first};

use crate::columns::{column_count, columns_of, key_of};
use crate::fault::DeployRefusal;
use crate::options::{Owner, is_updatable, source_of, taken_options};
use crate::parts::{free_parts, is_one_source, known_parts, named_parts, taken_parts, whole_parts};
use crate::so_far::{SoFar, good_name, number};
use sql_reader::tree::Name;
use std::alloc::Global;
use vdb_base::{NoMemory, Seq, Text};
use vdb_ddl::tree::{Setting, Settings, TablePart, TableParts};
use vdb_model::{DeployFault, Kind, ServerDef, TableDef};

/// Whether source names have to differ on the server.
fn names_apart(server: &ServerDef) -> bool
    ensures { result ≡ spec.names_apart server.now }
{
    match server.kind {
        Kind::Mem => true,
        Kind::Csv => server.caps.writes,
        Kind::Sqlite => true,
    }
}

/// The number of the server of the schema that is set.
fn server_number(s: &SoFar) -> u32
    ensures { result ≡ spec.server_number s.now }
{
    match &s.schema {
        None => 0,
        Some(schema) => schema.server.unwrap_or(0),
    }
}

/// Whether source names have to differ on the server of the schema that is set.
fn set_names_apart(s: &SoFar) -> bool
    ensures { result ≡ spec.names_apart (spec.server_set s.now) }
{
    match s.catalog.servers().get(server_number(s) as usize) {
        None => false,
        Some(server) => names_apart(server),
    }
}

/// Refused in a virtual schema.
fn in_schema_of_server(alloc: Global, s: &SoFar, name: &Name) -> Result<(), DeployRefusal>
    ensures { Passes (spec.in_virtual s.now name.now) result }
{
    if s.is_virtual() {
        let name = s.relation_text(alloc, name)?;
        return Err(DeployRefusal::Refused(DeployFault::WrongKind { name }));
    }
    Ok(())
}

/// Whether a table of the server has the source name.
fn is_stored(server: u32, source: &Text, tables: &[TableDef]) -> bool
    ensures { result ≡ list_any (spec.is_stored server source.now) tables.now }
{
    for table in tables {
        if table.server == server && is_one_source(source, &table.source) {
            return true;
        }
    }
    false
}

/// Whether the source name is taken on the server of the schema that is set.
fn has_source(s: &SoFar, source: &Text) -> bool
    ensures { result ≡ spec.has_source s.now source.now }
{
    set_names_apart(s) && is_stored(server_number(s), source, s.catalog.tables().as_slice())
}

/// Refused where the name or the source name of the table is taken.
fn free_table(
    alloc: Global,
    s: &SoFar,
    name: &Name,
    options: &[Setting],
) -> Result<(), DeployRefusal>
    ensures { Passes (spec.table_taken s.now name.now options.now) result }
{
    let source = source_of(alloc, &name.text, options)?;
    if s.is_taken(name) || has_source(s, &source) {
        let name = s.relation_text(alloc, name)?;
        return Err(DeployRefusal::Refused(DeployFault::Duplicate { name }));
    }
    Ok(())
}

/// The definition of the table, whose number is its place.
fn table_of(
    alloc: Global,
    s: &SoFar,
    name: &Name,
    parts: &[TablePart],
    options: &[Setting],
) -> Result<TableDef, NoMemory>
    ensures { IfOk result (λ made. made ≡ spec.table_of s.now name.now parts.now options.now) }
{
    let columns = columns_of(alloc, parts)?;
    let key = key_of(alloc, columns.as_slice(), parts)?;
    Ok(TableDef {
        number: number(s.catalog.tables().len())?,
        server: server_number(s),
        schema: s.schema_name(alloc)?,
        name: name.text.copy(alloc)?,
        source: source_of(alloc, &name.text, options)?,
        columns,
        key,
        patterns: Seq::new(alloc),
        updatable: is_updatable(options),
    })
}

/// The tests of a table up to the options of its columns.
fn sound_table(
    alloc: Global,
    s: &SoFar,
    name: &Name,
    parts: &[TablePart],
    options: &[Setting],
) -> Result<(), DeployRefusal>
    ensures { Passes (first (spec.table_tests s.now name.now parts.now options.now)) result }
{
    s.has_schema(alloc, name)?;
    known_parts(alloc, parts)?;
    in_schema_of_server(alloc, s, name)?;
    free_table(alloc, s, name, options)?;
    let table = s.relation_text(alloc, name)?;
    free_parts(alloc, set_names_apart(s), &table, parts)?;
    whole_parts(parts)?;
    taken_parts(parts)?;
    taken_options(Owner::Table, options)?;
    s.few_relations(alloc, name)?;
    s.good_column_count(alloc, name, column_count(parts))?;
    good_name(alloc, &name.text)?;
    named_parts(alloc, parts)
}

pub(crate) fn create_table(
    alloc: Global,
    s: &mut SoFar,
    name: &Name,
    parts: &TableParts,
    options: &Settings,
) -> Result<(), DeployRefusal>
    requires { IsSound s.old }
    ensures { Becomes (spec.create_table s.old name.now parts.now options.now) result s.new }
{
    let parts = parts.as_slice();
    let options = options.as_slice();
    sound_table(alloc, s, name, parts, options)?;
    let table = table_of(alloc, s, name, parts, options)?;
    Ok(s.catalog.add_table(table)?)
}
