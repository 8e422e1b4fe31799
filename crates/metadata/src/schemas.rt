//! CREATE SCHEMA, CREATE VIRTUAL SCHEMA and SET SCHEMA.

ghost use Rattle.std.specs.Prelude.{◌≡◌, IfOk, OnOk};
ghost use Rattle.metadata.specs.Answers.{Passes, Becomes};
ghost use Rattle.metadata.specs.Schemas as spec;
ghost use Rattle.metadata.specs.SoFar.{schema_named, server_named};
ghost use Rattle.metadata.specs.Sound.{IsSound};
ghost use Rattle.vdb_model.specs.WellFormed.{IsWellFormed};

use crate::fault::DeployRefusal;
use crate::so_far::{SoFar, added, few, find_schema, find_server, good_name, number};
use sql_reader::tree::Name;
use std::alloc::Global;
use vdb_base::NoMemory;
use vdb_model::{DeployFault, SchemaDef, printed};

/// Refused where the server isn't there.
fn known_server(alloc: Global, s: &SoFar, name: &Name) -> Result<(), DeployRefusal>
    ensures { Passes (spec.unknown_server s.now name.now) result }
{
    if find_server(s.catalog.servers().as_slice(), &name.text).is_none() {
        let name = printed(alloc, &name.text)?;
        return Err(DeployRefusal::Refused(DeployFault::Unknown { name }));
    }
    Ok(())
}

/// Refused where the schema isn't there.
fn known_schema(alloc: Global, s: &SoFar, name: &Name) -> Result<(), DeployRefusal>
    ensures { Passes (spec.unknown_schema s.now name.now) result }
{
    if find_schema(s.catalog.schemas().as_slice(), &name.text).is_none() {
        let name = printed(alloc, &name.text)?;
        return Err(DeployRefusal::Refused(DeployFault::Unknown { name }));
    }
    Ok(())
}

/// Refused where a schema has the name.
fn free_schema(alloc: Global, s: &SoFar, name: &Name) -> Result<(), DeployRefusal>
    ensures { Passes (spec.schema_taken s.now name.now) result }
{
    if find_schema(s.catalog.schemas().as_slice(), &name.text).is_some() {
        let name = printed(alloc, &name.text)?;
        return Err(DeployRefusal::Refused(DeployFault::Duplicate { name }));
    }
    Ok(())
}

/// Refused where there are too many schemas with one more.
fn few_schemas(alloc: Global, s: &SoFar, name: &Name) -> Result<(), DeployRefusal>
    ensures { Passes (spec.too_many_schemas s.now name.now) result }
{
    let count = added(s.catalog.schemas().len(), 1)?;
    few(64, count as u64, printed(alloc, &name.text)?)
}

fn add_schema(
    alloc: Global,
    s: &mut SoFar,
    name: &Name,
    server: Option<u32>,
) -> Result<(), NoMemory>
    requires { IsWellFormed (spec.with_schema s.old name.now server).catalog }
    ensures { OnOk result (s.new ≡ spec.with_schema s.old name.now server) }
{
    let name = name.text.copy(alloc)?;
    s.catalog.add_schema(SchemaDef { name, server })
}

/// The server of the name, by its number.
fn numbered_server(s: &SoFar, server: &Name) -> Result<Option<u32>, NoMemory>
    ensures { IfOk result (λ made. made ≡ server_named 0 s.now.catalog.servers server.now.text) }
{
    match find_server(s.catalog.servers().as_slice(), &server.text) {
        None => Ok(None),
        Some(at) => Ok(Some(number(at)?)),
    }
}

pub(crate) fn create_schema(
    alloc: Global,
    s: &mut SoFar,
    name: &Name,
    server: &Name,
) -> Result<(), DeployRefusal>
    requires { IsSound s.old }
    ensures { Becomes (spec.create_schema s.old name.now server.now) result s.new }
{
    known_server(alloc, s, server)?;
    free_schema(alloc, s, name)?;
    few_schemas(alloc, s, name)?;
    good_name(alloc, &name.text)?;
    let server = numbered_server(s, server)?;
    Ok(add_schema(alloc, s, name, server)?)
}

pub(crate) fn create_virtual_schema(
    alloc: Global,
    s: &mut SoFar,
    name: &Name,
) -> Result<(), DeployRefusal>
    requires { IsSound s.old }
    ensures { Becomes (spec.create_virtual_schema s.old name.now) result s.new }
{
    free_schema(alloc, s, name)?;
    few_schemas(alloc, s, name)?;
    good_name(alloc, &name.text)?;
    Ok(add_schema(alloc, s, name, None)?)
}

/// The schema of the name, copied.
fn copied_schema(alloc: Global, s: &SoFar, name: &Name) -> Result<Option<SchemaDef>, NoMemory>
    ensures { IfOk result (λ made. made ≡ schema_named s.now.catalog.schemas name.now.text) }
{
    match find_schema(s.catalog.schemas().as_slice(), &name.text) {
        None => Ok(None),
        Some(schema) => Ok(Some(SchemaDef {
            name: schema.name.copy(alloc)?,
            server: schema.server,
        })),
    }
}

pub(crate) fn set_schema(alloc: Global, s: &mut SoFar, name: &Name) -> Result<(), DeployRefusal>
    ensures { Becomes (spec.set_schema s.old name.now) result s.new }
{
    known_schema(alloc, s, name)?;
    s.schema = copied_schema(alloc, s, name)?;
    Ok(())
}
