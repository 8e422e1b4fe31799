//! CREATE DATABASE and USE DATABASE.

ghost use Rattle.std.specs.Prelude.{◌≡◌};
ghost use Rattle.metadata.specs.Answers.{Passes, Becomes};
ghost use Rattle.metadata.specs.Databases as spec;

use crate::fault::DeployRefusal;
use crate::so_far::SoFar;
use sql_reader::tree::Name;
use std::alloc::Global;
use vdb_base::Text;
use vdb_model::{DeployFault, printed};

fn is_database(database: &Option<Text>, name: &Text) -> bool
    ensures { result ≡ spec.is_database database.now name.now }
{
    match database {
        None => false,
        Some(database) => *database == *name,
    }
}

/// Refused where a database is there.
fn no_database(alloc: Global, s: &SoFar, name: &Name) -> Result<(), DeployRefusal>
    ensures { Passes (spec.second_database s.now name.now) result }
{
    if s.database.is_some() {
        let name = printed(alloc, &name.text)?;
        return Err(DeployRefusal::Refused(DeployFault::Duplicate { name }));
    }
    Ok(())
}

/// Refused where the database isn't there.
fn known_database(alloc: Global, s: &SoFar, name: &Name) -> Result<(), DeployRefusal>
    ensures { Passes (spec.unknown_database s.now name.now) result }
{
    if !is_database(&s.database, &name.text) {
        let name = printed(alloc, &name.text)?;
        return Err(DeployRefusal::Refused(DeployFault::Unknown { name }));
    }
    Ok(())
}

pub(crate) fn create_database(
    alloc: Global,
    s: &mut SoFar,
    name: &Name,
) -> Result<(), DeployRefusal>
    ensures { Becomes (spec.create_database s.old name.now) result s.new }
{
    no_database(alloc, s, name)?;
    s.database = Some(name.text.copy(alloc)?);
    Ok(())
}

pub(crate) fn use_database(alloc: Global, s: &SoFar, name: &Name) -> Result<(), DeployRefusal>
    ensures { Becomes (spec.use_database s.now name.now) result s.now }
{
    known_database(alloc, s, name)
}
