//! The types of a DDL by their names.

ghost use Rattle.std.specs.Prelude.{◌≡◌};
ghost use Rattle.metadata.specs.Answers.{Passes};
ghost use Rattle.metadata.specs.Types as spec;

use crate::fault::DeployRefusal;
use sql_reader::tree::Name;
use std::alloc::Global;
use vdb_base::Ty;
use vdb_model::{DeployFault, printed};

/// The type of the name.
fn type_named(name: &str) -> Option<Ty>
    ensures { result ≡ spec.type_named name.now }
{
    if name == "boolean" {
        Some(Ty::Boolean)
    } else if name == "integer" {
        Some(Ty::Integer)
    } else if name == "int" {
        Some(Ty::Integer)
    } else if name == "long" {
        Some(Ty::Long)
    } else if name == "bigint" {
        Some(Ty::Long)
    } else if name == "biginteger" {
        Some(Ty::BigInteger)
    } else if name == "string" {
        Some(Ty::Str)
    } else if name == "varchar" {
        Some(Ty::Str)
    } else {
        None
    }
}

fn is_fractional(name: &str) -> bool
    ensures { result ≡ spec.is_fractional name.now }
{
    name == "float"
        || name == "double"
        || name == "real"
        || name == "decimal"
        || name == "numeric"
        || name == "bigdecimal"
}

/// Refused where no type has the name; types with fractions are left to their own test.
pub(crate) fn known_type(alloc: Global, ty: &Name) -> Result<(), DeployRefusal>
    ensures { Passes (spec.unknown_type ty.now) result }
{
    if is_fractional(ty.text.as_str()) || type_named(ty.text.as_str()).is_some() {
        return Ok(());
    }
    let name = printed(alloc, &ty.text)?;
    Err(DeployRefusal::Refused(DeployFault::Unknown { name }))
}

/// Refused where the type has fractions.
pub(crate) fn whole_type(ty: &Name) -> Result<(), DeployRefusal>
    ensures { Passes (spec.fractional_type ty.now) result }
{
    if is_fractional(ty.text.as_str()) {
        return Err(DeployRefusal::Refused(DeployFault::FractionalType { at: ty.at as u64 }));
    }
    Ok(())
}

/// The type of a name that no test refuses.
pub(crate) fn type_of(ty: &Name) -> Ty
    ensures { result ≡ spec.type_of ty.now }
{
    type_named(ty.text.as_str()).unwrap_or(Ty::Boolean)
}
