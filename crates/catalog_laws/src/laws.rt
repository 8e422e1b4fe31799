//! The law: the contract of a function that takes nothing and does nothing.

ghost use Rattle.catalog_laws.specs.Over.{DeployedIsOver};

/// Of what is deployed each server is the connection of its name, with its capabilities lowered by options, and no table has
/// an access pattern.
pub fn deployed_is_over()
    ensures { DeployedIsOver }
{}
