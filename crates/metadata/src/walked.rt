//! Deployments whose views' queries the resolver types.

ghost use Rattle.metadata.specs.Deployed.{IsDeployed};
ghost use Rattle.resolver.specs.Queries.{query_walk};

use crate::connection::ConnInfos;
use crate::deployment::deploy_by;
use crate::fault::DeployRefusal;
use crate::walk::{ViewWalk, WalkFault};
use resolver::{ResolveFault, resolve_view};
use sql_reader::tree::Query;
use std::alloc::Global;
use vdb_ddl::tree::Items;
use vdb_model::{Catalog, Ranked};
use walk_laws::{queries_are_closed, queries_are_typed};

/// The resolver's walk.
struct Resolver;

impl ViewWalk for Resolver {
    ghost use Rattle.resolver.specs.Queries.{query_walk};

    ghost walk = { λ self defined query. query_walk defined query };

    fn walk_view(&self, alloc: Global, cat: &Catalog, query: &Query) -> Result<Ranked, WalkFault> {
        queries_are_closed();
        queries_are_typed();
        cat.is_well_formed();
        match resolve_view(alloc, cat, query) {
            Ok(query) => Ok(query),
            Err(ResolveFault::Refused(refusal)) => Err(WalkFault::Refused(refusal)),
            Err(ResolveFault::Memory) => Err(WalkFault::Memory),
        }
    }
}

/// Deploys items over connections: what they define, or the first fault.
pub fn deploy(alloc: Global, items: &Items, conns: &ConnInfos) -> Result<Catalog, DeployRefusal>
    ensures { IsDeployed query_walk conns.now items.now result }
{
    deploy_by(alloc, &Resolver, items, conns)
}
