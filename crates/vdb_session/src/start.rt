//! Starting over lanes: from the bytes of a DDL to a catalog, and each lane attached.

ghost use Rattle.std.specs.Prelude.{◌≡◌, map, IsTrue, IfOk};
ghost use Rattle.vdb_session.specs.Attaching.{StayStored};
ghost use Rattle.vdb_session.specs.Deploying as spec;
ghost use Rattle.vdb_session.specs.Lanes.{are_apart, are_here, names_of};
ghost use Rattle.vdb_session.specs.Starting.{connection};

use crate::attaching::attach_lanes;
use crate::parts::StartFault;
use catalog_laws::deployed_is_over;
use metadata::{ConnInfo, ConnInfos, DeployRefusal, deploy};
use resource::{Lane, Lanes, Resource};
use sql_reader::read::ReadFault;
use std::alloc::Global;
use vdb_base::{NoMemory, Seq};
use vdb_ddl::read_ddl;
use vdb_model::{Catalog, DeployFault};

fn connection_of<S: Resource>(alloc: Global, lane: &Lane<S>) -> Result<ConnInfo, NoMemory>
    ensures { IfOk result (λ conn. conn ≡ connection S.told lane.now) }
{
    Ok(ConnInfo {
        name: lane.name.copy(alloc)?,
        kind: lane.kind,
        caps: lane.res.caps(),
    })
}

/// The connections that the lanes are.
fn connections<S: Resource>(alloc: Global, lanes: &[Lane<S>]) -> Result<ConnInfos, NoMemory>
    ensures { IfOk result (λ conns. conns ≡ map (connection S.told) lanes.now) }
{
    let mut conns = Seq::new(alloc);
    for lane in lanes {
        conns.push(connection_of(alloc, lane)?)?;
    }
    Ok(conns)
}

/// What a DDL defines over the lanes.
fn deploy_text<S: Resource>(
    alloc: Global,
    ddl: &[u8],
    lanes: &[Lane<S>],
) -> Result<Catalog, StartFault>
    ensures { spec.DeploysText S.told ddl.now lanes.now result }
{
    let items = match read_ddl(alloc, ddl) {
        Ok(items) => items,
        Err(ReadFault::Syntax { at }) => {
            return Err(StartFault::Refused(DeployFault::Syntax { at: at as u64 }));
        }
        Err(ReadFault::Memory) => return Err(StartFault::Memory),
    };
    let Ok(conns) = connections(alloc, lanes) else {
        return Err(StartFault::Memory);
    };
    match deploy(alloc, &items, &conns) {
        Ok(catalog) => Ok(catalog),
        Err(DeployRefusal::Refused(fault)) => Err(StartFault::Refused(fault)),
        Err(DeployRefusal::Memory) => Err(StartFault::Memory),
    }
}

/// Deploys the DDL over the lanes and attaches each of them. More lanes than 32 bits count are want of memory.
#[tactic(auto, using(crate::proofs::FitLanes::no_patterns, crate::proofs::AttachedLanes::stored_none))]
fn start_on<S: Resource>(
    lanes: &mut [Lane<S>],
    alloc: Global,
    ddl: &[u8],
) -> Result<Catalog, StartFault>
    requires apart { IsTrue (are_apart (names_of lanes.old)) }
    requires here { IsTrue (are_here S.told lanes.old) }
    ensures stays { StayStored S.told S.images (spec.failed_deploy result) lanes.old lanes.new }
    ensures starts { spec.StartsOver S.told ddl.now lanes.old result lanes.new }
{
    if lanes.len() > u32::MAX as usize {
        return Err(StartFault::Memory);
    }
    let catalog = match deploy_text(alloc, ddl, lanes) {
        Ok(catalog) => catalog,
        Err(fault) => return Err(fault),
    };
    catalog.is_well_formed();
    deployed_is_over();
    match attach_lanes(lanes, alloc, &catalog) {
        Ok(()) => Ok(catalog),
        Err(fault) => Err(fault),
    }
}

/// The same over all lanes of the parts.
pub fn deploy_and_attach<S: Resource>(
    lanes: &mut Lanes<S>,
    alloc: Global,
    ddl: &[u8],
) -> Result<Catalog, StartFault>
    requires apart { IsTrue (are_apart (names_of lanes.old)) }
    requires here { IsTrue (are_here S.told lanes.old) }
    ensures stays { StayStored S.told S.images (spec.failed_deploy result) lanes.old lanes.new }
    ensures starts { spec.StartsOver S.told ddl.now lanes.old result lanes.new }
{
    start_on(lanes.as_mut_slice(), alloc, ddl)
}
