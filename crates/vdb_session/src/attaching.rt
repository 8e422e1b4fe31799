//! Attaching each lane to the tables of its server.

ghost use Rattle.std.specs.Prelude.{◌≡◌, ◌≤◌, length, All, IfOk};
ghost use Rattle.vdb_session.specs.Attaching as spec;
ghost use Rattle.vdb_session.specs.Shown as shown;
ghost use Rattle.vdb_model.specs.WellFormed as formed;

use crate::branches::roll_back;
use crate::parts::StartFault;
use crate::serving::server_of;
use crate::starting::start_fault;
use resource::{Lane, Resource};
use std::alloc::Global;
use vdb_base::{NoMemory, Seq, Text};
use vdb_model::{Catalog, TableDef, TableDefs};

/// The tables of a server.
fn tables_on(alloc: Global, tables: &[TableDef], server: usize) -> Result<TableDefs, NoMemory>
    ensures { IfOk result (λ made. made ≡ formed.tables_on server tables.now) }
{
    let mut made = Seq::new(alloc);
    for table in tables {
        if table.server as usize == server {
            made.push(table.copy(alloc)?)?;
        }
    }
    Ok(made)
}

/// The tables that a lane of this name holds.
fn tables_for(alloc: Global, cat: &Catalog, name: &Text) -> Result<TableDefs, NoMemory>
    ensures { IfOk result (λ made. made ≡ shown.tables_for cat.now name.now) }
{
    match server_of(cat.servers().as_slice(), name) {
        None => Ok(Seq::new(alloc)),
        Some(server) => tables_on(alloc, cat.tables().as_slice(), server),
    }
}

/// Attaches the lane at the place to the tables of its server. A branch that its store has prepared is rolled back.
fn attach_one<S: Resource>(
    lane: &mut Lane<S>,
    at: u32,
    alloc: Global,
    cat: &Catalog,
) -> Result<(), StartFault>
    requires take { spec.TakesTables S.told cat.now lane.old }
    ensures name { lane.new.name ≡ lane.old.name }
    ensures kind { lane.new.kind ≡ lane.old.kind }
    ensures attached { spec.AttachesOne S.told S.images cat.now at result lane.old (S.told lane.new.res) }
{
    let Ok(tables) = tables_for(alloc, cat, &lane.name) else {
        return Err(StartFault::Memory);
    };
    match lane.res.attach(alloc, &tables) {
        Ok(()) => roll_back(lane, at),
        Err(fault) => Err(start_fault(alloc, &lane.name, tables.as_slice(), at, fault)),
    }
}

/// Attaches each lane in turn to the tables of its server, up to the first that is refused.
pub fn attach_lanes<S: Resource>(
    lanes: &mut [Lane<S>],
    alloc: Global,
    cat: &Catalog,
) -> Result<(), StartFault>
    requires few { length lanes.old ≤ 4294967295 }
    requires take { All (spec.TakesTables S.told cat.now) lanes.old }
    ensures stays { spec.StayStored S.told S.images (spec.failed_start result) lanes.old lanes.new }
    ensures attached { spec.AttachesEach S.told cat.now result lanes.old lanes.new }
{
    for (at, lane) in lanes.iter_mut().enumerate() {
        match attach_one(lane, at as u32, alloc, cat) {
            Ok(()) => {}
            Err(fault) => return Err(fault),
        }
    }
    Ok(())
}
