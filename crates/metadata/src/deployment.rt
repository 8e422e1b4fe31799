//! What a DDL defines.

ghost use Rattle.std.specs.Prelude.{◌≡◌, IfOk, OnOk};
ghost use Rattle.std.specs.List.{list_any};
ghost use Rattle.metadata.specs.Answers.{Passes, Becomes};
ghost use Rattle.metadata.specs.Deployed as spec;
ghost use Rattle.metadata.specs.Deployed.{IsDeployed};
ghost use Rattle.metadata.specs.Sound.{IsSound};

use crate::connection::{ConnInfo, ConnInfos};
use crate::databases::{create_database, use_database};
use crate::fault::DeployRefusal;
use crate::schemas::{create_schema, create_virtual_schema, set_schema};
use crate::servers::create_server;
use crate::so_far::{SoFar, nothing};
use crate::tables::create_table;
use crate::views::create_view;
use crate::walk::ViewWalk;
use std::alloc::Global;
use vdb_base::Text;
use vdb_ddl::tree::{Item, Items};
use vdb_model::{Catalog, DeployFault, ServerDef, printed};

/// An item over what is defined so far.
fn item<W: ViewWalk>(
    alloc: Global,
    walk: &W,
    conns: &[ConnInfo],
    s: &mut SoFar,
    item: &Item,
) -> Result<(), DeployRefusal>
    requires { IsSound s.old }
    ensures becomes { Becomes (spec.item (W.walk walk.now) conns.now s.old item.now) result s.new }
    ensures sound { OnOk result (IsSound s.new) }
{
    match item {
        Item::CreateDatabase { name, .. } => create_database(alloc, s, name),
        Item::UseDatabase { name } => use_database(alloc, s, name),
        Item::CreateServer {
            name,
            wrapper,
            options,
        } => create_server(alloc, conns, s, name, wrapper, options),
        Item::CreateSchema { name, server, .. } => create_schema(alloc, s, name, server),
        Item::CreateVirtualSchema { name, .. } => create_virtual_schema(alloc, s, name),
        Item::SetSchema { name } => set_schema(alloc, s, name),
        Item::CreateTable {
            name,
            parts,
            options,
        } => create_table(alloc, s, name, parts, options),
        Item::CreateView {
            name,
            columns,
            options,
            query,
        } => create_view(alloc, walk, s, name, columns, options, query),
    }
}

/// Items in turn.
fn items<W: ViewWalk>(
    alloc: Global,
    walk: &W,
    conns: &[ConnInfo],
    s: &mut SoFar,
    items: &[Item],
) -> Result<(), DeployRefusal>
    requires { IsSound s.old }
    ensures { Becomes (spec.items (W.walk walk.now) conns.now s.old items.now) result s.new }
{
    for each in items {
        item(alloc, walk, conns, s, each)?;
    }
    Ok(())
}

fn serves(conn: &ConnInfo, servers: &[ServerDef]) -> bool
    ensures { result ≡ list_any (spec.is_served conn.now) servers.now }
{
    for server in servers {
        if server.name == conn.name {
            return true;
        }
    }
    false
}

/// Refused at the first connection that names no server.
fn all_serve(alloc: Global, servers: &[ServerDef], conns: &[ConnInfo]) -> Result<(), DeployRefusal>
    ensures { Passes (spec.unserved servers.now conns.now) result }
{
    for conn in conns {
        if !serves(conn, servers) {
            let name = printed(alloc, &conn.name)?;
            return Err(DeployRefusal::Refused(DeployFault::Unknown { name }));
        }
    }
    Ok(())
}

/// Deploys items over connections: what they define, or the first fault. The queries of views are typed by `walk`.
pub fn deploy_by<W: ViewWalk>(
    alloc: Global,
    walk: &W,
    ddl: &Items,
    conns: &ConnInfos,
) -> Result<Catalog, DeployRefusal>
    ensures { IsDeployed (W.walk walk.now) conns.now ddl.now result }
{
    let mut s = nothing(alloc);
    let conns = conns.as_slice();
    items(alloc, walk, conns, &mut s, ddl.as_slice())?;
    all_serve(alloc, s.catalog.servers().as_slice(), conns)?;
    Ok(s.catalog)
}
