//! CREATE SERVER.

ghost use Rattle.std.specs.Prelude.{◌≡◌, OnOk};
ghost use Rattle.std.specs.List.{list_any};
ghost use Rattle.std.specs.Option.{option_copied};
ghost use Rattle.metadata.specs.Answers.{Passes, Becomes};
ghost use Rattle.metadata.specs.Servers as spec;
ghost use Rattle.metadata.specs.Sound.{IsSound};
ghost use Rattle.vdb_model.specs.WellFormed.{IsWellFormed};

use crate::connection::{ConnInfo, ConnInfos};
use crate::fault::DeployRefusal;
use crate::options::{Owner, lowered, taken_options};
use crate::so_far::{SoFar, added, few, good_name};
use sql_reader::tree::Name;
use std::alloc::Global;
use vdb_base::{NoMemory, Text};
use vdb_ddl::tree::{Setting, Settings};
use vdb_model::{DeployFault, Kind, ServerDef, ServerDefs, printed};

/// Whether a wrapper's name is that of the kind.
fn is_kind(wrapper: &Text, kind: Kind) -> bool
    ensures { result ≡ spec.is_kind wrapper.now kind }
{
    match kind {
        Kind::Mem => wrapper.as_str() == "mem",
        Kind::Csv => wrapper.as_str() == "csv",
        Kind::Sqlite => wrapper.as_str() == "sqlite",
    }
}

/// Refused where no kind has the wrapper's name.
fn known_wrapper(alloc: Global, wrapper: &Name) -> Result<(), DeployRefusal>
    ensures { Passes (spec.unknown_wrapper wrapper.now) result }
{
    let name = &wrapper.text;
    if is_kind(name, Kind::Mem) || is_kind(name, Kind::Csv) || is_kind(name, Kind::Sqlite) {
        return Ok(());
    }
    let name = printed(alloc, name)?;
    Err(DeployRefusal::Refused(DeployFault::Unknown { name }))
}

/// The connection of the name.
fn find_connection<'a>(conns: &'a [ConnInfo], name: &Text) -> Option<&'a ConnInfo>
    ensures { option_copied result ≡ spec.connection_named conns.now name.now }
{
    for conn in conns {
        if conn.name == *name {
            return Some(conn);
        }
    }
    None
}

fn has_server(servers: &[ServerDef], name: &Text) -> bool
    ensures { result ≡ list_any (spec.is_server name.now) servers.now }
{
    for server in servers {
        if server.name == *name {
            return true;
        }
    }
    false
}

/// Refused where a server has the name.
fn free_server(alloc: Global, servers: &ServerDefs, name: &Name) -> Result<(), DeployRefusal>
    ensures { Passes (spec.server_taken servers.now name.now) result }
{
    if has_server(servers.as_slice(), &name.text) {
        let name = printed(alloc, &name.text)?;
        return Err(DeployRefusal::Refused(DeployFault::Duplicate { name }));
    }
    Ok(())
}

/// Refused where there are too many servers with one more.
fn few_servers(alloc: Global, servers: &ServerDefs, name: &Name) -> Result<(), DeployRefusal>
    ensures { Passes (spec.too_many_servers servers.now name.now) result }
{
    let count = added(servers.len(), 1)?;
    few(64, count as u64, printed(alloc, &name.text)?)
}

/// Refused where the connection has another kind than the wrapper's.
fn of_kind(alloc: Global, conn: &ConnInfo, name: &Name, wrapper: &Name) -> Result<(), DeployRefusal>
    ensures { Passes (spec.wrong_kind conn.now name.now wrapper.now) result }
{
    if is_kind(&wrapper.text, conn.kind) {
        return Ok(());
    }
    let name = printed(alloc, &name.text)?;
    Err(DeployRefusal::Refused(DeployFault::WrongKind { name }))
}

fn add_server(
    alloc: Global,
    s: &mut SoFar,
    name: &Name,
    options: &[Setting],
    conn: &ConnInfo,
) -> Result<(), NoMemory>
    requires { IsWellFormed (spec.with_server s.old (spec.server_of name.now options.now conn.now)).catalog }
    ensures { OnOk result (s.new ≡ spec.with_server s.old (spec.server_of name.now options.now conn.now)) }
{
    let server = ServerDef {
        name: name.text.copy(alloc)?,
        kind: conn.kind,
        caps: lowered(conn.caps, options),
    };
    s.catalog.add_server(server)
}

/// A server is the connection of its name.
pub(crate) fn create_server(
    alloc: Global,
    conns: &[ConnInfo],
    s: &mut SoFar,
    name: &Name,
    wrapper: &Name,
    options: &Settings,
) -> Result<(), DeployRefusal>
    requires { IsSound s.old }
    ensures { Becomes (spec.create_server conns.now s.old name.now wrapper.now options.now) result s.new }
{
    let options = options.as_slice();
    known_wrapper(alloc, wrapper)?;
    let Some(conn) = find_connection(conns, &name.text) else {
        let server = printed(alloc, &name.text)?;
        return Err(DeployRefusal::Refused(DeployFault::NoConnection { server }));
    };
    of_kind(alloc, conn, name, wrapper)?;
    let servers = s.catalog.servers();
    free_server(alloc, servers, name)?;
    taken_options(Owner::Server, options)?;
    few_servers(alloc, servers, name)?;
    good_name(alloc, &name.text)?;
    Ok(add_server(alloc, s, name, options, conn)?)
}
