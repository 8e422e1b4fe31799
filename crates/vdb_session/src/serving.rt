//! Which lane serves a server.

ghost use Rattle.std.specs.Prelude.{◌≡◌, ◌<◌, length, IfSome};
ghost use Rattle.vdb_session.specs.Shown as spec;

use resource::Lane;
use vdb_base::Text;
use vdb_model::{Catalog, ServerDef};

/// The number of the server that a lane of this name serves.
pub fn server_of(servers: &[ServerDef], name: &Text) -> Option<usize>
    ensures { result ≡ spec.server_from 0 servers.now name.now }
{
    for (number, server) in servers.iter().enumerate() {
        if server.name == *name {
            return Some(number);
        }
    }
    None
}

/// Whether a lane of this name serves the server.
pub fn serves(cat: &Catalog, server: u32, name: &Text) -> bool
    ensures { result ≡ spec.serves cat.now server name.now }
{
    match server_of(cat.servers().as_slice(), name) {
        Some(number) => number == server as usize,
        None => false,
    }
}

/// The first lane that serves the server.
pub fn lane_serving<S>(cat: &Catalog, lanes: &[Lane<S>], server: u32) -> Option<usize>
    ensures lane { result ≡ spec.lane_from 0 cat.now server lanes.now }
    ensures there { IfSome result (λ at. at < length lanes.now) }
{
    for (at, lane) in lanes.iter().enumerate() {
        if serves(cat, server, &lane.name) {
            return Some(at);
        }
    }
    None
}
