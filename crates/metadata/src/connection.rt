//! Connections to stores.

use vdb_base::{Seq, Text};
use vdb_model::{Caps, Kind};

/// A connection to a store: its name, which is in lower case, its kind, and what the store can do.
#[derive(Debug, Drop)]
pub struct ConnInfo {
    pub name: Text,
    pub kind: Kind,
    pub caps: Caps,
}

pub type ConnInfos = Seq<ConnInfo>;
