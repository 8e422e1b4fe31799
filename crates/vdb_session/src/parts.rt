//! What a run works on.

use resource::Lanes;
use vdb_base::Bytes;
use vdb_model::{Catalog, DeployFault};

/// The bytes of the DDL, and the stores.
#[derive(Drop)]
pub struct Parts<S> {
    pub ddl: Bytes,
    pub lanes: Lanes<S>,
}

/// Why parts can't be started.
#[derive(Debug, Drop)]
pub enum StartFault {
    Refused(DeployFault),
    /// A lane's count of faults rose.
    Failed { lane: u32 },
    Memory,
}

/// The parts, handed back with the fault.
#[derive(Drop)]
pub struct StartRefused<S> {
    pub parts: Parts<S>,
    pub fault: StartFault,
}

/// Parts with what their DDL defines, and whether a lane failed in an answer.
#[derive(Drop)]
pub struct Opened<S> {
    pub parts: Parts<S>,
    pub catalog: Catalog,
    pub broken: bool,
}
