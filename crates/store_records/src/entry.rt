//! What a record of the log says.

use resource::StoredDelta;
use vdb_base::Seq;
use vdb_model::Xid;

pub type StoredDeltas = Seq<StoredDelta>;

#[derive(Drop)]
pub enum Entry {
    /// A branch that waits for its end, and its deltas in turn.
    Prepared(Xid, StoredDeltas),
    /// The prepared branch was committed.
    Committed(Xid),
    RolledBack(Xid),
    /// A branch that was committed as it was written.
    OnePhase(Xid, StoredDeltas),
}
