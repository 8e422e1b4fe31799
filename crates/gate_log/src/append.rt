//! The two writes of an append.

ghost use Rattle.std.specs.Prelude.{◌<◌, ◌+◌, length, IfSome, OnOk};
ghost use Rattle.gate_log.specs.Log.{IsOpenAt};
ghost use Rattle.gate_log.specs.Appending.{IsFrame, payload_of, Adds, MayHaveRecord, HasRecord};

use crate::disk::{Disk, write_safely};
use crate::opening::OPEN;
use vdb_base::Failed;

/// Why a record was not appended.
#[derive(Clone, Copy, Debug, PartialEq, Eq)]
pub enum AppendFault {
    /// The frame is longer than what is left. Nothing was changed.
    Full,
    /// The disk failed. The log has to be opened again.
    Failed,
}

/// Writes the frame behind the closed gate, and opens the gate when the frame is on the disk.
pub fn add<D: Disk>(disk: &mut D, gate: u64, frame: &[u8]) -> Result<(), Failed>
    requires ready { IfSome (D.told disk.old).bytes (IsOpenAt gate (D.images disk.old)) }
    requires form { IsFrame frame.now }
    requires fits { gate + length frame.now < 268435456 }
    ensures leaves { Adds (payload_of frame.now) (D.told disk.old) (D.told disk.new) (D.images disk.new) result }
    ensures stops { IfSome (D.told disk.old).bytes (MayHaveRecord (payload_of frame.now) (D.images disk.new)) }
    ensures kept { OnOk result (IfSome (D.told disk.old).bytes (HasRecord (payload_of frame.now) (D.images disk.new))) }
    ensures ready { OnOk result (IfSome (D.told disk.new).bytes (IsOpenAt (gate + length frame.now) (D.images disk.new))) }
{
    write_safely(disk, gate + 1, frame)?;
    write_safely(disk, gate, &[OPEN])?;
    Ok(())
}
