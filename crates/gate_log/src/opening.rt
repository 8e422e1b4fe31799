//! Opening a disk that a stop may have left: its last gate, or what stands against it.

ghost use Rattle.std.specs.Prelude.{◌≡◌, ◌<◌, ◌≤◌, ◌∷◌, ◌++◌, [], length, take, bytes_eq, IfSome, IfOk, OnOk};
ghost use Rattle.gate_log.specs.Disk.{IsWithin, Asks, Changes};
ghost use Rattle.gate_log.specs.Stops.{Same, Within, Only};
ghost use Rattle.gate_log.specs.Records.{header};
ghost use Rattle.gate_log.specs.Opening.{Enters, Keeps, entry_of};
ghost use Rattle.gate_log.specs.Scanning.{GateIs, EndIs};

use crate::disk::{Disk, write_safely};
use vdb_base::Failed;

/// Why a log can't be opened.
#[derive(Clone, Copy, Debug, PartialEq, Eq)]
pub enum OpenCause {
    /// The bytes break the format: another header, a record or the gate after it that passes the end, or too many bytes.
    Bad,
    /// The disk failed.
    Failed,
}

/// The most bytes that a log may have.
pub const LOG_LIMIT: u64 = 268_435_456;

/// The place of the first gate, which is the header's length.
pub const FIRST_GATE: u64 = 8;

/// The byte of an open gate. Any other byte is a closed one.
pub const OPEN: u8 = 1;

/// A gate, and the length of the record behind it.
pub const HEAD_LEN: u64 = 5;

const HEADER: [u8; 8] = *b"VDBLOG1\n";

/// The header and a closed gate.
const EMPTY: [u8; 9] = *b"VDBLOG1\n\0";

#[derive(Clone, Copy)]
enum Gate {
    Closed,
    /// Open, with a record behind it and the next gate at a place of the file.
    Open { next: u64 },
    /// Open, with a record that leaves no gate in the file.
    Broken,
}

/// Makes the empty log of a short file. It stays one that stands for no record: it never has more bytes than the empty
/// log.
fn write_empty<D: Disk>(disk: &mut D) -> Result<(), Failed>
    requires short { IfSome (D.told disk.old).bytes (λ bytes. length bytes ≤ 9) }
    requires only { IfSome (D.told disk.old).bytes (λ bytes. Only bytes (D.images disk.old)) }
    ensures leaves { Changes (λ bytes. header ++ 0 ∷ []) (D.told disk.old) (D.told disk.new) (D.images disk.new) result }
    ensures stops { IfSome (D.told disk.old).bytes (λ bytes. (c : _) → D.images disk.new c → length c ≤ 9) }
    ensures safe { OnOk result (IfSome (D.told disk.new).bytes (λ bytes. Only bytes (D.images disk.new))) }
{
    disk.cut(0)?;
    disk.sync()?;
    write_safely(disk, 0, &EMPTY)
}

fn has_header<D: Disk>(disk: &mut D) -> Result<bool, Failed>
    requires { IsWithin 0 8 (D.told disk.old) }
    ensures answer { IfOk result (λ has. IfSome (D.told disk.old).bytes (λ bytes. has ≡ bytes_eq (take 8 bytes) header)) }
    ensures leaves { Asks (D.told disk.old) (D.told disk.new) (D.images disk.new) result }
    ensures stops { Same (D.images disk.old) (D.images disk.new) }
{
    let mut head = [0u8; 8];
    disk.read_at(0, &mut head)?;
    Ok(head == HEADER)
}

/// What the gate at a place is, in a file of this length. It is one read.
fn gate_at<D: Disk>(disk: &mut D, gate: u64, len: u64) -> Result<Gate, Failed>
    requires within { gate < len }
    requires limit { len ≤ 268435456 }
    requires length { IfSome (D.told disk.old).bytes (λ bytes. len ≡ length bytes) }
    ensures answer { IfOk result (λ found. GateIs gate len (D.told disk.old) found) }
    ensures leaves { Asks (D.told disk.old) (D.told disk.new) (D.images disk.new) result }
    ensures stops { Same (D.images disk.old) (D.images disk.new) }
{
    if len - gate < HEAD_LEN {
        let mut byte = [0u8; 1];
        disk.read_at(gate, &mut byte)?;
        let open = byte[0] == OPEN;
        return Ok(if open { Gate::Broken } else { Gate::Closed });
    }
    let mut head = [0u8; 5];
    disk.read_at(gate, &mut head)?;
    let [open, a, b, c, d] = head;
    if open != OPEN {
        return Ok(Gate::Closed);
    }
    let next = gate + HEAD_LEN + u64::from(u32::from_be_bytes([a, b, c, d]));
    Ok(if next < len {
        Gate::Open { next }
    } else {
        Gate::Broken
    })
}

/// The place of the last gate of a file of this length, or none where the bytes break the format.
fn last_gate<D: Disk>(disk: &mut D, len: u64) -> Result<Option<u64>, Failed>
    requires more { 9 < len }
    requires limit { len ≤ 268435456 }
    requires length { IfSome (D.told disk.old).bytes (λ bytes. len ≡ length bytes) }
    ensures answer { IfOk result (λ found. IfSome (D.told disk.old).bytes (EndIs found)) }
    ensures within { IfOk result (λ found. IfSome found (λ end. end < len)) }
    ensures leaves { Asks (D.told disk.old) (D.told disk.new) (D.images disk.new) result }
    ensures stops { Same (D.images disk.old) (D.images disk.new) }
{
    if !has_header(disk)? {
        return Ok(None);
    }
    let mut gate = FIRST_GATE;
    'gates: loop {
        match gate_at(disk, gate, len)? {
            Gate::Closed => return Ok(Some(gate)),
            Gate::Broken => return Ok(None),
            Gate::Open { next } => gate = next,
        }
    }
}

/// Syncs, so that a stop leaves what is read from then on, and asks for the length.
fn synced_len<D: Disk>(disk: &mut D) -> Result<u64, Failed>
    ensures answer { IfOk result (λ len. IfSome (D.told disk.old).bytes (λ bytes. len ≡ length bytes)) }
    ensures leaves { Asks (D.told disk.old) (D.told disk.new) (D.images disk.new) result }
    ensures stops { Within (D.images disk.old) (D.images disk.new) }
    ensures safe { OnOk result (IfSome (D.told disk.old).bytes (λ bytes. Only bytes (D.images disk.new))) }
{
    disk.sync()?;
    disk.len()
}

/// Finds the last gate, or none where the bytes break the format.
fn find_end<D: Disk>(disk: &mut D) -> Result<Option<u64>, Failed>
    ensures answer { Enters (D.told disk.old) (D.told disk.new) (D.images disk.old) (D.images disk.new) (entry_of result) }
    ensures keeps { Keeps (D.told disk.old) (D.images disk.old) (D.images disk.new) }
    ensures within { IfOk result (λ found. IfSome found (λ end. end < 268435456)) }
{
    let len = synced_len(disk)?;
    if len <= EMPTY.len() as u64 {
        write_empty(disk)?;
        return Ok(Some(FIRST_GATE));
    }
    if len > LOG_LIMIT {
        return Ok(None);
    }
    last_gate(disk, len)
}

/// Makes a log of the disk's bytes. `Ok` has the place of its last gate.
pub fn enter<D: Disk>(disk: &mut D) -> Result<u64, OpenCause>
    ensures answer { Enters (D.told disk.old) (D.told disk.new) (D.images disk.old) (D.images disk.new) result }
    ensures keeps { Keeps (D.told disk.old) (D.images disk.old) (D.images disk.new) }
    ensures within { IfOk result (λ end. end < 268435456) }
{
    match find_end(disk) {
        Ok(Some(end)) => Ok(end),
        Ok(None) => Err(OpenCause::Bad),
        Err(_) => Err(OpenCause::Failed),
    }
}
