//! A log over a disk.

ghost use Rattle.std.specs.Prelude.{◌≡◌, ◌<◌, length, IfSome, IfOk, OnOk};

use crate::append::{AppendFault, add};
use crate::disk::Disk;
use crate::opening::{HEAD_LEN, LOG_LIMIT, OpenCause, enter};
use vdb_base::Failed;

/// A disk that could not be opened, and why.
#[derive(Debug, Drop)]
pub struct OpenRefused<D> {
    pub disk: D,
    pub cause: OpenCause,
}

/// Where a record stands: the place and the length of its payload, and the place of the gate after it.
#[derive(Clone, Copy, Debug, PartialEq, Eq)]
pub struct Span {
    pub start: u64,
    pub len: u64,
    pub next: u64,
}

/// The records of a disk.
///
/// After an `append` that failed, open it again before any other call.
#[derive(Debug, Drop)]
pub struct Log<D> {
    disk: D,
    end: u64,
    ghost within: { end < 268435456 },
}

impl<D: Disk> Log<D> {
    ghost use Rattle.gate_log.specs.Stops.{Same};
    ghost use Rattle.gate_log.specs.Log.{IsOpen, left_of};
    ghost use Rattle.gate_log.specs.Opening.{Enters, Keeps, disk_of, end_of, end_again};
    ghost use Rattle.gate_log.specs.Walking.{IsGate, IsInPayload, IsPartOf, IsBehind, NextIs, Looks};
    ghost use Rattle.gate_log.specs.Appending.{IsFrame, payload_of, Fits, left_after, Appends, MayHaveRecord, HasRecord};

    /// Opens what a stop may have left. A file of at most 9 bytes becomes the empty log. Where it is refused, the disk
    /// comes back.
    pub fn open(disk: D) -> Result<Log<D>, OpenRefused<D>>
        ensures answer { Enters (D.told disk) (D.told (disk_of result)) (D.images disk) (D.images (disk_of result)) (end_of result) }
        ensures keeps { Keeps (D.told disk) (D.images disk) (D.images (disk_of result)) }
    {
        let mut disk = disk;
        match enter(&mut disk) {
            Ok(end) => Ok(Log { disk, end }),
            Err(cause) => Err(OpenRefused { disk, cause }),
        }
    }

    /// A log over a disk that isn't open yet: `reopen` comes first. Till then there is room for no frame.
    pub fn closed(disk: D) -> Log<D>
        ensures disk { result.disk ≡ disk }
        ensures left { left_of result ≡ 0 }
    {
        Log {
            disk,
            end: LOG_LIMIT - 1,
        }
    }

    /// Opens the held disk again.
    pub fn reopen(&mut self) -> Result<(), OpenCause>
        ensures answer { Enters (D.told self.old.disk) (D.told self.new.disk) (D.images self.old.disk) (D.images self.new.disk) (end_again self.new result) }
        ensures keeps { Keeps (D.told self.old.disk) (D.images self.old.disk) (D.images self.new.disk) }
    {
        match enter(&mut self.disk) {
            Ok(end) => {
                self.end = end;
                Ok(())
            }
            Err(cause) => Err(cause),
        }
    }

    /// Gives the disk back.
    pub fn into_disk(self) -> D
        ensures { result ≡ self.disk }
    {
        let Log { disk, end: _ } = self;
        disk
    }

    /// The record at a gate: the first gate is at 8, and each record gives the place of the next one. None at the end.
    pub fn next(&mut self, at: u64) -> Result<Option<Span>, Failed>
        requires ready { IsOpen D.told D.images self.old }
        requires gate { IfSome (D.told self.old.disk).bytes (IsGate at) }
        ensures answer { IfOk result (λ found. IfSome (D.told self.old.disk).bytes (NextIs at found)) }
        ensures behind { IfOk result (λ found. IfSome found (IsBehind at)) }
        ensures leaves { Looks (D.told self.old.disk) (D.told self.new.disk) result }
        ensures stops { Same (D.images self.old.disk) (D.images self.new.disk) }
        ensures ready { IsOpen D.told D.images self.new }
        ensures left { left_of self.new ≡ left_of self.old }
    {
        if at >= self.end {
            return Ok(None);
        }
        let mut size = [0u8; 4];
        self.disk.read_at(at + 1, &mut size)?;
        let len = u64::from(u32::from_be_bytes(size));
        let start = at + HEAD_LEN;
        Ok(Some(Span {
            start,
            len,
            next: start + len,
        }))
    }

    /// Fills the buffer with bytes of the payload of one record.
    pub fn read(&mut self, start: u64, buffer: &mut [u8]) -> Result<(), Failed>
        requires ready { IsOpen D.told D.images self.old }
        requires inside { IfSome (D.told self.old.disk).bytes (IsInPayload start (length buffer.old)) }
        ensures answer { OnOk result (IfSome (D.told self.old.disk).bytes (λ bytes. IsPartOf start (length buffer.old) bytes buffer.new)) }
        ensures leaves { Looks (D.told self.old.disk) (D.told self.new.disk) result }
        ensures stops { Same (D.images self.old.disk) (D.images self.new.disk) }
        ensures ready { IsOpen D.told D.images self.new }
        ensures left { left_of self.new ≡ left_of self.old }
    {
        self.disk.read_at(start, buffer)
    }

    /// How long a frame may be: 268,435,456 less the bytes up to and with the last gate.
    pub fn left(&self) -> u64
        ensures { result ≡ left_of self.now }
    {
        LOG_LIMIT - (self.end + 1)
    }

    /// Appends the record of a frame: the payload's length in 4 bytes, the highest first, the payload, and the byte 0.
    ///
    /// Once it is Ok, no stop takes the record away. After `Failed` a stop leaves the records of before, with the new one
    /// or without it.
    pub fn append(&mut self, frame: &[u8]) -> Result<(), AppendFault>
        requires ready { IsOpen D.told D.images self.old }
        requires form { IsFrame frame.now }
        ensures fits { Fits (left_of self.old) (length frame.now) result }
        ensures leaves { Appends (payload_of frame.now) (D.told self.old.disk) (D.told self.new.disk) (D.images self.old.disk) (D.images self.new.disk) result }
        ensures stops { IfSome (D.told self.old.disk).bytes (MayHaveRecord (payload_of frame.now) (D.images self.new.disk)) }
        ensures kept { OnOk result (IfSome (D.told self.old.disk).bytes (HasRecord (payload_of frame.now) (D.images self.new.disk))) }
        ensures ready { OnOk result (IsOpen D.told D.images self.new) }
        ensures left { left_of self.new ≡ left_after (left_of self.old) (length frame.now) result }
    {
        let size = frame.len() as u64;
        if size > self.left() {
            return Err(AppendFault::Full);
        }
        match add(&mut self.disk, self.end, frame) {
            Ok(()) => {
                self.end += size;
                Ok(())
            }
            Err(_) => Err(AppendFault::Failed),
        }
    }
}
