//! What no clause says: the bytes of worked files, that calls succeed, which device call fails what, and a real file.

ghost use Rattle.std.specs.Prelude.{◌≤◌, IfOk};
ghost use Rattle.gate_log.specs.Log.{IsOpen};
ghost use Rattle.gate_log.specs.Appending.{IsFrame};

use crate::{AppendFault, Disk, FileDisk, Log, MemDisk, OpenCause};
use std::alloc::Global;
use std::fs;
use std::fs::OpenOptions;
use std::test::Fail;
use vdb_base::{Bytes, Failed, Seq};

/// An epoch and a decision: two records of 9 bytes.
const TWO: [u8; 37] =
    *b"VDBLOG1\n\x01\0\0\0\x09\x01\0\0\0\0\0\0\0\x01\x01\0\0\0\x09\x02\0\0\0\0\0\0\0\x01\0";

/// The frame of a record of 9 bytes: this kind, and the number 1.
fn frame(kind: u8) -> [u8; 14]
    ensures { IsFrame result }
{
    [0, 0, 0, 9, kind, 0, 0, 0, 0, 0, 0, 0, 1, 0]
}

fn disk(alloc: Global, file: &[u8], fails: &[u32]) -> Result<MemDisk, Fail> {
    let bytes = Bytes::from_vec(file.to_vec(alloc)?);
    let fails = Seq::from_vec(fails.to_vec(alloc)?);
    Ok(MemDisk::new(alloc, bytes, fails))
}

/// Reads the payloads one after another into the buffer.
fn payloads<D: Disk>(log: &mut Log<D>, buffer: &mut [u8; 32]) -> Result<usize, Failed>
    requires { IsOpen D.told D.images log.old }
    ensures { IfOk result (λ used. used ≤ 32) }
{
    let mut at = 8;
    let mut used = 0;
    for _ in 0..4 {
        let span = match log.next(at)? {
            Some(span) => span,
            None => return Ok(used),
        };
        let len = span.len as usize;
        if len > 32 - used {
            return Err(Failed);
        }
        log.read(span.start, &mut buffer[used..used + len])?;
        used += len;
        at = span.next;
    }
    Ok(used)
}

/// What a file opens as: its payloads one after another, or the cause that refuses it.
fn opens_as(alloc: Global, file: &[u8]) -> Result<Vec<u8>, Fail> {
    let mut buffer = [0; 32];
    match Log::open(disk(alloc, file, &[])?) {
        Ok(mut log) => match payloads(&mut log, &mut buffer) {
            Ok(used) => Ok(buffer[..used].to_vec(alloc)?),
            Err(Failed) => Ok(b"failed".as_slice().to_vec(alloc)?),
        },
        Err(refused) => match refused.cause {
            OpenCause::Bad => Ok(b"bad".as_slice().to_vec(alloc)?),
            OpenCause::Failed => Ok(b"failed".as_slice().to_vec(alloc)?),
        },
    }
}

#[test]
fn opens_what_a_stop_left(rt: HostRuntime) -> Result<(), Fail> {
    let alloc = rt.alloc();
    let both = b"\x01\0\0\0\0\0\0\0\x01\x02\0\0\0\0\0\0\0\x01";
    let mut shut = TWO;
    shut[22] = 0x7f;
    let table: [(&[u8], &[u8]); 12] = [
        (&TWO, both),
        (&shut, b"\x01\0\0\0\0\0\0\0\x01"),
        (&TWO[..36], b"bad"),
        (&TWO[..26], b"bad"),
        (b"VDBLOG1\n\0\0\0\0\x09\x01\0\0", b""),
        (
            b"VDBLOG1\n\0\x01\x01\x01\x01\x01\x01\x01\x01\x01\x01\x01\x01\x01\x01\x01\x01\x01\x01\x01\x01\x01\x01\x01\x01\x01\x01\x01\x01\x01\x01\x01\x01\x01\x01\x01\x01\x01\x01\x01\x01\x01\x01\x01\x01\x01\x01\x01\x01",
            b"",
        ),
        (b"VDBLOG1\n\x01\xff\xff\xff\xff\0", b"bad"),
        (b"VDBLOG1\n\x01\0\0\0\x01A\0", b"A"),
        (b"VDBLOG1\n\x01\0\0\0\x01A", b"bad"),
        (b"VDBLOG1\n\x01\0", b"bad"),
        (b"VDBLOG1\n\0\0", b""),
        (b"VDBLOG2\n\0\0", b"bad"),
    ];
    for (file, wanted) in table {
        assert_eq!(rt; opens_as(alloc, file)?.as_slice(), wanted);
    }
    let same = b"XXXXXXXXXX";
    for len in 0..10 {
        assert_eq!(rt; opens_as(alloc, &same[..len])?.as_slice(), b"".as_slice());
    }
    assert_eq!(rt; opens_as(alloc, same)?.as_slice(), b"bad".as_slice());
    Ok(())
}

/// A file of more bytes than a log may have.
#[derive(Drop)]
struct Long;

impl Disk for Long {
    ghost use Rattle.std.specs.Prelude.{None};

    ghost told = { λ disk. record { bytes = None; faults = 0 } };

    ghost images = { λ disk bytes. ⊥ };

    fn len(&mut self) -> Result<u64, Failed> {
        Ok(268_435_457)
    }

    fn read_at(&mut self, _at: u64, _buffer: &mut [u8]) -> Result<(), Failed> {
        Ok(())
    }

    fn write_at(&mut self, _at: u64, _bytes: &[u8]) -> Result<(), Failed> {
        Ok(())
    }

    fn cut(&mut self, _len: u64) -> Result<(), Failed> {
        Ok(())
    }

    fn sync(&mut self) -> Result<(), Failed> {
        Ok(())
    }
}

#[test]
fn a_long_file_is_bad(rt: HostRuntime) -> Result<(), Fail> {
    match Log::open(Long) {
        Ok(_log) => assert!(rt; false),
        Err(refused) => assert_eq!(rt; refused.cause, OpenCause::Bad),
    }
    Ok(())
}

/// Opens a file and appends a record: which of the two failed, if any, and the disk after it.
fn adds(file: MemDisk, frame: &[u8]) -> (MemDisk, &'static str)
    requires { IsFrame frame.now }
{
    let mut log = match Log::open(file) {
        Ok(log) => log,
        Err(refused) => return (refused.disk, "open"),
    };
    let answer = match log.append(frame) {
        Ok(()) => "done",
        Err(AppendFault::Full) => "full",
        Err(AppendFault::Failed) => "append",
    };
    (log.into_disk(), answer)
}

#[test]
fn each_call_of_the_disk_may_fail(rt: HostRuntime) -> Result<(), Fail> {
    let alloc = rt.alloc();
    let one = &TWO[..23];
    let mut closed = [0; 23];
    closed.copy_from_slice(one);
    closed[22] = 0;
    // To open one record takes 5 calls, and to append another one 4.
    for k in 1..11 {
        let (left, answer) = adds(disk(alloc, &closed, &[k])?, &frame(2));
        let wanted = match k {
            1..=5 => "open",
            6..=9 => "append",
            _ => "done",
        };
        assert_eq!(rt; answer, wanted, "at call {k}");
        let records = if k < 9 { 9 } else { 18 };
        assert_eq!(rt;
            opens_as(alloc, left.bytes())?.len(),
            records,
            "at call {k}"
        );
    }
    Ok(())
}

#[test]
fn a_walk_is_two_reads_a_record(rt: HostRuntime) -> Result<(), Fail> {
    let alloc = rt.alloc();
    // To open two records takes 6 calls.
    for k in 7..12 {
        let mut log = match Log::open(disk(alloc, &TWO, &[k])?) {
            Ok(log) => log,
            Err(_) => return Ok(assert!(rt; false)),
        };
        let mut buffer = [0; 32];
        assert_eq!(rt;
            payloads(&mut log, &mut buffer).is_ok(),
            k > 10,
            "at call {k}"
        );
    }
    Ok(())
}

#[test]
fn appends_to_an_empty_file(rt: HostRuntime) -> Result<(), Fail> {
    let alloc = rt.alloc();
    let mut log = match Log::open(disk(alloc, b"".as_slice(), &[])?) {
        Ok(log) => log,
        Err(_) => return Ok(assert!(rt; false)),
    };
    assert_eq!(rt; log.left(), 268_435_447);
    assert!(rt; log.append(&frame(1)).is_ok());
    assert!(rt; log.reopen().is_ok());
    assert!(rt; log.append(&frame(2)).is_ok());
    assert_eq!(rt; log.left(), 268_435_419);
    assert!(rt; log.into_disk().bytes() == TWO.as_slice());
    Ok(())
}

#[test]
fn a_closed_log_has_no_room(rt: HostRuntime) -> Result<(), Fail> {
    let alloc = rt.alloc();
    let mut log = Log::closed(disk(alloc, b"".as_slice(), &[])?);
    assert_eq!(rt; log.left(), 0);
    assert!(rt; log.reopen().is_ok());
    assert_eq!(rt; log.left(), 268_435_447);
    Ok(())
}

const PATH: &str = "gate_log_test.log";

#[test]
fn a_real_file_is_a_disk(rt: HostRuntime) -> Result<(), Fail> {
    let mut options = OpenOptions::new();
    options.read(true).write(true).create(true).truncate(true);
    let mut log = match Log::open(FileDisk::new(options.open(&rt, PATH)?)) {
        Ok(log) => log,
        Err(_) => return Ok(assert!(rt; false)),
    };
    assert!(rt; log.append(&frame(1)).is_ok());
    assert!(rt; log.append(&frame(2)).is_ok());
    assert!(rt; fs::read(&rt, PATH)?.as_slice() == TWO.as_slice());
    let mut again = match Log::open(FileDisk::new(OpenOptions::new().read(true).open(&rt, PATH)?)) {
        Ok(log) => log,
        Err(_) => return Ok(assert!(rt; false)),
    };
    let mut buffer = [0; 32];
    assert_eq!(rt; payloads(&mut again, &mut buffer), Ok(18));
    assert_eq!(rt; again.append(&frame(1)), Err(AppendFault::Failed));
    fs::remove_file(&rt, PATH)?;
    Ok(())
}
