//! Records that are added to a file, by the log and without it.

ghost use Rattle.gate_log.specs.Appending.{IsFrame};

use gate_log::{FileDisk, Log};
use std::fs::File;
use std::io;
use std::os::unix::fs::FileExt;

/// How many bytes a frame has.
const FRAME_SIZE: u64 = 14;

/// The frame of a record of 9 bytes: a kind and a number.
fn frame_of(number: u32) -> [u8; 14]
    ensures { IsFrame result }
{
    let [a, b, c, d] = number.to_be_bytes();
    [0, 0, 0, 9, 2, 0, 0, 0, 0, a, b, c, d, 0]
}

/// Adds so many records to the log of an empty file, and says how many were added.
pub fn add_records(file: File, count: u32) -> u32 {
    let Ok(mut log) = Log::open(FileDisk::new(file)) else {
        return 0;
    };
    for number in 0..count {
        if log.append(&frame_of(number)).is_err() {
            return number;
        }
    }
    count
}

/// Writes as the log does, a frame and then the gate before it, each on the disk before the next.
fn add_one(file: &File, number: u32) -> io::Result<()> {
    let gate = u64::from(number) * FRAME_SIZE;
    file.write_all_at(&frame_of(number), gate + 1)?;
    file.sync_all()?;
    file.write_all_at(&[1], gate)?;
    file.sync_all()
}

/// Adds as many frames to a file by the same calls, and says how many were added.
pub fn add_frames(file: &File, count: u32) -> u32 {
    for number in 0..count {
        if add_one(file, number).is_err() {
            return number;
        }
    }
    count
}
