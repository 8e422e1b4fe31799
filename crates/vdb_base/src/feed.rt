//! Bytes that come in.

ghost use Rattle.std.specs.Prelude.{◌≡◌, ◌-◌, ◌<◌, ◌≤◌, [], ◌++◌, length, take, drop, min, Some, None};
ghost use Rattle.vdb_base.specs.Feeding.{Takes, FeedTold};
ghost use Rattle.vdb_base.specs.Calls.{uncalled};

use crate::calls::{Calls, Failed};
use crate::seq::{Bytes, Nums};
use std::io::Read;

/// Bytes that are read from the outside, in turn.
///
/// `read` fills the front of the buffer and says how many bytes it took; 0 means that there are no more. A read that
/// failed took none, and may be tried again.
pub trait Feed {
    /// The bytes not yet read, where the feed can tell them, and its count of faults.
    ghost told: { Self → FeedTold };

    fn read(&mut self, buffer: &mut [u8]) -> Result<usize, Failed>
        requires { 0 < length buffer.old }
        ensures takes { Takes (told self.old) (told self.new) result buffer.new };
}

/// Copies the first bytes into the buffer: as many as go in, and at most a limit.
fn copy_some(bytes: &[u8], buffer: &mut [u8], limit: usize) -> usize
    ensures count { result ≡ min (min (length bytes.now) (length buffer.old)) limit }
    ensures copied { bytes.now ≡ take result buffer.new ++ drop result bytes.now }
{
    let count = bytes.len().min(buffer.len()).min(limit);
    buffer[..count].copy_from_slice(&bytes[..count]);
    count
}

/// A feed over bytes in memory.
///
/// Its k-th read, from 1, gives at most `cuts[k - 1]` bytes, where that stands and isn't 0, and fails where `fails`
/// lists k.
#[derive(Debug, Drop)]
pub struct MemFeed {
    bytes: Bytes,
    at: usize,
    cuts: Nums,
    calls: Calls,
    ghost within: { at ≤ length bytes },
}

impl MemFeed {
    ghost use Rattle.vdb_base.specs.MemFeed.{left_of, cuts_of, calls_of, cut_short};

    pub fn new(bytes: Bytes, cuts: Nums, fails: Nums) -> MemFeed
        ensures bytes { left_of result ≡ bytes }
        ensures cuts { cuts_of result ≡ cuts }
        ensures fails { calls_of result ≡ uncalled fails }
    {
        MemFeed {
            bytes,
            at: 0,
            cuts,
            calls: Calls::new(fails),
        }
    }

    /// How many bytes the read with this number takes of so many.
    fn cut(&self, made: u64, count: usize) -> usize
        ensures { result ≡ cut_short self.now.cuts made count }
    {
        let place = made.saturating_sub(1);
        if place < self.cuts.len() as u64 {
            let cut = self.cuts.as_slice()[place as usize] as usize;
            if cut == 0 { count } else { count.min(cut) }
        } else {
            count
        }
    }
}

impl Feed for MemFeed {
    ghost use Rattle.vdb_base.specs.MemFeed.{feed_told, ReadsByList};

    ghost told = { feed_told };

    fn read(&mut self, buffer: &mut [u8]) -> Result<usize, Failed>
        requires { 0 < length buffer.old }
        ensures takes { Takes (feed_told self.old) (feed_told self.new) result buffer.new }
        ensures by_list { ReadsByList self.old self.new result (length buffer.old) }
    {
        if self.calls.begin() {
            return Err(self.calls.fail());
        }
        let left = &self.bytes.as_slice()[self.at..];
        let most = self.cut(self.calls.made, left.len().min(buffer.len()));
        let count = copy_some(left, buffer, most);
        self.at += count;
        Ok(count)
    }
}

/// Any reader of std, as the standard input. It tells nothing but its count.
#[derive(Drop)]
pub struct StdFeed<R: Read + Drop> {
    reader: R,
    faults: u64,
}

impl<R: Read + Drop> StdFeed<R> {
    pub fn new(reader: R) -> StdFeed<R> {
        StdFeed { reader, faults: 0 }
    }
}

impl<R: Read + Drop> Feed for StdFeed<R> {
    ghost told = { λ f. record { left = None; faults = f.faults } };

    fn read(&mut self, buffer: &mut [u8]) -> Result<usize, Failed> {
        match self.reader.read(buffer) {
            Ok(count) => Ok(count),
            Err(_) => {
                self.faults = self.faults.saturating_add(1);
                Err(Failed)
            }
        }
    }
}
