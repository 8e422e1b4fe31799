//! Bytes that go out.

ghost use Rattle.std.specs.Prelude.{◌≡◌, [], is_ok, Some, None};
ghost use Rattle.vdb_base.specs.Printing.{Prints, SinkTold};
ghost use Rattle.vdb_base.specs.Calls.{uncalled};

use crate::calls::{Calls, Failed};
use crate::seq::Nums;
use std::alloc::Global;
use std::io::Write;

/// A place of the outside that bytes are written to.
///
/// `write` appends all of the bytes. A write that failed may have appended the first of them.
pub trait Sink {
    /// The bytes that were written, where the sink can tell them, and its count of faults.
    ghost told: { Self → SinkTold };

    fn write(&mut self, bytes: &[u8]) -> Result<(), Failed>
        ensures prints { Prints (is_ok result) (told self.old) (told self.new) bytes.now };
}

/// A sink that keeps what is written.
///
/// Its k-th write, from 1, fails where `fails` lists k. A write whose growth is refused counts as failed too. A failed
/// write appends nothing.
#[derive(Debug, Drop)]
pub struct MemSink {
    bytes: Vec<u8>,
    calls: Calls,
}

impl MemSink {
    ghost use Rattle.vdb_base.specs.MemSink.{written_of, calls_of};

    pub fn new(alloc: Global, fails: Nums) -> MemSink
        ensures written { written_of result ≡ [] }
        ensures fails { calls_of result ≡ uncalled fails }
    {
        MemSink {
            bytes: Vec::new(alloc),
            calls: Calls::new(fails),
        }
    }

    pub fn bytes(&self) -> &[u8]
        ensures { result.now ≡ written_of self.now }
    {
        &self.bytes
    }
}

impl Sink for MemSink {
    ghost use Rattle.vdb_base.specs.MemSink.{sink_told, WritesByList};

    ghost told = { sink_told };

    fn write(&mut self, bytes: &[u8]) -> Result<(), Failed>
        ensures prints { Prints (is_ok result) (sink_told self.old) (sink_told self.new) bytes.now }
        ensures by_list { WritesByList self.old self.new result }
    {
        if self.calls.begin() || self.bytes.extend_from_slice(bytes).is_err() {
            return Err(self.calls.fail());
        }
        Ok(())
    }
}

/// Any writer of std, as the standard output. Each write is flushed. It tells nothing but its count.
#[derive(Drop)]
pub struct StdSink<W: Write + Drop> {
    writer: W,
    faults: u64,
}

impl<W: Write + Drop> StdSink<W> {
    pub fn new(writer: W) -> StdSink<W> {
        StdSink { writer, faults: 0 }
    }
}

impl<W: Write + Drop> Sink for StdSink<W> {
    ghost told = { λ s. record { written = None; faults = s.faults } };

    fn write(&mut self, bytes: &[u8]) -> Result<(), Failed> {
        if self.writer.write_all(bytes).is_ok() && self.writer.flush().is_ok() {
            return Ok(());
        }
        self.faults = self.faults.saturating_add(1);
        Err(Failed)
    }
}
