//! A fixed array between a writer of short pieces and a sink.

ghost use Rattle.std.specs.Prelude.{◌≡◌, ◌≤◌, ◌<◌, ◌+◌, ◌-◌, ◌++◌, [], length, take, is_ok, OnOk};
ghost use Rattle.vdb_base.specs.Printing.{Prints};

use crate::calls::Failed;
use crate::sink::Sink;

/// How many bytes a buffer holds.
pub const BUFFER_SIZE: usize = 8192;

/// Gathers short pieces, and hands them to a sink in blocks. It takes no memory.
///
/// What waits in it is written by `flush` alone: a buffer that is dropped before loses it.
#[derive(Drop)]
pub struct WriteBuffer {
    bytes: [u8; BUFFER_SIZE],
    used: usize,
    ghost within: { used ≤ 8192 },
}

impl WriteBuffer {
    ghost use Rattle.vdb_base.specs.Buffering.{waiting, room_of, Buffers};

    pub fn new() -> WriteBuffer
        ensures { waiting result ≡ [] }
    {
        WriteBuffer {
            bytes: [0; BUFFER_SIZE],
            used: 0,
        }
    }

    /// Writes what waits. Nothing waits then, also where the write failed.
    pub fn flush<O: Sink>(&mut self, out: &mut O) -> Result<(), Failed>
        ensures prints { Prints (is_ok result) (O.told out.old) (O.told out.new) (waiting self.old) }
        ensures empty { waiting self.new ≡ [] }
        ensures room { room_of self.new ≡ BUFFER_SIZE }
    {
        let used = self.used;
        self.used = 0;
        out.write(&self.bytes[..used])
    }

    /// Keeps a piece that there is room for.
    fn keep(&mut self, piece: &[u8])
        requires { self.old.used + length piece.now ≤ 8192 }
        ensures { waiting self.new ≡ waiting self.old ++ piece.now }
    {
        let end = self.used + piece.len();
        self.bytes[self.used..end].copy_from_slice(piece);
        self.used = end;
    }

    /// Takes a piece. Where there is no room for it, what waits is written first, and a long piece goes to the sink at
    /// once.
    pub fn write<O: Sink>(&mut self, piece: &[u8], out: &mut O) -> Result<(), Failed>
        ensures { Buffers (is_ok result) (O.told out.old) (O.told out.new) (waiting self.old) (waiting self.new) piece.now }
    {
        if piece.len() <= BUFFER_SIZE - self.used {
            self.keep(piece);
            return Ok(());
        }
        match self.flush(out) {
            Ok(()) => {}
            Err(failed) => return Err(failed),
        }
        if piece.len() <= BUFFER_SIZE {
            self.keep(piece);
            Ok(())
        } else {
            out.write(piece)
        }
    }
}
