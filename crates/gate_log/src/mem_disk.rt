//! A disk in memory.

ghost use Rattle.std.specs.Prelude.{◌≡◌, ◌≤◌, length, take, drop, IfSome, IfOk, OnOk, OnErr};
ghost use Rattle.gate_log.specs.Disk.{IsWithin, Asks, Changes, overwritten};
ghost use Rattle.gate_log.specs.Stops.{Torn, CutBack, Follows, Same, Within, Only};
ghost use Rattle.vdb_base.specs.Calls.{uncalled};

use crate::disk::Disk;
use std::alloc::{AllocError, Global};
use vdb_base::{Bytes, Calls, Failed, Nums};

/// Puts bytes in the place of others, from one on, and at the end.
fn overwrite(items: &mut Vec<u8>, at: usize, bytes: &[u8]) -> Result<(), AllocError>
    requires { at ≤ length items.old.items }
    ensures ok { OnOk result (items.new.items ≡ overwritten at bytes.now items.old.items) }
    ensures err { OnErr result (items.new.items ≡ items.old.items) }
{
    let over = bytes.len().min(items.len() - at);
    let (first, rest) = bytes.split_at(over);
    items.extend_from_slice(rest)?;
    items[at..at + over].copy_from_slice(first);
    Ok(())
}

/// A disk that keeps its bytes in memory.
///
/// Its k-th call, from 1, fails where `fails` lists k. A write whose growth is refused counts as failed too. A failed call
/// changes nothing.
#[derive(Debug, Drop)]
pub struct MemDisk {
    bytes: Vec<u8>,
    calls: Calls,
}

impl MemDisk {
    ghost use Rattle.gate_log.specs.MemDisk.{bytes_of, calls_of};

    /// A disk with these bytes, all of which a stop leaves.
    pub fn new(_alloc: Global, bytes: Bytes, fails: Nums) -> MemDisk
        ensures bytes { bytes_of result ≡ bytes }
        ensures fails { calls_of result ≡ uncalled fails }
    {
        MemDisk {
            bytes: bytes.into_vec(),
            calls: Calls::new(fails),
        }
    }

    /// What a read of all of it gives.
    pub fn bytes(&self) -> &[u8]
        ensures { result.now ≡ bytes_of self.now }
    {
        &self.bytes
    }
}

impl Disk for MemDisk {
    ghost use Rattle.gate_log.specs.MemDisk.{mem_told, mem_images, bytes_of, GoesByList, WritesByList};

    ghost told = { mem_told };

    ghost images = { mem_images };

    fn len(&mut self) -> Result<u64, Failed>
        ensures answer { IfOk result (λ n. IfSome (mem_told self.old).bytes (λ bytes. n ≡ length bytes)) }
        ensures leaves { Asks (mem_told self.old) (mem_told self.new) (mem_images self.new) result }
        ensures stops { Same (mem_images self.old) (mem_images self.new) }
        ensures by_list { GoesByList self.old self.new result }
    {
        if self.calls.begin() {
            return Err(self.calls.fail());
        }
        Ok(self.bytes.len() as u64)
    }

    fn read_at(&mut self, at: u64, buffer: &mut [u8]) -> Result<(), Failed>
        requires { IsWithin at (length buffer.old) (mem_told self.old) }
        ensures answer { OnOk result (IfSome (mem_told self.old).bytes (λ bytes. buffer.new ≡ take (length buffer.old) (drop at bytes))) }
        ensures leaves { Asks (mem_told self.old) (mem_told self.new) (mem_images self.new) result }
        ensures stops { Same (mem_images self.old) (mem_images self.new) }
        ensures by_list { GoesByList self.old self.new result }
    {
        if self.calls.begin() {
            return Err(self.calls.fail());
        }
        let at = at as usize;
        buffer.copy_from_slice(&self.bytes[at..at + buffer.len()]);
        Ok(())
    }

    fn write_at(&mut self, at: u64, bytes: &[u8]) -> Result<(), Failed>
        requires { IsWithin at 0 (mem_told self.old) }
        ensures leaves { Changes (overwritten at bytes.now) (mem_told self.old) (mem_told self.new) (mem_images self.new) result }
        ensures stops { Follows (Torn at (length bytes.now)) (mem_images self.old) (mem_images self.new) }
        ensures by_list { WritesByList self.old self.new result }
    {
        if self.calls.begin() || overwrite(&mut self.bytes, at as usize, bytes).is_err() {
            return Err(self.calls.fail());
        }
        Ok(())
    }

    fn cut(&mut self, len: u64) -> Result<(), Failed>
        requires { IsWithin len 0 (mem_told self.old) }
        ensures leaves { Changes (take len) (mem_told self.old) (mem_told self.new) (mem_images self.new) result }
        ensures stops { Follows (CutBack len) (mem_images self.old) (mem_images self.new) }
        ensures by_list { GoesByList self.old self.new result }
    {
        if self.calls.begin() {
            return Err(self.calls.fail());
        }
        self.bytes.truncate(len as usize);
        Ok(())
    }

    fn sync(&mut self) -> Result<(), Failed>
        ensures leaves { Asks (mem_told self.old) (mem_told self.new) (mem_images self.new) result }
        ensures stops { Within (mem_images self.old) (mem_images self.new) }
        ensures safe { OnOk result (IfSome (mem_told self.new).bytes (λ bytes. Only bytes (mem_images self.new))) }
        ensures by_list { GoesByList self.old self.new result }
    {
        if self.calls.begin() {
            return Err(self.calls.fail());
        }
        Ok(())
    }
}
