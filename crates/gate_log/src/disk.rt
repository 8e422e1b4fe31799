//! A file as a log sees it.

ghost use Rattle.std.specs.Prelude.{◌≡◌, List, ℕ, length, take, drop, IfSome, IfOk, OnOk};
ghost use Rattle.gate_log.specs.Disk.{DiskTold, IsWithin, Asks, Changes, overwritten};
ghost use Rattle.gate_log.specs.Stops.{Torn, CutBack, Follows, Same, Within, Only};

use vdb_base::Failed;

/// A file that is read and written at places.
///
/// What was written, or cut off, is safe only after the next sync: until then a stop may leave any bytes in the ranges
/// that were written, and a length between. A call that failed may have done any part of its work, and reads give from
/// then on one of the contents that a stop may leave.
pub trait Disk {
    /// The bytes that reads give, where the disk can tell them, and its count of faults.
    ghost told: { Self → DiskTold };

    /// The contents that a stop may leave now.
    ghost images: { Self → List ℕ → Type 0 };

    /// How many bytes the file has.
    fn len(&mut self) -> Result<u64, Failed>
        ensures answer { IfOk result (λ n. IfSome (told self.old).bytes (λ bytes. n ≡ length bytes)) }
        ensures leaves { Asks (told self.old) (told self.new) (images self.new) result }
        ensures stops { Same (images self.old) (images self.new) };

    /// Fills the buffer with the bytes from a place on, all of which the file must have.
    fn read_at(&mut self, at: u64, buffer: &mut [u8]) -> Result<(), Failed>
        requires { IsWithin at (length buffer.old) (told self.old) }
        ensures answer { OnOk result (IfSome (told self.old).bytes (λ bytes. buffer.new ≡ take (length buffer.old) (drop at bytes))) }
        ensures leaves { Asks (told self.old) (told self.new) (images self.new) result }
        ensures stops { Same (images self.old) (images self.new) };

    /// Writes over what stands there, and past the end.
    fn write_at(&mut self, at: u64, bytes: &[u8]) -> Result<(), Failed>
        requires { IsWithin at 0 (told self.old) }
        ensures leaves { Changes (overwritten at bytes.now) (told self.old) (told self.new) (images self.new) result }
        ensures stops { Follows (Torn at (length bytes.now)) (images self.old) (images self.new) };

    /// Cuts the file to a length that it has.
    fn cut(&mut self, len: u64) -> Result<(), Failed>
        requires { IsWithin len 0 (told self.old) }
        ensures leaves { Changes (take len) (told self.old) (told self.new) (images self.new) result }
        ensures stops { Follows (CutBack len) (images self.old) (images self.new) };

    /// Once it is Ok, a stop leaves what a read gives.
    fn sync(&mut self) -> Result<(), Failed>
        ensures leaves { Asks (told self.old) (told self.new) (images self.new) result }
        ensures stops { Within (images self.old) (images self.new) }
        ensures safe { OnOk result (IfSome (told self.new).bytes (λ bytes. Only bytes (images self.new))) };
}

/// Writes bytes, and waits until they are on the disk.
pub fn write_safely<D: Disk>(disk: &mut D, at: u64, bytes: &[u8]) -> Result<(), Failed>
    requires { IsWithin at 0 (D.told disk.old) }
    ensures leaves { Changes (overwritten at bytes.now) (D.told disk.old) (D.told disk.new) (D.images disk.new) result }
    ensures stops { Follows (Torn at (length bytes.now)) (D.images disk.old) (D.images disk.new) }
    ensures safe { OnOk result (IfSome (D.told disk.new).bytes (λ bytes. Only bytes (D.images disk.new))) }
{
    disk.write_at(at, bytes)?;
    disk.sync()
}
