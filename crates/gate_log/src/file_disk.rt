//! A real file as a disk.

ghost use Rattle.std.specs.Prelude.{None, ⊤};
ghost use Rattle.gate_log.specs.Disk.{Counts};

use crate::disk::Disk;
use std::fs::File;
use std::io;
use std::os::unix::fs::FileExt;
use vdb_base::Failed;

/// A file of the system. It tells nothing but its count.
///
/// Its `sync` is the system's, for the contents and the length. Nobody else may write the file.
#[derive(Drop)]
pub struct FileDisk {
    file: File,
    faults: u64,
}

impl FileDisk {
    /// A disk over a file that was opened for reading and writing.
    pub fn new(file: File) -> FileDisk {
        FileDisk { file, faults: 0 }
    }
}

/// Counts a fault where the system answered one.
fn counted<T: Drop>(faults: &mut u64, answer: io::Result<T>) -> Result<T, Failed>
    ensures { Counts faults.old faults.new result }
{
    match answer {
        Ok(value) => Ok(value),
        Err(_) => {
            *faults = faults.saturating_add(1);
            Err(Failed)
        }
    }
}

impl Disk for FileDisk {
    ghost told = { λ disk. record { bytes = None; faults = disk.faults } };

    ghost images = { λ disk bytes. ⊤ };

    fn len(&mut self) -> Result<u64, Failed> {
        let metadata = counted(&mut self.faults, self.file.metadata())?;
        Ok(metadata.len())
    }

    fn read_at(&mut self, at: u64, buffer: &mut [u8]) -> Result<(), Failed> {
        counted(&mut self.faults, self.file.read_exact_at(buffer, at))
    }

    fn write_at(&mut self, at: u64, bytes: &[u8]) -> Result<(), Failed> {
        counted(&mut self.faults, self.file.write_all_at(bytes, at))
    }

    fn cut(&mut self, len: u64) -> Result<(), Failed> {
        counted(&mut self.faults, self.file.set_len(len))
    }

    fn sync(&mut self) -> Result<(), Failed> {
        counted(&mut self.faults, self.file.sync_all())
    }
}
