//! The files of a folder.

ghost use Rattle.std.specs.Prelude.{◌≡◌, IfOk};

use std::alloc::Global;
use vdb_base::{Bytes, Duplicate, NoMemory, Seq, Text};

/// A file by its name in the folder.
#[derive(Debug, Drop)]
pub struct File {
    pub name: Text,
    pub bytes: Bytes,
}

/// Files in turn; of two with one name the first is read.
pub type Files = Seq<File>;

impl File {
    pub fn copy(&self, alloc: Global) -> Result<File, NoMemory>
        ensures { IfOk result (λ made. made ≡ self.now) }
    {
        Ok(File {
            name: self.name.copy(alloc)?,
            bytes: self.bytes.copy(alloc)?,
        })
    }
}

impl Duplicate for File {
    fn copy(&self, alloc: Global) -> Result<File, NoMemory> {
        self.copy(alloc)
    }
}
