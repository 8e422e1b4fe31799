//! The rows of a relation, with how many columns they have.

ghost use Rattle.std.specs.Prelude.{◌≡◌, IfOk};

use std::alloc::Global;
use vdb_base::{Duplicate, NoMemory, Rows, Seq};

/// Rows of so many columns each. The width is told apart from the rows, since there may be none.
#[derive(Debug, Drop)]
pub struct Bag {
    pub width: usize,
    pub rows: Rows,
}

pub type Bags = Seq<Bag>;

impl Bag {
    pub fn copy(&self, alloc: Global) -> Result<Bag, NoMemory>
        ensures { IfOk result (λ made. made ≡ self.now) }
    {
        Ok(Bag {
            width: self.width,
            rows: self.rows.copy(alloc)?,
        })
    }
}

impl Duplicate for Bag {
    fn copy(&self, alloc: Global) -> Result<Bag, NoMemory> {
        self.copy(alloc)
    }
}
