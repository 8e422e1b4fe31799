//! The rows of a part of a relation, lent where they stand or made.

ghost use Rattle.std.specs.Prelude.{◌≡◌, IfOk};
ghost use Rattle.vdb_model.specs.Relations.{no_bag};
ghost use Rattle.processor.specs.Parts.{held, bag_of_part};

use std::alloc::Global;
use vdb_base::{Duplicate, NoMemory, Rows, Seq};
use vdb_model::Bag;

/// Rows that were lent where they stand, or made.
#[derive(Drop)]
pub enum Held<'a> {
    Lent(&'a Rows),
    Made(Rows),
}

impl<'a> Held<'a> {
    pub fn get(&self) -> &Rows
        ensures { result.now ≡ held self.now }
    {
        match self {
            Held::Lent(rows) => rows,
            Held::Made(rows) => rows,
        }
    }

    pub fn own(self, alloc: Global) -> Result<Rows, NoMemory>
        ensures { IfOk result (λ rows. rows ≡ held self.entry) }
    {
        match self {
            Held::Lent(rows) => rows.copy(alloc),
            Held::Made(rows) => Ok(rows),
        }
    }
}

/// The rows of a part of a relation, with how many columns they have.
#[derive(Drop)]
pub struct Part<'a> {
    pub width: usize,
    pub rows: Held<'a>,
}

impl<'a> Part<'a> {
    /// No rows, of no column.
    pub fn none(alloc: Global) -> Part<'a>
        ensures { bag_of_part result ≡ no_bag }
    {
        Part::made(0, Seq::new(alloc))
    }

    pub fn made(width: usize, rows: Rows) -> Part<'a>
        ensures { bag_of_part result ≡ record { width = width; rows = rows } }
    {
        Part {
            width,
            rows: Held::Made(rows),
        }
    }

    /// The rows of a bag where they stand.
    pub fn lent(bag: &'a Bag) -> Part<'a>
        ensures { bag_of_part result ≡ bag.now }
    {
        Part {
            width: bag.width,
            rows: Held::Lent(&bag.rows),
        }
    }

    pub fn own(self, alloc: Global) -> Result<Bag, NoMemory>
        ensures { IfOk result (λ bag. bag ≡ bag_of_part self.entry) }
    {
        Ok(Bag {
            width: self.width,
            rows: self.rows.own(alloc)?,
        })
    }
}
