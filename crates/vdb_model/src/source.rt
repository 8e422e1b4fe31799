//! What a source can be asked, and the queries that it is sent.

ghost use Rattle.std.specs.Prelude.{◌≡◌, IfOk};

use crate::expr::Exprs;
use crate::rel::Keys;
use std::alloc::Global;
use vdb_base::{Duplicate, NoMemory, Nums, Rows, Seq};

/// The capabilities of a source.
#[derive(Clone, Copy, Debug, PartialEq, Eq)]
pub struct Caps {
    pub equals: bool,
    pub ordered: bool,
    /// The most constants of an IN; 0 where IN isn't supported.
    pub in_max: u32,
    pub is_null: bool,
    pub like: bool,
    pub or: bool,
    pub not: bool,
    pub joins: bool,
    pub distinct: bool,
    pub order: bool,
    pub limit: bool,
    pub count_star: bool,
    /// Constants past 64 signed bits.
    pub wide: bool,
    pub writes: bool,
}

/// A query to one source. Its columns are numbered through the columns of its tables in turn.
#[derive(Drop)]
pub struct SourceQuery {
    pub tables: Nums,
    pub filter: Exprs,
    pub columns: Nums,
    pub distinct: bool,
    pub order: Keys,
    pub limit: Option<u64>,
    /// Asks for the number of rows alone.
    pub count: bool,
}

pub type SourceQueries = Seq<SourceQuery>;

pub type QueryLists = Seq<SourceQueries>;

impl SourceQuery {
    pub fn copy(&self, alloc: Global) -> Result<SourceQuery, NoMemory>
        ensures { IfOk result (λ made. made ≡ self.now) }
    {
        Ok(SourceQuery {
            tables: self.tables.copy(alloc)?,
            filter: self.filter.copy(alloc)?,
            columns: self.columns.copy(alloc)?,
            distinct: self.distinct,
            order: self.order.copy(alloc)?,
            limit: self.limit,
            count: self.count,
        })
    }
}

impl Duplicate for SourceQuery {
    fn copy(&self, alloc: Global) -> Result<SourceQuery, NoMemory> {
        self.copy(alloc)
    }
}

/// A change of one table: rows that are taken out, and rows that come in.
#[derive(Drop)]
pub struct Delta {
    pub table: u32,
    pub removed: Rows,
    pub added: Rows,
}

pub type Deltas = Seq<Delta>;

impl Delta {
    pub fn copy(&self, alloc: Global) -> Result<Delta, NoMemory>
        ensures { IfOk result (λ made. made ≡ self.now) }
    {
        Ok(Delta {
            table: self.table,
            removed: self.removed.copy(alloc)?,
            added: self.added.copy(alloc)?,
        })
    }
}

impl Duplicate for Delta {
    fn copy(&self, alloc: Global) -> Result<Delta, NoMemory> {
        self.copy(alloc)
    }
}

/// The identifier of a transaction branch: the epoch of the journal, and a number in it.
#[derive(Clone, Copy, Debug, PartialEq, Eq)]
pub struct Xid {
    pub epoch: u64,
    pub seq: u64,
}

impl Duplicate for Xid {
    fn copy(&self, _alloc: Global) -> Result<Xid, NoMemory> {
        Ok(*self)
    }
}
