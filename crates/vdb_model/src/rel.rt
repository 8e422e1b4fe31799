//! Relations, and queries that arrange their rows.

ghost use Rattle.std.specs.Prelude.{◌≡◌, IfOk};

use crate::expr::{Expr, Exprs};
use sqlite_items::{Boxed, Items};
use std::alloc::Global;
use vdb_base::{Duplicate, NoMemory, Nums, Seq, Texts, Tys};

#[derive(Clone, Copy, Debug, PartialEq, Eq)]
pub enum JoinKind {
    Inner,
    Left,
}

/// An aggregate over the rows of a group.
#[derive(Drop)]
pub enum Agg {
    CountStar,
    Count(Expr),
    Sum(Expr),
    Min(Expr),
    Max(Expr),
}

pub type Aggs = Seq<Agg>;

pub type Rels = Items<Rel>;

/// A relation over the tables and views of a catalog, by number from 0.
#[derive(Drop)]
pub enum Rel {
    /// One row without columns.
    One,
    Table(u32),
    View(u32),
    Where(Boxed<Rel>, Expr),
    Select(Boxed<Rel>, Exprs),
    Join {
        kind: JoinKind,
        left: Boxed<Rel>,
        right: Boxed<Rel>,
        on: Expr,
    },
    /// The keys' values and then the aggregates; without keys one row.
    Group {
        of: Boxed<Rel>,
        keys: Nums,
        aggs: Aggs,
    },
    Distinct(Boxed<Rel>),
    /// Part after part, as UNION ALL.
    Union(Rels),
}

/// A column that rows are ordered by.
#[derive(Clone, Copy, Debug, PartialEq, Eq)]
pub struct Key {
    pub column: u32,
    pub desc: bool,
}

pub type Keys = Seq<Key>;

pub type Names = Texts;

/// A query: a relation with the names and types of its columns, and how its rows are arranged.
#[derive(Drop)]
pub struct Ranked {
    pub rel: Rel,
    pub names: Names,
    pub tys: Tys,
    pub keys: Keys,
    pub offset: u64,
    pub limit: Option<u64>,
}

impl Duplicate for Key {
    fn copy(&self, _alloc: Global) -> Result<Key, NoMemory> {
        Ok(*self)
    }
}

impl Agg {
    pub fn copy(&self, alloc: Global) -> Result<Agg, NoMemory>
        ensures { IfOk result (λ made. made ≡ self.now) }
    {
        match self {
            Agg::CountStar => Ok(Agg::CountStar),
            Agg::Count(e) => Ok(Agg::Count(e.copy(alloc)?)),
            Agg::Sum(e) => Ok(Agg::Sum(e.copy(alloc)?)),
            Agg::Min(e) => Ok(Agg::Min(e.copy(alloc)?)),
            Agg::Max(e) => Ok(Agg::Max(e.copy(alloc)?)),
        }
    }
}

impl Duplicate for Agg {
    fn copy(&self, alloc: Global) -> Result<Agg, NoMemory> {
        self.copy(alloc)
    }
}

impl Ranked {
    pub fn copy(&self, alloc: Global) -> Result<Ranked, NoMemory>
        ensures { IfOk result (λ made. made ≡ self.now) }
    {
        let names = self.names.copy(alloc)?;
        let tys = self.tys.copy(alloc)?;
        let keys = self.keys.copy(alloc)?;
        let rel = self.rel.copy(alloc)?;
        Ok(Ranked {
            rel,
            names,
            tys,
            keys,
            offset: self.offset,
            limit: self.limit,
        })
    }
}
