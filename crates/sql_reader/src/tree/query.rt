//! Queries.

use crate::tree::expr::{Expr, Literal};
use crate::tree::name::{ColumnName, Name, RelationName};
use sqlite_items::{Boxed, Items};
use vdb_base::Seq;

pub type TableRefs = Items<TableRef>;

/// A query with the order and the part of its rows.
#[derive(Drop)]
pub struct Query {
    pub set: SetQuery,
    pub keys: Seq<Key>,
    pub limit: Option<Literal>,
    pub offset: Option<Literal>,
}

/// A key of ORDER BY.
#[derive(Debug, Drop)]
pub struct Key {
    pub target: KeyTarget,
    pub descending: bool,
}

#[derive(Debug, Drop)]
pub enum KeyTarget {
    Name(Name),
    Number(Literal),
}

/// Selects with UNION or UNION ALL between them, from left to right.
#[cycle(query)]
#[derive(Drop)]
pub enum SetQuery {
    Select(Select),
    Union {
        left: Boxed<SetQuery>,
        all: bool,
        right: Select,
    },
}

/// One select, and the place of its SELECT.
#[cycle(query)]
#[derive(Drop)]
pub struct Select {
    pub distinct: bool,
    /// One or more.
    pub items: Seq<SelectItem>,
    pub from: TableRefs,
    pub condition: Option<Expr>,
    pub group: Seq<ColumnName>,
    pub having: Option<Expr>,
    pub at: usize,
}

#[derive(Drop)]
pub enum SelectItem {
    /// `*`
    All { at: usize },
    /// A relation's name, `.` and `*`.
    AllOf { relation: Name },
    Expr { expr: Expr, alias: Option<Name> },
}

/// What stands between the commas of FROM: a relation, a query, or tables that are joined from left to right.
#[cycle(query)]
#[derive(Drop)]
pub enum TableRef {
    Named {
        name: RelationName,
        alias: Option<Name>,
    },
    Derived {
        query: Boxed<SetQuery>,
        alias: Name,
    },
    Joined {
        left: Boxed<TableRef>,
        right: Boxed<TableRef>,
        kind: JoinKind,
    },
}

/// A join's kind, with its condition.
#[derive(Drop)]
pub enum JoinKind {
    Inner(Expr),
    Left(Expr),
    Cross,
}
