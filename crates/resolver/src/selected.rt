//! What FROM and selects give.

use expr_resolver::Entries;
use vdb_base::{Seq, Text, Ty};
use vdb_model::{Expr, Rel, Rels};

/// What a FROM, or a part of it, gives: its joined rows, and the entries that name their columns.
#[derive(Drop)]
pub struct Source {
    pub rel: Rel,
    pub entries: Entries,
}

/// A column of a query, with the place of the first token of its item.
#[derive(Debug, Drop)]
pub struct Column {
    pub name: Text,
    /// None for a NULL alone.
    pub ty: Option<Ty>,
    pub first: usize,
}

pub type Columns = Seq<Column>;

/// A column of an item list, and the expression that gives it.
#[derive(Drop)]
pub struct Chosen {
    pub expr: Expr,
    pub column: Column,
}

pub type Choices = Seq<Chosen>;

/// What a query without an order gives.
#[derive(Drop)]
pub struct Selected {
    /// The relation, or those of the chain of UNION ALL that it is.
    pub parts: Rels,
    pub columns: Columns,
    /// The place of the first token of its first item list.
    pub first: usize,
}
