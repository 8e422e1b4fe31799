//! Statements.

use crate::tree::expr::{Expr, Exprs};
use crate::tree::name::{Name, Names, RelationName};
use crate::tree::query::{Query, SetQuery};
use vdb_base::Seq;

#[derive(Drop)]
pub enum Statement {
    Query(Query),
    Explain(Query),
    Insert(Insert),
    Update(Update),
    Delete(Delete),
    Exec(Exec),
    Start,
    Commit,
    Rollback,
}

#[derive(Drop)]
pub struct Insert {
    pub target: RelationName,
    /// Empty where no list is written.
    pub columns: Names,
    pub source: InsertSource,
}

#[derive(Drop)]
pub enum InsertSource {
    /// One or more.
    Values(Exprs),
    Query(SetQuery),
}

#[derive(Drop)]
pub struct Update {
    pub target: RelationName,
    /// One or more.
    pub assignments: Assignments,
    pub condition: Option<Expr>,
}

pub type Assignments = Seq<Assignment>;

#[derive(Drop)]
pub struct Assignment {
    pub column: Name,
    pub value: Expr,
}

#[derive(Drop)]
pub struct Delete {
    pub target: RelationName,
    pub condition: Option<Expr>,
}

/// A call of a procedure, and the place of its `)`.
#[derive(Drop)]
pub struct Exec {
    pub procedure: RelationName,
    pub arguments: Exprs,
    pub close: usize,
}
