//! Statements and blocks with their names resolved and their types known.

use crate::expr::{Expr, Exprs};
use crate::rel::{Ranked, Rel};
use sqlite_items::Items;
use vdb_base::{Nums, Seq, Text, Ty};

/// What an update changes.
#[derive(Clone, Copy, Debug, PartialEq, Eq)]
pub enum Target {
    Table(u32),
    View(u32),
}

/// A statement whose names are numbers. The `rows` of an update are the rows that it is about: those that an INSERT
/// adds, or the target's rows that an UPDATE or DELETE changes.
#[derive(Drop)]
pub enum Typed {
    Query(Ranked),
    Explain(Ranked),
    Insert {
        target: Target,
        columns: Nums,
        rows: Rel,
    },
    Update {
        target: Target,
        columns: Nums,
        /// Over the target's columns.
        values: Exprs,
        rows: Rel,
    },
    Delete {
        target: Target,
        rows: Rel,
    },
    Exec {
        procedure: u32,
        args: Exprs,
    },
    Start,
    Commit,
    Rollback,
}

/// A name with a type: a variable, a parameter, or a column of a view or result.
#[derive(Debug, Drop)]
pub struct VarDef {
    pub name: Text,
    pub ty: Ty,
}

pub type VarDefs = Seq<VarDef>;

/// A block: its variables, which are those of the scope, ROWCOUNT and its own in text order, and its statements.
#[derive(Drop)]
pub struct TypedBlock {
    pub vars: VarDefs,
    pub body: TypedStmts,
}

pub type TypedStmts = Items<TypedStmt>;

/// A statement of a block. Variables go by number.
#[derive(Drop)]
pub enum TypedStmt {
    Declare {
        var: u32,
        value: Option<Expr>,
    },
    Assign {
        var: u32,
        value: Expr,
    },
    Run(Typed),
    Raise(Expr),
    If {
        cond: Expr,
        yes: TypedStmts,
        no: TypedStmts,
    },
    While {
        cond: Expr,
        body: TypedStmts,
    },
    /// For each row of the query, whose cells the variables from `first` on take.
    Loop {
        query: Ranked,
        first: u32,
        body: TypedStmts,
    },
}
