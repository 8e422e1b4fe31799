//! The trees of statements, as they are written.
//!
//! A tree has the places that a refusal may name, as byte offsets in the text: of names and literals, and of the signs and
//! words of operators. Parentheses stand in it, so that an expression's first token is known. Operators of one level stand in one
//! chain, from left to right, so a tree is no deeper than its text is nested.

mod expr;
mod name;
mod query;
mod statement;

pub use expr::{
    Aggregate, Arm, Arms, Comparison, Constant, Expr, Exprs, Link, Links, Literal, Operator,
};
pub use name::{ColumnName, Name, Names, RelationName};
pub use query::{
    JoinKind, Key, KeyTarget, Query, Select, SelectItem, SetQuery, TableRef, TableRefs,
};
pub use statement::{
    Assignment, Assignments, Delete, Exec, Insert, InsertSource, Statement, Update,
};
