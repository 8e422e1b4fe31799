//! Expressions.

use sqlite_items::{Boxed, Items};
use vdb_base::{Text, Value};

#[derive(Clone, Copy, Debug, PartialEq, Eq)]
pub enum CmpOp {
    Eq,
    Ne,
    Lt,
    Le,
    Gt,
    Ge,
}

#[derive(Clone, Copy, Debug, PartialEq, Eq)]
pub enum ArithOp {
    Add,
    Sub,
    Mul,
}

pub type Exprs = Items<Expr>;

pub type Arms = Items<Arm>;

/// An expression over the columns of a row and the variables of a block, both by number from 0.
#[cycle(expr)]
#[derive(Drop)]
pub enum Expr {
    Col(u32),
    Var(u32),
    Const(Value),
    Not(Boxed<Expr>),
    And(Exprs),
    Or(Exprs),
    Cmp(CmpOp, Boxed<Expr>, Boxed<Expr>),
    IsNull(Boxed<Expr>),
    In(Boxed<Expr>, Exprs),
    /// `%` stands for any text and `_` for one character; there is no escape.
    Like(Boxed<Expr>, Text),
    Arith(ArithOp, Boxed<Expr>, Boxed<Expr>),
    Neg(Boxed<Expr>),
    Concat(Exprs),
    /// The first arm whose condition is TRUE, or else the last expression.
    Case(Arms, Boxed<Expr>),
    Coalesce(Exprs),
}

/// One `WHEN .. THEN ..` of a CASE.
#[cycle(expr)]
#[derive(Drop)]
pub struct Arm {
    pub when: Expr,
    pub gives: Expr,
}
