//! Expressions.

use crate::tree::name::ColumnName;
use sqlite_items::{Boxed, Items};
use vdb_base::Value;

/// What a literal says.
#[derive(Debug, Drop)]
pub enum Constant {
    Value(Value),
    /// A number with a fraction or an exponent, whatever it is.
    Fraction,
    /// A whole number past 128 bits, with its sign.
    TooLong,
}

/// A literal with its place, which is that of its `-` where it has one.
#[derive(Debug, Drop)]
pub struct Literal {
    pub constant: Constant,
    /// Whether it has a `-`.
    pub negative: bool,
    /// A numeral's number without its sign, where one past 2^127 stands for all that are longer; 0 for other literals.
    pub whole: u128,
    pub at: usize,
}

/// The operators that stand in chains.
#[derive(Clone, Copy, Debug, PartialEq, Eq)]
pub enum Operator {
    Or,
    And,
    Concat,
    Add,
    Subtract,
    Multiply,
}

#[derive(Clone, Copy, Debug, PartialEq, Eq)]
pub enum Comparison {
    Equal,
    NotEqual,
    Less,
    AtMost,
    Greater,
    AtLeast,
}

#[derive(Clone, Copy, Debug, PartialEq, Eq)]
pub enum Aggregate {
    Count,
    Sum,
    Min,
    Max,
}

pub type Exprs = Items<Expr>;

pub type Links = Items<Link>;

pub type Arms = Items<Arm>;

/// An expression. The place `at` is that of the sign or the word that an operator begins with, and is not always that of its
/// first token; `negated` says that NOT stands before the word.
#[cycle(expr)]
#[derive(Drop)]
pub enum Expr {
    Literal(Literal),
    Column(ColumnName),
    /// An expression in parentheses.
    Parens {
        inner: Boxed<Expr>,
        at: usize,
    },
    Negate {
        operand: Boxed<Expr>,
        at: usize,
    },
    /// Operators of one level, from left to right: one or more of OR, of AND, of `||`, of `+` and `-`, or of `*`.
    Chain {
        first: Boxed<Expr>,
        rest: Links,
    },
    Not {
        operand: Boxed<Expr>,
        at: usize,
    },
    Compare {
        comparison: Comparison,
        left: Boxed<Expr>,
        right: Boxed<Expr>,
        at: usize,
    },
    IsNull {
        operand: Boxed<Expr>,
        negated: bool,
    },
    In {
        operand: Boxed<Expr>,
        negated: bool,
        items: Exprs,
        at: usize,
    },
    Like {
        operand: Boxed<Expr>,
        negated: bool,
        pattern: Literal,
        at: usize,
    },
    Between {
        operand: Boxed<Expr>,
        negated: bool,
        low: Boxed<Expr>,
        high: Boxed<Expr>,
        at: usize,
    },
    /// `COUNT(*)`
    CountAll {
        at: usize,
    },
    Aggregate {
        aggregate: Aggregate,
        operand: Boxed<Expr>,
        at: usize,
    },
    Coalesce {
        items: Exprs,
        at: usize,
    },
    Case {
        arms: Arms,
        otherwise: Option<Boxed<Expr>>,
        at: usize,
    },
}

/// An operator of a chain, and the operand after it.
#[cycle(expr)]
#[derive(Drop)]
pub struct Link {
    pub operator: Operator,
    pub operand: Expr,
    pub at: usize,
}

/// One WHEN .. THEN .. of a CASE.
#[cycle(expr)]
#[derive(Drop)]
pub struct Arm {
    pub condition: Expr,
    pub value: Expr,
}
