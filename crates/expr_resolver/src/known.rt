//! Expressions whose names and types are known.

use vdb_base::{Seq, Ty};
use vdb_model::Expr;

/// An expression over numbered columns, with its type.
#[derive(Drop)]
pub struct Known {
    pub expr: Expr,
    /// None for a NULL alone, which goes with every type.
    pub ty: Option<Ty>,
    /// The place of its first token.
    pub first: usize,
    /// Whether it has a column or an aggregate in it.
    pub column: bool,
    /// Whether it has a BETWEEN in it.
    pub between: bool,
}

pub type Knowns = Seq<Known>;

/// One WHEN .. THEN .. of a CASE.
#[derive(Drop)]
pub struct KnownArm {
    pub condition: Known,
    pub value: Known,
}

pub type KnownArms = Seq<KnownArm>;
