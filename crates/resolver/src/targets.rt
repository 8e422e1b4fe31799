//! What updates assign to.

use vdb_base::{Nums, Seq, Ty, Tys};
use vdb_model::Expr;

/// Columns of a target, with their types.
#[derive(Debug, Drop)]
pub struct Targets {
    pub columns: Nums,
    pub tys: Tys,
}

/// The assignments of an UPDATE: columns of its target, and their new values.
#[derive(Drop)]
pub struct Sets {
    pub columns: Nums,
    pub values: Seq<Expr>,
}

/// What is assigned: its type, None for a NULL alone, and the place of its first token.
#[derive(Clone, Copy, Debug)]
pub struct Given {
    pub ty: Option<Ty>,
    pub first: usize,
}
