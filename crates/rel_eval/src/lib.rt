//! The relational operators: the value of an expression, and what each operator makes of whole lists of rows.
//!
//! Each call gives exactly its case of the definitions in `vdb_model`: `eval` the value of an expression, `filter`,
//! `select`, `join`, `group`, `distinct` and `union_all` the rows of their node, also in the definition's order,
//! `arrange` rows sorted by keys in which ties are free, and `arrange_totally` the one list in the total order. They need
//! nothing of their arguments; want of memory is `NoMemory`, and the arguments are never changed.
#![tactic(auto)]

mod equalities;
mod grouping;
mod index;
mod joining;
mod lend;
mod logic;
mod number;
mod ordering;
mod patterns;
mod ranking;
mod row_key;
mod rows;
mod sum;
mod value;
mod words;

pub use grouping::group;
pub use joining::join;
pub use ordering::{arrange, arrange_totally, cmp_totally};
pub use rows::{RowsList, distinct, filter, select, union_all};
pub use value::eval;

#[cfg(test)]
mod tests;
