//! Names and types of expressions: walks over the tree of an expression and gives the typed expression, or the first refusal.
//!
//! A walk goes through the text from its first token on, operands before the operator after them, and the first refusal that it
//! meets is the answer: a column that no entry has or that two have, a type that doesn't go, a fraction, a number that is too
//! wide. Over rows an expression sees the columns of the entries of a FROM; over groups the keys and the aggregates, which it
//! adds as it meets them. Places are byte offsets in the text of the statement.
//!
//! The calls are exactly the walk of `specs/`: `Scope` says which column a name means, `Types` which types go together,
//! `Operators` what each operator makes of its operands, and `Exprs` the walk of an expression. Want of memory is an answer of its
//! own; a column's number past 32 bits is one too.
//!
//! `resolver` stands on this crate, for the expressions of queries and statements.
#![tactic(auto)]

pub mod aggregates;
pub mod exprs;
mod fault;
mod known;
pub mod lists;
pub mod lookup;
pub mod operators;
mod scope;
pub mod types;

pub use fault::ResolveFault;
pub use known::{Known, KnownArm, KnownArms, Knowns};
pub use scope::{Entries, Entry, Names, Over};
