//! What holds of all that the resolver's walk gives.
//!
//! A resolved query or statement is closed over its catalog: it names only views that are there, and reads no variable, and a
//! statement is within the limits of size (`specs/Closed`). It is typed over a catalog whose tables are numbered by their
//! places: the columns of a query's relation have the types that it says, so each of its numbers stays within 128 bits
//! (`specs/Typed`), and what a statement assigns goes into the columns that take it (`specs/TypedStatements`). Nothing is run
//! here: each function is a law, which takes nothing and does nothing, and its contract is the statement.
//!
//! `catalog_laws` stands on this crate, for what deployments give, and `vdb_session`, for the statements that it answers.
#![tactic(auto)]

mod laws;

pub use laws::{
    queries_are_closed, queries_are_typed, statements_are_closed, statements_are_typed,
};
