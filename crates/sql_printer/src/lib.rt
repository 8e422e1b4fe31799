//! Prints queries.
//!
//! `print_query` appends the text of a query: its tokens in turn (`specs/Queries`, by what they say), each with one space
//! after it (`specs/Spelled`). Reserved words stand in lower case, names always in double quotes, and AS, ASC, INNER and OUTER
//! are left out. A number past 128 bits prints as one such number, and a fraction as one fraction, since a tree says no more
//! of them.
//!
//! The law `printed_is_read` (`specs/Laws`): the text of a query that was read is a statement again, and its tree is that
//! query but for places. What the trees of other makers print as is told by the definitions alone.
//!
//! It is meant for definitions that are shown to a reader; no other crate stands on it yet.
#![tactic(auto)]

mod exprs;
pub mod laws;
mod names;
mod put;
mod queries;
#[cfg(test)]
mod reading_tests;
#[cfg(test)]
mod tests;

pub use queries::print_query;
