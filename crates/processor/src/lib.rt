//! Runs a query over the rows of its tables.
//!
//! `mark_tables` marks the tables that a relation reads; the others make no difference to its rows (`laws`). `bag_of` gives the
//! rows of a relation without views, by the operators of `rel_eval`, in the definition's order. The tables' rows are lent and never
//! copied where an operator only reads them. `run` arranges them as a query asks, and leaves rows that tie in any order.
//!
//! No store is asked here, nothing is needed of the arguments, and the one error is `NoMemory`. Views are to be expanded before,
//! as `view_stack` does. `vdb_session` stands on this crate.
#![tactic(auto)]

pub mod laws;
mod part;
mod reading;
mod relation;
mod running;
#[cfg(test)]
mod tests;

pub use reading::mark_tables;
pub use relation::bag_of;
pub use running::run;
