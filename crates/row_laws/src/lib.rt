//! What holds of the rows of relations, whatever the tables hold.
//!
//! The order of the rows of tables and views makes no difference to a relation's rows but their order, nor to what may be
//! answered to a query. Nothing is run here: each function is a law, which takes nothing and does nothing, and its contract is
//! the statement, whose definition stands in `specs/`. `vdb_session` stands on this crate, since a store gives the rows of a
//! table in any order.
#![tactic(auto)]

mod laws;

pub use laws::{
    answers_in_any_order, relations_in_any_order, views_in_any_order, worlds_in_any_order,
};
