//! What holds of all that is deployed.
//!
//! That a deployed catalog is well formed is part of its type (`vdb_model`), and `metadata` keeps it. Here is what a deployment
//! gives besides: each server is the connection of its name, and no table has an access pattern (`specs/Over`). Nothing is run
//! here: the function is a law, which takes nothing and does nothing, and its contract is the statement. `vdb_session` stands on
//! this crate.
//!
//! The tests of `resolver`, `metadata` and `view_stack` stand here, over worked texts, so that those crates are proved once.
#![tactic(auto)]

#[cfg(test)]
mod deploying_tests;
#[cfg(test)]
mod expanding_tests;
mod laws;
#[cfg(test)]
mod resolving_tests;
#[cfg(test)]
mod worked;

pub use laws::deployed_is_over;
