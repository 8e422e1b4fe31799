//! The lines that a run prints: replies, refusals, and the line of a fault.
//!
//! Each public call prints exactly the text that the definitions of `vdb_model` give (`ReplyText`, `RefusalText`, `FaultText`,
//! `Lines`), piece by piece through a buffer of its own, and takes no memory. Where the sink fails, the first of the text was
//! written, and the answer is the failure. `vdb_session` hands `print_reply` on, and the program prints its last line by the others.
#![tactic(auto)]

mod print;
#[cfg(test)]
mod tests;

pub use print::{print_deploy, print_line, print_named, print_numbered, print_reply};
