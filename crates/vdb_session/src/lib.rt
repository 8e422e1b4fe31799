//! Sessions: an engine over stores, which answers one statement after another.
//!
//! `Engine::start` reads the DDL, deploys it over the lanes as connections, and attaches each lane to the tables of its server;
//! a refusal hands the parts back with the first fault. It needs lanes of different names, which `are_apart` tests, and none
//! that is lost, which `are_here` tests. A store with a prepared branch is refused, since no journal keeps decisions yet.
//! `Engine::answer` gives a statement its reply: the rows of its query over the tables that the lanes show, or its refusal
//! (`specs/Meaning`). It fetches each table that the query reads whole and once, and evaluates at home.
//!
//! EXPLAIN, updates and transactions aren't answered yet: they are refused where they begin. Want of memory is a reply of its own.
//! The program stands on this crate.
#![tactic(auto)]

mod answering;
mod attaching;
mod branches;
mod engine;
mod fetching;
mod names;
mod parts;
mod queries;
mod refusals;
mod serving;
mod start;
mod starting;

pub use answering::Answer;
pub use engine::Engine;
pub use names::{are_apart, are_here};
pub use parts::{Opened, Parts, StartFault, StartRefused};
pub use serving::serves;
pub use vdb_lines::print_reply;
