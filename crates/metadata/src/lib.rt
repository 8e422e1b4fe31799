//! Deploys a DDL: its items in turn give a catalog, or the first fault.
//!
//! `deploy` takes the items that vdb_ddl read and the connections, and answers exactly what `specs/Deployed` says: the catalog
//! that the items define, or the fault that comes first in the order of the items and, within an item, in the order of its
//! tests. `specs/` says what each item adds and which tests it has, one kind of item a file: `Databases`, `Servers`, `Schemas`,
//! `Tables` with `Columns`, `Views`; `Options` and `Types` say what options and types are. Want of memory is an answer of its own,
//! and no contract says when it comes; a number past 32 bits counts as one.
//!
//! Items may be any, also such as no text reads to: a name that is defined has 1 to 64 bytes and a relation 1 to 256 columns, or
//! their limit is the fault, and a PRIMARY KEY without columns gives no key.
//!
//! The query of a view is typed by the resolver. `deploy_by` is the same over any `ViewWalk`, whose refusal's number the fault
//! carries, and whose queries are typed. A catalog is well formed, which is part of its type, and so it stays with each item:
//! `proofs/Well..` say what each kind of definition has to bring for that, and `proofs/Sound..` that the tests of its item give it.
//! Procedures, triggers and access patterns have no items yet. Relations are looked up by going through lists: an item takes time
//! in the number of relations. The names of a relation's columns stand in sets, so that many columns take the time of a sort.
#![tactic(auto)]

mod chains;
mod columns;
mod connection;
mod databases;
mod deployment;
mod fault;
mod options;
mod parts;
mod schemas;
mod servers;
mod sizes;
mod so_far;
mod tables;
mod taken;
mod texts;
mod types;
mod view_columns;
mod views;
mod walk;
mod walked;
mod without;

pub use connection::{ConnInfo, ConnInfos};
pub use deployment::deploy_by;
pub use fault::DeployRefusal;
pub use walk::{ViewWalk, WalkFault};
pub use walked::deploy;
