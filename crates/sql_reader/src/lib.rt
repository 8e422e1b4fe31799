//! Reads SQL: a text into the tree of its statement, or the exact place of its fault.
//!
//! `read::read_statement` reads every statement but blocks. The grammar is a table (`specs/Table`, each rule with its
//! production), over the kinds of tokens (`specs/Kinds`), read by the crate `grammar`; the actions of a text's one reading
//! build its tree (`specs/Build`), which stands in `tree`. It answers `Syntax` exactly where a text is no statement, at the
//! place of the first token with which none begins. `read::read_setq` reads the longest front of some tokens that is a query
//! without an order. That every sentence has one derivation and builds one tree are laws. The tokens are those of `sql_tokens`.
//! `vdb_ddl` reads DDL by a grammar that goes on from this one: for it `build`, `kinds`, `symbols` and `table` are public.
//!
//! Two guards choose among alternatives. After a `-`, a numeral is read as part of a literal, and anything else as an
//! operand. In a list of items, an expression that begins with a name is read behind that name, since `name . *` begins
//! alike. Neither takes a text away: what a guard stops is read by the alternative beside it. That is by the table's
//! author, and not proved.
//!
//! Each call is one pass over its text. Memory is taken for tokens and trees alone; want of it is an answer of its own, and no
//! contract says when it comes.
#![tactic(auto)]

mod actions;
pub mod build;
pub mod kinds;
pub mod laws;
pub mod read;
mod soft_words;
pub mod symbols;
pub mod table;
pub mod tree;
