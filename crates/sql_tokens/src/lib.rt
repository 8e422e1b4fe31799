//! Reads the tokens of SQL, and cuts a script into statements.
//!
//! `next_statement` finds the statements of a script one after another, also while the script still comes in;
//! `read_tokens` gives the tokens of a text, bad ones among them, each with its place. Both are exactly the definitions
//! of `specs/`, for all bytes. `laws` holds what is proved of those definitions: a statement that was found stays found
//! when more bytes come, statements are found in turn, and what is written in quotes is read as it was.
//!
//! `parts`, `values` and `reserved` say what single tokens are: names, numerals and words. The readers of SQL and of the DDL,
//! `sql_reader` and `vdb_ddl`, stand on them, and the session cuts its scripts by `next_statement`.
//!
//! Each call is one pass over its text. Memory is taken for tokens and names alone; want of it is an answer of its own, and no
//! contract says when it comes.
#![tactic(auto)]

mod bytes;
mod cut;
pub mod laws;
mod lengths;
pub mod parts;
mod pieces;
pub mod reserved;
#[cfg(test)]
mod tests;
mod token;
mod tokens;
pub mod values;

pub use cut::{Found, next_statement};
pub use token::{Kind, Token, Tokens};
pub use tokens::read_tokens;
