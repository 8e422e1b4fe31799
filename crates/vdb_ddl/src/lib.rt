//! Reads DDL: a whole text into its items, or the exact place of its first fault.
//!
//! `read_ddl` answers with the items in turn, as they are written (`tree`), exactly where the text is items with `;` between
//! them (`specs/Items`); the last `;` may be missing, and there is no empty item. It answers `Syntax` exactly where the text is
//! none: at the token with which no item goes on, or that stands after an item and is no `;`, or at the text's end. A text of
//! more than 4,194,304 bytes is refused there, if no token before is. That a text has items or a fault, and one alone, is a law.
//!
//! An item is the longest front of what is left that begins one. The grammar of items is a table that goes on from that of
//! statements (`specs/Table`), so the query of a view is read and built as in sql_reader; the actions of an item's one reading
//! build its tree (`specs/Build`), and that they always leave one tree is a law too. An item has 65,536 tokens at most, nested at
//! most 64 levels deep. Words of the grammar that aren't reserved are names where a name may stand: `PRIMARY KEY (5)` is a column
//! of the type `key`, and after a view's column `OPTIONS (` begins options where no numeral follows, else it is a type.
//!
//! Procedures, triggers and access patterns aren't read yet: such an item is refused at the first token with which none of the
//! others goes on. Each call is one pass over its text, and no two derivations of an item stay open for long; that was measured on
//! items of 65,536 tokens, and isn't proved. Memory is taken for tokens and trees alone; want of it is an answer of its own, and
//! no contract says when it comes.
#![tactic(auto)]

mod actions;
mod build;
mod items;
pub mod laws;
mod lists;
mod parts;
mod read;
mod symbols;
mod table;
#[cfg(test)]
mod tests;
pub mod tree;

pub use read::{MAX_BYTES, read_ddl};
