//! Names and types of queries and statements: walks over the tree of a statement and gives the typed statement, or the first
//! refusal.
//!
//! `resolve` answers for a statement, and `resolve_view` for the query of a view. A walk goes through a text from its first
//! token on, and the first refusal that it meets is the answer: a name that nothing has or that two things have, a type that
//! doesn't go, a fraction, a number that is too wide. Last a statement's size is counted, with every view expanded; that of a
//! view is the deployment's to test. Places are byte offsets in the text of the statement.
//!
//! Both calls are exactly the walk of `specs/`, which says construct by construct what each gives: `Relations` which relation
//! or procedure a name means, `From`, `Items`, `Selects` and `Queries` the queries, `Assigning` and `Statements` the
//! statements. What the name of a column means and what an expression gives is said in `expr_resolver`. Blocks are no part of
//! it yet. Want of memory is an answer of its own; a column's number past 32 bits is one too.
//!
//! `metadata` resolves the views of a database, and `vdb_session` the statements of a script.
#![tactic(auto)]

mod aggregated;
mod assigning;
mod from;
mod grouping;
mod inserts;
mod items;
mod procedures;
mod queries;
mod relation;
mod relations;
mod selected;
mod selects;
mod sizes;
mod statements;
mod targets;
mod unions;

pub use expr_resolver::{
    Entries, Entry, Known, KnownArm, KnownArms, Knowns, Names, Over, ResolveFault,
};
pub use queries::resolve_view;
pub use relation::{Relation, Relations};
pub use selected::{Choices, Chosen, Column, Columns, Selected, Source};
pub use statements::resolve;
pub use targets::{Given, Sets, Targets};
