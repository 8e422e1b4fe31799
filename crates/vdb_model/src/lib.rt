//! What statements mean, and the types that say it: expressions, relations, the catalog, source queries and replies.
//!
//! Nothing is run here. `specs/` holds the definitions that every crate above cites: the value of an expression, the rows of
//! a relation in a world, arranged rows, which source queries a source can answer and what it may answer, the lines of
//! replies and refusals, and which catalogs are well formed. The types are those of trees whose names are resolved; each list
//! of them can be copied, and a copy equals its original. `Caps::can` is the test of capabilities, and `typed_is_exact` the
//! law that on typed expressions every number stays within 128 bits. A `Catalog` keeps that it is well formed. `xid_bytes` lays
//! out a branch's identifier as X/Open XA has it.
//!
//! Every crate from `rel_eval` and `view_stack` up stands on this one.
#![tactic(auto)]

mod bag;
mod can;
mod catalog;
mod catalog_copy;
mod expr;
mod expr_copy;
mod fit;
mod laws;
mod name;
mod optional;
mod rel;
mod rel_copy;
mod reply;
mod reply_copy;
mod source;
mod table;
mod typed;
mod typed_copy;
mod xid;

pub use bag::{Bag, Bags};
pub use catalog::{
    Catalog, Event, ProcedureDef, ProcedureDefs, SchemaDef, SchemaDefs, ServerDef, ServerDefs,
    TriggerDef, TriggerDefs, ViewDef, ViewDefs,
};
pub use expr::{ArithOp, Arm, Arms, CmpOp, Expr, Exprs};
pub use fit::are_fit;
pub use laws::typed_is_exact;
pub use name::{dotted, is_word, print_name, printed};
pub use rel::{Agg, Aggs, JoinKind, Key, Keys, Names, Ranked, Rel, Rels};
pub use reply::{DeployFault, Phase, Refusal, Replies, Reply, Who};
pub use source::{Caps, Delta, Deltas, QueryLists, SourceQueries, SourceQuery, Xid};
pub use table::{ColumnDef, ColumnDefs, Kind, NumLists, TableDef, TableDefs};
pub use typed::{Target, Typed, TypedBlock, TypedStmt, TypedStmts, VarDef, VarDefs};
pub use xid::{XidBytes, xid_bytes};
