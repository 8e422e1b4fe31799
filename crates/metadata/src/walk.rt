//! The walk that types a view's query, which another crate gives.

ghost use Rattle.std.specs.Prelude.{Result, IfOk};
ghost use Rattle.metadata.specs.Walked.{Walks, IsTypedQuery};
ghost use Rattle.sql_reader.specs.declared.tree.query.Query as query;
ghost use Rattle.vdb_model.specs.declared.rel.Ranked as ranked;
ghost use Rattle.vdb_model.specs.declared.reply.Refusal as refusal;
ghost use Rattle.vdb_model.specs.Defined.{Defined};

use sql_reader::tree::Query;
use std::alloc::Global;
use vdb_model::{Catalog, Ranked, Refusal};

/// Why a view's query has no typed form.
#[derive(Drop)]
pub enum WalkFault {
    /// The first refusal that its walk meets.
    Refused(Refusal),
    Memory,
}

/// Types the queries of views.
pub trait ViewWalk {
    ghost walk: { Self → Defined → query.Query → Result ranked.Ranked refusal.Refusal };

    /// The typed query over what the catalog defines.
    fn walk_view(&self, alloc: Global, cat: &Catalog, query: &Query) -> Result<Ranked, WalkFault>
        ensures walks { Walks (walk self.now cat.now query.now) result }
        ensures typed { IfOk result (IsTypedQuery cat.now) };
}
