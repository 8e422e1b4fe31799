//! Relations of the catalog by name.

use vdb_base::{Seq, Text};
use vdb_model::{Target, VarDefs};

/// A foreign table or a view, with the names and types of its columns.
#[derive(Debug, Drop)]
pub struct Relation {
    pub target: Target,
    pub schema: Text,
    pub name: Text,
    pub columns: VarDefs,
}

pub type Relations = Seq<Relation>;
