//! The names that an expression sees.

use vdb_base::{Nums, Seq, Text};
use vdb_model::VarDefs;

/// What stands in a FROM under one name. The columns of all entries in turn are those of the joined row.
#[derive(Debug, Drop)]
pub struct Entry {
    /// Its alias, or the relation's name where it has none.
    pub name: Text,
    /// The schema of a relation without an alias.
    pub schema: Option<Text>,
    pub columns: VarDefs,
}

pub type Entries = Seq<Entry>;

/// What an expression is evaluated over: the joined rows, or their groups.
#[derive(Clone, Copy, Debug, PartialEq, Eq)]
pub enum Over {
    Rows,
    Groups,
}

/// The entries of a FROM, and the columns that the rows are grouped by.
#[derive(Debug, Drop)]
pub struct Names {
    pub entries: Entries,
    pub keys: Nums,
}
