//! The stacks of parts.

ghost use Rattle.std.specs.Prelude.{◌≡◌};
ghost use Rattle.vdb_ddl.specs.Build.{waiting};
ghost use Rattle.vdb_ddl.specs.Waiting.{none};

use crate::tree::{Item, Settings, TableParts, ViewColumns};
use std::alloc::Global;

/// The parts of an item that wait for their place, of each kind the last one on top. Names, literals and queries wait on the
/// stacks of sql_reader.
#[derive(Drop)]
pub(crate) struct Parts {
    pub(crate) sql: sql_reader::build::Parts,
    pub(crate) settings: Vec<Settings>,
    pub(crate) table_parts: Vec<TableParts>,
    pub(crate) view_columns: Vec<ViewColumns>,
    pub(crate) items: Vec<Item>,
}

impl Parts {
    /// No parts.
    pub(crate) fn new(alloc: Global) -> Parts
        ensures { waiting result ≡ none }
    {
        Parts {
            sql: sql_reader::build::Parts::new(alloc),
            settings: Vec::new(alloc),
            table_parts: Vec::new(alloc),
            view_columns: Vec::new(alloc),
            items: Vec::new(alloc),
        }
    }
}
