//! Definitions of foreign tables.

ghost use Rattle.std.specs.Prelude.{◌≡◌, IfOk};

use crate::optional::copy_optional;
use std::alloc::Global;
use vdb_base::{Duplicate, NoMemory, Nums, Seq, Text, Ty};

/// The kind of a connection, and of the server that it serves.
#[derive(Clone, Copy, Debug, PartialEq, Eq)]
pub enum Kind {
    Mem,
    Csv,
    Sqlite,
}

/// A column of a foreign table, with its name at the source.
#[derive(Debug, Drop)]
pub struct ColumnDef {
    pub name: Text,
    pub source: Text,
    pub ty: Ty,
    pub not_null: bool,
}

pub type ColumnDefs = Seq<ColumnDef>;

pub type NumLists = Seq<Nums>;

/// A foreign table of a server. Its number is its place among the tables of the catalog.
#[derive(Debug, Drop)]
pub struct TableDef {
    pub number: u32,
    pub server: u32,
    pub schema: Text,
    pub name: Text,
    pub source: Text,
    pub columns: ColumnDefs,
    /// The columns of the primary key.
    pub key: Option<Nums>,
    /// The access patterns: each lists columns that a query has to give values.
    pub patterns: NumLists,
    pub updatable: bool,
}

pub type TableDefs = Seq<TableDef>;

impl ColumnDef {
    pub fn copy(&self, alloc: Global) -> Result<ColumnDef, NoMemory>
        ensures { IfOk result (λ made. made ≡ self.now) }
    {
        Ok(ColumnDef {
            name: self.name.copy(alloc)?,
            source: self.source.copy(alloc)?,
            ty: self.ty,
            not_null: self.not_null,
        })
    }
}

impl Duplicate for ColumnDef {
    fn copy(&self, alloc: Global) -> Result<ColumnDef, NoMemory> {
        self.copy(alloc)
    }
}

impl TableDef {
    pub fn copy(&self, alloc: Global) -> Result<TableDef, NoMemory>
        ensures { IfOk result (λ made. made ≡ self.now) }
    {
        Ok(TableDef {
            number: self.number,
            server: self.server,
            schema: self.schema.copy(alloc)?,
            name: self.name.copy(alloc)?,
            source: self.source.copy(alloc)?,
            columns: self.columns.copy(alloc)?,
            key: copy_optional(alloc, &self.key)?,
            patterns: self.patterns.copy(alloc)?,
            updatable: self.updatable,
        })
    }
}

impl Duplicate for TableDef {
    fn copy(&self, alloc: Global) -> Result<TableDef, NoMemory> {
        self.copy(alloc)
    }
}
