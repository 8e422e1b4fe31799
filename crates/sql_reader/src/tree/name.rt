//! Names.

use vdb_base::{Seq, Text};

/// A name with its place, in lower case.
#[derive(Debug, Drop)]
pub struct Name {
    pub text: Text,
    pub at: usize,
}

pub type Names = Seq<Name>;

/// The name of a relation or a procedure, after its schema where one is written.
#[derive(Debug, Drop)]
pub struct RelationName {
    pub schema: Option<Name>,
    pub name: Name,
}

/// What is written where a column or a variable stands.
#[derive(Debug, Drop)]
pub enum ColumnName {
    Plain(Name),
    Of {
        relation: Name,
        name: Name,
    },
    InSchema {
        schema: Name,
        relation: Name,
        name: Name,
    },
}
