//! The items of a DDL text, as they are written.
//!
//! Names and values have their places, as byte offsets in the text. What has no meaning is read and isn't kept: the strings of
//! VERSION and TYPE, the length of a type and the name of a constraint.

use sql_reader::tree::{Literal, Name, Names, Query};
use vdb_base::Seq;

/// An option, and its value.
#[derive(Debug, Drop)]
pub struct Setting {
    pub name: Name,
    pub value: Literal,
}

/// What stands after OPTIONS, and nothing where it isn't written.
pub type Settings = Seq<Setting>;

/// What stands between the commas of a table's parentheses.
#[derive(Debug, Drop)]
pub enum TablePart {
    Column {
        name: Name,
        ty: Name,
        /// Whether NOT NULL is written.
        not_null: bool,
        options: Settings,
    },
    PrimaryKey {
        /// One or more.
        columns: Names,
    },
}

pub type TableParts = Seq<TablePart>;

/// A column of a view, with its type where one is written.
#[derive(Debug, Drop)]
pub struct ViewColumn {
    pub name: Name,
    pub ty: Option<Name>,
    pub options: Settings,
}

pub type ViewColumns = Seq<ViewColumn>;

/// An item.
#[derive(Drop)]
pub enum Item {
    CreateDatabase {
        name: Name,
        options: Settings,
    },
    UseDatabase {
        name: Name,
    },
    CreateServer {
        name: Name,
        wrapper: Name,
        options: Settings,
    },
    CreateSchema {
        name: Name,
        server: Name,
        options: Settings,
    },
    CreateVirtualSchema {
        name: Name,
        options: Settings,
    },
    SetSchema {
        name: Name,
    },
    CreateTable {
        name: Name,
        /// One or more.
        parts: TableParts,
        options: Settings,
    },
    CreateView {
        name: Name,
        /// One or more, where a list is written.
        columns: Option<ViewColumns>,
        options: Settings,
        query: Query,
    },
}

/// The items of a DDL text in turn.
pub type Items = Seq<Item>;
