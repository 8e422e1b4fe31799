use crate::read_ddl;
use crate::tree::{Item, Items, TablePart, TableParts, ViewColumns};
use sql_reader::read::ReadFault;
use std::alloc::Global;
use std::test::Fail;

/// Where a text is refused.
fn fault_of(alloc: Global, text: &[u8]) -> Option<usize> {
    match read_ddl(alloc, text) {
        Ok(_) => None,
        Err(ReadFault::Syntax { at }) => Some(at),
        Err(ReadFault::Memory) => Some(usize::MAX),
    }
}

#[test]
fn reads_items(rt: HostRuntime) -> Result<(), Fail> {
    let alloc = rt.alloc();
    let table: [(&[u8], Option<usize>); 29] = [
        (b"", None),
        (b";", Some(0)),
        (b"CREATE DATABASE d", None),
        (b"CREATE DATABASE d; ", None),
        (b"CREATE DATABASE d;;", Some(18)),
        (b"CREATE DATABASE d USE DATABASE d", Some(18)),
        (b"USE DATABASE d; CREATE", Some(22)),
        (
            b"create database d version '1' options (a 1, b 'x', c true); use database d version '1'",
            None,
        ),
        (b"CREATE DATABASE d OPTIONS (a 1.5)", Some(29)),
        (b"CREATE DATABASE d OPTIONS (a -1)", Some(29)),
        (b"CREATE DATABASE select", Some(16)),
        (
            b"CREATE SERVER s TYPE 'x' VERSION 'y' FOREIGN DATA WRAPPER mem OPTIONS (\"A b\" FALSE)",
            None,
        ),
        (b"CREATE SERVER s FOREIGN WRAPPER", Some(24)),
        (
            b"CREATE SCHEMA a SERVER s; CREATE VIRTUAL SCHEMA v; SET SCHEMA a",
            None,
        ),
        (b"SET SCHEMA a b", Some(13)),
        (b"CREATE VIRTUAL PROCEDURE p", Some(15)),
        (b"CREATE TRIGGER", Some(7)),
        (
            b"CREATE FOREIGN TABLE t (a integer NOT NULL OPTIONS (x 1), b varchar(10), CONSTRAINT k PRIMARY KEY (a, b))",
            None,
        ),
        (b"CREATE FOREIGN TABLE t ()", Some(24)),
        (
            b"CREATE FOREIGN TABLE t (primary key (5), key integer, constraint string)",
            None,
        ),
        (b"CREATE FOREIGN TABLE t (PRIMARY KEY (5, x))", Some(40)),
        (b"CREATE FOREIGN TABLE t (a integer NULL)", Some(34)),
        (
            b"CREATE FOREIGN TABLE t (a integer, ACCESSPATTERN (a))",
            Some(49),
        ),
        (b"CREATE VIEW w AS SELECT 1", None),
        (
            b"CREATE VIEW w (a, b OPTIONS (x 1), c OPTIONS (5), d options) OPTIONS (k TRUE) AS SELECT 1 UNION SELECT 2",
            None,
        ),
        (b"CREATE VIEW w (a OPTIONS (1, x))", Some(29)),
        (b"CREATE VIEW w () AS SELECT 1", Some(15)),
        (b"CREATE VIEW w AS SELECT 1 ORDER BY 1", Some(26)),
        (b"SET SCHEMA \"a", Some(11)),
    ];
    for (text, wanted) in table {
        assert_eq!(rt; fault_of(alloc, text), wanted);
    }
    Ok(())
}

static BLANKS: [u8; 1024] = [b' '; 1024];

/// The first text, then the second so many times, then the third.
fn repeated(
    alloc: Global,
    front: &[u8],
    middle: &[u8],
    times: usize,
    back: &[u8],
) -> Result<Vec<u8>, Fail> {
    let mut text = Vec::from_slice(alloc, front)?;
    for _ in 0..times {
        text.extend_from_slice(middle)?;
    }
    text.extend_from_slice(back)?;
    Ok(text)
}

#[test]
fn keeps_limits(rt: HostRuntime) -> Result<(), Fail> {
    let alloc = rt.alloc();
    // A text of repeated parts, and where it is refused.
    let table: [(&[u8], &[u8], usize, &[u8], Option<usize>); 8] = [
        (b"CREATE VIEW w AS SELECT ", b"(", 64, b"1", Some(89)),
        (b"CREATE VIEW w AS SELECT ", b"(", 65, b"1", Some(88)),
        (
            b"CREATE DATABASE d OPTIONS (a 1",
            b", a 1",
            21_842,
            b"); ",
            None,
        ),
        (
            b"CREATE DATABASE d OPTIONS (a 1",
            b", a 1",
            21_843,
            b"); ",
            Some(109_245),
        ),
        (b"", &BLANKS, 4096, b"", None),
        (b"", &BLANKS, 4096, b" ", Some(4_194_304)),
        (b"x", &BLANKS, 4096, b"", Some(0)),
        (b"", &BLANKS, 4096, b" x", Some(4_194_304)),
    ];
    for (front, middle, times, back, wanted) in table {
        let text = repeated(alloc, front, middle, times, back)?;
        assert_eq!(rt; fault_of(alloc, text.as_slice()), wanted);
    }
    Ok(())
}

/// How many columns of a table have NOT NULL.
fn required(parts: &TableParts) -> usize {
    match parts.as_slice() {
        [
            TablePart::Column { not_null: true, .. },
            TablePart::PrimaryKey { columns },
        ] => { columns.len() }
        _ => 0,
    }
}

/// The place of the type of a view's second column.
fn second_type(columns: &ViewColumns) -> usize {
    match columns.get(1) {
        Some(column) => match &column.ty {
            Some(ty) => ty.at,
            None => 0,
        },
        None => 0,
    }
}

/// What an item is, with two of its numbers.
fn outline_of(item: &Item) -> (&'static str, usize, usize) {
    match item {
        Item::CreateDatabase { name, options } => ("create database", name.at, options.len()),
        Item::UseDatabase { name } => ("use database", name.at, 0),
        Item::CreateServer { name, wrapper, .. } => ("create server", name.at, wrapper.at),
        Item::CreateSchema { name, server, .. } => ("create schema", name.at, server.at),
        Item::CreateVirtualSchema { name, options } => {
            ("create virtual schema", name.at, options.len())
        }
        Item::SetSchema { name } => ("set schema", name.at, 0),
        Item::CreateTable { parts, options, .. } => {
            ("create table", required(parts), options.len())
        }
        Item::CreateView {
            columns: Some(columns),
            options,
            ..
        } => ("create view", second_type(columns), options.len()),
        Item::CreateView { name, .. } => ("create view of a query", name.at, 0),
    }
}

#[test]
fn builds_items(rt: HostRuntime) -> Result<(), Fail> {
    let alloc = rt.alloc();
    let text =
        b"create database d options (a 1, b 2); use database d; create server s foreign data wrapper mem; \
        create schema a server s; create virtual schema v; set schema a; \
        create foreign table t (x integer not null, primary key (x)) options (c 3); \
        create view w (p options (q 1), r options) options (e 4) as select 1; create view u as select 1";
    let items = match read_ddl(alloc, text) {
        Ok(items) => items,
        Err(_) => Items::new(alloc),
    };
    let table: [(&str, usize, usize); 9] = [
        ("create database", 16, 2),
        ("use database", 51, 0),
        ("create server", 68, 91),
        ("create schema", 110, 119),
        ("create virtual schema", 144, 0),
        ("set schema", 158, 0),
        ("create table", 1, 1),
        ("create view", 271, 1),
        ("create view of a query", 319, 0),
    ];
    assert_eq!(rt; items.len(), 9);
    for (at, (kind, first, second)) in table.iter().enumerate() {
        let found = match items.get(at) {
            Some(item) => outline_of(item),
            None => ("none", 0, 0),
        };
        assert_eq!(rt; found.0, *kind);
        assert_eq!(rt; found.1, *first);
        assert_eq!(rt; found.2, *second);
    }
    Ok(())
}
