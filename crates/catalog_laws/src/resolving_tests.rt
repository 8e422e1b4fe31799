//! Worked statements: the columns with their types, or the refusal.

use crate::worked::{deployed, tower};
use resolver::{ResolveFault, resolve, resolve_view};
use sql_reader::read::read_statement;
use sql_reader::tree::Statement;
use std::alloc::Global;
use std::test::Fail;
use vdb_base::{NoMemory, Text, Ty, Value, print_value};
use vdb_model::{Catalog, Ranked, Refusal, Typed};

/// Customers and orders, and a view as large as a view may be.
fn shop(alloc: Global) -> Result<Catalog, Fail> {
    let mut ddl = tower(alloc, 10, true)?;
    ddl.extend_from_slice(
        b"CREATE VIEW more AS SELECT id FROM v.d10;CREATE VIEW wide AS SELECT id FROM v.more;\
        CREATE SCHEMA o SERVER s;SET SCHEMA o;CREATE FOREIGN TABLE orders (id integer, cust integer, qty integer);",
    )?;
    deployed(alloc, ddl.as_slice())
}

fn type_word(ty: Ty) -> &'static str {
    match ty {
        Ty::Boolean => " boolean; ",
        Ty::Integer => " integer; ",
        Ty::Long => " long; ",
        Ty::BigInteger => " biginteger; ",
        Ty::Str => " string; ",
    }
}

/// The names and types of its columns.
fn columns_text(alloc: Global, r: &Ranked) -> Result<Text, NoMemory> {
    let mut text = Text::new(alloc);
    for (name, ty) in r.names.as_slice().iter().zip(r.tys.as_slice()) {
        text.push_str(name.as_str())?;
        text.push_str(type_word(*ty))?;
    }
    Ok(text)
}

fn at_place(alloc: Global, word: &str, at: u64) -> Result<Text, NoMemory> {
    let mut text = Text::from_str(alloc, word)?;
    print_value(alloc, &Value::Num(at as i128), &mut text)?;
    Ok(text)
}

fn refusal_text(alloc: Global, refusal: &Refusal) -> Result<Text, NoMemory> {
    match refusal {
        Refusal::Unknown { name } => name.copy(alloc),
        Refusal::Ambiguous { name } => name.copy(alloc),
        Refusal::Mismatch { at } => at_place(alloc, "mismatch ", *at),
        Refusal::Fractional { at } => at_place(alloc, "fraction ", *at),
        Refusal::TooWide { at } => at_place(alloc, "too wide ", *at),
        Refusal::TooLarge { nodes, .. } => at_place(alloc, "too large ", *nodes),
        _ => Text::from_str(alloc, "another refusal"),
    }
}

fn typed_text(alloc: Global, typed: &Typed) -> Result<Text, NoMemory> {
    match typed {
        Typed::Query(r) | Typed::Explain(r) => columns_text(alloc, r),
        Typed::Insert { .. } => Text::from_str(alloc, "insert"),
        Typed::Update { .. } => Text::from_str(alloc, "update"),
        Typed::Delete { .. } => Text::from_str(alloc, "delete"),
        _ => Text::from_str(alloc, "another statement"),
    }
}

/// What the statement gives: its columns with their types, or its refusal.
fn answer(alloc: Global, cat: &Catalog, text: &str) -> Result<Text, NoMemory> {
    let Ok(statement) = read_statement(alloc, text.as_bytes()) else {
        return Text::from_str(alloc, "no statement");
    };
    match resolve(alloc, cat, &statement) {
        Ok(typed) => typed_text(alloc, &typed),
        Err(ResolveFault::Refused(refusal)) => refusal_text(alloc, &refusal),
        Err(ResolveFault::Memory) => Text::from_str(alloc, "want of memory"),
    }
}

/// The columns of a view, with their types.
fn view_columns(alloc: Global, cat: &Catalog, text: &str) -> Result<Text, NoMemory> {
    let Ok(Statement::Query(q)) = read_statement(alloc, text.as_bytes()) else {
        return Text::from_str(alloc, "no query");
    };
    match resolve_view(alloc, cat, &q) {
        Ok(r) => columns_text(alloc, &r),
        Err(_) => Text::from_str(alloc, "no view"),
    }
}

#[test]
fn worked_statements(rt: HostRuntime) -> Result<(), Fail> {
    let alloc = rt.alloc();
    let cat = shop(alloc)?;
    let table = [
        ("SELECT 1.5 FROM c.cust", "fraction 7"),
        ("SELECT nosuch FROM c.cust", "nosuch"),
        ("SELECT id FROM c.cust, o.orders", "id"),
        ("SELECT id FROM c.cust WHERE name = 1", "mismatch 33"),
        ("SELECT id + 1 + 1 + 1 FROM c.cust", "too wide 18"),
        (
            "SELECT qty + 2147483647 AS big FROM o.orders WHERE id = 10",
            "big long; ",
        ),
        (
            "SELECT (qty + 1) * 9223372036854775807 AS b FROM o.orders WHERE id = 10",
            "b biginteger; ",
        ),
        (
            "SELECT id, cust FROM o.orders ORDER BY cust DESC LIMIT 2",
            "id integer; cust integer; ",
        ),
        (
            "SELECT c.id, o.id FROM c.cust c LEFT JOIN o.orders o ON o.cust = c.id AND c.id = 1 ORDER BY 1, 2",
            "id integer; id integer; ",
        ),
        (
            "SELECT cust, COUNT(*) AS n, SUM(qty) FROM o.orders GROUP BY cust HAVING MAX(qty) > 1",
            "cust integer; n long; expr3 biginteger; ",
        ),
        (
            "SELECT COUNT(*) AS n, SUM(qty) AS s FROM o.orders WHERE id > 99",
            "n long; s biginteger; ",
        ),
        (
            "SELECT DISTINCT cust FROM o.orders ORDER BY cust",
            "cust integer; ",
        ),
        ("SELECT id, COUNT(*) FROM c.cust", "mismatch 7"),
        ("SELECT id FROM c.cust WHERE COUNT(*) = 1", "mismatch 28"),
        ("SELECT id FROM c.cust ORDER BY 2", "mismatch 31"),
        (
            "SELECT id FROM c.cust LIMIT 9223372036854775808",
            "too wide 28",
        ),
        (
            "SELECT NULL AS x UNION ALL SELECT id FROM c.cust",
            "x integer; ",
        ),
        (
            "SELECT id FROM c.cust UNION SELECT id, cust FROM o.orders",
            "mismatch 35",
        ),
        (
            "SELECT x.n FROM (SELECT id AS n FROM c.cust) AS x WHERE n BETWEEN 1 AND 2",
            "n integer; ",
        ),
        ("SELECT * FROM c.cust a, c.cust A", "a"),
        ("SELECT id FROM v.wide", "too large 4097"),
        (
            "EXPLAIN SELECT name FROM c.cust WHERE id = 1",
            "name string; ",
        ),
        ("INSERT INTO c.cust (id, name) VALUES (1, 'x')", "insert"),
        ("INSERT INTO c.cust (name) VALUES (1)", "mismatch 34"),
        ("INSERT INTO c.cust SELECT id, name FROM c.cust", "insert"),
        ("UPDATE o.orders SET qty = qty + 1, qty = 1", "mismatch 35"),
        ("UPDATE o.orders SET qty = qty + 1 WHERE id = 10", "update"),
        ("DELETE FROM o.orders WHERE id = 12", "delete"),
        ("EXEC v.total(1)", "v.total"),
        ("START TRANSACTION", "another statement"),
    ];
    for (text, want) in table {
        let made = answer(alloc, &cat, text)?;
        assert_eq!(rt; made.as_str(), want);
    }
    Ok(())
}

/// A view's query isn't counted.
#[test]
fn view_of_any_size(rt: HostRuntime) -> Result<(), Fail> {
    let alloc = rt.alloc();
    let cat = shop(alloc)?;
    let made = view_columns(alloc, &cat, "SELECT id + 1 AS n FROM v.wide")?;
    assert_eq!(rt; made.as_str(), "n long; ");
    Ok(())
}
