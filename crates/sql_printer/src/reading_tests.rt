//! Statements that are read, and those that are refused, each at its place. They stand here so that `sql_reader` is proved once.

use sql_reader::read::{ReadFault, read_statement};
use sql_reader::tree::{Constant, Expr, Literal, SelectItem, SetQuery, Statement};
use std::alloc::Global;
use std::test::Fail;
use vdb_base::Value;

/// Where a text is refused.
fn fault_of(alloc: Global, text: &[u8]) -> Option<usize> {
    match read_statement(alloc, text) {
        Ok(_) => None,
        Err(ReadFault::Syntax { at }) => Some(at),
        Err(ReadFault::Memory) => Some(usize::MAX),
    }
}

/// The first text, then the second so many times, then the third.
fn repeated(
    alloc: Global,
    front: &[u8],
    middle: &[u8],
    times: usize,
    back: &[u8],
) -> Result<Vec<u8>, Fail> {
    let mut text = Vec::from_slice(alloc, front)?;
    for _ in 0..times {
        text.extend_from_slice(middle)?;
    }
    text.extend_from_slice(back)?;
    Ok(text)
}

#[test]
fn reads_statements(rt: HostRuntime) -> Result<(), Fail> {
    let alloc = rt.alloc();
    let table: [(&[u8], Option<usize>); 34] = [
        (b"SELECT 1.5 FROM c.cust", None),
        (b"SELECT FROM c.cust", Some(7)),
        (b"SELECT", Some(6)),
        (b"", Some(0)),
        (b"select *, a from t", Some(8)),
        (
            b"select t.*, t.a, s.t.a b, a as c from s.t u, (select 1) as v",
            None,
        ),
        (b"select s.t.* from t", Some(11)),
        (b"select t.* a from t", Some(11)),
        (b"select a from (select 1)", Some(24)),
        (
            b"select a from t join u on a = b left outer join v on a cross join w",
            None,
        ),
        (b"select a from t join u left join v", Some(23)),
        (
            b"select a where a not in (1, -2) and not b is not null",
            None,
        ),
        (b"select a where a not (1)", Some(21)),
        (
            b"select a between 1 and 2 and b like 'x' or c not between 1 and 2",
            None,
        ),
        (b"select a between 1 or 2", Some(19)),
        (b"select a like b", Some(14)),
        (b"select a = b = c", Some(13)),
        (
            b"select count(*), sum(a), coalesce(a, 1) group by a, t.b having 1",
            None,
        ),
        (b"select count(distinct a)", Some(13)),
        (b"select case when a then b when c then d else e end", None),
        (b"select case a when b then c end", Some(12)),
        (
            b"select a union all select b union select c order by a desc, 2 limit 1 offset 2",
            None,
        ),
        (b"select a order by -1", Some(18)),
        (b"select a limit -1", Some(15)),
        (b"explain select a", None),
        (b"explain delete from t", Some(8)),
        (b"insert into s.t (a, b) values (1, 'x' || 'y')", None),
        (b"insert into t () values (1)", Some(15)),
        (b"insert into t select a from t union select b", None),
        (b"update t set a = 1, b = - - a where c", None),
        (b"delete from t where true", None),
        (b"exec p(); ", Some(8)),
        (b"start transaction", None),
        (b"start \"transaction\"", Some(6)),
    ];
    for (text, wanted) in table {
        assert_eq!(rt; fault_of(alloc, text), wanted);
    }
    Ok(())
}

#[test]
fn keeps_limits(rt: HostRuntime) -> Result<(), Fail> {
    let alloc = rt.alloc();
    // A text of repeated parts, and where it is refused.
    let table: [(&[u8], &[u8], usize, &[u8], Option<usize>); 14] = [
        (b"SELECT 1", b",1", 32_768, b"", Some(65_542)),
        (b"SELECT 'a", b"b", 1, b"", Some(7)),
        (b"select ", b"(", 64, b"1", Some(72)),
        (b"select ", b"(", 65, b"1", Some(71)),
        (b"select ", b"not ", 64, b"1", None),
        (b"select ", b"not ", 65, b"1", Some(263)),
        (b"select ", b"- ", 65, b"1", None),
        (b"select ", b"- ", 65, b"a", Some(137)),
        (b"select 1", b" union select 1", 63, b"", None),
        (b"select 1", b" union select 1", 64, b"", Some(960)),
        (b"select 1 from t", b", t", 63, b"", None),
        (b"select 1 from t", b", t", 64, b"", Some(206)),
        (b"select 1 from t", b" cross join t", 64, b"", Some(846)),
        (b"select ", b"a", 65, b"", Some(7)),
    ];
    for (front, middle, times, back, wanted) in table {
        let text = repeated(alloc, front, middle, times, back)?;
        assert_eq!(rt; fault_of(alloc, text.as_slice()), wanted);
    }
    Ok(())
}

/// What an expression is, and the place in it.
fn shape_of(expr: &Expr) -> (&'static str, usize) {
    match expr {
        Expr::Literal(
            Literal {
                constant: Constant::Value(Value::Num(number)),
                at,
                ..
            },
        ) if *number < 0 => ("negative", *at),
        Expr::Literal(
            Literal {
                constant: Constant::TooLong,
                at,
                ..
            },
        ) => ("too long", *at),
        Expr::Literal(
            Literal {
                constant: Constant::Fraction,
                at,
                ..
            },
        ) => ("fraction", *at),
        Expr::Literal(literal) => ("literal", literal.at),
        Expr::Column(_) => ("column", 0),
        Expr::Parens { at, .. } => ("parens", *at),
        Expr::Negate { at, .. } => ("negate", *at),
        Expr::Chain { rest, .. } => ("chain", rest.len()),
        Expr::In {
            negated: true,
            at,
            ..
        } => ("not in", *at),
        Expr::Between { at, .. } => ("between", *at),
        _ => ("other", 0),
    }
}

/// What the first item of a query is, or how its selects stand.
fn outline_of(alloc: Global, text: &[u8]) -> (&'static str, usize) {
    let Ok(Statement::Query(query)) = read_statement(alloc, text) else {
        return ("no query", 0);
    };
    match &query.set {
        SetQuery::Select(select) => match select.items.as_slice() {
            [SelectItem::Expr { expr, .. }, ..] => shape_of(expr),
            [SelectItem::AllOf { relation }, ..] => ("all of", relation.at),
            _ => ("other", 0),
        },
        SetQuery::Union { left, .. } => match left.get() {
            SetQuery::Union { all, .. } => ("union of a union", *all as usize),
            SetQuery::Select(_) => ("union", 0),
        },
    }
}

#[test]
fn builds_trees(rt: HostRuntime) -> Result<(), Fail> {
    let alloc = rt.alloc();
    let table: [(&[u8], &str, usize); 12] = [
        (b"select t.* from t", "all of", 7),
        (b"select a not in (1)", "not in", 13),
        (b"select a between 1 and 2", "between", 9),
        (b"select a between 1 and 2 and b", "chain", 1),
        (b"select a - 1 + 2", "chain", 2),
        (b"select - 1", "negative", 7),
        (b"select - (1)", "negate", 7),
        (b"select (1)", "parens", 7),
        (b"select 1e5", "fraction", 7),
        (
            b"select -170141183460469231731687303715884105728",
            "negative",
            7,
        ),
        (
            b"select 170141183460469231731687303715884105728",
            "too long",
            7,
        ),
        (
            b"select a union all select b union select c",
            "union of a union",
            1,
        ),
    ];
    for (text, wanted, place) in table {
        let found = outline_of(alloc, text);
        assert_eq!(rt; found.0, wanted);
        assert_eq!(rt; found.1, place);
    }
    Ok(())
}
