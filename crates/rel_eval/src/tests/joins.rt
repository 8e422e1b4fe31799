//! Inner and left joins, with an equality to find rows by and without one.

use super::{cmp, customers, orders, rows_of, shows};
use crate::join;
use std::alloc::Global;
use std::test::Fail;
use vdb_base::{NoMemory, Row, Rows, Seq};
use vdb_model::{CmpOp, Expr, JoinKind};

fn joined(
    alloc: Global,
    kind: JoinKind,
    left: &Rows,
    right: &Rows,
    on: &Expr,
) -> Result<Rows, NoMemory> {
    let none: Row = Seq::new(alloc);
    join(alloc, kind, left, right, 1, on, &none)
}

/// The orders with the customers that theirs is equal to, less than, and so on.
fn with_customers(alloc: Global, kind: JoinKind, op: CmpOp) -> Result<Rows, NoMemory> {
    let on = cmp(alloc, op, Expr::Col(1), Expr::Col(3))?;
    joined(alloc, kind, &orders(alloc)?, &customers(alloc)?, &on)
}

fn with_equal_columns(alloc: Global, left: &Rows, right: &Rows) -> Result<Rows, NoMemory> {
    let on = cmp(alloc, CmpOp::Eq, Expr::Col(0), Expr::Col(1))?;
    joined(alloc, JoinKind::Left, left, right, &on)
}

/// Rows of one and of two columns.
fn uneven(alloc: Global) -> Result<Rows, NoMemory> {
    let mut rows = rows_of(alloc, &[1], 1)?;
    rows.append(rows_of(alloc, &[2, 2], 2)?)?;
    Ok(rows)
}

#[test]
fn of_orders_and_customers(rt: HostRuntime) -> Result<(), Fail> {
    let alloc = rt.alloc();
    let equal = "10 1 5 1 ; 11 1 7 1 ; 13 2 0 2 ; ";
    let equal_or_none = "10 1 5 1 ; 11 1 7 1 ; 12 NULL 1 NULL ; 13 2 0 2 ; ";
    let more = "10 1 5 2 ; 10 1 5 3 ; 11 1 7 2 ; 11 1 7 3 ; 13 2 0 3 ; ";
    let less_or_none = "10 1 5 NULL ; 11 1 7 NULL ; 12 NULL 1 NULL ; 13 2 0 1 ; ";
    for (kind, op, want) in [
        (JoinKind::Inner, CmpOp::Eq, equal),
        (JoinKind::Left, CmpOp::Eq, equal_or_none),
        (JoinKind::Inner, CmpOp::Lt, more),
        (JoinKind::Left, CmpOp::Gt, less_or_none),
    ] {
        let rows = with_customers(alloc, kind, op)?;
        assert!(rt; shows(alloc, &rows, want)?, "{kind:?} {op:?}");
    }
    Ok(())
}

#[test]
fn with_no_rows(rt: HostRuntime) -> Result<(), Fail> {
    let alloc = rt.alloc();
    let none: Rows = Seq::new(alloc);
    let rows = with_equal_columns(alloc, &customers(alloc)?, &none)?;
    assert!(rt; shows(alloc, &rows, "1 NULL ; 2 NULL ; 3 NULL ; ")?);
    let rows = with_equal_columns(alloc, &none, &customers(alloc)?)?;
    assert!(rt; rows.is_empty());
    Ok(())
}

#[test]
fn of_rows_of_two_widths(rt: HostRuntime) -> Result<(), Fail> {
    let alloc = rt.alloc();
    let rows = with_equal_columns(alloc, &uneven(alloc)?, &customers(alloc)?)?;
    assert!(rt; shows(alloc, &rows, "1 1 ; 2 2 1 ; 2 2 2 ; 2 2 3 ; ")?);
    Ok(())
}
