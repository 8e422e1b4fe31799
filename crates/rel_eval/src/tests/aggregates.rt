//! COUNT, MIN and MAX of an expression over the rows of a group.

use super::{letters, rows_of, shows, shows_in_order};
use crate::group;
use sqlite_items::Boxed;
use std::alloc::Global;
use std::test::Fail;
use vdb_base::{NoMemory, Nums, Row, Rows, Seq};
use vdb_model::{Agg, Aggs, Expr};

/// The number of a group and a value or none.
fn measures(alloc: Global) -> Result<Rows, NoMemory> {
    rows_of(alloc, &[1, 5, 1, -1, 1, 3, 2, -1, 1, 4], 2)
}

fn of_column(alloc: Global, column: u32) -> Result<Aggs, NoMemory> {
    let mut aggs = Seq::new(alloc);
    aggs.push(Agg::Count(Expr::Col(column)))?;
    aggs.push(Agg::Min(Expr::Col(column)))?;
    aggs.push(Agg::Max(Expr::Col(column)))?;
    Ok(aggs)
}

fn opposite(alloc: Global) -> Result<Expr, NoMemory> {
    Ok(Expr::Neg(Boxed::new(alloc, Expr::Col(1))?))
}

fn of_the_opposite(alloc: Global) -> Result<Aggs, NoMemory> {
    let mut aggs = Seq::new(alloc);
    aggs.push(Agg::Count(opposite(alloc)?))?;
    aggs.push(Agg::Sum(opposite(alloc)?))?;
    aggs.push(Agg::Min(opposite(alloc)?))?;
    aggs.push(Agg::Max(opposite(alloc)?))?;
    Ok(aggs)
}

fn keys(alloc: Global, keys: &[u32]) -> Result<Nums, NoMemory> {
    let mut made = Seq::new(alloc);
    for key in keys {
        made.push(*key)?;
    }
    Ok(made)
}

fn grouped(alloc: Global, rows: &Rows, by: &[u32], aggs: &Aggs) -> Result<Rows, NoMemory> {
    let none: Row = Seq::new(alloc);
    group(alloc, rows, &keys(alloc, by)?, aggs, &none)
}

#[test]
fn by_group(rt: HostRuntime) -> Result<(), Fail> {
    let alloc = rt.alloc();
    let rows = grouped(alloc, &measures(alloc)?, &[0], &of_column(alloc, 1)?)?;
    assert!(rt; shows_in_order(alloc, &rows, "1 3 3 5 ; 2 0 NULL NULL ; ")?);
    Ok(())
}

#[test]
fn without_keys(rt: HostRuntime) -> Result<(), Fail> {
    let alloc = rt.alloc();
    let rows = grouped(alloc, &measures(alloc)?, &[], &of_column(alloc, 1)?)?;
    assert!(rt; shows(alloc, &rows, "3 3 5 ; ")?);
    Ok(())
}

#[test]
fn of_no_rows(rt: HostRuntime) -> Result<(), Fail> {
    let alloc = rt.alloc();
    let rows = grouped(alloc, &Seq::new(alloc), &[], &of_column(alloc, 1)?)?;
    assert!(rt; shows(alloc, &rows, "0 NULL NULL ; ")?);
    let rows = grouped(alloc, &Seq::new(alloc), &[0], &of_column(alloc, 1)?)?;
    assert!(rt; rows.is_empty());
    Ok(())
}

#[test]
fn of_an_expression(rt: HostRuntime) -> Result<(), Fail> {
    let alloc = rt.alloc();
    let rows = grouped(alloc, &measures(alloc)?, &[0], &of_the_opposite(alloc)?)?;
    assert!(rt; shows_in_order(alloc, &rows, "1 3 -12 -5 -3 ; 2 0 NULL NULL NULL ; ")?);
    Ok(())
}

#[test]
fn of_texts(rt: HostRuntime) -> Result<(), Fail> {
    let alloc = rt.alloc();
    let rows = grouped(alloc, &letters(alloc)?, &[], &of_column(alloc, 0)?)?;
    assert!(rt; shows(alloc, &rows, "3 'a' 'é' ; ")?);
    Ok(())
}
