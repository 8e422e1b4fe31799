//! What no clause says: that each call answers where there is memory, over each kind of relation.

use super::*;
use sqlite_items::{Boxed, Items};
use std::alloc::Global;
use std::test::Fail;
use vdb_base::{NoMemory, Row, Rows, Seq, Value};
use vdb_model::{Agg, Bag, Bags, CmpOp, Expr, JoinKind, Key, Ranked, Rel};

/// Rows of two numbers.
fn pairs(alloc: Global, numbers: &[(i128, i128)]) -> Result<Rows, NoMemory> {
    let mut rows = Seq::new(alloc);
    for (a, b) in numbers {
        rows.push(Seq::from_vec(vec![in alloc; Value::Num(*a), Value::Num(*b)]?))?;
    }
    Ok(rows)
}

/// Customers by number and town, and orders by customer and sum.
fn shop(alloc: Global) -> Result<Bags, NoMemory> {
    let customers = pairs(alloc, &[(1, 10), (2, 20), (3, 10)])?;
    let orders = pairs(alloc, &[(1, 5), (3, 6), (1, 4)])?;
    let customers = Bag {
        width: 2,
        rows: customers,
    };
    let orders = Bag {
        width: 2,
        rows: orders,
    };
    Ok(Seq::from_vec(vec![in alloc; customers, orders]?))
}

fn equal(alloc: Global, column: u32, other: Expr) -> Result<Expr, NoMemory> {
    let column = Boxed::new(alloc, Expr::Col(column))?;
    let other = Boxed::new(alloc, other)?;
    Ok(Expr::Cmp(CmpOp::Eq, column, other))
}

/// Customers with their orders.
fn joined(alloc: Global, kind: JoinKind) -> Result<Rel, NoMemory> {
    let on = equal(alloc, 0, Expr::Col(2))?;
    let left = Boxed::new(alloc, Rel::Table(0))?;
    let right = Boxed::new(alloc, Rel::Table(1))?;
    Ok(Rel::Join {
        kind,
        left,
        right,
        on,
    })
}

fn in_town(alloc: Global, of: Rel, town: i128) -> Result<Rel, NoMemory> {
    let condition = equal(alloc, 1, Expr::Const(Value::Num(town)))?;
    Ok(Rel::Where(Boxed::new(alloc, of)?, condition))
}

/// The sum of each customer's orders.
fn sums(alloc: Global) -> Result<Rel, NoMemory> {
    let keys = vec![in alloc; 0]?;
    let aggs = vec![in alloc; Agg::Sum(Expr::Col(1))]?;
    Ok(Rel::Group {
        of: Boxed::new(alloc, Rel::Table(1))?,
        keys: Seq::from_vec(keys),
        aggs: Seq::from_vec(aggs),
    })
}

/// The rows of both, each once.
fn either(alloc: Global, first: Rel, second: Rel) -> Result<Rel, NoMemory> {
    let parts = vec![in alloc; first, second]?;
    let all = Rel::Union(Items::from_vec(parts));
    Ok(Rel::Distinct(Boxed::new(alloc, all)?))
}

fn gives(alloc: Global, rel: &Rel, want: &[(i128, i128)]) -> Result<bool, NoMemory> {
    let tables = shop(alloc)?;
    let none: Row = Seq::new(alloc);
    let found = bag_of(alloc, &tables, &none, rel)?;
    let want = pairs(alloc, want)?;
    Ok(found.rows == want)
}

fn leaves_are_given(alloc: Global) -> Result<bool, NoMemory> {
    let tables = shop(alloc)?;
    let none: Row = Seq::new(alloc);
    let one = bag_of(alloc, &tables, &none, &Rel::One)?;
    Ok(one.rows.len() == 1 && gives(alloc, &Rel::View(0), &[])?)
}

fn conditions_are_kept(alloc: Global) -> Result<bool, NoMemory> {
    let rel = in_town(alloc, Rel::Table(0), 10)?;
    gives(alloc, &rel, &[(1, 10), (3, 10)])
}

fn count_of(alloc: Global, rel: &Rel) -> Result<usize, NoMemory> {
    let tables = shop(alloc)?;
    let none: Row = Seq::new(alloc);
    let found = bag_of(alloc, &tables, &none, rel)?;
    Ok(found.rows.len())
}

fn joined_in_town(alloc: Global, kind: JoinKind) -> Result<Rel, NoMemory> {
    let all = joined(alloc, kind)?;
    in_town(alloc, all, 10)
}

fn joins_are_kept(alloc: Global, kind: JoinKind) -> Result<bool, NoMemory> {
    let rel = joined_in_town(alloc, kind)?;
    Ok(count_of(alloc, &rel)? == 3)
}

fn groups_are_given(alloc: Global) -> Result<bool, NoMemory> {
    let rel = sums(alloc)?;
    gives(alloc, &rel, &[(1, 9), (3, 6)])
}

fn unions_are_given(alloc: Global) -> Result<bool, NoMemory> {
    let first = in_town(alloc, Rel::Table(0), 20)?;
    let rel = either(alloc, first, Rel::Table(0))?;
    gives(alloc, &rel, &[(2, 20), (1, 10), (3, 10)])
}

/// Orders by their sums, the greatest first; the second of them.
fn second_order(alloc: Global) -> Result<Ranked, NoMemory> {
    let key = Key {
        column: 1,
        desc: true,
    };
    let keys = vec![in alloc; key]?;
    Ok(Ranked {
        rel: Rel::Table(1),
        names: Seq::new(alloc),
        tys: Seq::new(alloc),
        keys: Seq::from_vec(keys),
        offset: 1,
        limit: Some(1),
    })
}

fn rows_of(alloc: Global, q: &Ranked) -> Result<Rows, NoMemory> {
    let tables = shop(alloc)?;
    let none: Row = Seq::new(alloc);
    run(alloc, &tables, &none, q)
}

fn arranged_rows(alloc: Global) -> Result<Rows, NoMemory> {
    let q = second_order(alloc)?;
    rows_of(alloc, &q)
}

fn is_one_pair(alloc: Global, rows: &Rows, a: i128, b: i128) -> Result<bool, NoMemory> {
    let want = pairs(alloc, &[(a, b)])?;
    Ok(*rows == want)
}

fn rows_are_arranged(alloc: Global) -> Result<bool, NoMemory> {
    let found = arranged_rows(alloc)?;
    is_one_pair(alloc, &found, 1, 5)
}

#[test]
fn each_call_answers(rt: HostRuntime) -> Result<(), Fail> {
    let alloc = rt.alloc();
    for (case, holds) in [
        leaves_are_given(alloc)?,
        conditions_are_kept(alloc)?,
        joins_are_kept(alloc, JoinKind::Inner)?,
        joins_are_kept(alloc, JoinKind::Left)?,
        groups_are_given(alloc)?,
        unions_are_given(alloc)?,
        rows_are_arranged(alloc)?,
    ]
    .iter()
    .enumerate()
    {
        assert!(rt; *holds, "case {case}");
    }
    Ok(())
}

#[test]
fn tables_are_marked(rt: HostRuntime) -> Result<(), Fail> {
    laws::same_where_read();
    let mut marks = [false, false, false];
    let rel = joined(rt.alloc(), JoinKind::Left)?;
    mark_tables(&rel, &mut marks);
    assert!(rt; marks == [true, true, false]);
    Ok(())
}
