//! Relational operators over rows of two numbers.

use rel_eval::{arrange, group, join};
use sqlite_items::Boxed;
use std::alloc::Global;
use vdb_base::{NoMemory, Row, Rows, Seq, Value};
use vdb_model::{Agg, CmpOp, Expr, JoinKind, Key};

/// How many groups there are.
const GROUPS: u32 = 1000;

/// Rows of two columns: numbers below `distinct` in no order, and the row's number.
fn rows(alloc: Global, count: u32, distinct: u32) -> Result<Rows, NoMemory> {
    let mut made = Seq::new(alloc);
    for number in 0..count {
        let scattered = u64::from(number) * 7919;
        let mut row = Seq::new(alloc);
        row.push(Value::Num(i128::from(scattered.checked_rem(u64::from(distinct)).unwrap_or(0))))?;
        row.push(Value::Num(i128::from(number)))?;
        made.push(row)?;
    }
    Ok(made)
}

fn no_vars(alloc: Global) -> Row {
    Seq::new(alloc)
}

/// The first column of the left row is that of the right one.
fn same_key(alloc: Global) -> Result<Expr, NoMemory> {
    let left = Boxed::new(alloc, Expr::Col(0))?;
    let right = Boxed::new(alloc, Expr::Col(2))?;
    Ok(Expr::Cmp(CmpOp::Eq, left, right))
}

/// How many rows the join of so many rows with as many others has.
pub fn joined(alloc: Global, count: u32) -> Result<usize, NoMemory> {
    let left = rows(alloc, count, count)?;
    let right = rows(alloc, count, count)?;
    let on = same_key(alloc)?;
    Ok(join(
        alloc,
        JoinKind::Inner,
        &left,
        &right,
        2,
        &on,
        &no_vars(alloc),
    )?
    .len())
}

/// How many groups so many rows have, each with its count and a sum.
pub fn grouped(alloc: Global, count: u32) -> Result<usize, NoMemory> {
    let rows = rows(alloc, count, GROUPS)?;
    let mut keys = Seq::new(alloc);
    keys.push(0)?;
    let mut aggs = Seq::new(alloc);
    aggs.push(Agg::CountStar)?;
    aggs.push(Agg::Sum(Expr::Col(1)))?;
    Ok(group(alloc, &rows, &keys, &aggs, &no_vars(alloc))?.len())
}

/// How many rows stand in order.
pub fn sorted(alloc: Global, count: u32) -> Result<usize, NoMemory> {
    let rows = rows(alloc, count, count)?;
    let mut keys = Seq::new(alloc);
    keys.push(Key {
        column: 0,
        desc: false,
    })?;
    Ok(arrange(alloc, &rows, &keys, 0, None)?.len())
}
