//! What no clause says: that each call succeeds where there is memory. Here are the operators on a shop's customers and
//! orders; the modules have expressions by their kinds, aggregates, joins and orders.

ghost use Rattle.std.specs.Prelude.{◌<◌};

use super::*;
use sqlite_items::{Boxed, Items};
use std::alloc::Global;
use std::test::Fail;
use vdb_base::{NoMemory, Nums, Row, Rows, Seq, Text, Value, print_value};
use vdb_model::{Agg, Aggs, CmpOp, Expr, Exprs, JoinKind, Key, Keys};

mod aggregates;
mod arithmetic;
mod arrangements;
mod choices;
mod joins;
mod texts;
mod truths;

fn value_of(n: i128) -> Value {
    if n < 0 { Value::Null } else { Value::Num(n) }
}

fn row_of(alloc: Global, numbers: &[i128]) -> Result<Row, NoMemory> {
    let mut row = Seq::new(alloc);
    for n in numbers {
        row.push(value_of(*n))?;
    }
    Ok(row)
}

fn rows_of(alloc: Global, numbers: &[i128], width: usize) -> Result<Rows, NoMemory>
    requires { 0 < width }
{
    let mut rows = Seq::new(alloc);
    for row in numbers.chunks(width) {
        rows.push(row_of(alloc, row)?)?;
    }
    Ok(rows)
}

fn maybe_truth(t: Option<bool>) -> Value {
    match t {
        Some(t) => Value::Bool(t),
        None => Value::Null,
    }
}

fn maybe_number(n: Option<i128>) -> Value {
    match n {
        Some(n) => Value::Num(n),
        None => Value::Null,
    }
}

fn word(alloc: Global, text: &str) -> Result<Value, NoMemory> {
    Ok(Value::Str(Text::from_str(alloc, text)?))
}

fn maybe_word(alloc: Global, text: Option<&str>) -> Result<Value, NoMemory> {
    match text {
        Some(text) => word(alloc, text),
        None => Ok(Value::Null),
    }
}

fn letters(alloc: Global) -> Result<Rows, NoMemory> {
    let mut rows = Seq::new(alloc);
    for text in ["b", "é", "a"] {
        let mut row = Seq::new(alloc);
        row.push(word(alloc, text)?)?;
        rows.push(row)?;
    }
    Ok(rows)
}

fn boxed(alloc: Global, v: Value) -> Result<Boxed<Expr>, NoMemory> {
    Ok(Boxed::new(alloc, Expr::Const(v))?)
}

fn two(alloc: Global, a: Value, b: Value) -> Result<Exprs, NoMemory> {
    let mut made = Vec::new(alloc);
    made.push(Expr::Const(a))?;
    made.push(Expr::Const(b))?;
    Ok(Items::from_vec(made))
}

fn three(alloc: Global, a: Value, b: Value, c: Value) -> Result<Exprs, NoMemory> {
    let mut made = Vec::new(alloc);
    made.push(Expr::Const(a))?;
    made.push(Expr::Const(b))?;
    made.push(Expr::Const(c))?;
    Ok(Items::from_vec(made))
}

fn compare(alloc: Global, op: CmpOp, a: Value, b: Value) -> Result<Expr, NoMemory> {
    cmp(alloc, op, Expr::Const(a), Expr::Const(b))
}

/// The value of an expression over no columns and no variables.
fn given(alloc: Global, e: Expr) -> Result<Value, NoMemory> {
    let none: Row = Seq::new(alloc);
    eval(alloc, &e, &none, &none)
}

fn gives(alloc: Global, e: Expr, want: Value) -> Result<bool, NoMemory> {
    Ok(given(alloc, e)? == want)
}

fn gives_word(alloc: Global, e: Expr, want: Option<&str>) -> Result<bool, NoMemory> {
    match (given(alloc, e)?, want) {
        (Value::Str(text), Some(want)) => Ok(text.as_str() == want),
        (Value::Null, None) => Ok(true),
        _ => Ok(false),
    }
}

fn customers(alloc: Global) -> Result<Rows, NoMemory> {
    rows_of(alloc, &[1, 2, 3], 1)
}

/// The number, the customer or none, and the quantity.
fn orders(alloc: Global) -> Result<Rows, NoMemory> {
    rows_of(alloc, &[10, 1, 5, 11, 1, 7, 12, -1, 1, 13, 2, 0], 3)
}

fn cmp(alloc: Global, op: CmpOp, a: Expr, b: Expr) -> Result<Expr, NoMemory> {
    let a = Boxed::new(alloc, a)?;
    Ok(Expr::Cmp(op, a, Boxed::new(alloc, b)?))
}

fn columns(alloc: Global, columns: &[u32]) -> Result<Exprs, NoMemory> {
    let mut made = Vec::new(alloc);
    for column in columns {
        made.push(Expr::Col(*column))?;
    }
    Ok(Items::from_vec(made))
}

fn shows(alloc: Global, rows: &Rows, want: &str) -> Result<bool, NoMemory> {
    let mut text = Text::new(alloc);
    for row in rows.as_slice() {
        for value in row.as_slice() {
            print_value(alloc, value, &mut text)?;
            text.push_str(" ")?;
        }
        text.push_str("; ")?;
    }
    Ok(text.as_str() == want)
}

fn shows_in_order(alloc: Global, rows: &Rows, want: &str) -> Result<bool, NoMemory> {
    let keys = Seq::new(alloc);
    shows(alloc, &arrange_totally(alloc, rows, &keys, 0, None)?, want)
}

fn customers_of(alloc: Global, rows: &Rows, vars: &Row) -> Result<Rows, NoMemory> {
    select(alloc, rows, &columns(alloc, &[1])?, vars)
}

fn named_orders(alloc: Global, vars: &Row) -> Result<Rows, NoMemory> {
    let known = cmp(alloc, CmpOp::Eq, Expr::Col(1), Expr::Col(1))?;
    let all = orders(alloc)?;
    filter(alloc, &all, &known, vars)
}

fn named_customers(alloc: Global, vars: &Row) -> Result<Rows, NoMemory> {
    let named = named_orders(alloc, vars)?;
    customers_of(alloc, &named, vars)
}

fn both(alloc: Global, vars: &Row) -> Result<RowsList, NoMemory> {
    let mut parts = Seq::new(alloc);
    parts.push(customers(alloc)?)?;
    parts.push(named_customers(alloc, vars)?)?;
    Ok(parts)
}

fn known_customers(alloc: Global, vars: &Row) -> Result<bool, NoMemory> {
    let parts = both(alloc, vars)?;
    let rows = union_all(alloc, &parts)?;
    shows_in_order(alloc, &rows, "1 ; 1 ; 1 ; 2 ; 2 ; 3 ; ")
}

fn of_the_first(alloc: Global) -> Result<Expr, NoMemory> {
    let mut both = Vec::new(alloc);
    both.push(cmp(alloc, CmpOp::Eq, Expr::Col(2), Expr::Col(0))?)?;
    both.push(cmp(alloc, CmpOp::Eq, Expr::Col(0), Expr::Const(Value::Num(1)))?)?;
    Ok(Expr::And(Items::from_vec(both)))
}

fn joined(alloc: Global, on: &Expr, vars: &Row) -> Result<Rows, NoMemory> {
    let left = customers(alloc)?;
    let right = orders(alloc)?;
    join(alloc, JoinKind::Left, &left, &right, 3, on, vars)
}

fn orders_of_the_first(alloc: Global, vars: &Row) -> Result<bool, NoMemory> {
    let on = of_the_first(alloc)?;
    let rows = joined(alloc, &on, vars)?;
    let want = "1 10 1 5 ; 1 11 1 7 ; 2 NULL NULL NULL ; 3 NULL NULL NULL ; ";
    shows_in_order(alloc, &rows, want)
}

fn all_customers(alloc: Global, vars: &Row) -> Result<Rows, NoMemory> {
    let all = orders(alloc)?;
    customers_of(alloc, &all, vars)
}

fn downwards(alloc: Global) -> Result<Keys, NoMemory> {
    let mut keys = Seq::new(alloc);
    keys.push(Key {
        column: 0,
        desc: true,
    })?;
    Ok(keys)
}

fn latest(alloc: Global, vars: &Row) -> Result<bool, NoMemory> {
    let keys = downwards(alloc)?;
    let all = all_customers(alloc, vars)?;
    let rows = arrange(alloc, &all, &keys, 0, Some(2))?;
    shows(alloc, &rows, "2 ; 1 ; ")
}

fn count_and_sum(alloc: Global) -> Result<Aggs, NoMemory> {
    let mut aggs = Seq::new(alloc);
    aggs.push(Agg::CountStar)?;
    aggs.push(Agg::Sum(Expr::Col(2)))?;
    Ok(aggs)
}

fn counted(alloc: Global, rows: &Rows, keys: &Nums, vars: &Row) -> Result<Rows, NoMemory> {
    let aggs = count_and_sum(alloc)?;
    group(alloc, rows, keys, &aggs, vars)
}

fn customer(alloc: Global) -> Result<Nums, NoMemory> {
    let mut keys = Seq::new(alloc);
    keys.push(1)?;
    Ok(keys)
}

fn counts_by_customer(alloc: Global, vars: &Row) -> Result<bool, NoMemory> {
    let keys = customer(alloc)?;
    let all = orders(alloc)?;
    let rows = counted(alloc, &all, &keys, vars)?;
    shows_in_order(alloc, &rows, "NULL 1 1 ; 1 2 12 ; 2 1 0 ; ")
}

fn counts_of_none(alloc: Global, vars: &Row) -> Result<bool, NoMemory> {
    let keys: Nums = Seq::new(alloc);
    let none: Rows = Seq::new(alloc);
    let rows = counted(alloc, &none, &keys, vars)?;
    shows(alloc, &rows, "0 NULL ; ")
}

fn customers_once(alloc: Global, vars: &Row) -> Result<bool, NoMemory> {
    let all = all_customers(alloc, vars)?;
    let rows = distinct(alloc, &all)?;
    shows_in_order(alloc, &rows, "NULL ; 1 ; 2 ; ")
}

#[test]
fn a_shop(rt: HostRuntime) -> Result<(), Fail> {
    let alloc = rt.alloc();
    let none: Row = Seq::new(alloc);
    for (case, holds) in [
        known_customers(alloc, &none)?,
        orders_of_the_first(alloc, &none)?,
        latest(alloc, &none)?,
        counts_by_customer(alloc, &none)?,
        counts_of_none(alloc, &none)?,
        customers_once(alloc, &none)?,
    ]
    .iter()
    .enumerate()
    {
        assert!(rt; *holds, "case {case}");
    }
    Ok(())
}
