//! Groups of rows, and their aggregates.

ghost use Rattle.std.specs.Prelude.{◌≡◌, ◌++◌, [], IfOk, pos};
ghost use Rattle.vdb_model.specs.Groups as spec;
ghost use Rattle.vdb_model.specs.Number.{number};
ghost use Rattle.vdb_model.specs.Rows.{cut_rows, distinct_rows};
ghost use Rattle.rel_eval.specs.Indexed.{under};
ghost use Rattle.rel_eval.specs.Lent.{lent};
ghost use Rattle.rel_eval.specs.RowKeys.{cells};

use crate::index::Index;
use crate::lend::lend;
use crate::logic::is_null;
use crate::row_key::RowKey;
use crate::sum::sum_of;
use crate::value::eval;
use std::alloc::Global;
use vdb_base::{NoMemory, Nums, Row, Rows, Seq, Value, cmp_values};
use vdb_model::{Agg, Aggs, Expr};

/// The values of an expression that aren't NULL.
fn known(alloc: Global, e: &Expr, vars: &Row, rows: &[&Row]) -> Result<Vec<Value>, NoMemory>
    ensures { IfOk result (λ made. made.items ≡ spec.known e.now vars.now (lent rows.now)) }
{
    let mut made = Vec::new(alloc);
    for row in rows {
        let v = eval(alloc, e, row, vars)?;
        if !is_null(&v) {
            made.push(v)?;
        }
    }
    Ok(made)
}

fn least<'a>(first: &'a Value, vs: &'a [Value]) -> &'a Value
    ensures { result.now ≡ spec.least first.now vs.now }
{
    let mut least = first;
    for v in vs {
        if cmp_values(v, least).is_lt() {
            least = v;
        }
    }
    least
}

fn greatest<'a>(first: &'a Value, vs: &'a [Value]) -> &'a Value
    ensures { result.now ≡ spec.greatest first.now vs.now }
{
    let mut greatest = first;
    for v in vs {
        if cmp_values(greatest, v).is_lt() {
            greatest = v;
        }
    }
    greatest
}

fn min_of(alloc: Global, vs: &[Value]) -> Result<Value, NoMemory>
    ensures { IfOk result (λ v. v ≡ spec.min_of vs.now) }
{
    match vs {
        [] => Ok(Value::Null),
        [first, rest @ ..] => Ok(least(first, rest).copy(alloc)?),
    }
}

fn max_of(alloc: Global, vs: &[Value]) -> Result<Value, NoMemory>
    ensures { IfOk result (λ v. v ≡ spec.max_of vs.now) }
{
    match vs {
        [] => Ok(Value::Null),
        [first, rest @ ..] => Ok(greatest(first, rest).copy(alloc)?),
    }
}

fn count(n: usize) -> Value
    ensures { result ≡ number (pos n) }
{
    Value::Num(n as i128)
}

#[tactic(auto, using(crate::proofs::LentRows::lent_length))]
fn aggregate(alloc: Global, agg: &Agg, vars: &Row, rows: &[&Row]) -> Result<Value, NoMemory>
    ensures { IfOk result (λ v. v ≡ spec.aggregate agg.now vars.now (lent rows.now)) }
{
    match agg {
        Agg::CountStar => Ok(count(rows.len())),
        Agg::Count(e) => Ok(count(known(alloc, e, vars, rows)?.len())),
        Agg::Sum(e) => Ok(sum_of(&known(alloc, e, vars, rows)?)),
        Agg::Min(e) => Ok(min_of(alloc, &known(alloc, e, vars, rows)?)?),
        Agg::Max(e) => Ok(max_of(alloc, &known(alloc, e, vars, rows)?)?),
    }
}

/// The values of a group's keys, and behind them the aggregates.
fn group_row(
    alloc: Global,
    mut key: Row,
    aggs: &[Agg],
    vars: &Row,
    rows: &[&Row],
) -> Result<Row, NoMemory>
    ensures { IfOk result (λ row. row ≡ key ++ spec.aggregates aggs.now vars.now (lent rows.now)) }
{
    for agg in aggs {
        key.push(aggregate(alloc, agg, vars, rows)?)?;
    }
    Ok(key)
}

/// One row for all rows, also where there is none.
#[tactic(auto, using(crate::proofs::Grouped::without_keys))]
fn whole(alloc: Global, rows: &Rows, aggs: &[Agg], vars: &Row) -> Result<Rows, NoMemory>
    ensures { IfOk result (λ made. made ≡ spec.group_rows [] aggs.now vars.now rows.now) }
{
    let mut made = Seq::new(alloc);
    made.push(group_row(alloc, Seq::new(alloc), aggs, vars, &lend(alloc, rows)?)?)?;
    Ok(made)
}

fn group_of<'a>(
    alloc: Global,
    index: &Index<'a>,
    key: &RowKey<'a>,
    aggs: &[Agg],
    vars: &Row,
) -> Result<Row, NoMemory>
    ensures { IfOk result (λ row. row ≡ cells key.now ++ spec.aggregates aggs.now vars.now (under index.now (cells key.now))) }
{
    let first = key.copy(alloc)?;
    match index.find(key) {
        Some(rows) => group_row(alloc, first, aggs, vars, rows),
        None => group_row(alloc, first, aggs, vars, &[]),
    }
}

fn by_keys(
    alloc: Global,
    rows: &Rows,
    keys: &[u32],
    aggs: &[Agg],
    vars: &Row,
) -> Result<Rows, NoMemory>
    ensures { IfOk result (λ made. made ≡ spec.rows_by_group keys.now aggs.now vars.now rows.now (distinct_rows (cut_rows keys.now rows.now))) }
{
    let index = Index::of(alloc, rows, keys)?;
    let groups = index.keys();
    let mut made = Vec::with_capacity(alloc, groups.len())?;
    for key in groups {
        made.push(group_of(alloc, &index, key, aggs, vars)?)?;
    }
    Ok(Seq::from_vec(made))
}

/// One row for each list of key values that occurs, in the order in which they do: the keys' values, where NULL is one
/// of them, and behind them the aggregates. Without keys it is one row. SUM, MIN and MAX of no value are NULL, and a SUM
/// past 128 bits is NULL, which no typed one is.
pub fn group(
    alloc: Global,
    rows: &Rows,
    keys: &Nums,
    aggs: &Aggs,
    vars: &Row,
) -> Result<Rows, NoMemory>
    ensures { IfOk result (λ made. made ≡ spec.group_rows keys.now aggs.now vars.now rows.now) }
{
    if keys.is_empty() {
        whole(alloc, rows, aggs.as_slice(), vars)
    } else {
        by_keys(alloc, rows, keys.as_slice(), aggs.as_slice(), vars)
    }
}
