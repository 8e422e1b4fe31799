//! Rows in order.

ghost use Rattle.std.specs.Prelude.{◌≡◌, ◌∷◌, IfOk, drop, take, min, IsPermutation, IsSorted};
ghost use Rattle.vdb_base.specs.Order.{value_cmp};
ghost use Rattle.vdb_model.specs.Arranged.{Arranged, arranged, in_order, window};
ghost use Rattle.vdb_model.specs.Keys.{key_cmp, keys_cmp, total_cmp};
ghost use Rattle.vdb_model.specs.Meaning.{cell};
ghost use Rattle.rel_eval.specs.Lent.{lent};
ghost use Rattle.rel_eval.specs.RankedRows.{rows_in};

use crate::lend::lend;
use crate::ranking::Ranked;
use std::alloc::Global;
use std::cmp::Ordering;
use vdb_base::{NoMemory, Row, Rows, Seq, Value, cmp_rows, cmp_values};
use vdb_model::{Key, Keys};

fn cmp_cells(at: usize, a: &Row, b: &Row) -> Ordering
    ensures { result ≡ value_cmp (cell a.now at) (cell b.now at) }
{
    match (a.get(at), b.get(at)) {
        (Some(x), Some(y)) => cmp_values(x, y),
        (Some(x), None) => cmp_values(x, &Value::Null),
        (None, Some(y)) => cmp_values(&Value::Null, y),
        (None, None) => Ordering::Equal,
    }
}

fn cmp_by_key(key: Key, a: &Row, b: &Row) -> Ordering
    ensures { result ≡ key_cmp key a.now b.now }
{
    let at = key.column as usize;
    if key.desc {
        cmp_cells(at, b, a)
    } else {
        cmp_cells(at, a, b)
    }
}

/// By the keys in turn.
fn cmp_by_keys(keys: &[Key], a: &Row, b: &Row) -> Ordering
    ensures { result ≡ keys_cmp keys.now a.now b.now }
{
    for key in keys {
        let order = cmp_by_key(*key, a, b);
        if order != Ordering::Equal {
            return order;
        }
    }
    Ordering::Equal
}

/// By the keys in turn, and then by all columns from left to right.
pub fn cmp_totally(keys: &[Key], a: &Row, b: &Row) -> Ordering
    ensures { result ≡ total_cmp keys.now a.now b.now }
{
    match cmp_by_keys(keys, a, b) {
        Ordering::Equal => cmp_rows(a, b),
        order => order,
    }
}

/// The count, or the length where that is less.
fn at_most(count: u64, len: usize) -> usize
    ensures { result ≡ min count len }
{
    if count < len as u64 {
        count as usize
    } else {
        len
    }
}

/// The rows behind the first `offset`.
#[tactic(auto, using(crate::proofs::LentRows::lent_rules))]
fn after<'a, 'b>(rows: &'a [&'b Row], offset: u64) -> &'a [&'b Row]
    ensures { lent result.now ≡ drop offset (lent rows.entry.now) }
{
    rows.split_at(at_most(offset, rows.len())).1
}

/// The first `limit` rows.
#[tactic(auto, using(crate::proofs::LentRows::lent_rules))]
fn front<'a, 'b>(rows: &'a [&'b Row], limit: u64) -> &'a [&'b Row]
    ensures { lent result.now ≡ take limit (lent rows.entry.now) }
{
    rows.split_at(at_most(limit, rows.len())).0
}

fn copy_all(alloc: Global, rows: &[&Row]) -> Result<Rows, NoMemory>
    ensures { IfOk result (λ made. made ≡ lent rows.now) }
{
    let mut made = Vec::with_capacity(alloc, rows.len())?;
    for row in rows {
        made.push(row.copy(alloc)?)?;
    }
    Ok(Seq::from_vec(made))
}

/// Copies of the rows behind the first `offset`, at most `limit` of them.
fn copy_window(
    alloc: Global,
    rows: &[&Row],
    offset: u64,
    limit: Option<u64>,
) -> Result<Rows, NoMemory>
    ensures { IfOk result (λ made. made ≡ window offset limit (lent rows.now)) }
{
    let rest = after(rows, offset);
    match limit {
        Some(limit) => copy_all(alloc, front(rest, limit)),
        None => copy_all(alloc, rest),
    }
}

/// The rows with their ranks.
fn with_ranks(alloc: Global, rows: &Rows, key: Key) -> Result<Vec<Ranked<'_>>, NoMemory>
    ensures { IfOk result (λ made. rows_in made.items ≡ rows.now) }
{
    let mut made = Vec::with_capacity(alloc, rows.len())?;
    for row in rows.as_slice() {
        made.push(Ranked::of(row, key))?;
    }
    Ok(made)
}

/// The rows without their ranks.
fn without_ranks<'a>(alloc: Global, ranked: &[Ranked<'a>]) -> Result<Vec<&'a Row>, NoMemory>
    ensures { IfOk result (λ made. lent made.items ≡ rows_in ranked.now) }
{
    let mut made = Vec::with_capacity(alloc, ranked.len())?;
    for one in ranked {
        made.push(one.row)?;
    }
    Ok(made)
}

/// By the first key and the others in turn.
fn cmp_ranked(key: Key, others: &[Key], a: &Ranked<'_>, b: &Ranked<'_>) -> Ordering
    ensures { result ≡ keys_cmp (key ∷ others.now) a.now.row.now b.now.row.now }
{
    if let Some(order) = a.by_rank(b, key) {
        return order;
    }
    match cmp_by_key(key, a.row, b.row) {
        Ordering::Equal => cmp_by_keys(others, a.row, b.row),
        order => order,
    }
}

fn by_ranks<'a>(
    alloc: Global,
    rows: &'a Rows,
    key: Key,
    others: &[Key],
) -> Result<Vec<&'a Row>, NoMemory>
    ensures same { IfOk result (λ made. IsPermutation rows.now (lent made.items)) }
    ensures sorted { IfOk result (λ made. IsSorted (keys_cmp (key ∷ others.now)) (lent made.items)) }
{
    let mut sorted = with_ranks(alloc, rows, key)?;
    sorted.sort_by(|a, b| cmp_ranked(key, others, a, b))?;
    Ok(without_ranks(alloc, &sorted)?)
}

fn by_keys<'a>(alloc: Global, rows: &'a Rows, keys: &[Key]) -> Result<Vec<&'a Row>, NoMemory>
    ensures same { IfOk result (λ made. IsPermutation rows.now (lent made.items)) }
    ensures sorted { IfOk result (λ made. IsSorted (keys_cmp keys.now) (lent made.items)) }
{
    match keys {
        [] => lend(alloc, rows),
        [key, others @ ..] => by_ranks(alloc, rows, *key, others),
    }
}

/// The rows in the order of the keys, in which ties are free: those behind the first `offset`, at most `limit` of them.
/// Only these are copied.
pub fn arrange(
    alloc: Global,
    rows: &Rows,
    keys: &Keys,
    offset: u64,
    limit: Option<u64>,
) -> Result<Rows, NoMemory>
    ensures { IfOk result (λ made. Arranged keys.now offset limit rows.now made) }
{
    let sorted = by_keys(alloc, rows, keys.as_slice())?;
    copy_window(alloc, &sorted, offset, limit)
}

fn in_total_order<'a>(alloc: Global, rows: &'a Rows, keys: &[Key]) -> Result<Vec<&'a Row>, NoMemory>
    ensures { IfOk result (λ made. lent made.items ≡ in_order (total_cmp keys.now) rows.now) }
{
    let mut sorted = lend(alloc, rows)?;
    sorted.sort_by(|a, b| cmp_totally(keys, a, b))?;
    Ok(sorted)
}

/// The rows in the total order, which is that of the keys and then of all columns from left to right: those behind the
/// first `offset`, at most `limit` of them. Only these are copied.
pub fn arrange_totally(
    alloc: Global,
    rows: &Rows,
    keys: &Keys,
    offset: u64,
    limit: Option<u64>,
) -> Result<Rows, NoMemory>
    ensures { IfOk result (λ made. made ≡ arranged keys.now offset limit rows.now) }
{
    let sorted = in_total_order(alloc, rows, keys.as_slice())?;
    copy_window(alloc, &sorted, offset, limit)
}
