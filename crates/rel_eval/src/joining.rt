//! Joins.

ghost use Rattle.std.specs.Prelude.{◌≡◌, ◌++◌, IfOk, replicate};
ghost use Rattle.vdb_base.specs.declared.value.Value.TheVariants.{Null};
ghost use Rattle.vdb_model.specs.declared.expr.Expr.{Expr};
ghost use Rattle.vdb_model.specs.Rows as spec;
ghost use Rattle.std.specs.Option.{option_copied};
ghost use Rattle.rel_eval.specs.Equal.{IsForced};
ghost use Rattle.rel_eval.specs.Indexed.{listed};
ghost use Rattle.rel_eval.specs.Lent.{lent};
ghost use Rattle.rel_eval.specs.Sides.{Serves, candidates};

use crate::equalities::{Equalities, forced_by};
use crate::index::Index;
use crate::lend::lend;
use crate::logic::is_true;
use crate::row_key::RowKey;
use crate::value::eval_over;
use std::alloc::Global;
use vdb_base::{NoMemory, Row, Rows, Seq, Value};
use vdb_model::{Expr, JoinKind};

/// One row behind the other.
fn beside(alloc: Global, left: &Row, right: &Row) -> Result<Row, NoMemory>
    ensures { IfOk result (λ row. row ≡ left.now ++ right.now) }
{
    let mut row = Vec::with_capacity(alloc, left.len().saturating_add(right.len()))?;
    for v in left.as_slice() {
        row.push(v.copy(alloc)?)?;
    }
    for v in right.as_slice() {
        row.push(v.copy(alloc)?)?;
    }
    Ok(Seq::from_vec(row))
}

/// A row with NULLs behind it.
fn with_nulls(alloc: Global, left: &Row, width: u32) -> Result<Row, NoMemory>
    ensures { IfOk result (λ row. row ≡ left.now ++ replicate width Null) }
{
    let mut row = left.copy(alloc)?;
    for _added in 0..width {
        row.push(Value::Null)?;
    }
    Ok(row)
}

fn fit_together(
    alloc: Global,
    on: &Expr,
    vars: &Row,
    left: &Row,
    right: &Row,
) -> Result<bool, NoMemory>
    ensures { IfOk result (λ fit. fit ≡ spec.passes on.now vars.now (left.now ++ right.now)) }
{
    Ok(is_true(&eval_over(
        alloc,
        on,
        left.as_slice(),
        right.as_slice(),
        vars.as_slice(),
    )?))
}

/// The left row with each of the right rows at which the condition is TRUE.
fn matches(
    alloc: Global,
    on: &Expr,
    vars: &Row,
    left: &Row,
    rights: &[&Row],
) -> Result<Rows, NoMemory>
    ensures { IfOk result (λ rows. rows ≡ spec.matches on.now vars.now left.now (lent rights.now)) }
{
    let mut rows = Seq::new(alloc);
    for right in rights {
        if fit_together(alloc, on, vars, left, right)? {
            rows.push(beside(alloc, left, right)?)?;
        }
    }
    Ok(rows)
}

/// The width that left rows have, by the first of them.
fn width_of(left: &Rows) -> usize {
    match left.get(0) {
        Some(row) => row.len(),
        None => 0,
    }
}

/// The right side of a join, and how the rows of it that can match a left row are found.
#[derive(Drop)]
struct Side<'a> {
    rows: Vec<&'a Row>,
    width: usize,
    equal: &'a Equalities,
    index: Index<'a>,
}

fn side_of<'a>(
    alloc: Global,
    right: &'a Rows,
    width: usize,
    equal: &'a Equalities,
) -> Result<Side<'a>, NoMemory>
    ensures { IfOk result (λ side. (on : Expr) → IsForced on width equal.now.lefts equal.now.rights → Serves on right.now side) }
{
    let rows = lend(alloc, right)?;
    let index = Index::of(alloc, right, equal.rights.as_slice())?;
    Ok(Side {
        rows,
        width,
        equal,
        index,
    })
}

/// The right rows whose cells equal those of the left row as they have to. NULL equals nothing.
fn candidates<'a, 'b>(left: &'a Row, side: &'b Side<'a>) -> Option<&'b Vec<&'a Row>>
    ensures { listed (option_copied result) ≡ candidates side.now left.now }
{
    let key = RowKey::of(left, side.equal.lefts.as_slice());
    if key.has_null() {
        None
    } else {
        side.index.find(&key)
    }
}

/// The left row with each right row at which the condition is TRUE. Left rows of another width than the first are tried
/// with each right row.
fn matched<'a>(
    alloc: Global,
    on: &Expr,
    vars: &Row,
    left: &'a Row,
    right: &Rows,
    side: &Side<'a>,
) -> Result<Rows, NoMemory>
    requires { Serves on.now right.now side.now }
    ensures { IfOk result (λ rows. rows ≡ spec.matches on.now vars.now left.now right.now) }
{
    if left.len() != side.width {
        return matches(alloc, on, vars, left, &side.rows);
    }
    match candidates(left, side) {
        Some(rows) => matches(alloc, on, vars, left, rows),
        None => Ok(Seq::new(alloc)),
    }
}

fn padded(
    alloc: Global,
    kind: JoinKind,
    width: u32,
    left: &Row,
    mut rows: Rows,
) -> Result<Rows, NoMemory>
    ensures { IfOk result (λ all. all ≡ spec.padded kind width left.now rows) }
{
    if kind == JoinKind::Left && rows.is_empty() {
        rows.push(with_nulls(alloc, left, width)?)?;
    }
    Ok(rows)
}

/// Each left row with each right row, in turn, at which the condition is TRUE. A left join keeps a left row without a
/// match, with as many NULLs behind it as the right side has columns.
///
/// Where the condition, or a part that AND joins to the others, is an equality of a column of either side, the right
/// rows are found by an index, and the time goes by the rows that agree there; else it goes by all pairs of rows.
pub fn join(
    alloc: Global,
    kind: JoinKind,
    left: &Rows,
    right: &Rows,
    right_width: u32,
    on: &Expr,
    vars: &Row,
) -> Result<Rows, NoMemory>
    ensures { IfOk result (λ rows. rows ≡ spec.join_rows kind right_width on.now vars.now left.now right.now) }
{
    let width = width_of(left);
    let equal = forced_by(alloc, on, width)?;
    let side = side_of(alloc, right, width, &equal)?;
    let mut rows = Seq::new(alloc);
    for row in left.as_slice() {
        let found = matched(alloc, on, vars, row, right, &side)?;
        rows.append(padded(alloc, kind, right_width, row, found)?)?;
    }
    Ok(rows)
}
