//! Answering a query of one table.

ghost use Rattle.std.specs.Prelude.{◌≡◌, IfOk};
ghost use Rattle.vdb_model.specs.Answers as answers;
ghost use Rattle.vdb_model.specs.Rows as model;
ghost use Rattle.resource.specs.Checked as spec;

use crate::keys::cut;
use rel_eval::eval;
use std::alloc::Global;
use vdb_base::{NoMemory, Row, Rows, Seq, Value};
use vdb_model::Expr;

/// Whether the row passes every condition.
fn passes_all(alloc: Global, conditions: &[Expr], row: &Row) -> Result<bool, NoMemory>
    ensures { IfOk result (λ passed. passed ≡ answers.passes_all conditions.now row.now) }
{
    let vars = Seq::new(alloc);
    for condition in conditions {
        if !passes(alloc, condition, row, &vars)? {
            return Ok(false);
        }
    }
    Ok(true)
}

fn passes(alloc: Global, condition: &Expr, row: &Row, vars: &Row) -> Result<bool, NoMemory>
    ensures { IfOk result (λ passed. passed ≡ model.passes condition.now vars.now row.now) }
{
    Ok(matches!(eval(alloc, condition, row, vars)?, Value::Bool(true)))
}

/// The rows for which every condition is TRUE, in their order, each cut to the columns.
pub fn passing_cut(
    alloc: Global,
    conditions: &[Expr],
    columns: &[u32],
    rows: &[Row],
) -> Result<Rows, NoMemory>
    ensures { IfOk result (λ made. made ≡ spec.passing_cut conditions.now columns.now rows.now) }
{
    let mut made = Seq::new(alloc);
    for row in rows {
        if passes_all(alloc, conditions, row)? {
            made.push(cut(alloc, row.as_slice(), columns)?)?;
        }
    }
    Ok(made)
}
