//! Rows that are lent, so that only those that are shown have to be copied.

ghost use Rattle.std.specs.Prelude.{◌≡◌, IfOk};
ghost use Rattle.vdb_model.specs.Rows.{cut};
ghost use Rattle.rel_eval.specs.Lent.{lent};

use crate::value::cell;
use std::alloc::Global;
use vdb_base::{NoMemory, Row, Rows, Seq, Value};

pub fn lend<'a>(alloc: Global, rows: &'a Rows) -> Result<Vec<&'a Row>, NoMemory>
    ensures { IfOk result (λ made. lent made.items ≡ rows.now) }
{
    let mut made = Vec::with_capacity(alloc, rows.len())?;
    for row in rows.as_slice() {
        made.push(row)?;
    }
    Ok(made)
}

/// The cells of a row in these columns.
pub fn cut(alloc: Global, row: &[Value], columns: &[u32]) -> Result<Row, NoMemory>
    ensures { IfOk result (λ made. made ≡ cut columns.now row.now) }
{
    let mut made = Vec::with_capacity(alloc, columns.len())?;
    for column in columns {
        made.push(cell(row, *column as usize).own(alloc)?)?;
    }
    Ok(Seq::from_vec(made))
}
