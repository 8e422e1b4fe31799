//! Aggregates, in the order in which they are met.

ghost use Rattle.std.specs.Prelude.{◌≡◌, ◌+◌, length, IfOk};
ghost use Rattle.expr_resolver.specs.Answers.{Meets};
ghost use Rattle.expr_resolver.specs.Operators as spec;

use crate::fault::ResolveFault;
use crate::known::Known;
use crate::scope::Over;
use crate::types::aggregate_type;
use sql_reader::tree::Aggregate;
use vdb_base::{NoMemory, Ty};
use vdb_model::{Agg, Aggs, Expr};

/// A sum as the number of a column.
pub fn place(at: usize, more: usize) -> Result<u32, NoMemory>
    ensures { IfOk result (λ n. n ≡ at + more) }
{
    match at.checked_add(more) {
        None => Err(NoMemory),
        Some(sum) => {
            if sum <= 4294967295 {
                Ok(sum as u32)
            } else {
                Err(NoMemory)
            }
        }
    }
}

fn agg_of(aggregate: Aggregate, e: Expr) -> Agg
    ensures { result ≡ spec.agg_of aggregate e }
{
    match aggregate {
        Aggregate::Count => Agg::Count(e),
        Aggregate::Sum => Agg::Sum(e),
        Aggregate::Min => Agg::Min(e),
        Aggregate::Max => Agg::Max(e),
    }
}

fn add_agg(
    keys: usize,
    at: usize,
    between: bool,
    agg: Agg,
    ty: Ty,
    aggs: &mut Aggs,
) -> Result<Known, ResolveFault>
    ensures { Meets (spec.add_agg keys at between agg ty aggs.old) result aggs.new }
{
    let number = place(keys, aggs.len())?;
    aggs.push(agg)?;
    Ok(Known {
        expr: Expr::Col(number),
        ty: Some(ty),
        first: at,
        column: true,
        between,
    })
}

/// `COUNT(*)`
pub fn count_all(over: Over, keys: usize, at: usize, aggs: &mut Aggs) -> Result<Known, ResolveFault>
    ensures { Meets (spec.count_all over keys at aggs.old) result aggs.new }
{
    match over {
        Over::Rows => Err(ResolveFault::mismatch(at)),
        Over::Groups => Ok(add_agg(keys, at, false, Agg::CountStar, Ty::Long, aggs)?),
    }
}

/// An aggregate of an operand.
pub fn aggregate_of(
    over: Over,
    keys: usize,
    aggregate: Aggregate,
    at: usize,
    k: Known,
    aggs: &mut Aggs,
) -> Result<Known, ResolveFault>
    ensures { Meets (spec.aggregate_of over keys aggregate at k aggs.old) result aggs.new }
{
    match over {
        Over::Rows => Err(ResolveFault::mismatch(at)),
        Over::Groups => {
            let ty = aggregate_type(aggregate, at, k.ty)?;
            let Known { expr, between, .. } = k;
            let agg = agg_of(aggregate, expr);
            Ok(add_agg(keys, at, between, agg, ty, aggs)?)
        }
    }
}
