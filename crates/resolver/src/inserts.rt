//! INSERT, and expressions that see no column.

ghost use Rattle.std.specs.Prelude.{◌≡◌, []};
ghost use Rattle.expr_resolver.specs.Answers.{Resolves};
ghost use Rattle.resolver.specs.Statements as spec;

use crate::assigning::{listed_columns, of_columns, of_known, unfit_at};
use crate::relations::relation_of;
use crate::selected::Selected;
use crate::selects::set_walk;
use crate::unions::union_of;
use expr_resolver::exprs::walk;
use expr_resolver::lists::exprs_of;
use expr_resolver::{Known, Knowns, Names, Over, ResolveFault};
use sql_reader::tree::{Expr, Insert, InsertSource};
use sqlite_items::Boxed;
use std::alloc::Global;
use vdb_base::{Seq, Ty};
use vdb_model::{Catalog, Rel, Typed};

/// An expression in which no aggregate may stand.
pub fn walk_alone(alloc: Global, names: &Names, e: &Expr) -> Result<Known, ResolveFault>
    ensures { Resolves (spec.walk_alone names.now e.now) result }
{
    let mut aggs = Seq::new(alloc);
    Ok(walk(alloc, names, Over::Rows, e, &mut aggs)?)
}

/// Expressions in turn, which see no column.
pub fn walks_alone(alloc: Global, es: &[Expr]) -> Result<Knowns, ResolveFault>
    ensures { Resolves (spec.walks_alone es.now []) result }
{
    let names = Names {
        entries: Seq::new(alloc),
        keys: Seq::new(alloc),
    };
    let mut made = Seq::new(alloc);
    for e in es {
        made.push(walk_alone(alloc, &names, e)?)?;
    }
    Ok(made)
}

pub fn first_or(at: usize, ks: &[Known]) -> usize
    ensures { result ≡ spec.first_or at ks.now }
{
    match ks.first() {
        None => at,
        Some(k) => k.first,
    }
}

/// The rows of a list of values: one Select over One.
fn values_rows(alloc: Global, tys: &[Ty], ks: Knowns) -> Result<Rel, ResolveFault>
    ensures { Resolves (spec.values_rows tys.now ks) result }
{
    let given = of_known(alloc, ks.as_slice())?;
    let first = first_or(0, ks.as_slice());
    if let Some(at) = unfit_at(first, tys, given.as_slice()) {
        return Err(ResolveFault::mismatch(at));
    }
    let one = Boxed::new(alloc, Rel::One)?;
    Ok(Rel::Select(one, exprs_of(alloc, ks)?))
}

fn query_rows(alloc: Global, tys: &[Ty], s: Selected) -> Result<Rel, ResolveFault>
    ensures { Resolves (spec.query_rows tys.now s) result }
{
    let given = of_columns(alloc, s.columns.as_slice())?;
    match unfit_at(s.first, tys, given.as_slice()) {
        Some(at) => Err(ResolveFault::mismatch(at)),
        None => Ok(union_of(s.parts)),
    }
}

fn insert_rows(
    alloc: Global,
    cat: &Catalog,
    tys: &[Ty],
    source: &InsertSource,
) -> Result<Rel, ResolveFault>
    ensures { Resolves (spec.insert_rows cat.now tys.now source.now) result }
{
    match source {
        InsertSource::Values(es) => {
            let ks = walks_alone(alloc, es.as_slice())?;
            Ok(values_rows(alloc, tys, ks)?)
        }
        InsertSource::Query(q) => {
            let s = set_walk(alloc, cat, q)?;
            Ok(query_rows(alloc, tys, s)?)
        }
    }
}

pub fn insert_walk(alloc: Global, cat: &Catalog, i: &Insert) -> Result<Typed, ResolveFault>
    ensures { Resolves (spec.insert_walk cat.now i.now) result }
{
    let r = relation_of(alloc, cat, &i.target)?;
    let columns = listed_columns(alloc, r.columns.as_slice(), i.columns.as_slice())?;
    let rows = insert_rows(alloc, cat, columns.tys.as_slice(), &i.source)?;
    Ok(Typed::Insert {
        target: r.target,
        columns: columns.columns,
        rows,
    })
}
