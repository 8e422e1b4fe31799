//! Statements other than INSERT, and the public call.

ghost use Rattle.std.specs.Prelude.{◌≡◌, IfOk, OnOk};
ghost use Rattle.expr_resolver.specs.Answers.{Resolves};
ghost use Rattle.resolver.specs.Statements as spec;

use crate::assigning::{assigned_value, of_known, target_column, unfit_at};
use crate::from::table_entry;
use crate::grouping::filtered;
use crate::inserts::{first_or, insert_walk, walk_alone, walks_alone};
use crate::procedures::procedure_of;
use crate::queries::resolve_view;
use crate::relation::Relation;
use crate::relations::{rel_of, relation_of};
use crate::selected::Source;
use crate::sizes::within_size;
use crate::targets::Sets;
use expr_resolver::lists::exprs_of;
use expr_resolver::{Knowns, Names, ResolveFault};
use sql_reader::tree::{Assignment, Delete, Exec, Statement, Update};
use sqlite_items::Items;
use std::alloc::Global;
use vdb_base::{NoMemory, Seq, Ty};
use vdb_model::{Catalog, Expr, Rel, Typed, VarDef};

/// The value of an assignment, and the column that takes it.
fn assignment(
    alloc: Global,
    columns: &[VarDef],
    names: &Names,
    seen: &[u32],
    a: &Assignment,
) -> Result<(u32, Expr), ResolveFault>
    ensures { Resolves (spec.assignment columns.now names.now seen.now a.now) result }
{
    let (number, ty) = target_column(alloc, columns, seen, &a.column)?;
    let k = assigned_value(ty, walk_alone(alloc, names, &a.value)?)?;
    Ok((number, k.expr))
}

fn add_set(made: &mut Sets, set: (u32, Expr)) -> Result<(), NoMemory>
    ensures { OnOk result (made.new ≡ spec.with_set made.old set) }
{
    let (number, value) = set;
    made.columns.push(number)?;
    made.values.push(value)?;
    Ok(())
}

fn assignments(
    alloc: Global,
    columns: &[VarDef],
    names: &Names,
    list: &[Assignment],
) -> Result<Sets, ResolveFault>
    ensures { Resolves (spec.assignments columns.now names.now list.now spec.no_sets) result }
{
    let mut made = Sets {
        columns: Seq::new(alloc),
        values: Seq::new(alloc),
    };
    for a in list {
        let set = assignment(alloc, columns, names, made.columns.as_slice(), a)?;
        add_set(&mut made, set)?;
    }
    Ok(made)
}

/// The target's rows, with its columns in sight.
fn target_source(alloc: Global, r: Relation) -> Result<Source, NoMemory>
    ensures { IfOk result (λ source. source ≡ spec.target_source r) }
{
    let rel = rel_of(r.target);
    let mut entries = Seq::new(alloc);
    entries.push(table_entry(alloc, &None, r)?)?;
    Ok(Source { rel, entries })
}

fn update_walk(alloc: Global, cat: &Catalog, u: &Update) -> Result<Typed, ResolveFault>
    ensures { Resolves (spec.update_walk cat.now u.now) result }
{
    let r = relation_of(alloc, cat, &u.target)?;
    let target = r.target;
    let columns = r.columns.copy(alloc)?;
    let Source { rel, entries } = target_source(alloc, r)?;
    let names = Names {
        entries,
        keys: Seq::new(alloc),
    };
    let sets = assignments(alloc, columns.as_slice(), &names, u.assignments.as_slice())?;
    let Names { entries, .. } = names;
    let rows = filtered(alloc, &u.condition, Source { rel, entries })?;
    Ok(Typed::Update {
        target,
        columns: sets.columns,
        values: Items::from_vec(sets.values.into_vec()),
        rows: rows.rel,
    })
}

fn delete_walk(alloc: Global, cat: &Catalog, d: &Delete) -> Result<Typed, ResolveFault>
    ensures { Resolves (spec.delete_walk cat.now d.now) result }
{
    let r = relation_of(alloc, cat, &d.target)?;
    let target = r.target;
    let rows = filtered(alloc, &d.condition, target_source(alloc, r)?)?;
    Ok(Typed::Delete {
        target,
        rows: rows.rel,
    })
}

fn exec_of(
    alloc: Global,
    close: usize,
    number: u32,
    tys: &[Ty],
    ks: Knowns,
) -> Result<Typed, ResolveFault>
    ensures { Resolves (spec.exec_of close (number, tys.now) ks) result }
{
    let given = of_known(alloc, ks.as_slice())?;
    let first = first_or(close, ks.as_slice());
    match unfit_at(first, tys, given.as_slice()) {
        Some(at) => Err(ResolveFault::mismatch(at)),
        None => Ok(Typed::Exec {
            procedure: number,
            args: exprs_of(alloc, ks)?,
        }),
    }
}

fn exec_walk(alloc: Global, cat: &Catalog, e: &Exec) -> Result<Typed, ResolveFault>
    ensures { Resolves (spec.exec_walk cat.now e.now) result }
{
    let (number, tys) = procedure_of(alloc, cat, &e.procedure)?;
    let ks = walks_alone(alloc, e.arguments.as_slice())?;
    Ok(exec_of(alloc, e.close, number, tys.as_slice(), ks)?)
}

fn statement_walk(
    alloc: Global,
    cat: &Catalog,
    statement: &Statement,
) -> Result<Typed, ResolveFault>
    ensures { Resolves (spec.statement_walk cat.now statement.now) result }
{
    match statement {
        Statement::Query(q) => Ok(Typed::Query(resolve_view(alloc, cat, q)?)),
        Statement::Explain(q) => Ok(Typed::Explain(resolve_view(alloc, cat, q)?)),
        Statement::Insert(i) => Ok(insert_walk(alloc, cat, i)?),
        Statement::Update(u) => Ok(update_walk(alloc, cat, u)?),
        Statement::Delete(d) => Ok(delete_walk(alloc, cat, d)?),
        Statement::Exec(e) => Ok(exec_walk(alloc, cat, e)?),
        Statement::Start => Ok(Typed::Start),
        Statement::Commit => Ok(Typed::Commit),
        Statement::Rollback => Ok(Typed::Rollback),
    }
}

/// The statement with its names and types, or the first refusal that its walk meets; last its size is counted, with every
/// view expanded.
pub fn resolve(alloc: Global, cat: &Catalog, statement: &Statement) -> Result<Typed, ResolveFault>
    ensures { Resolves (spec.resolved cat.now statement.now) result }
{
    let typed = statement_walk(alloc, cat, statement)?;
    Ok(within_size(cat, typed)?)
}
