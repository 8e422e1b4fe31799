//! Columns that take values, and whether the values go into them.

ghost use Rattle.std.specs.Prelude.{◌≡◌, ◌==◌, IfOk, OnOk};
ghost use Rattle.std.specs.List.{list_any};
ghost use Rattle.expr_resolver.specs.Answers.{Resolves};
ghost use Rattle.resolver.specs.Assigning as spec;
ghost use Rattle.expr_resolver.specs.Scope.{only, named};
ghost use Rattle.vdb_model.specs.NameText.{name_text};

use crate::selected::Column;
use crate::targets::{Given, Targets};
use expr_resolver::aggregates::place;
use expr_resolver::lookup::add_named;
use expr_resolver::types::is_assignable;
use expr_resolver::{Known, ResolveFault};
use sql_reader::tree::Name;
use std::alloc::Global;
use vdb_base::{NoMemory, Seq, Ty};
use vdb_model::{Refusal, VarDef, printed};

fn is_listed(column: u32, seen: &[u32]) -> bool
    ensures { result ≡ list_any (λ c. c == column) seen.now }
{
    seen.iter().any(|c| *c == column)
}

/// The only column of the name.
fn only_column(alloc: Global, columns: &[VarDef], name: &Name) -> Result<(u32, Ty), ResolveFault>
    ensures { Resolves (only (name_text name.now.text) (named 0 name.now.text columns.now)) result }
{
    let mut found = Vec::new(alloc);
    add_named(0, &name.text, columns, &mut found)?;
    match found.as_slice() {
        [] => Err(ResolveFault::Refused(Refusal::Unknown {
            name: printed(alloc, &name.text)?,
        })),
        [column] => Ok(*column),
        [_, _, ..] => Err(ResolveFault::Refused(Refusal::Ambiguous {
            name: printed(alloc, &name.text)?,
        })),
    }
}

/// A column of the target that isn't listed yet.
pub fn target_column(
    alloc: Global,
    columns: &[VarDef],
    seen: &[u32],
    name: &Name,
) -> Result<(u32, Ty), ResolveFault>
    ensures { Resolves (spec.target_column columns.now seen.now name.now) result }
{
    let column = only_column(alloc, columns, name)?;
    if is_listed(column.0, seen) {
        Err(ResolveFault::mismatch(name.at))
    } else {
        Ok(column)
    }
}

fn no_columns(alloc: Global) -> Targets
    ensures { result ≡ spec.no_columns }
{
    Targets {
        columns: Seq::new(alloc),
        tys: Seq::new(alloc),
    }
}

fn add_column(made: &mut Targets, column: (u32, Ty)) -> Result<(), NoMemory>
    ensures { OnOk result (made.new ≡ spec.with_column made.old column) }
{
    let (number, ty) = column;
    made.columns.push(number)?;
    made.tys.push(ty)?;
    Ok(())
}

fn target_columns(
    alloc: Global,
    columns: &[VarDef],
    names: &[Name],
) -> Result<Targets, ResolveFault>
    ensures { Resolves (spec.target_columns columns.now names.now spec.no_columns) result }
{
    let mut made = no_columns(alloc);
    for name in names {
        let column = target_column(alloc, columns, made.columns.as_slice(), name)?;
        add_column(&mut made, column)?;
    }
    Ok(made)
}

fn every_column(alloc: Global, columns: &[VarDef]) -> Result<Targets, NoMemory>
    ensures { IfOk result (λ made. made ≡ spec.every_column 0 columns.now spec.no_columns) }
{
    let mut made = no_columns(alloc);
    for (at, column) in columns.iter().enumerate() {
        add_column(&mut made, (place(at, 0)?, column.ty))?;
    }
    Ok(made)
}

/// The columns of a list, or all in order where none is written.
pub fn listed_columns(
    alloc: Global,
    columns: &[VarDef],
    names: &[Name],
) -> Result<Targets, ResolveFault>
    ensures { Resolves (spec.listed_columns columns.now names.now) result }
{
    if names.is_empty() {
        Ok(every_column(alloc, columns)?)
    } else {
        Ok(target_columns(alloc, columns, names)?)
    }
}

pub fn of_known(alloc: Global, ks: &[Known]) -> Result<Vec<Given>, NoMemory>
    ensures { IfOk result (λ made. made.items ≡ spec.of_known ks.now) }
{
    let mut made = Vec::with_capacity(alloc, ks.len())?;
    for k in ks {
        made.push(Given {
            ty: k.ty,
            first: k.first,
        })?;
    }
    Ok(made)
}

pub fn of_columns(alloc: Global, columns: &[Column]) -> Result<Vec<Given>, NoMemory>
    ensures { IfOk result (λ made. made.items ≡ spec.of_columns columns.now) }
{
    let mut made = Vec::with_capacity(alloc, columns.len())?;
    for column in columns {
        made.push(Given {
            ty: column.ty,
            first: column.first,
        })?;
    }
    Ok(made)
}

fn first_unfit(tys: &[Ty], values: &[Given]) -> Option<usize>
    ensures { result ≡ spec.first_unfit tys.now values.now }
{
    match tys {
        [] => None,
        [ty, tys @ ..] => match values {
            [] => None,
            [value, values @ ..] => {
                if is_assignable(*ty, value.ty) {
                    first_unfit(tys, values)
                } else {
                    Some(value.first)
                }
            }
        },
    }
}

/// Where the first value stands that doesn't go into its column; at `at` where there are too many or too few.
pub fn unfit_at(at: usize, tys: &[Ty], values: &[Given]) -> Option<usize>
    ensures { result ≡ spec.unfit_at at tys.now values.now }
{
    if tys.len() == values.len() {
        first_unfit(tys, values)
    } else {
        Some(at)
    }
}

pub fn assigned_value(ty: Ty, k: Known) -> Result<Known, ResolveFault>
    ensures { Resolves (spec.assigned_value ty k) result }
{
    if is_assignable(ty, k.ty) {
        Ok(k)
    } else {
        Err(ResolveFault::mismatch(k.first))
    }
}
