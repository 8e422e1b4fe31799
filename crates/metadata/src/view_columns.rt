//! The columns of a view.

ghost use Rattle.std.specs.Prelude.{◌≡◌, IfOk};
ghost use Rattle.metadata.specs.Answers.{Passes};
ghost use Rattle.metadata.specs.Types.{unknown_type, fractional_type};
ghost use Rattle.metadata.specs.Views as spec;
ghost use Rattle.vdb_model.specs.Typed as typed;

use crate::fault::DeployRefusal;
use crate::so_far::good_name;
use crate::texts::Texts;
use crate::types::{known_type, type_of, whole_type};
use sql_reader::tree::Name;
use std::alloc::Global;
use vdb_base::{NoMemory, Seq, Text, Ty};
use vdb_ddl::tree::{ViewColumn, ViewColumns};
use vdb_model::{Names, Ranked, VarDef, VarDefs};

fn known_column(alloc: Global, ty: &Option<Name>) -> Result<(), DeployRefusal>
    ensures { Passes (spec.if_typed unknown_type ty.now) result }
{
    match ty {
        None => Ok(()),
        Some(ty) => known_type(alloc, ty),
    }
}

fn known_columns(alloc: Global, columns: &[ViewColumn]) -> Result<(), DeployRefusal>
    ensures { Passes (spec.type_in unknown_type columns.now) result }
{
    for column in columns {
        known_column(alloc, &column.ty)?;
    }
    Ok(())
}

/// Refused at the first listed type that isn't there.
pub(crate) fn known_types(alloc: Global, columns: &Option<ViewColumns>) -> Result<(), DeployRefusal>
    ensures { Passes (spec.type_in unknown_type (spec.list_of columns.now)) result }
{
    match columns {
        None => Ok(()),
        Some(columns) => known_columns(alloc, columns.as_slice()),
    }
}

fn whole_column(ty: &Option<Name>) -> Result<(), DeployRefusal>
    ensures { Passes (spec.if_typed fractional_type ty.now) result }
{
    match ty {
        None => Ok(()),
        Some(ty) => whole_type(ty),
    }
}

fn whole_columns(columns: &[ViewColumn]) -> Result<(), DeployRefusal>
    ensures { Passes (spec.type_in fractional_type columns.now) result }
{
    for column in columns {
        whole_column(&column.ty)?;
    }
    Ok(())
}

/// Refused at the first listed type with fractions.
pub(crate) fn whole_types(columns: &Option<ViewColumns>) -> Result<(), DeployRefusal>
    ensures { Passes (spec.type_in fractional_type (spec.list_of columns.now)) result }
{
    match columns {
        None => Ok(()),
        Some(columns) => whole_columns(columns.as_slice()),
    }
}

/// The type of a column of the query.
fn type_at(tys: &[Ty], at: usize) -> Ty
    ensures { result ≡ spec.type_at tys.now at }
{
    match tys.get(at) {
        None => Ty::Boolean,
        Some(ty) => *ty,
    }
}

/// The listed type, and else the column's own.
fn declared(ty: &Option<Name>, own: Ty) -> Ty
    ensures { result ≡ spec.declared ty.now own }
{
    match ty {
        None => own,
        Some(ty) => type_of(ty),
    }
}

fn named_columns(alloc: Global, tys: &[Ty], names: &[Text]) -> Result<VarDefs, NoMemory>
    ensures { IfOk result (λ made. made ≡ spec.named_columns 0 tys.now names.now) }
{
    let mut made = Seq::new(alloc);
    for (at, name) in names.iter().enumerate() {
        made.push(VarDef {
            name: name.copy(alloc)?,
            ty: type_at(tys, at),
        })?;
    }
    Ok(made)
}

fn listed_columns(alloc: Global, tys: &[Ty], columns: &[ViewColumn]) -> Result<VarDefs, NoMemory>
    ensures { IfOk result (λ made. made ≡ spec.listed_columns 0 tys.now columns.now) }
{
    let mut made = Seq::new(alloc);
    for (at, column) in columns.iter().enumerate() {
        made.push(VarDef {
            name: column.name.text.copy(alloc)?,
            ty: declared(&column.ty, type_at(tys, at)),
        })?;
    }
    Ok(made)
}

/// The columns of a view: those of the list where one is written, and else those of its query.
pub(crate) fn view_columns(
    alloc: Global,
    columns: &Option<ViewColumns>,
    query: &Ranked,
) -> Result<VarDefs, NoMemory>
    ensures { IfOk result (λ made. made ≡ spec.view_columns columns.now query.now) }
{
    match columns {
        None => named_columns(alloc, query.tys.as_slice(), query.names.as_slice()),
        Some(columns) => listed_columns(alloc, query.tys.as_slice(), columns.as_slice()),
    }
}

/// Whether no two columns have one name.
pub(crate) fn are_apart(alloc: Global, columns: &[VarDef]) -> Result<bool, NoMemory>
    ensures { IfOk result (λ apart. apart ≡ spec.are_apart columns.now) }
{
    let mut names = Texts::new(alloc);
    for column in columns {
        if names.has(&column.name) {
            return Ok(false);
        }
        names.add(column.name.copy(alloc)?)?;
    }
    Ok(true)
}

/// Refused at the first name of a column that hasn't 1 to 64 bytes.
pub(crate) fn named_well(alloc: Global, columns: &[VarDef]) -> Result<(), DeployRefusal>
    ensures { Passes (spec.badly_named_in columns.now) result }
{
    for column in columns {
        good_name(alloc, &column.name)?;
    }
    Ok(())
}

/// One type, or numbers of which the second is as wide.
fn goes_into(ty: Ty, wanted: Ty) -> bool
    ensures { result ≡ typed.goes_into ty wanted }
{
    match (ty, wanted) {
        (Ty::Integer, Ty::Long) => true,
        (Ty::Integer, Ty::BigInteger) => true,
        (Ty::Long, Ty::BigInteger) => true,
        (Ty::Boolean, Ty::Boolean) => true,
        (Ty::Integer, Ty::Integer) => true,
        (Ty::Long, Ty::Long) => true,
        (Ty::BigInteger, Ty::BigInteger) => true,
        (Ty::Str, Ty::Str) => true,
        _ => false,
    }
}

fn are_listed(tys: &[Ty], columns: &[ViewColumn]) -> bool
    ensures { result ≡ spec.are_listed 0 tys.now columns.now }
{
    for (at, column) in columns.iter().enumerate() {
        let own = type_at(tys, at);
        if !goes_into(own, declared(&column.ty, own)) {
            return false;
        }
    }
    true
}

/// Whether a list has as many columns as the query, of its types or wider ones.
pub(crate) fn fits_list(columns: &Option<ViewColumns>, tys: &[Ty]) -> bool
    ensures { result ≡ spec.fits_list columns.now tys.now }
{
    match columns {
        None => true,
        Some(columns) => columns.len() == tys.len() && are_listed(tys, columns.as_slice()),
    }
}
