//! The tests of what stands between the commas of a foreign table.

ghost use Rattle.std.specs.Prelude.{◌≡◌, ◌||◌, [], ◌∷◌, ◌++◌, ℕ, false, List, IfOk, OnOk};
ghost use Rattle.metadata.specs.Answers.{Passes};
ghost use Rattle.metadata.specs.Columns as spec;
ghost use Rattle.metadata.specs.Taken.{IsOf, HasColumns, is_column};
ghost use Rattle.metadata.specs.Texts.{is_among};
ghost use Rattle.vdb_ddl.specs.declared.tree.TablePart.{TablePart};
ghost use Rattle.vdb_model.specs.declared.table.ColumnDef.{ColumnDef};

use crate::fault::DeployRefusal;
use crate::options::{Owner, source_of, taken_options};
use crate::so_far::good_name;
use crate::taken::Taken;
use crate::texts::Texts;
use crate::types::{known_type, whole_type};
use sql_reader::tree::Name;
use std::alloc::Global;
use vdb_base::{NoMemory, Text};
use vdb_ddl::tree::{Setting, TablePart};
use vdb_model::{DeployFault, printed};

/// Adds the name of the part to those before, where it is a column.
fn add_name(alloc: Global, names: &mut Texts, part: &TablePart) -> Result<(), NoMemory>
    ensures { OnOk result ((q : List ℕ) → is_among names.new.texts.keys q ≡ (is_column q part.now || is_among names.old.texts.keys q)) }
{
    match part {
        TablePart::Column { name, .. } => names.add(name.text.copy(alloc)?),
        TablePart::PrimaryKey { .. } => Ok(()),
    }
}

fn column_names(alloc: Global, parts: &[TablePart]) -> Result<Texts, NoMemory>
    ensures { IfOk result (λ names. HasColumns names.texts.keys parts.now) }
{
    let mut names = Texts::new(alloc);
    for part in parts {
        add_name(alloc, &mut names, part)?;
    }
    Ok(names)
}

/// Refused at the first of a key's columns that isn't one of these.
fn known_columns(alloc: Global, names: &Texts, columns: &[Name]) -> Result<(), DeployRefusal>
    ensures { (all : List TablePart) → HasColumns names.now.texts.keys all → Passes (spec.unknown_column all columns.now) result }
{
    for column in columns {
        if !names.has(&column.text) {
            let name = printed(alloc, &column.text)?;
            return Err(DeployRefusal::Refused(DeployFault::Unknown { name }));
        }
    }
    Ok(())
}

/// Refused where the type of the part isn't there, or one of the key's columns isn't one of these.
fn known_part(alloc: Global, names: &Texts, part: &TablePart) -> Result<(), DeployRefusal>
    ensures { (all : List TablePart) → HasColumns names.now.texts.keys all → Passes (spec.unknown_part all part.now) result }
{
    match part {
        TablePart::Column { ty, .. } => known_type(alloc, ty),
        TablePart::PrimaryKey { columns } => known_columns(alloc, names, columns.as_slice()),
    }
}

/// Refused at the first type or key's column that isn't there.
pub(crate) fn known_parts(alloc: Global, parts: &[TablePart]) -> Result<(), DeployRefusal>
    ensures { Passes (spec.unknown_in parts.now parts.now) result }
{
    let names = column_names(alloc, parts)?;
    for part in parts {
        known_part(alloc, &names, part)?;
    }
    Ok(())
}

fn whole_part(part: &TablePart) -> Result<(), DeployRefusal>
    ensures { Passes (spec.fractional_part part.now) result }
{
    match part {
        TablePart::Column { ty, .. } => whole_type(ty),
        TablePart::PrimaryKey { .. } => Ok(()),
    }
}

/// Refused at the first type with fractions.
pub(crate) fn whole_parts(parts: &[TablePart]) -> Result<(), DeployRefusal>
    ensures { Passes (spec.fractional_in parts.now) result }
{
    for part in parts {
        whole_part(part)?;
    }
    Ok(())
}

fn taken_part(part: &TablePart) -> Result<(), DeployRefusal>
    ensures { Passes (spec.option_part part.now) result }
{
    match part {
        TablePart::Column { options, .. } => taken_options(Owner::Column, options.as_slice()),
        TablePart::PrimaryKey { .. } => Ok(()),
    }
}

/// Refused at the first option of a column that isn't taken.
pub(crate) fn taken_parts(parts: &[TablePart]) -> Result<(), DeployRefusal>
    ensures { Passes (spec.option_in parts.now) result }
{
    for part in parts {
        taken_part(part)?;
    }
    Ok(())
}

fn named_part(alloc: Global, part: &TablePart) -> Result<(), DeployRefusal>
    ensures { Passes (spec.badly_named_part part.now) result }
{
    match part {
        TablePart::Column { name, .. } => good_name(alloc, &name.text),
        TablePart::PrimaryKey { .. } => Ok(()),
    }
}

/// Refused at the first name of a column that hasn't 1 to 64 bytes.
pub(crate) fn named_parts(alloc: Global, parts: &[TablePart]) -> Result<(), DeployRefusal>
    ensures { Passes (spec.badly_named_in parts.now) result }
{
    for part in parts {
        named_part(alloc, part)?;
    }
    Ok(())
}

/// Whether the source names of two columns or tables are one in lower case.
pub(crate) fn is_one_source(a: &Text, b: &Text) -> bool
    ensures { result ≡ spec.is_one_source a.now b.now }
{
    a.as_bytes().eq_ignore_ascii_case(b.as_bytes())
}

/// Refused where one of the columns so far has the name or the source name of the column, by the name.
fn free_column(
    alloc: Global,
    apart: bool,
    taken: &Taken,
    name: &Name,
    options: &[Setting],
) -> Result<(), DeployRefusal>
    ensures { (before : List ColumnDef) → IsOf taken.now before → Passes (spec.column_taken apart before (spec.named_column name.now options.now)) result }
{
    let source = source_of(alloc, &name.text, options)?;
    if taken.takes(alloc, apart, &name.text, &source)? {
        let name = printed(alloc, &name.text)?;
        return Err(DeployRefusal::Refused(DeployFault::Duplicate { name }));
    }
    Ok(())
}

/// Refused where a primary key stands before, by the table's name.
fn first_key(alloc: Global, table: &Text, keyed: bool) -> Result<(), DeployRefusal>
    ensures { Passes (spec.second_key table.now keyed) result }
{
    if keyed {
        let name = table.copy(alloc)?;
        return Err(DeployRefusal::Refused(DeployFault::Duplicate { name }));
    }
    Ok(())
}

/// Refused where the name or source name of a column is taken, or another key stands before.
fn free_part(
    alloc: Global,
    apart: bool,
    table: &Text,
    taken: &Taken,
    keyed: bool,
    part: &TablePart,
) -> Result<(), DeployRefusal>
    ensures { (before : List ColumnDef) → IsOf taken.now before → Passes (spec.taken_part apart table.now before keyed part.now) result }
{
    match part {
        TablePart::Column { name, options, .. } => {
            free_column(alloc, apart, taken, name, options.as_slice())
        }
        TablePart::PrimaryKey { .. } => first_key(alloc, table, keyed),
    }
}

fn add_column(
    alloc: Global,
    taken: &mut Taken,
    name: &Name,
    options: &[Setting],
) -> Result<(), NoMemory>
    ensures { (before : List ColumnDef) → IsOf taken.old before → OnOk result (IsOf taken.new (before ++ spec.named_column name.now options.now ∷ [])) }
{
    let source = source_of(alloc, &name.text, options)?;
    taken.add(alloc, &name.text, &source)
}

/// Adds the part to the columns so far, where it is one.
fn add_part(alloc: Global, taken: &mut Taken, part: &TablePart) -> Result<(), NoMemory>
    ensures { (before : List ColumnDef) → IsOf taken.old before → OnOk result (IsOf taken.new (spec.before_with before part.now)) }
{
    match part {
        TablePart::Column { name, options, .. } => {
            add_column(alloc, taken, name, options.as_slice())
        }
        TablePart::PrimaryKey { .. } => Ok(()),
    }
}

fn keyed_with(keyed: bool, part: &TablePart) -> bool
    ensures { result ≡ spec.keyed_with keyed part.now }
{
    match part {
        TablePart::Column { .. } => keyed,
        TablePart::PrimaryKey { .. } => true,
    }
}

/// Refused at the first column or key whose name, source name or place is taken.
pub(crate) fn free_parts(
    alloc: Global,
    apart: bool,
    table: &Text,
    parts: &[TablePart],
) -> Result<(), DeployRefusal>
    ensures { Passes (spec.taken_in apart table.now [] false parts.now) result }
{
    let mut taken = Taken::new(alloc);
    let mut keyed = false;
    for part in parts {
        free_part(alloc, apart, table, &taken, keyed, part)?;
        add_part(alloc, &mut taken, part)?;
        keyed = keyed_with(keyed, part);
    }
    Ok(())
}
