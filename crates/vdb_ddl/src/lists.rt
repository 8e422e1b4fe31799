//! What is built of the elements of lists: options, and what tables and views list.

ghost use Rattle.std.specs.Prelude.{◌≡◌, OnOk, reverse};
ghost use Rattle.sql_reader.specs.Waiting.{rest, put, put2};
ghost use Rattle.vdb_ddl.specs.Build as spec;
ghost use Rattle.vdb_ddl.specs.Waiting.{put_with_two};

use crate::tree::{Setting, Settings, TablePart, TableParts, ViewColumn, ViewColumns};
use sql_reader::tree::{Literal, Name, Names};
use vdb_base::NoMemory;

pub(crate) fn setting(
    names: &mut Vec<Name>,
    literals: &mut Vec<Literal>,
    settings: &mut Vec<Settings>,
) -> Result<(), NoMemory>
    ensures names { OnOk result (reverse names.new.items ≡ rest (reverse names.old.items)) }
    ensures literals { OnOk result (reverse literals.new.items ≡ rest (reverse literals.old.items)) }
    ensures settings { OnOk result (reverse settings.new.items ≡ put2 spec.setting (reverse names.old.items) (reverse literals.old.items) (reverse settings.old.items)) }
{
    let Some((name, value)) = names.pop().zip(literals.pop()) else {
        return Ok(());
    };
    let Some(mut list) = settings.pop() else {
        return Ok(());
    };
    list.push(Setting { name, value })?;
    settings.push(list)?;
    Ok(())
}

pub(crate) fn column(
    not_null: bool,
    names: &mut Vec<Name>,
    settings: &mut Vec<Settings>,
    table_parts: &mut Vec<TableParts>,
) -> Result<(), NoMemory>
    ensures names { OnOk result (reverse names.new.items ≡ rest (rest (reverse names.old.items))) }
    ensures settings { OnOk result (reverse settings.new.items ≡ rest (reverse settings.old.items)) }
    ensures table_parts { OnOk result (reverse table_parts.new.items ≡ put_with_two (spec.column not_null) (reverse settings.old.items) (reverse names.old.items) (reverse table_parts.old.items)) }
{
    let Some(((options, ty), name)) = settings.pop().zip(names.pop()).zip(names.pop()) else {
        return Ok(());
    };
    let Some(mut list) = table_parts.pop() else {
        return Ok(());
    };
    list.push(TablePart::Column {
        name,
        ty,
        not_null,
        options,
    })?;
    table_parts.push(list)?;
    Ok(())
}

pub(crate) fn primary_key(
    name_lists: &mut Vec<Names>,
    table_parts: &mut Vec<TableParts>,
) -> Result<(), NoMemory>
    ensures name_lists { OnOk result (reverse name_lists.new.items ≡ rest (reverse name_lists.old.items)) }
    ensures table_parts { OnOk result (reverse table_parts.new.items ≡ put spec.primary_key (reverse name_lists.old.items) (reverse table_parts.old.items)) }
{
    let Some(columns) = name_lists.pop() else {
        return Ok(());
    };
    let Some(mut list) = table_parts.pop() else {
        return Ok(());
    };
    list.push(TablePart::PrimaryKey { columns })?;
    table_parts.push(list)?;
    Ok(())
}

pub(crate) fn typed_column(
    names: &mut Vec<Name>,
    settings: &mut Vec<Settings>,
    view_columns: &mut Vec<ViewColumns>,
) -> Result<(), NoMemory>
    ensures names { OnOk result (reverse names.new.items ≡ rest (rest (reverse names.old.items))) }
    ensures settings { OnOk result (reverse settings.new.items ≡ rest (reverse settings.old.items)) }
    ensures view_columns { OnOk result (reverse view_columns.new.items ≡ put_with_two spec.typed_column (reverse settings.old.items) (reverse names.old.items) (reverse view_columns.old.items)) }
{
    let Some(((options, ty), name)) = settings.pop().zip(names.pop()).zip(names.pop()) else {
        return Ok(());
    };
    let Some(mut list) = view_columns.pop() else {
        return Ok(());
    };
    list.push(ViewColumn {
        name,
        ty: Some(ty),
        options,
    })?;
    view_columns.push(list)?;
    Ok(())
}

pub(crate) fn untyped_column(
    names: &mut Vec<Name>,
    settings: &mut Vec<Settings>,
    view_columns: &mut Vec<ViewColumns>,
) -> Result<(), NoMemory>
    ensures names { OnOk result (reverse names.new.items ≡ rest (reverse names.old.items)) }
    ensures settings { OnOk result (reverse settings.new.items ≡ rest (reverse settings.old.items)) }
    ensures view_columns { OnOk result (reverse view_columns.new.items ≡ put2 spec.untyped_column (reverse names.old.items) (reverse settings.old.items) (reverse view_columns.old.items)) }
{
    let Some((name, options)) = names.pop().zip(settings.pop()) else {
        return Ok(());
    };
    let Some(mut list) = view_columns.pop() else {
        return Ok(());
    };
    list.push(ViewColumn {
        name,
        ty: None,
        options,
    })?;
    view_columns.push(list)?;
    Ok(())
}
