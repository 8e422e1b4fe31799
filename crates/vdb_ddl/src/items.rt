//! What is built of items.

ghost use Rattle.std.specs.Prelude.{◌≡◌, None, OnOk, reverse};
ghost use Rattle.sql_reader.specs.Waiting.{rest, made, made2, made3};
ghost use Rattle.vdb_ddl.specs.Build as spec;
ghost use Rattle.vdb_ddl.specs.Waiting.{made_with_two, made4};

use crate::tree::{Item, Settings, TableParts, ViewColumns};
use sql_reader::tree::{Name, Query};
use vdb_base::NoMemory;

pub(crate) fn create_database(
    names: &mut Vec<Name>,
    settings: &mut Vec<Settings>,
    items: &mut Vec<Item>,
) -> Result<(), NoMemory>
    ensures names { OnOk result (reverse names.new.items ≡ rest (reverse names.old.items)) }
    ensures settings { OnOk result (reverse settings.new.items ≡ rest (reverse settings.old.items)) }
    ensures items { OnOk result (reverse items.new.items ≡ made2 spec.create_database (reverse names.old.items) (reverse settings.old.items) (reverse items.old.items)) }
{
    let Some((name, options)) = names.pop().zip(settings.pop()) else {
        return Ok(());
    };
    items.push(Item::CreateDatabase { name, options })?;
    Ok(())
}

pub(crate) fn use_database(names: &mut Vec<Name>, items: &mut Vec<Item>) -> Result<(), NoMemory>
    ensures names { OnOk result (reverse names.new.items ≡ rest (reverse names.old.items)) }
    ensures items { OnOk result (reverse items.new.items ≡ made spec.use_database (reverse names.old.items) (reverse items.old.items)) }
{
    let Some(name) = names.pop() else {
        return Ok(());
    };
    items.push(Item::UseDatabase { name })?;
    Ok(())
}

pub(crate) fn create_server(
    names: &mut Vec<Name>,
    settings: &mut Vec<Settings>,
    items: &mut Vec<Item>,
) -> Result<(), NoMemory>
    ensures names { OnOk result (reverse names.new.items ≡ rest (rest (reverse names.old.items))) }
    ensures settings { OnOk result (reverse settings.new.items ≡ rest (reverse settings.old.items)) }
    ensures items { OnOk result (reverse items.new.items ≡ made_with_two spec.create_server (reverse settings.old.items) (reverse names.old.items) (reverse items.old.items)) }
{
    let Some(((options, wrapper), name)) = settings.pop().zip(names.pop()).zip(names.pop()) else {
        return Ok(());
    };
    items.push(Item::CreateServer {
        name,
        wrapper,
        options,
    })?;
    Ok(())
}

pub(crate) fn create_schema(
    names: &mut Vec<Name>,
    settings: &mut Vec<Settings>,
    items: &mut Vec<Item>,
) -> Result<(), NoMemory>
    ensures names { OnOk result (reverse names.new.items ≡ rest (rest (reverse names.old.items))) }
    ensures settings { OnOk result (reverse settings.new.items ≡ rest (reverse settings.old.items)) }
    ensures items { OnOk result (reverse items.new.items ≡ made_with_two spec.create_schema (reverse settings.old.items) (reverse names.old.items) (reverse items.old.items)) }
{
    let Some(((options, server), name)) = settings.pop().zip(names.pop()).zip(names.pop()) else {
        return Ok(());
    };
    items.push(Item::CreateSchema {
        name,
        server,
        options,
    })?;
    Ok(())
}

pub(crate) fn create_virtual_schema(
    names: &mut Vec<Name>,
    settings: &mut Vec<Settings>,
    items: &mut Vec<Item>,
) -> Result<(), NoMemory>
    ensures names { OnOk result (reverse names.new.items ≡ rest (reverse names.old.items)) }
    ensures settings { OnOk result (reverse settings.new.items ≡ rest (reverse settings.old.items)) }
    ensures items { OnOk result (reverse items.new.items ≡ made2 spec.create_virtual_schema (reverse names.old.items) (reverse settings.old.items) (reverse items.old.items)) }
{
    let Some((name, options)) = names.pop().zip(settings.pop()) else {
        return Ok(());
    };
    items.push(Item::CreateVirtualSchema { name, options })?;
    Ok(())
}

pub(crate) fn set_schema(names: &mut Vec<Name>, items: &mut Vec<Item>) -> Result<(), NoMemory>
    ensures names { OnOk result (reverse names.new.items ≡ rest (reverse names.old.items)) }
    ensures items { OnOk result (reverse items.new.items ≡ made spec.set_schema (reverse names.old.items) (reverse items.old.items)) }
{
    let Some(name) = names.pop() else {
        return Ok(());
    };
    items.push(Item::SetSchema { name })?;
    Ok(())
}

pub(crate) fn create_table(
    names: &mut Vec<Name>,
    table_parts: &mut Vec<TableParts>,
    settings: &mut Vec<Settings>,
    items: &mut Vec<Item>,
) -> Result<(), NoMemory>
    ensures names { OnOk result (reverse names.new.items ≡ rest (reverse names.old.items)) }
    ensures table_parts { OnOk result (reverse table_parts.new.items ≡ rest (reverse table_parts.old.items)) }
    ensures settings { OnOk result (reverse settings.new.items ≡ rest (reverse settings.old.items)) }
    ensures items { OnOk result (reverse items.new.items ≡ made3 spec.create_table (reverse names.old.items) (reverse table_parts.old.items) (reverse settings.old.items) (reverse items.old.items)) }
{
    let Some(((name, parts), options)) = names.pop().zip(table_parts.pop()).zip(settings.pop())
    else {
        return Ok(());
    };
    items.push(Item::CreateTable {
        name,
        parts,
        options,
    })?;
    Ok(())
}

pub(crate) fn create_view(
    names: &mut Vec<Name>,
    settings: &mut Vec<Settings>,
    queries: &mut Vec<Query>,
    items: &mut Vec<Item>,
) -> Result<(), NoMemory>
    ensures names { OnOk result (reverse names.new.items ≡ rest (reverse names.old.items)) }
    ensures settings { OnOk result (reverse settings.new.items ≡ rest (reverse settings.old.items)) }
    ensures queries { OnOk result (reverse queries.new.items ≡ rest (reverse queries.old.items)) }
    ensures items { OnOk result (reverse items.new.items ≡ made3 (spec.create_view None) (reverse names.old.items) (reverse settings.old.items) (reverse queries.old.items) (reverse items.old.items)) }
{
    let Some(((name, options), query)) = names.pop().zip(settings.pop()).zip(queries.pop()) else {
        return Ok(());
    };
    items.push(Item::CreateView {
        name,
        columns: None,
        options,
        query,
    })?;
    Ok(())
}

pub(crate) fn create_view_columns(
    names: &mut Vec<Name>,
    view_columns: &mut Vec<ViewColumns>,
    settings: &mut Vec<Settings>,
    queries: &mut Vec<Query>,
    items: &mut Vec<Item>,
) -> Result<(), NoMemory>
    ensures names { OnOk result (reverse names.new.items ≡ rest (reverse names.old.items)) }
    ensures view_columns { OnOk result (reverse view_columns.new.items ≡ rest (reverse view_columns.old.items)) }
    ensures settings { OnOk result (reverse settings.new.items ≡ rest (reverse settings.old.items)) }
    ensures queries { OnOk result (reverse queries.new.items ≡ rest (reverse queries.old.items)) }
    ensures items { OnOk result (reverse items.new.items ≡ made4 spec.create_view_columns (reverse view_columns.old.items) (reverse names.old.items) (reverse settings.old.items) (reverse queries.old.items) (reverse items.old.items)) }
{
    let Some((((columns, name), options), query)) = view_columns
        .pop()
        .zip(names.pop())
        .zip(settings.pop())
        .zip(queries.pop())
    else {
        return Ok(());
    };
    items.push(Item::CreateView {
        name,
        columns: Some(columns),
        options,
        query,
    })?;
    Ok(())
}
