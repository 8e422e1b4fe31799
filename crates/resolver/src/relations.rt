//! Which relation of the catalog a name means.

ghost use Rattle.std.specs.Prelude.{◌≡◌, ◌++◌, IfOk, OnOk};
ghost use Rattle.expr_resolver.specs.Answers.{Resolves};
ghost use Rattle.resolver.specs.Relations as spec;

use crate::relation::Relation;
use expr_resolver::ResolveFault;
use expr_resolver::aggregates::place;
use sql_reader::tree::{Name, RelationName};
use std::alloc::Global;
use vdb_base::{NoMemory, Seq, Text};
use vdb_model::{
    Catalog, ColumnDef, Refusal, Rel, TableDef, Target, VarDef, VarDefs, ViewDef, dotted, printed,
};

fn is_of_schema(schema: &Option<Name>, of: &Text) -> bool
    ensures { result ≡ spec.is_of_schema schema.now of.now }
{
    match schema {
        None => true,
        Some(name) => *of == name.text,
    }
}

pub fn is_meant(r: &RelationName, schema: &Text, name: &Text) -> bool
    ensures { result ≡ spec.is_meant r.now schema.now name.now }
{
    *name == r.name.text && is_of_schema(&r.schema, schema)
}

/// The name as it is written, with its dot.
pub fn written_relation(alloc: Global, r: &RelationName) -> Result<Text, NoMemory>
    ensures { IfOk result (λ made. made ≡ spec.written_relation r.now) }
{
    match &r.schema {
        None => Ok(printed(alloc, &r.name.text)?),
        Some(schema) => Ok(dotted(alloc, &schema.text, &r.name.text)?),
    }
}

fn table_columns(alloc: Global, columns: &[ColumnDef]) -> Result<VarDefs, NoMemory>
    ensures { IfOk result (λ made. made ≡ spec.table_columns columns.now) }
{
    let mut made = Seq::new(alloc);
    for column in columns {
        made.push(VarDef {
            name: column.name.copy(alloc)?,
            ty: column.ty,
        })?;
    }
    Ok(made)
}

fn of_table(alloc: Global, d: &TableDef) -> Result<Relation, NoMemory>
    ensures { IfOk result (λ made. made ≡ spec.of_table d.now) }
{
    Ok(Relation {
        target: Target::Table(d.number),
        schema: d.schema.copy(alloc)?,
        name: d.name.copy(alloc)?,
        columns: table_columns(alloc, d.columns.as_slice())?,
    })
}

fn of_view(alloc: Global, number: u32, d: &ViewDef) -> Result<Relation, NoMemory>
    ensures { IfOk result (λ made. made ≡ spec.of_view number d.now) }
{
    Ok(Relation {
        target: Target::View(number),
        schema: d.schema.copy(alloc)?,
        name: d.name.copy(alloc)?,
        columns: d.columns.copy(alloc)?,
    })
}

fn add_tables(
    alloc: Global,
    r: &RelationName,
    tables: &[TableDef],
    found: &mut Vec<Relation>,
) -> Result<(), NoMemory>
    ensures { OnOk result (found.new.items ≡ found.old.items ++ spec.tables_named r.now tables.now) }
{
    for d in tables {
        if is_meant(r, &d.schema, &d.name) {
            found.push(of_table(alloc, d)?)?;
        }
    }
    Ok(())
}

fn add_views(
    alloc: Global,
    r: &RelationName,
    views: &[ViewDef],
    found: &mut Vec<Relation>,
) -> Result<(), NoMemory>
    ensures { OnOk result (found.new.items ≡ found.old.items ++ spec.views_named 0 r.now views.now) }
{
    let mut number = 0;
    for d in views {
        if is_meant(r, &d.schema, &d.name) {
            found.push(of_view(alloc, number, d)?)?;
        }
        number = place(number as usize, 1)?;
    }
    Ok(())
}

/// The only relation of the name.
pub fn relation_of(alloc: Global, cat: &Catalog, r: &RelationName) -> Result<Relation, ResolveFault>
    ensures { Resolves (spec.relation_of cat.now r.now) result }
{
    let mut found = Vec::new(alloc);
    add_tables(alloc, r, cat.tables().as_slice(), &mut found)?;
    add_views(alloc, r, cat.views().as_slice(), &mut found)?;
    let Some(relation) = found.pop() else {
        return Err(ResolveFault::Refused(Refusal::Unknown {
            name: written_relation(alloc, r)?,
        }));
    };
    if found.is_empty() {
        Ok(relation)
    } else {
        Err(ResolveFault::Refused(Refusal::Ambiguous {
            name: written_relation(alloc, r)?,
        }))
    }
}

pub fn rel_of(target: Target) -> Rel
    ensures { result ≡ spec.rel_of target }
{
    match target {
        Target::Table(number) => Rel::Table(number),
        Target::View(number) => Rel::View(number),
    }
}
