//! What is built of single tokens.

ghost use Rattle.std.specs.Prelude.{◌≡◌, reverse, OnOk};
ghost use Rattle.sql_reader.specs.Build.{waiting};
ghost use Rattle.sql_reader.specs.BuildTokens as spec;
ghost use Rattle.sql_reader.specs.Waiting.{rest, made, made_of_two, made_of_three};
ghost use Rattle.sql_reader.specs.declared.tree.name.ColumnName.TheVariants.{Plain, Of, InSchema};

use crate::build::{Parts, Source, TokenAction};
use crate::tree::{ColumnName, Name, RelationName};
use std::alloc::Global;
use vdb_base::NoMemory;

fn plain(names: &mut Vec<Name>, columns: &mut Vec<ColumnName>) -> Result<(), NoMemory>
    ensures names { OnOk result (reverse names.new.items ≡ rest (reverse names.old.items)) }
    ensures columns { OnOk result (reverse columns.new.items ≡ made Plain (reverse names.old.items) (reverse columns.old.items)) }
{
    let Some(name) = names.pop() else {
        return Ok(());
    };
    columns.push(ColumnName::Plain(name))?;
    Ok(())
}

fn of(names: &mut Vec<Name>, columns: &mut Vec<ColumnName>) -> Result<(), NoMemory>
    ensures names { OnOk result (reverse names.new.items ≡ rest (rest (reverse names.old.items))) }
    ensures columns { OnOk result (reverse columns.new.items ≡ made_of_two Of (reverse names.old.items) (reverse columns.old.items)) }
{
    let Some((name, relation)) = names.pop().zip(names.pop()) else {
        return Ok(());
    };
    columns.push(ColumnName::Of { relation, name })?;
    Ok(())
}

fn in_schema(names: &mut Vec<Name>, columns: &mut Vec<ColumnName>) -> Result<(), NoMemory>
    ensures names { OnOk result (reverse names.new.items ≡ rest (rest (rest (reverse names.old.items)))) }
    ensures columns { OnOk result (reverse columns.new.items ≡ made_of_three InSchema (reverse names.old.items) (reverse columns.old.items)) }
{
    let Some(((name, relation), schema)) = names.pop().zip(names.pop()).zip(names.pop()) else {
        return Ok(());
    };
    columns.push(ColumnName::InSchema {
        schema,
        relation,
        name,
    })?;
    Ok(())
}

fn relation(names: &mut Vec<Name>, relations: &mut Vec<RelationName>) -> Result<(), NoMemory>
    ensures names { OnOk result (reverse names.new.items ≡ rest (reverse names.old.items)) }
    ensures relations { OnOk result (reverse relations.new.items ≡ made spec.relation (reverse names.old.items) (reverse relations.old.items)) }
{
    let Some(name) = names.pop() else {
        return Ok(());
    };
    relations.push(RelationName { schema: None, name })?;
    Ok(())
}

fn relation_of(names: &mut Vec<Name>, relations: &mut Vec<RelationName>) -> Result<(), NoMemory>
    ensures names { OnOk result (reverse names.new.items ≡ rest (rest (reverse names.old.items))) }
    ensures relations { OnOk result (reverse relations.new.items ≡ made_of_two spec.relation_of (reverse names.old.items) (reverse relations.old.items)) }
{
    let Some((name, schema)) = names.pop().zip(names.pop()) else {
        return Ok(());
    };
    relations.push(RelationName {
        schema: Some(schema),
        name,
    })?;
    Ok(())
}

/// Does an action of single tokens, after so many of them.
pub(super) fn act(
    alloc: Global,
    source: &Source<'_>,
    at: usize,
    action: TokenAction,
    parts: &mut Parts,
) -> Result<(), NoMemory>
    ensures { OnOk result (waiting parts.new ≡ spec.token_on source.now at action (waiting parts.old)) }
{
    match action {
        TokenAction::Place => Ok(parts.places.push(source.place_at(at))?),
        TokenAction::Name => Ok(parts.names.push(source.name_at(alloc, at)?)?),
        TokenAction::Literal => Ok(parts.literals.push(source.literal_at(alloc, at)?)?),
        TokenAction::Negative => Ok(parts.literals.push(source.negative_at(at))?),
        TokenAction::Plain => plain(&mut parts.names, &mut parts.columns),
        TokenAction::Of => of(&mut parts.names, &mut parts.columns),
        TokenAction::InSchema => in_schema(&mut parts.names, &mut parts.columns),
        TokenAction::Relation => relation(&mut parts.names, &mut parts.relations),
        TokenAction::RelationOf => relation_of(&mut parts.names, &mut parts.relations),
    }
}
