//! What is built of statements.

ghost use Rattle.std.specs.Prelude.{◌≡◌, None, reverse, OnOk};
ghost use Rattle.sql_reader.specs.Build.{waiting};
ghost use Rattle.sql_reader.specs.BuildStatements as spec;
ghost use Rattle.sql_reader.specs.Waiting.{rest, made, made2, made3, put, put2};

use crate::build::{Parts, Source, StatementAction};
use crate::tree::{
    Assignment, Assignments, Delete, Exec, Expr, Exprs, Insert, InsertSource, Name, Names, Query,
    RelationName, SetQuery, Statement, Update,
};
use sqlite_items::Boxed;
use std::alloc::Global;
use vdb_base::{NoMemory, Seq};

fn query(queries: &mut Vec<Query>, statements: &mut Vec<Statement>) -> Result<(), NoMemory>
    ensures queries { OnOk result (reverse queries.new.items ≡ rest (reverse queries.old.items)) }
    ensures statements { OnOk result (reverse statements.new.items ≡ made spec.run (reverse queries.old.items) (reverse statements.old.items)) }
{
    let Some(query) = queries.pop() else {
        return Ok(());
    };
    statements.push(Statement::Query(query))?;
    Ok(())
}

fn explain(queries: &mut Vec<Query>, statements: &mut Vec<Statement>) -> Result<(), NoMemory>
    ensures queries { OnOk result (reverse queries.new.items ≡ rest (reverse queries.old.items)) }
    ensures statements { OnOk result (reverse statements.new.items ≡ made spec.explain (reverse queries.old.items) (reverse statements.old.items)) }
{
    let Some(query) = queries.pop() else {
        return Ok(());
    };
    statements.push(Statement::Explain(query))?;
    Ok(())
}

fn add_name(names: &mut Vec<Name>, name_lists: &mut Vec<Names>) -> Result<(), NoMemory>
    ensures names { OnOk result (reverse names.new.items ≡ rest (reverse names.old.items)) }
    ensures name_lists { OnOk result (reverse name_lists.new.items ≡ put spec.add_name (reverse names.old.items) (reverse name_lists.old.items)) }
{
    let Some(name) = names.pop() else {
        return Ok(());
    };
    let Some(mut list) = name_lists.pop() else {
        return Ok(());
    };
    list.push(name)?;
    name_lists.push(list)?;
    Ok(())
}

fn insert_values(
    relations: &mut Vec<RelationName>,
    name_lists: &mut Vec<Names>,
    lists: &mut Vec<Exprs>,
    statements: &mut Vec<Statement>,
) -> Result<(), NoMemory>
    ensures relations { OnOk result (reverse relations.new.items ≡ rest (reverse relations.old.items)) }
    ensures name_lists { OnOk result (reverse name_lists.new.items ≡ rest (reverse name_lists.old.items)) }
    ensures lists { OnOk result (reverse lists.new.items ≡ rest (reverse lists.old.items)) }
    ensures statements { OnOk result (reverse statements.new.items ≡ made3 spec.insert_values (reverse relations.old.items) (reverse name_lists.old.items) (reverse lists.old.items) (reverse statements.old.items)) }
{
    let Some(((target, columns), values)) = relations.pop().zip(name_lists.pop()).zip(lists.pop())
    else {
        return Ok(());
    };
    let source = InsertSource::Values(values);
    statements.push(Statement::Insert(Insert {
        target,
        columns,
        source,
    }))?;
    Ok(())
}

fn insert_query(
    relations: &mut Vec<RelationName>,
    name_lists: &mut Vec<Names>,
    sets: &mut Vec<Boxed<SetQuery>>,
    statements: &mut Vec<Statement>,
) -> Result<(), NoMemory>
    ensures relations { OnOk result (reverse relations.new.items ≡ rest (reverse relations.old.items)) }
    ensures name_lists { OnOk result (reverse name_lists.new.items ≡ rest (reverse name_lists.old.items)) }
    ensures sets { OnOk result (reverse sets.new.items ≡ rest (reverse sets.old.items)) }
    ensures statements { OnOk result (reverse statements.new.items ≡ made3 spec.insert_query (reverse relations.old.items) (reverse name_lists.old.items) (reverse sets.old.items) (reverse statements.old.items)) }
{
    let Some(((target, columns), query)) = relations.pop().zip(name_lists.pop()).zip(sets.pop())
    else {
        return Ok(());
    };
    let source = InsertSource::Query(query.into_inner());
    statements.push(Statement::Insert(Insert {
        target,
        columns,
        source,
    }))?;
    Ok(())
}

fn assign(
    names: &mut Vec<Name>,
    exprs: &mut Vec<Boxed<Expr>>,
    assignments: &mut Vec<Assignments>,
) -> Result<(), NoMemory>
    ensures names { OnOk result (reverse names.new.items ≡ rest (reverse names.old.items)) }
    ensures exprs { OnOk result (reverse exprs.new.items ≡ rest (reverse exprs.old.items)) }
    ensures assignments { OnOk result (reverse assignments.new.items ≡ put2 spec.assign (reverse names.old.items) (reverse exprs.old.items) (reverse assignments.old.items)) }
{
    let Some((column, value)) = names.pop().zip(exprs.pop()) else {
        return Ok(());
    };
    let Some(mut list) = assignments.pop() else {
        return Ok(());
    };
    list.push(Assignment {
        column,
        value: value.into_inner(),
    })?;
    assignments.push(list)?;
    Ok(())
}

fn update(
    relations: &mut Vec<RelationName>,
    assignments: &mut Vec<Assignments>,
    statements: &mut Vec<Statement>,
) -> Result<(), NoMemory>
    ensures relations { OnOk result (reverse relations.new.items ≡ rest (reverse relations.old.items)) }
    ensures assignments { OnOk result (reverse assignments.new.items ≡ rest (reverse assignments.old.items)) }
    ensures statements { OnOk result (reverse statements.new.items ≡ made2 (spec.update None) (reverse relations.old.items) (reverse assignments.old.items) (reverse statements.old.items)) }
{
    let Some((target, list)) = relations.pop().zip(assignments.pop()) else {
        return Ok(());
    };
    let update = Update {
        target,
        assignments: list,
        condition: None,
    };
    statements.push(Statement::Update(update))?;
    Ok(())
}

fn update_where(
    exprs: &mut Vec<Boxed<Expr>>,
    relations: &mut Vec<RelationName>,
    assignments: &mut Vec<Assignments>,
    statements: &mut Vec<Statement>,
) -> Result<(), NoMemory>
    ensures exprs { OnOk result (reverse exprs.new.items ≡ rest (reverse exprs.old.items)) }
    ensures relations { OnOk result (reverse relations.new.items ≡ rest (reverse relations.old.items)) }
    ensures assignments { OnOk result (reverse assignments.new.items ≡ rest (reverse assignments.old.items)) }
    ensures statements { OnOk result (reverse statements.new.items ≡ made3 spec.update_where (reverse exprs.old.items) (reverse relations.old.items) (reverse assignments.old.items) (reverse statements.old.items)) }
{
    let Some(((condition, target), list)) = exprs.pop().zip(relations.pop()).zip(assignments.pop())
    else {
        return Ok(());
    };
    let update = Update {
        target,
        assignments: list,
        condition: Some(condition.into_inner()),
    };
    statements.push(Statement::Update(update))?;
    Ok(())
}

fn delete(
    relations: &mut Vec<RelationName>,
    statements: &mut Vec<Statement>,
) -> Result<(), NoMemory>
    ensures relations { OnOk result (reverse relations.new.items ≡ rest (reverse relations.old.items)) }
    ensures statements { OnOk result (reverse statements.new.items ≡ made (spec.delete None) (reverse relations.old.items) (reverse statements.old.items)) }
{
    let Some(target) = relations.pop() else {
        return Ok(());
    };
    let condition = None;
    statements.push(Statement::Delete(Delete { target, condition }))?;
    Ok(())
}

fn delete_where(
    exprs: &mut Vec<Boxed<Expr>>,
    relations: &mut Vec<RelationName>,
    statements: &mut Vec<Statement>,
) -> Result<(), NoMemory>
    ensures exprs { OnOk result (reverse exprs.new.items ≡ rest (reverse exprs.old.items)) }
    ensures relations { OnOk result (reverse relations.new.items ≡ rest (reverse relations.old.items)) }
    ensures statements { OnOk result (reverse statements.new.items ≡ made2 spec.delete_where (reverse exprs.old.items) (reverse relations.old.items) (reverse statements.old.items)) }
{
    let Some((condition, target)) = exprs.pop().zip(relations.pop()) else {
        return Ok(());
    };
    let condition = Some(condition.into_inner());
    statements.push(Statement::Delete(Delete { target, condition }))?;
    Ok(())
}

fn exec(
    close: usize,
    relations: &mut Vec<RelationName>,
    lists: &mut Vec<Exprs>,
    statements: &mut Vec<Statement>,
) -> Result<(), NoMemory>
    ensures relations { OnOk result (reverse relations.new.items ≡ rest (reverse relations.old.items)) }
    ensures lists { OnOk result (reverse lists.new.items ≡ rest (reverse lists.old.items)) }
    ensures statements { OnOk result (reverse statements.new.items ≡ made2 (spec.exec close) (reverse relations.old.items) (reverse lists.old.items) (reverse statements.old.items)) }
{
    let Some((procedure, arguments)) = relations.pop().zip(lists.pop()) else {
        return Ok(());
    };
    let exec = Exec {
        procedure,
        arguments,
        close,
    };
    statements.push(Statement::Exec(exec))?;
    Ok(())
}

/// Does an action of statements, after so many tokens.
pub(super) fn act(
    alloc: Global,
    source: &Source<'_>,
    at: usize,
    action: StatementAction,
    parts: &mut Parts,
) -> Result<(), NoMemory>
    ensures { OnOk result (waiting parts.new ≡ spec.statement_on source.now at action (waiting parts.old)) }
{
    match action {
        StatementAction::Query => query(&mut parts.queries, &mut parts.statements),
        StatementAction::Explain => explain(&mut parts.queries, &mut parts.statements),
        StatementAction::Names => Ok(parts.name_lists.push(Seq::new(alloc))?),
        StatementAction::AddName => add_name(&mut parts.names, &mut parts.name_lists),
        StatementAction::InsertValues => insert_values(
            &mut parts.relations,
            &mut parts.name_lists,
            &mut parts.lists,
            &mut parts.statements,
        ),
        StatementAction::InsertQuery => insert_query(
            &mut parts.relations,
            &mut parts.name_lists,
            &mut parts.sets,
            &mut parts.statements,
        ),
        StatementAction::Assignments => Ok(parts.assignments.push(Seq::new(alloc))?),
        StatementAction::Assign => assign(
            &mut parts.names,
            &mut parts.exprs,
            &mut parts.assignments,
        ),
        StatementAction::Update => update(
            &mut parts.relations,
            &mut parts.assignments,
            &mut parts.statements,
        ),
        StatementAction::UpdateWhere => update_where(
            &mut parts.exprs,
            &mut parts.relations,
            &mut parts.assignments,
            &mut parts.statements,
        ),
        StatementAction::Delete => delete(&mut parts.relations, &mut parts.statements),
        StatementAction::DeleteWhere => delete_where(
            &mut parts.exprs,
            &mut parts.relations,
            &mut parts.statements,
        ),
        StatementAction::Exec => exec(
            source.place_at(at),
            &mut parts.relations,
            &mut parts.lists,
            &mut parts.statements,
        ),
        StatementAction::Start => Ok(parts.statements.push(Statement::Start)?),
        StatementAction::Commit => Ok(parts.statements.push(Statement::Commit)?),
        StatementAction::Rollback => Ok(parts.statements.push(Statement::Rollback)?),
    }
}
