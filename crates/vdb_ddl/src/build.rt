//! The item that a derivation's actions build.
//!
//! Its parts wait on stacks, one for each kind of part; an action takes parts off and puts on what it makes of them. The actions
//! of statements go on as in sql_reader, on its own stacks.

ghost use Rattle.std.specs.Prelude.{◌≡◌, IfOk, OnOk};
ghost use Rattle.vdb_ddl.specs.Build as spec;
ghost use Rattle.vdb_ddl.specs.Waiting.{none};

use crate::actions::ACTIONS;
use crate::parts::Parts;
use crate::symbols::FIRST_DDL_ACTION;
use crate::{items, lists};
use grammar::Event;
use sql_reader::build::Source;
use std::alloc::Global;
use vdb_base::{NoMemory, Seq};

/// What is done with the parts that wait.
#[derive(Clone, Copy, Debug)]
pub(crate) enum Action {
    Nothing,
    Options,
    Setting,
    CreateDatabase,
    UseDatabase,
    CreateServer,
    CreateSchema,
    CreateVirtualSchema,
    SetSchema,
    TableParts,
    Column,
    RequiredColumn,
    PrimaryKey,
    CreateTable,
    ViewColumns,
    TypedColumn,
    UntypedColumn,
    CreateView,
    CreateViewColumns,
}

/// The action of items of a number; past the last one nothing is done.
fn action_of(number: u16) -> Action
    ensures { result ≡ spec.action_of number }
{
    let at = number.saturating_sub(FIRST_DDL_ACTION) as usize;
    if at < ACTIONS.len() {
        ACTIONS[at]
    } else {
        Action::Nothing
    }
}

/// Does an action of items.
fn act(alloc: Global, action: Action, parts: &mut Parts) -> Result<(), NoMemory>
    ensures { OnOk result (spec.waiting parts.new ≡ spec.item_on action (spec.waiting parts.old)) }
{
    let names = &mut parts.sql.names;
    let settings = &mut parts.settings;
    match action {
        Action::Nothing => Ok(()),
        Action::Options => Ok(settings.push(Seq::new(alloc))?),
        Action::Setting => lists::setting(names, &mut parts.sql.literals, settings),
        Action::CreateDatabase => items::create_database(names, settings, &mut parts.items),
        Action::UseDatabase => items::use_database(names, &mut parts.items),
        Action::CreateServer => items::create_server(names, settings, &mut parts.items),
        Action::CreateSchema => items::create_schema(names, settings, &mut parts.items),
        Action::CreateVirtualSchema => {
            items::create_virtual_schema(names, settings, &mut parts.items)
        }
        Action::SetSchema => items::set_schema(names, &mut parts.items),
        Action::TableParts => Ok(parts.table_parts.push(Seq::new(alloc))?),
        Action::Column => lists::column(false, names, settings, &mut parts.table_parts),
        Action::RequiredColumn => lists::column(true, names, settings, &mut parts.table_parts),
        Action::PrimaryKey => {
            lists::primary_key(&mut parts.sql.name_lists, &mut parts.table_parts)
        }
        Action::CreateTable => {
            items::create_table(names, &mut parts.table_parts, settings, &mut parts.items)
        }
        Action::ViewColumns => Ok(parts.view_columns.push(Seq::new(alloc))?),
        Action::TypedColumn => lists::typed_column(names, settings, &mut parts.view_columns),
        Action::UntypedColumn => lists::untyped_column(names, settings, &mut parts.view_columns),
        Action::CreateView => {
            items::create_view(names, settings, &mut parts.sql.queries, &mut parts.items)
        }
        Action::CreateViewColumns => items::create_view_columns(
            names,
            &mut parts.view_columns,
            settings,
            &mut parts.sql.queries,
            &mut parts.items,
        ),
    }
}

/// Does the action of an entry of a log.
fn act_on(
    alloc: Global,
    source: &Source<'_>,
    event: Event,
    parts: &mut Parts,
) -> Result<(), NoMemory>
    ensures { OnOk result (spec.waiting parts.new ≡ spec.act_on source.now event.at event.action (spec.waiting parts.old)) }
{
    if event.action < FIRST_DDL_ACTION {
        sql_reader::build::act_on(alloc, source, event, &mut parts.sql)
    } else {
        act(alloc, action_of(event.action), parts)
    }
}

/// The parts that are left when the actions of a derivation were done.
pub(crate) fn build(alloc: Global, source: &Source<'_>, log: &[Event]) -> Result<Parts, NoMemory>
    ensures { IfOk result (λ parts. spec.waiting parts ≡ spec.build source.now log.now none) }
{
    let mut parts = Parts::new(alloc);
    for event in log {
        act_on(alloc, source, *event, &mut parts)?;
    }
    Ok(parts)
}
