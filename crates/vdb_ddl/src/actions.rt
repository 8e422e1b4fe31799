//! What each action of items builds. It is written by `tools/table.py`, and is that of `specs/Actions`.

use crate::build::Action;

/// By the number of the action, from the first.
pub(crate) static ACTIONS: [Action; 18] = [
    Action::UseDatabase,
    Action::SetSchema,
    Action::CreateDatabase,
    Action::CreateServer,
    Action::CreateSchema,
    Action::CreateVirtualSchema,
    Action::TableParts,
    Action::CreateTable,
    Action::RequiredColumn,
    Action::Column,
    Action::PrimaryKey,
    Action::ViewColumns,
    Action::CreateViewColumns,
    Action::CreateView,
    Action::TypedColumn,
    Action::UntypedColumn,
    Action::Options,
    Action::Setting,
];
