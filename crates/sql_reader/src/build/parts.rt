//! The stacks of parts.

ghost use Rattle.std.specs.Prelude.{◌≡◌, ◌++◌, ◌∷◌, [], reverse, OnOk};
ghost use Rattle.sql_reader.specs.Build.{waiting};
ghost use Rattle.sql_reader.specs.Waiting.{none, on};

use crate::tree::{
    Arms, Assignments, ColumnName, Expr, Exprs, Links, Literal, Name, Names, Query, RelationName,
    Select, SetQuery, Statement, TableRef,
};
use sqlite_items::{Boxed, Items};
use std::alloc::Global;
use vdb_base::NoMemory;

/// The parts of a tree that wait for their place, of each kind the last one on top.
#[derive(Drop)]
pub struct Parts {
    pub places: Vec<usize>,
    pub names: Vec<Name>,
    pub literals: Vec<Literal>,
    pub columns: Vec<ColumnName>,
    pub relations: Vec<RelationName>,
    pub exprs: Vec<Boxed<Expr>>,
    pub lists: Vec<Exprs>,
    pub links: Vec<Links>,
    pub arms: Vec<Arms>,
    pub selects: Vec<Select>,
    pub sets: Vec<Boxed<SetQuery>>,
    pub tables: Vec<Boxed<TableRef>>,
    pub queries: Vec<Query>,
    pub name_lists: Vec<Names>,
    pub assignments: Vec<Assignments>,
    pub statements: Vec<Statement>,
}

impl Parts {
    /// No parts.
    pub fn new(alloc: Global) -> Parts
        ensures { waiting result ≡ none }
    {
        Parts {
            places: Vec::new(alloc),
            names: Vec::new(alloc),
            literals: Vec::new(alloc),
            columns: Vec::new(alloc),
            relations: Vec::new(alloc),
            exprs: Vec::new(alloc),
            lists: Vec::new(alloc),
            links: Vec::new(alloc),
            arms: Vec::new(alloc),
            selects: Vec::new(alloc),
            sets: Vec::new(alloc),
            tables: Vec::new(alloc),
            queries: Vec::new(alloc),
            name_lists: Vec::new(alloc),
            assignments: Vec::new(alloc),
            statements: Vec::new(alloc),
        }
    }
}

/// Puts a part on its stack.
pub(super) fn push<T: Drop>(
    alloc: Global,
    part: T,
    parts: &mut Vec<Boxed<T>>,
) -> Result<(), NoMemory>
    ensures { OnOk result (reverse parts.new.items ≡ part ∷ reverse parts.old.items) }
{
    let part = Boxed::new(alloc, part)?;
    parts.push(part)?;
    Ok(())
}

/// Puts an item at the end of the last list.
pub(super) fn append<T: Drop>(item: T, lists: &mut Vec<Items<T>>) -> Result<(), NoMemory>
    ensures { OnOk result (reverse lists.new.items ≡ on (λ list. list ++ item ∷ []) (reverse lists.old.items)) }
{
    let Some(mut list) = lists.pop() else {
        return Ok(());
    };
    list.push(item)?;
    lists.push(list)?;
    Ok(())
}
