//! The tree that a derivation's actions build.
//!
//! The parts of a tree wait on stacks, one for each kind of part; an action takes parts off and puts on what it makes of them.

ghost use Rattle.std.specs.Prelude.{◌≡◌, IfOk, OnOk};
ghost use Rattle.sql_reader.specs.Build as spec;
ghost use Rattle.sql_reader.specs.Waiting.{none};

mod exprs;
mod parts;
mod queries;
mod source;
mod statements;
mod tokens;

use crate::actions::ACTIONS;
use crate::symbols::FIRST_ACTION;
use crate::tree::{Aggregate, Comparison, Operator};
use grammar::Event;
pub use parts::Parts;
pub use source::Source;
use std::alloc::Global;
use vdb_base::NoMemory;

/// What is done with the parts that wait.
#[derive(Clone, Copy, Debug)]
pub enum Action {
    Nothing,
    Token(TokenAction),
    Expr(ExprAction),
    Query(QueryAction),
    Statement(StatementAction),
}

/// What is made of single tokens, and of names.
#[derive(Clone, Copy, Debug)]
pub enum TokenAction {
    Place,
    Name,
    Literal,
    Negative,
    Plain,
    Of,
    InSchema,
    Relation,
    RelationOf,
}

/// What is made of parts of expressions.
#[derive(Clone, Copy, Debug)]
pub enum ExprAction {
    Constant,
    Column,
    Parens,
    Negate,
    Not,
    Links,
    Link(Operator),
    Chain,
    Compare(Comparison),
    IsNull(bool),
    List,
    Add,
    In(bool),
    Like(bool),
    Between(bool),
    CountAll,
    Aggregate(Aggregate),
    Coalesce,
    Arms,
    Arm,
    Case,
    CaseElse,
}

/// What is made of parts of queries.
#[derive(Clone, Copy, Debug)]
pub enum QueryAction {
    Select,
    Distinct,
    All,
    AllOf,
    Item,
    ItemAs,
    From,
    Where,
    GroupKey,
    Having,
    Selects,
    Union(bool),
    Table,
    TableAs,
    Derived,
    Inner,
    Left,
    Cross,
    Query,
    KeyName(bool),
    KeyNumber(bool),
    Limit,
    Offset,
}

/// What is made of parts of statements.
#[derive(Clone, Copy, Debug)]
pub enum StatementAction {
    Query,
    Explain,
    Names,
    AddName,
    InsertValues,
    InsertQuery,
    Assignments,
    Assign,
    Update,
    UpdateWhere,
    Delete,
    DeleteWhere,
    Exec,
    Start,
    Commit,
    Rollback,
}

/// The action of a number; past the last one nothing is done.
fn action_of(number: u16) -> Action
    ensures { result ≡ spec.action_of number }
{
    let at = number.saturating_sub(FIRST_ACTION) as usize;
    if at < ACTIONS.len() {
        ACTIONS[at]
    } else {
        Action::Nothing
    }
}

/// Does an action after so many tokens.
fn act(
    alloc: Global,
    source: &Source<'_>,
    at: usize,
    action: Action,
    parts: &mut Parts,
) -> Result<(), NoMemory>
    ensures { OnOk result (spec.waiting parts.new ≡ spec.act_on source.now at action (spec.waiting parts.old)) }
{
    match action {
        Action::Nothing => Ok(()),
        Action::Token(action) => tokens::act(alloc, source, at, action, parts),
        Action::Expr(action) => exprs::act(alloc, action, parts),
        Action::Query(action) => queries::act(alloc, source, at, action, parts),
        Action::Statement(action) => statements::act(alloc, source, at, action, parts),
    }
}

/// Does the action of an entry of a log.
pub fn act_on(
    alloc: Global,
    source: &Source<'_>,
    event: Event,
    parts: &mut Parts,
) -> Result<(), NoMemory>
    ensures { OnOk result (spec.waiting parts.new ≡ spec.act_on source.now event.at (spec.action_of event.action) (spec.waiting parts.old)) }
{
    act(alloc, source, event.at, action_of(event.action), parts)
}

/// The parts that are left when the actions of a derivation were done.
pub fn build(alloc: Global, source: &Source<'_>, log: &[Event]) -> Result<Parts, NoMemory>
    ensures { IfOk result (λ parts. spec.waiting parts ≡ spec.build source.now log.now none) }
{
    let mut parts = Parts::new(alloc);
    for event in log {
        act_on(alloc, source, *event, &mut parts)?;
    }
    Ok(parts)
}
