//! The same calls on a store in memory that tells everything, and on a journaled store: each answer is compared.

ghost use Rattle.std.specs.Prelude.{◌≡◌, true, false, [], ◌∷◌, IfOk, IfSome, OnOk, Some, None, length};
ghost use Rattle.vdb_base.specs.declared.value.Ty.TheVariants.{Integer, Str};
ghost use Rattle.vdb_model.specs.declared.expr.Expr.TheVariants as expr;
ghost use Rattle.vdb_model.specs.Asking.{query_types, all_conditions};
ghost use Rattle.vdb_model.specs.Defs.{def_of, is_defined};
ghost use Rattle.vdb_model.specs.Deltas.{are_there};
ghost use Rattle.vdb_model.specs.World as world;
ghost use Rattle.resource.specs.Told as told;
ghost use Rattle.std.specs.List.{list_any};
ghost use Rattle.vdb_model.specs.Rows.{same_row};
ghost use Rattle.mem_store.specs.WhatStands.{Stand};

use resource::{AttachFault, ChangeFault, ResFault, ResState, Resource, Vote, takes_rows};
use sqlite_items::{Boxed, Items};
use std::alloc::Global;
use std::test::Fail;
use vdb_base::{Failed, NoMemory, Row, Rows, Seq, Text, Ty, Value, cmp_rows};
use vdb_model::{
    CmpOp, ColumnDef, Delta, Expr, Exprs, SourceQuery, TableDef, TableDefs, Xid, are_fit,
};

const BRANCH: Xid = Xid { epoch: 1, seq: 1 };

/// A customer: an id, which is the key, and a name of one letter.
pub type Line = (i128, Letter);

#[derive(Clone, Copy)]
pub enum Letter {
    A,
    B,
    C,
    Y,
    Z,
}

/// Which customers are asked for.
#[derive(Clone, Copy)]
pub enum Criterion {
    All,
    NameIs(Letter),
    IdBelowThree,
}

/// A call of a worked run.
#[derive(Clone, Copy)]
pub enum Step {
    Start,
    /// Takes a customer out, where there is one, and puts others in.
    Change(Option<Line>, [Option<Line>; 3]),
    Ask(Criterion),
    End,
    Prepare,
    /// The commit of a prepared branch, and that of an ended one in one phase.
    Commit,
    CommitAlone,
    Rollback,
    /// A reopening, and then the question for a prepared branch.
    Reopen,
}

/// The definition of the customers.
#[derive(Drop)]
pub struct Customers {
    pub defs: TableDefs,
    ghost defined: { is_defined defs 3 ≡ true },
    ghost typed: { query_types defs (3 ∷ []) ≡ Integer ∷ Str ∷ [] },
    ghost free: { (def_of defs 3).patterns ≡ [] },
}

fn column(alloc: Global, name: &str, ty: Ty) -> Result<ColumnDef, NoMemory>
    ensures { IfOk result (λ c. c.ty ≡ ty) }
{
    Ok(ColumnDef {
        name: Text::from_str(alloc, name)?,
        source: Text::from_str(alloc, name)?,
        ty,
        not_null: true,
    })
}

pub fn made_customers(alloc: Global) -> Result<Customers, NoMemory> {
    let id = column(alloc, "id", Ty::Integer)?;
    let name = column(alloc, "name", Ty::Str)?;
    let cust = TableDef {
        number: 3,
        server: 0,
        schema: Text::from_str(alloc, "c")?,
        name: Text::from_str(alloc, "cust")?,
        source: Text::from_str(alloc, "cust")?,
        columns: Seq::from_vec(vec![in alloc; id, name]?),
        key: Some(Seq::from_vec(vec![in alloc; 0]?)),
        patterns: Seq::new(alloc),
        updatable: true,
    };
    let defs = Seq::from_vec(vec![in alloc; cust]?);
    Ok(Customers { defs })
}

fn name_of(letter: Letter) -> &'static str {
    match letter {
        Letter::A => "A",
        Letter::B => "B",
        Letter::C => "C",
        Letter::Y => "Y",
        Letter::Z => "Z",
    }
}

fn row(alloc: Global, line: Line) -> Result<Row, NoMemory> {
    let name = Value::Str(Text::from_str(alloc, name_of(line.1))?);
    Ok(Seq::from_vec(vec![in alloc; Value::Num(line.0), name]?))
}

/// The condition that a column and a constant meet.
fn compared(alloc: Global, op: CmpOp, column: u32, v: Value) -> Result<Expr, NoMemory>
    ensures { IfOk result (λ e. e ≡ expr.Cmp op (expr.Col column) (expr.Const v)) }
{
    Ok(Expr::Cmp(
        op,
        Boxed::new(alloc, Expr::Col(column))?,
        Boxed::new(alloc, Expr::Const(v))?,
    ))
}

#[tactic(auto, using(crate::proofs::Customers::name_is_typed, crate::proofs::Customers::id_is_typed))]
fn conditions(alloc: Global, criterion: Criterion) -> Result<Exprs, NoMemory>
    ensures { IfOk result (λ es. all_conditions (Integer ∷ Str ∷ []) es ≡ true) }
{
    match criterion {
        Criterion::All => Ok(Items::from_vec(Vec::new(alloc))),
        Criterion::NameIs(name) => {
            let name = Value::Str(Text::from_str(alloc, name_of(name))?);
            let is_so = compared(alloc, CmpOp::Eq, 1, name)?;
            Ok(Items::from_vec(vec![in alloc; is_so]?))
        }
        Criterion::IdBelowThree => {
            let is_below = compared(alloc, CmpOp::Lt, 0, Value::Num(3))?;
            Ok(Items::from_vec(vec![in alloc; is_below]?))
        }
    }
}

/// The ids and names of customers.
fn query(alloc: Global, criterion: Criterion) -> Result<SourceQuery, NoMemory>
    ensures tables { IfOk result (λ q. q.tables ≡ 3 ∷ []) }
    ensures conditions { IfOk result (λ q. all_conditions (Integer ∷ Str ∷ []) q.filter ≡ true) }
{
    Ok(SourceQuery {
        tables: Seq::from_vec(vec![in alloc; 3]?),
        filter: conditions(alloc, criterion)?,
        columns: Seq::from_vec(vec![in alloc; 0, 1]?),
        distinct: false,
        order: Seq::new(alloc),
        limit: None,
        count: false,
    })
}

fn is_open(state: ResState) -> bool
    ensures { result ≡ told.is_open state }
{
    matches!(state, ResState::Idle | ResState::Active(_))
}

fn state_name(state: ResState) -> &'static str {
    match state {
        ResState::Idle => "idle ",
        ResState::Active(_) => "active ",
        ResState::Ended(_) => "ended ",
        ResState::Prepared(_) => "prepared ",
        ResState::Lost => "lost ",
    }
}

/// Rows in order, since a store answers them in any.
fn shown(alloc: Global, rows: Rows) -> Result<String, Fail> {
    let mut rows = rows.into_vec();
    rows.sort_by(|a, b| cmp_rows(a, b))?;
    let mut shown = String::new(alloc);
    for row in &rows {
        for v in row.as_slice() {
            match v {
                Value::Num(number) => shown.push_str(format!(in alloc; "{number} ")?.as_str())?,
                Value::Str(text) => shown.push_str(format!(in alloc;
                    "{} ",
                    text.as_str()
                )?.as_str())?,
                _ => shown.push_str("? ")?,
            }
        }
    }
    Ok(shown)
}

/// The customers that are asked for, or the state in which none can be.
fn ask<R: Resource>(
    alloc: Global,
    store: &mut R,
    customers: &Customers,
    criterion: Criterion,
) -> Result<String, Fail>
    requires attached { (R.told store.old).defs ≡ Some customers.now.defs }
    ensures attached { (R.told store.new).defs ≡ Some customers.now.defs }
{
    let q = query(alloc, criterion)?;
    if !is_open(store.state()) {
        return Ok(String::from_str(alloc, state_name(store.state()))?);
    }
    if !store.caps().can(&q, &customers.defs) {
        return Ok(String::from_str(alloc, "unable ")?);
    }
    match store.query(alloc, &q) {
        Ok(rows) => shown(alloc, rows),
        Err(ResFault::Failed) => Ok(String::from_str(alloc, "failed ")?),
        Err(ResFault::Memory) => Ok(String::from_str(alloc, "memory ")?),
    }
}

/// All customers, whole.
fn everyone(alloc: Global) -> Result<SourceQuery, NoMemory>
    ensures { IfOk result (λ q. q ≡ record { tables = 3 ∷ []; filter = []; columns = 0 ∷ 1 ∷ []; distinct = false; order = []; limit = None; count = false }) }
{
    Ok(SourceQuery {
        tables: Seq::from_vec(vec![in alloc; 3]?),
        filter: Items::from_vec(Vec::new(alloc)),
        columns: Seq::from_vec(vec![in alloc; 0, 1]?),
        distinct: false,
        order: Seq::new(alloc),
        limit: None,
        count: false,
    })
}

fn is_among(row: &Row, rows: &[Row]) -> bool
    ensures { result ≡ list_any (same_row row.now) rows.now }
{
    for other in rows {
        if cmp_rows(row, other).is_eq() {
            return true;
        }
    }
    false
}

/// Whether the row stands in the table as a branch sees it. The store is asked for it.
fn stands<R: Resource>(
    alloc: Global,
    store: &mut R,
    customers: &Customers,
    row: &Row,
) -> Result<bool, NoMemory>
    requires attached { (R.told store.old).defs ≡ Some customers.now.defs }
    ensures attached { (R.told store.new).defs ≡ Some customers.now.defs }
    ensures state { (R.told store.new).state ≡ (R.told store.old).state }
    ensures there { IfOk result (λ stands. stands ≡ true → Stand customers.now.defs 3 (row.now ∷ []) (R.told store.new)) }
{
    let q = everyone(alloc)?;
    if !is_open(store.state()) || !store.caps().can(&q, &customers.defs) {
        return Ok(false);
    }
    match store.query(alloc, &q) {
        Ok(rows) => Ok(is_among(row, rows.as_slice())),
        Err(_) => Ok(false),
    }
}

impl Customers {
    /// Whether the columns take the rows.
    fn take(&self, rows: &[Row]) -> bool
        ensures { result ≡ true → world.takes_rows (def_of self.now.defs 3).columns rows.now ≡ true }
    {
        match self.defs.as_slice() {
            [def, ..] => def.number == 3 && takes_rows(def.columns.as_slice(), rows),
            [] => false,
        }
    }
}

fn rows(alloc: Global, lines: [Option<Line>; 3]) -> Result<Rows, NoMemory> {
    let mut rows = Seq::new(alloc);
    for line in lines {
        if let Some(line) = line {
            rows.push(row(alloc, line)?)?;
        }
    }
    Ok(rows)
}

/// The row to take out, where there is one; none at all where it doesn't stand there.
fn leaving<R: Resource>(
    alloc: Global,
    store: &mut R,
    customers: &Customers,
    removed: Option<Line>,
) -> Result<Option<Rows>, NoMemory>
    requires attached { (R.told store.old).defs ≡ Some customers.now.defs }
    ensures attached { (R.told store.new).defs ≡ Some customers.now.defs }
    ensures there { IfOk result (λ found. IfSome found (λ rows. Stand customers.now.defs 3 rows (R.told store.new))) }
{
    let Some(line) = removed else {
        return Ok(Some(Seq::new(alloc)));
    };
    let row = row(alloc, line)?;
    if stands(alloc, store, customers, &row)? {
        Ok(Some(Seq::from_vec(vec![in alloc; row]?)))
    } else {
        Ok(None)
    }
}

/// Makes a change of the customers. A row is taken out only where it stands there.
fn change<R: Resource>(
    alloc: Global,
    store: &mut R,
    customers: &Customers,
    removed: Option<Line>,
    added: [Option<Line>; 3],
) -> Result<&'static str, Fail>
    requires attached { (R.told store.old).defs ≡ Some customers.now.defs }
    ensures attached { (R.told store.new).defs ≡ Some customers.now.defs }
{
    let added = rows(alloc, added)?;
    let Some(removed) = leaving(alloc, store, customers, removed)? else {
        return Ok("isn't there ");
    };
    if !matches!(store.state(), ResState::Active(_)) || !customers.take(added.as_slice()) {
        return Ok("not now ");
    }
    let delta = Delta {
        table: 3,
        removed,
        added,
    };
    match store.change(alloc, &delta) {
        Ok(()) => Ok("ok "),
        Err(ChangeFault::DuplicateKey { .. }) => Ok("duplicate "),
        Err(ChangeFault::LogFull { .. }) => Ok("full "),
        Err(ChangeFault::Failed) => Ok("failed "),
        Err(ChangeFault::Memory) => Ok("memory "),
    }
}

fn start<R: Resource>(store: &mut R, customers: &Customers) -> &'static str
    requires attached { (R.told store.old).defs ≡ Some customers.now.defs }
    ensures attached { (R.told store.new).defs ≡ Some customers.now.defs }
{
    if !store.caps().writes || !matches!(store.state(), ResState::Idle) {
        return "not now ";
    }
    match store.start(BRANCH) {
        Ok(()) => "ok ",
        Err(Failed) => "failed ",
    }
}

fn end<R: Resource>(store: &mut R, customers: &Customers) -> &'static str
    requires attached { (R.told store.old).defs ≡ Some customers.now.defs }
    ensures attached { (R.told store.new).defs ≡ Some customers.now.defs }
{
    let ResState::Active(x) = store.state() else {
        return "not now ";
    };
    match store.end(x) {
        Ok(()) => "ok ",
        Err(Failed) => "failed ",
    }
}

fn prepare<R: Resource>(alloc: Global, store: &mut R, customers: &Customers) -> &'static str
    requires attached { (R.told store.old).defs ≡ Some customers.now.defs }
    ensures attached { (R.told store.new).defs ≡ Some customers.now.defs }
{
    let ResState::Ended(x) = store.state() else {
        return "not now ";
    };
    match store.prepare(alloc, x) {
        Ok(Vote::Ready) => "ready ",
        Ok(Vote::ReadOnly) => "read only ",
        Err(ResFault::Failed) => "failed ",
        Err(ResFault::Memory) => "memory ",
    }
}

/// Commits a prepared branch.
fn commit<R: Resource>(store: &mut R, customers: &Customers) -> &'static str
    requires attached { (R.told store.old).defs ≡ Some customers.now.defs }
    ensures attached { (R.told store.new).defs ≡ Some customers.now.defs }
{
    let ResState::Prepared(x) = store.state() else {
        return "not now ";
    };
    match store.commit(x, false) {
        Ok(()) => "ok ",
        Err(Failed) => "failed ",
    }
}

/// Commits an ended branch in one phase.
fn commit_alone<R: Resource>(alloc: Global, store: &mut R, customers: &Customers) -> &'static str
    requires attached { (R.told store.old).defs ≡ Some customers.now.defs }
    ensures attached { (R.told store.new).defs ≡ Some customers.now.defs }
{
    let ResState::Ended(x) = store.state() else {
        return "not now ";
    };
    match store.reserve_one_phase(alloc) {
        Ok(()) => {}
        Err(NoMemory) => return "memory ",
    }
    match store.commit(x, true) {
        Ok(()) => "ok ",
        Err(Failed) => "failed ",
    }
}

fn roll_back<R: Resource>(store: &mut R, customers: &Customers) -> &'static str
    requires attached { (R.told store.old).defs ≡ Some customers.now.defs }
    ensures attached { (R.told store.new).defs ≡ Some customers.now.defs }
{
    let x = match store.state() {
        ResState::Active(x) | ResState::Ended(x) | ResState::Prepared(x) => x,
        ResState::Idle | ResState::Lost => return "not now ",
    };
    match store.rollback(x) {
        Ok(()) => "ok ",
        Err(Failed) => "failed ",
    }
}

/// Reads the store again, and looks for a prepared branch.
fn reopen<R: Resource>(alloc: Global, store: &mut R, customers: &Customers) -> &'static str
    requires attached { (R.told store.old).defs ≡ Some customers.now.defs }
    ensures attached { (R.told store.new).defs ≡ Some customers.now.defs }
{
    match store.reopen(alloc) {
        Ok(()) => {}
        Err(ResFault::Failed) => return "failed ",
        Err(ResFault::Memory) => return "memory ",
    }
    if matches!(store.state(), ResState::Lost) {
        return "lost ";
    }
    match store.recover() {
        Ok(Some(_)) => "branch ",
        Ok(None) => "none ",
        Err(Failed) => "failed ",
    }
}

/// What each call of a run says.
pub fn said<R: Resource>(
    alloc: Global,
    store: &mut R,
    customers: &Customers,
    steps: &[Step],
) -> Result<String, Fail>
    requires attached { (R.told store.old).defs ≡ Some customers.now.defs }
{
    let mut said = String::new(alloc);
    for step in steps {
        match *step {
            Step::Ask(criterion) => {
                said.push_str(ask(alloc, store, customers, criterion)?.as_str())?;
            }
            Step::Start => said.push_str(start(store, customers))?,
            Step::Change(removed, added) => {
                said.push_str(change(alloc, store, customers, removed, added)?)?;
            }
            Step::End => said.push_str(end(store, customers))?,
            Step::Prepare => said.push_str(prepare(alloc, store, customers))?,
            Step::Commit => said.push_str(commit(store, customers))?,
            Step::CommitAlone => said.push_str(commit_alone(alloc, store, customers))?,
            Step::Rollback => said.push_str(roll_back(store, customers))?,
            Step::Reopen => said.push_str(reopen(alloc, store, customers))?,
        }
    }
    Ok(said)
}

fn is_lost(state: ResState) -> bool
    ensures { result ≡ told.is_lost state }
{
    matches!(state, ResState::Lost)
}

/// Attaches the customers, and fails where they aren't fit or the store is lost.
pub fn attach<R: Resource>(
    alloc: Global,
    store: &mut R,
    customers: &Customers,
) -> Result<(), AttachFault>
    ensures attached { OnOk result ((R.told store.new).defs ≡ Some customers.now.defs) }
{
    if !are_fit(&store.caps(), &customers.defs) || is_lost(store.state()) {
        return Err(AttachFault::Failed);
    }
    store.attach(alloc, &customers.defs)
}
