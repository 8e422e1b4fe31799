//! What tables in memory read as and answer, how a branch moves them, what a stop leaves, and which calls fail.

ghost use Rattle.std.specs.Prelude.{◌≡◌, true, [], ◌∷◌, IfOk, OnOk, Some};
ghost use Rattle.vdb_model.specs.Defs.{def_of};
ghost use Rattle.resource.specs.MemResource.{mem_told};
ghost use Rattle.resource.specs.Told as told;

use crate::asked::passing_cut;
use crate::tables::find_def;
use crate::{
    AttachFault, ChangeFault, MemResource, ResFault, ResState, Resource, StoredTable, Tables, Vote,
    takes_row,
};
use sqlite_items::{Boxed, Items};
use std::alloc::Global;
use std::test::Fail;
use vdb_base::{Failed, NoMemory, Nums, Row, Rows, Seq, Text, Ty, Value};
use vdb_model::{
    Caps, CmpOp, ColumnDef, Delta, Expr, SourceQuery, TableDef, TableDefs, Xid, are_fit,
};

const CAPS: Caps = Caps {
    equals: true,
    ordered: true,
    in_max: 1000,
    is_null: true,
    like: true,
    or: true,
    not: true,
    joins: false,
    distinct: false,
    order: false,
    limit: false,
    count_star: false,
    wide: true,
    writes: true,
};

const BRANCH: Xid = Xid { epoch: 1, seq: 7 };

/// A call of the worked runs.
#[derive(Clone, Copy)]
enum Step {
    Start,
    Add(i128),
    /// A query.
    Ask,
    End,
    Prepare,
    Commit,
    CommitAlone,
    Rollback,
    /// A reopening, and then the question for a prepared branch.
    Recover,
}

use Step::{Add, Ask, Commit, CommitAlone, End, Prepare, Recover, Rollback, Start};

fn column(alloc: Global, name: &str, ty: Ty) -> Result<ColumnDef, NoMemory> {
    Ok(ColumnDef {
        name: Text::from_str(alloc, name)?,
        source: Text::from_str(alloc, name)?,
        ty,
        not_null: true,
    })
}

/// A table of an integer, which may be its key, and a word.
fn words(alloc: Global, keyed: bool) -> Result<TableDef, NoMemory> {
    let id = column(alloc, "id", Ty::Integer)?;
    let word = column(alloc, "word", Ty::Str)?;
    let key = if keyed {
        Some(Seq::from_vec(vec![in alloc; 0]?))
    } else {
        None
    };
    Ok(TableDef {
        number: 0,
        server: 0,
        schema: Text::from_str(alloc, "s")?,
        name: Text::from_str(alloc, "words")?,
        source: Text::from_str(alloc, "words")?,
        columns: Seq::from_vec(vec![in alloc; id, word]?),
        key,
        patterns: Seq::new(alloc),
        updatable: false,
    })
}

fn row(alloc: Global, id: i128, word: &str) -> Result<Row, NoMemory> {
    let word = Value::Str(Text::from_str(alloc, word)?);
    Ok(Seq::from_vec(vec![in alloc; Value::Num(id), word]?))
}

fn rows(alloc: Global, cells: &[(i128, &str)]) -> Result<Rows, NoMemory> {
    let mut rows = Seq::new(alloc);
    for (id, word) in cells {
        rows.push(row(alloc, *id, word)?)?;
    }
    Ok(rows)
}

fn stored(alloc: Global, cells: &[(i128, &str)]) -> Result<Tables, NoMemory> {
    let other = StoredTable {
        source: Text::from_str(alloc, "other")?,
        rows: rows(alloc, &[(7, "x")])?,
    };
    let table = StoredTable {
        source: Text::from_str(alloc, "words")?,
        rows: rows(alloc, cells)?,
    };
    Ok(Seq::from_vec(vec![in alloc; other, table]?))
}

fn nums(alloc: Global, numbers: &[u32]) -> Result<Nums, NoMemory> {
    let mut items = Vec::with_capacity(alloc, numbers.len())?;
    for number in numbers {
        items.push(*number)?;
    }
    Ok(Seq::from_vec(items))
}

fn shown(alloc: Global, rows: &Rows) -> Result<String, Fail> {
    let mut shown = String::new(alloc);
    for row in rows.as_slice() {
        for v in row.as_slice() {
            match v {
                Value::Null => shown.push_str("NULL ")?,
                Value::Bool(truth) => shown.push_str(format!(in alloc; "{truth} ")?.as_str())?,
                Value::Num(number) => shown.push_str(format!(in alloc; "{number} ")?.as_str())?,
                Value::Str(text) => shown.push_str(format!(in alloc;
                    "{} ",
                    text.as_str()
                )?.as_str())?,
            }
        }
    }
    Ok(shown)
}

fn state_name(state: ResState) -> &'static str {
    match state {
        ResState::Idle => "idle",
        ResState::Active(_) => "active",
        ResState::Ended(_) => "ended",
        ResState::Prepared(_) => "prepared",
        ResState::Lost => "lost",
    }
}

/// The words and then their numbers.
fn words_asked(alloc: Global) -> Result<SourceQuery, NoMemory>
    ensures { IfOk result (λ q. (q.tables ≡ 0 ∷ []) × (q.filter ≡ [])) }
{
    Ok(SourceQuery {
        tables: Seq::from_vec(vec![in alloc; 0]?),
        filter: Items::from_vec(Vec::new(alloc)),
        columns: Seq::from_vec(vec![in alloc; 1, 0]?),
        distinct: false,
        order: Seq::new(alloc),
        limit: None,
        count: false,
    })
}

/// The words and their numbers, or the state in which they can't be asked.
fn show(alloc: Global, resource: &mut MemResource, defs: &TableDefs) -> Result<String, Fail>
    requires attached { (mem_told resource.old).defs ≡ Some defs.now }
    ensures attached { (mem_told resource.new).defs ≡ Some defs.now }
{
    let q = words_asked(alloc)?;
    if !is_free(defs) || !is_open(resource.state()) {
        return Ok(String::from_str(alloc, state_name(resource.state()))?);
    }
    if !resource.caps().can(&q, defs) {
        return Ok(String::from_str(alloc, "unable")?);
    }
    match resource.query(alloc, &q) {
        Ok(rows) => shown(alloc, &rows),
        Err(ResFault::Failed) => Ok(String::from_str(alloc, "query failed")?),
        Err(ResFault::Memory) => Ok(String::from_str(alloc, "memory")?),
    }
}

fn is_open(state: ResState) -> bool
    ensures { result ≡ told.is_open state }
{
    matches!(state, ResState::Idle | ResState::Active(_))
}

/// Whether the first table has no access pattern.
fn is_free(defs: &TableDefs) -> bool
    ensures { result ≡ true → (def_of defs.now 0).patterns ≡ [] }
{
    match find_def(defs.as_slice(), 0) {
        Some(def) => def.patterns.is_empty(),
        None => false,
    }
}

/// Adds a word to the first table.
fn add(
    alloc: Global,
    resource: &mut MemResource,
    defs: &TableDefs,
    id: i128,
) -> Result<&'static str, Fail>
    requires attached { (mem_told resource.old).defs ≡ Some defs.now }
    ensures attached { (mem_told resource.new).defs ≡ Some defs.now }
{
    let row = row(alloc, id, "new")?;
    let Some(def) = find_def(defs.as_slice(), 0) else {
        return Ok("unknown ");
    };
    if !matches!(resource.state(), ResState::Active(_))
        || !takes_row(def.columns.as_slice(), row.as_slice())
    {
        return Ok("not taken ");
    }
    let delta = Delta {
        table: 0,
        removed: Seq::new(alloc),
        added: Seq::from_vec(vec![in alloc; row]?),
    };
    match resource.change(alloc, &delta) {
        Ok(()) => Ok("ok "),
        Err(ChangeFault::DuplicateKey { .. }) => Ok("duplicate "),
        Err(ChangeFault::LogFull { .. }) => Ok("full "),
        Err(ChangeFault::Failed) => Ok("failed "),
        Err(ChangeFault::Memory) => Ok("memory "),
    }
}

fn start(resource: &mut MemResource, defs: &TableDefs) -> &'static str
    requires attached { (mem_told resource.old).defs ≡ Some defs.now }
    ensures attached { (mem_told resource.new).defs ≡ Some defs.now }
{
    if !resource.caps().writes || !matches!(resource.state(), ResState::Idle) {
        return "not now ";
    }
    match resource.start(BRANCH) {
        Ok(()) => "ok ",
        Err(Failed) => "failed ",
    }
}

fn end(resource: &mut MemResource, defs: &TableDefs) -> &'static str
    requires attached { (mem_told resource.old).defs ≡ Some defs.now }
    ensures attached { (mem_told resource.new).defs ≡ Some defs.now }
{
    let ResState::Active(x) = resource.state() else {
        return "not now ";
    };
    match resource.end(x) {
        Ok(()) => "ok ",
        Err(Failed) => "failed ",
    }
}

fn prepare(alloc: Global, resource: &mut MemResource, defs: &TableDefs) -> &'static str
    requires attached { (mem_told resource.old).defs ≡ Some defs.now }
    ensures attached { (mem_told resource.new).defs ≡ Some defs.now }
{
    let ResState::Ended(x) = resource.state() else {
        return "not now ";
    };
    match resource.prepare(alloc, x) {
        Ok(Vote::Ready) => "ready ",
        Ok(Vote::ReadOnly) => "read only ",
        Err(ResFault::Failed) => "failed ",
        Err(ResFault::Memory) => "memory ",
    }
}

/// Commits a prepared branch.
fn commit(resource: &mut MemResource, defs: &TableDefs) -> &'static str
    requires attached { (mem_told resource.old).defs ≡ Some defs.now }
    ensures attached { (mem_told resource.new).defs ≡ Some defs.now }
{
    let ResState::Prepared(x) = resource.state() else {
        return "not now ";
    };
    match resource.commit(x, false) {
        Ok(()) => "ok ",
        Err(Failed) => "failed ",
    }
}

/// Commits an ended branch in one phase.
fn commit_alone(alloc: Global, resource: &mut MemResource, defs: &TableDefs) -> &'static str
    requires attached { (mem_told resource.old).defs ≡ Some defs.now }
    ensures attached { (mem_told resource.new).defs ≡ Some defs.now }
{
    let ResState::Ended(x) = resource.state() else {
        return "not now ";
    };
    match resource.reserve_one_phase(alloc) {
        Ok(()) => {}
        Err(NoMemory) => return "memory ",
    }
    match resource.commit(x, true) {
        Ok(()) => "ok ",
        Err(Failed) => "failed ",
    }
}

/// Rolls a branch back.
fn roll_back(resource: &mut MemResource, defs: &TableDefs) -> &'static str
    requires attached { (mem_told resource.old).defs ≡ Some defs.now }
    ensures attached { (mem_told resource.new).defs ≡ Some defs.now }
{
    let x = match resource.state() {
        ResState::Active(x) | ResState::Ended(x) | ResState::Prepared(x) => x,
        ResState::Idle | ResState::Lost => return "not now ",
    };
    match resource.rollback(x) {
        Ok(()) => "ok ",
        Err(Failed) => "failed ",
    }
}

/// Reads the store again, and looks for a prepared branch.
fn recover(alloc: Global, resource: &mut MemResource, defs: &TableDefs) -> &'static str
    requires attached { (mem_told resource.old).defs ≡ Some defs.now }
    ensures attached { (mem_told resource.new).defs ≡ Some defs.now }
{
    match resource.reopen(alloc) {
        Ok(()) => {}
        Err(ResFault::Failed) => return "failed ",
        Err(ResFault::Memory) => return "memory ",
    }
    if matches!(resource.state(), ResState::Lost) {
        return "lost ";
    }
    match resource.recover() {
        Ok(Some(_)) => "branch ",
        Ok(None) => "none ",
        Err(Failed) => "failed ",
    }
}

/// What a call answers that isn't a query.
fn call(
    alloc: Global,
    resource: &mut MemResource,
    defs: &TableDefs,
    step: Step,
) -> Result<&'static str, Fail>
    requires attached { (mem_told resource.old).defs ≡ Some defs.now }
    ensures attached { (mem_told resource.new).defs ≡ Some defs.now }
{
    match step {
        Step::Start => Ok(start(resource, defs)),
        Step::Add(id) => add(alloc, resource, defs, id),
        Step::Ask => Ok(""),
        Step::End => Ok(end(resource, defs)),
        Step::Prepare => Ok(prepare(alloc, resource, defs)),
        Step::Commit => Ok(commit(resource, defs)),
        Step::CommitAlone => Ok(commit_alone(alloc, resource, defs)),
        Step::Rollback => Ok(roll_back(resource, defs)),
        Step::Recover => Ok(recover(alloc, resource, defs)),
    }
}

/// What each call answers.
fn run(
    alloc: Global,
    resource: &mut MemResource,
    defs: &TableDefs,
    steps: &[Step],
) -> Result<String, Fail>
    requires attached { (mem_told resource.old).defs ≡ Some defs.now }
{
    let mut said = String::new(alloc);
    for step in steps {
        if matches!(step, Step::Ask) {
            said.push_str(show(alloc, resource, defs)?.as_str())?;
        } else {
            said.push_str(call(alloc, resource, defs, *step)?)?;
        }
    }
    Ok(said)
}

/// What an attach answers, where it isn't Ok.
fn refusal(alloc: Global, fault: AttachFault) -> Result<String, Fail> {
    match fault {
        AttachFault::BadCell { table, row, col } => {
            Ok(format!(in alloc; "cell {table} {row} {col}")?)
        }
        AttachFault::BadStore { table } => Ok(format!(in alloc; "store {table}")?),
        AttachFault::Failed => Ok(String::from_str(alloc, "attach failed")?),
        AttachFault::Memory => Ok(String::from_str(alloc, "memory")?),
    }
}

fn is_lost(state: ResState) -> bool
    ensures { result ≡ told.is_lost state }
{
    matches!(state, ResState::Lost)
}

/// Attaches tables that are fit, and fails where they aren't or the resource is lost.
fn attach(alloc: Global, resource: &mut MemResource, defs: &TableDefs) -> Result<(), AttachFault>
    ensures attached { OnOk result ((mem_told resource.new).defs ≡ Some defs.now) }
{
    if !are_fit(&resource.caps(), defs) || is_lost(resource.state()) {
        return Err(AttachFault::Failed);
    }
    resource.attach(alloc, defs)
}

/// What an attach to the words answers, and then each call, and then the resource that a stop leaves, attached with the key.
fn outcome(
    alloc: Global,
    keyed: bool,
    cells: &[(i128, &str)],
    fails: &[u32],
    steps: &[Step],
    image: u32,
) -> Result<String, Fail> {
    let fails = nums(alloc, fails)?;
    let mut resource = MemResource::new(alloc, stored(alloc, cells)?, CAPS, fails);
    let def = words(alloc, keyed)?;
    let defs = Seq::from_vec(vec![in alloc; def]?);
    match attach(alloc, &mut resource, &defs) {
        Ok(()) => {}
        Err(fault) => return refusal(alloc, fault),
    }
    let mut said = run(alloc, &mut resource, &defs, steps)?;
    said.push_str("| ")?;
    said.push_str(reopened(alloc, resource, image)?.as_str())?;
    Ok(said)
}

/// What a stop leaves, attached with the key.
fn reopened(alloc: Global, resource: MemResource, image: u32) -> Result<String, Fail> {
    let mut left = resource.stopped(image)?;
    let def = words(alloc, true)?;
    let defs = Seq::from_vec(vec![in alloc; def]?);
    match attach(alloc, &mut left, &defs) {
        Ok(()) => show(alloc, &mut left, &defs),
        Err(fault) => refusal(alloc, fault),
    }
}

#[test]
fn worked_calls(rt: HostRuntime) -> Result<(), Fail> {
    let alloc = rt.alloc();
    let ready: &[Step] = &[Start, Add(3), End, Prepare];
    let done: &[Step] = &[Start, Add(3), End, Prepare, Commit];
    let alone: &[Step] = &[Start, Add(3), End, CommitAlone, Ask];
    let recovered: &[Step] = &[Start, Add(3), End, Prepare, Commit, Recover, Commit];
    let table: [(&[u32], &[Step], u32, &str); 20] = [
        (&[], &[], 0, "| b 2 a 1 "),
        (&[1], &[], 0, "attach failed"),
        (&[3], &[], 0, "| query failed"),
        (&[2], &[Ask, Ask], 0, "query failedb 2 a 1 | b 2 a 1 "),
        (
            &[],
            &[Start, Add(3), Ask],
            0,
            "ok ok b 2 a 1 new 3 | b 2 a 1 ",
        ),
        (&[], done, 0, "ok ok ok ready ok | b 2 a 1 new 3 "),
        (&[], ready, 0, "ok ok ok ready | prepared"),
        (&[], &[Start, Add(1), End], 0, "ok duplicate ok | b 2 a 1 "),
        (&[], &[Start, Add(2147483648)], 0, "ok not taken | b 2 a 1 "),
        (&[], &[Start, End, Prepare], 0, "ok ok read only | b 2 a 1 "),
        (&[], alone, 0, "ok ok ok ok b 2 a 1 new 3 | b 2 a 1 new 3 "),
        (
            &[],
            &[Start, Add(3), Rollback, Ask],
            0,
            "ok ok ok b 2 a 1 | b 2 a 1 ",
        ),
        (
            &[],
            &[Start, Add(3), End, Prepare, Rollback],
            0,
            "ok ok ok ready ok | b 2 a 1 ",
        ),
        (
            &[4],
            &[Start, Add(3), Rollback],
            1,
            "ok ok failed | b 2 a 1 ",
        ),
        (&[5], ready, 0, "ok ok ok failed | b 2 a 1 "),
        (&[5], ready, 1, "ok ok ok failed | prepared"),
        (&[6], done, 0, "ok ok ok ready failed | prepared"),
        (&[6], done, 1, "ok ok ok ready failed | b 2 a 1 new 3 "),
        (&[], &[Start, Add(3), Recover], 0, "ok ok none | b 2 a 1 "),
        (
            &[6],
            recovered,
            0,
            "ok ok ok ready failed branch ok | b 2 a 1 new 3 ",
        ),
    ];
    for (fails, steps, image, wanted) in table {
        let said = outcome(alloc, true, &[(2, "b"), (1, "a")], fails, steps, image)?;
        assert_eq!(rt; said.as_str(), wanted);
    }
    Ok(())
}

#[test]
fn attach_faults(rt: HostRuntime) -> Result<(), Fail> {
    let alloc = rt.alloc();
    let again: &[Step] = &[Start, Add(2), End, Prepare];
    let table: [(bool, &[(i128, &str)], &[Step], &str); 5] = [
        (true, &[(2, "b"), (2147483648, "a")], &[], "cell 1 2 1"),
        (true, &[(2, "b"), (1, "a"), (2, "c")], &[], "store 1"),
        (
            true,
            &[(2, "b"), (2147483648, "a"), (2, "c")],
            &[],
            "store 1",
        ),
        (false, &[(2, "b"), (2, "a")], &[], "| store 1"),
        (false, &[(2, "b")], again, "ok ok ok ready | store 1"),
    ];
    for (keyed, cells, steps, wanted) in table {
        assert_eq!(rt;
            outcome(alloc, keyed, cells, &[], steps, 0)?.as_str(),
            wanted
        );
    }
    Ok(())
}

#[test]
fn criteria_and_columns(rt: HostRuntime) -> Result<(), Fail> {
    let alloc = rt.alloc();
    let table = rows(alloc, &[(2, "b"), (1, "a"), (3, "b")])?;
    let word = Value::Str(Text::from_str(alloc, "b")?);
    let is_b = Expr::Cmp(
        CmpOp::Eq,
        Boxed::new(alloc, Expr::Col(1))?,
        Boxed::new(alloc, Expr::Const(word))?,
    );
    let found = passing_cut(alloc, &[is_b], &[0], table.as_slice())?;
    assert_eq!(rt; shown(alloc, &found)?.as_str(), "2 3 ");
    Ok(())
}
