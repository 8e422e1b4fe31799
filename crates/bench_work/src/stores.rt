//! Rows that come into a journaled store over a file, and the store attached again.

ghost use Rattle.std.specs.Prelude.{◌≡◌, true, false, [], ◌∷◌, IfOk, OnOk, Some, None};
ghost use Rattle.vdb_model.specs.Defs.{def_of, is_defined};
ghost use Rattle.vdb_model.specs.World as world;
ghost use Rattle.resource.specs.Told as told;

use crate::Fault;
use gate_log::FileDisk;
use mem_store::MemStore;
use resource::{ResState, Resource, Vote, takes_rows};
use sqlite_items::Items;
use std::alloc::Global;
use std::fs::File;
use vdb_base::{NoMemory, Row, Rows, Seq, Text, Ty, Value};
use vdb_model::{ColumnDef, Delta, SourceQuery, TableDef, TableDefs, Xid, are_fit};

const BRANCH: Xid = Xid { epoch: 1, seq: 1 };

/// The definition of orders: an id, which is the key, and a note.
#[derive(Drop)]
struct Orders {
    defs: TableDefs,
    ghost defined: { is_defined defs 0 ≡ true },
    ghost free: { (def_of defs 0).patterns ≡ [] },
}

fn column(alloc: Global, name: &str, ty: Ty) -> Result<ColumnDef, NoMemory> {
    Ok(ColumnDef {
        name: Text::from_str(alloc, name)?,
        source: Text::from_str(alloc, name)?,
        ty,
        not_null: true,
    })
}

fn made_orders(alloc: Global) -> Result<Orders, NoMemory> {
    let id = column(alloc, "id", Ty::Integer)?;
    let note = column(alloc, "note", Ty::Str)?;
    let orders = TableDef {
        number: 0,
        server: 0,
        schema: Text::from_str(alloc, "s")?,
        name: Text::from_str(alloc, "orders")?,
        source: Text::from_str(alloc, "orders")?,
        columns: Seq::from_vec(vec![in alloc; id, note]?),
        key: Some(Seq::from_vec(vec![in alloc; 0]?)),
        patterns: Seq::new(alloc),
        updatable: true,
    };
    let defs = Seq::from_vec(vec![in alloc; orders]?);
    Ok(Orders { defs })
}

fn row(alloc: Global, id: u32) -> Result<Row, NoMemory> {
    let note = Value::Str(Text::from_str(alloc, "a note")?);
    Ok(Seq::from_vec(vec![in alloc; Value::Num(i128::from(id)), note]?))
}

/// So many orders from an id on.
fn made(alloc: Global, first: u32, count: u32) -> Result<Rows, NoMemory> {
    let mut rows = Seq::new(alloc);
    for id in first..first.saturating_add(count) {
        rows.push(row(alloc, id)?)?;
    }
    Ok(rows)
}

impl Orders {
    /// Whether the columns take the rows.
    fn take(&self, rows: &[Row]) -> bool
        ensures { result ≡ true → world.takes_rows (def_of self.now.defs 0).columns rows.now ≡ true }
    {
        match self.defs.as_slice() {
            [def, ..] => def.number == 0 && takes_rows(def.columns.as_slice(), rows),
            [] => false,
        }
    }
}

fn is_lost(state: ResState) -> bool
    ensures { result ≡ told.is_lost state }
{
    matches!(state, ResState::Lost)
}

/// Attaches the orders.
fn attach<R: Resource>(alloc: Global, store: &mut R, orders: &Orders) -> Result<(), Fault>
    ensures attached { OnOk result ((R.told store.new).defs ≡ Some orders.now.defs) }
{
    if !are_fit(&store.caps(), &orders.defs) || is_lost(store.state()) {
        return Err(Fault::File);
    }
    match store.attach(alloc, &orders.defs) {
        Ok(()) => Ok(()),
        Err(_) => Err(Fault::File),
    }
}

/// Adds so many orders in one change.
fn add<R: Resource>(
    alloc: Global,
    store: &mut R,
    orders: &Orders,
    first: u32,
    count: u32,
) -> Result<(), Fault>
    requires attached { (R.told store.old).defs ≡ Some orders.now.defs }
    ensures attached { (R.told store.new).defs ≡ Some orders.now.defs }
{
    let added = made(alloc, first, count)?;
    if !matches!(store.state(), ResState::Active(_)) || !orders.take(added.as_slice()) {
        return Err(Fault::File);
    }
    let delta = Delta {
        table: 0,
        removed: Seq::new(alloc),
        added,
    };
    match store.change(alloc, &delta) {
        Ok(()) => Ok(()),
        Err(_) => Err(Fault::File),
    }
}

/// Begins a branch.
fn begin<R: Resource>(store: &mut R, orders: &Orders) -> Result<(), Fault>
    requires attached { (R.told store.old).defs ≡ Some orders.now.defs }
    ensures attached { OnOk result ((R.told store.new).defs ≡ Some orders.now.defs) }
{
    if !store.caps().writes || !matches!(store.state(), ResState::Idle) {
        return Err(Fault::File);
    }
    match store.start(BRANCH) {
        Ok(()) => Ok(()),
        Err(_) => Err(Fault::File),
    }
}

/// Commits the branch in two phases.
fn commit<R: Resource>(alloc: Global, store: &mut R, orders: &Orders) -> Result<(), Fault>
    requires attached { (R.told store.old).defs ≡ Some orders.now.defs }
{
    let ResState::Active(x) = store.state() else {
        return Err(Fault::File);
    };
    if store.end(x).is_err() {
        return Err(Fault::File);
    }
    let ResState::Ended(x) = store.state() else {
        return Err(Fault::File);
    };
    match store.prepare(alloc, x) {
        Ok(Vote::Ready) => {}
        _ => return Err(Fault::File),
    }
    let ResState::Prepared(x) = store.state() else {
        return Err(Fault::File);
    };
    match store.commit(x, false) {
        Ok(()) => Ok(()),
        Err(_) => Err(Fault::File),
    }
}

/// Adds so many orders to an attached store in one branch, so many in each change.
fn fill<R: Resource>(
    alloc: Global,
    store: &mut R,
    orders: &Orders,
    count: u32,
    each: u32,
) -> Result<(), Fault>
    requires attached { (R.told store.old).defs ≡ Some orders.now.defs }
{
    begin(store, orders)?;
    let mut first = 0;
    for _ in 0..count.checked_div(each).unwrap_or(0) {
        add(alloc, store, orders, first, each)?;
        first = first.saturating_add(each);
    }
    commit(alloc, store, orders)
}

/// All orders, whole.
fn everything(alloc: Global) -> Result<SourceQuery, NoMemory>
    ensures { IfOk result (λ q. q ≡ record { tables = 0 ∷ []; filter = []; columns = 0 ∷ 1 ∷ []; distinct = false; order = []; limit = None; count = false }) }
{
    Ok(SourceQuery {
        tables: Seq::from_vec(vec![in alloc; 0]?),
        filter: Items::from_vec(Vec::new(alloc)),
        columns: Seq::from_vec(vec![in alloc; 0, 1]?),
        distinct: false,
        order: Seq::new(alloc),
        limit: None,
        count: false,
    })
}

fn is_open(state: ResState) -> bool
    ensures { result ≡ told.is_open state }
{
    matches!(state, ResState::Idle | ResState::Active(_))
}

/// How many orders there are.
fn counted<R: Resource>(alloc: Global, store: &mut R, orders: &Orders) -> Result<usize, Fault>
    requires attached { (R.told store.old).defs ≡ Some orders.now.defs }
{
    let q = everything(alloc)?;
    if !is_open(store.state()) || !store.caps().can(&q, &orders.defs) {
        return Err(Fault::File);
    }
    match store.query(alloc, &q) {
        Ok(rows) => Ok(rows.len()),
        Err(_) => Err(Fault::File),
    }
}

/// A new store over an empty file with so many orders, which came in one branch, so many in each change.
pub fn filled(alloc: Global, file: File, count: u32, each: u32) -> Result<u32, Fault> {
    let orders = made_orders(alloc)?;
    let mut store = MemStore::new(alloc, FileDisk::new(file));
    attach(alloc, &mut store, &orders)?;
    fill(alloc, &mut store, &orders, count, each)?;
    Ok(count)
}

/// How many orders the store over a file has.
pub fn held(alloc: Global, file: File) -> Result<usize, Fault> {
    let orders = made_orders(alloc)?;
    let mut store = MemStore::new(alloc, FileDisk::new(file));
    attach(alloc, &mut store, &orders)?;
    counted(alloc, &mut store, &orders)
}
