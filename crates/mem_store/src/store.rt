//! The journaled store.

ghost use Rattle.std.specs.Prelude.{◌≡◌};
ghost use Rattle.mem_store.specs.Store.{store_told, store_images, unread};

use crate::inner::Inner;
use gate_log::Disk;
use resource::{AttachFault, ChangeFault, ResFault, ResState, Resource, Vote};
use std::alloc::Global;
use std::marker::Model;
use vdb_base::{Failed, NoMemory, Rows};
use vdb_model::{Caps, Delta, SourceQuery, TableDefs, Xid};

/// Tables in memory, whose changes are kept in a log on a disk.
///
/// Its tables are the replay of the log: rows of tables that the definitions don't name are kept and not seen.
#[derive(Drop)]
pub struct MemStore<D: Disk> {
    inner: Inner<D>,
}

impl<D: Disk> Model for MemStore<D> {
    ghost use Rattle.mem_store.specs.Seen.{Seen};
    ghost use Rattle.vdb_model.specs.contracts.expr.Expr as e;
    ghost use Rattle.std.specs.Coded.{codes};

    ghost Value = { Seen D };

    ghost coded = { Prim.hlevel (codes, e.the_row.coded) };

    ghost use Rattle.mem_store.specs.Standing.{Standing};
    ghost use Rattle.mem_store.specs.Store.{seen_of};

    ghost view = { λ s. seen_of s.inner };

    ghost invariant = { λ s. Standing D.told D.images s.inner };
}

/// What a journaled store can do.
const CAPS: Caps = Caps {
    equals: true,
    ordered: true,
    in_max: 1000,
    is_null: true,
    like: true,
    or: true,
    not: true,
    joins: false,
    distinct: false,
    order: false,
    limit: false,
    count_star: false,
    wide: true,
    writes: true,
};

impl<D: Disk> MemStore<D> {
    /// A store over a disk. It is attached first; nothing is read before.
    pub fn new(alloc: Global, disk: D) -> MemStore<D>
        ensures { result ≡ unread disk }
    {
        MemStore {
            inner: Inner::new(alloc, disk),
        }
    }

    /// Gives the disk back.
    pub fn into_disk(self) -> D
        ensures { result ≡ self.disk }
    {
        let MemStore { inner } = self;
        let Inner {
            log,
            records: _,
            own_faults: _,
            attached: _,
            state: _,
            reserved: _,
            asked: _,
        } = inner;
        log.into_disk()
    }
}

impl<D: Disk + Send + Drop> Resource for MemStore<D> {
    ghost use Rattle.mem_store.specs.Changes.{store_needs};

    ghost told = { store_told D.told };

    ghost images = { store_images D.told D.images };

    ghost needs = { store_needs };

    fn caps(&self) -> Caps {
        CAPS
    }

    fn state(&self) -> ResState {
        self.inner.state
    }

    fn attach(&mut self, alloc: Global, defs: &TableDefs) -> Result<(), AttachFault> {
        self.inner.attach(alloc, defs)
    }

    fn clear_asked(&mut self) {
        self.inner.asked.clear();
    }

    fn query(&mut self, alloc: Global, q: &SourceQuery) -> Result<Rows, ResFault> {
        self.inner.query(alloc, q)
    }

    fn start(&mut self, x: Xid) -> Result<(), Failed> {
        self.inner.start(x)
    }

    fn change(&mut self, alloc: Global, delta: &Delta) -> Result<(), ChangeFault> {
        self.inner.change(alloc, delta)
    }

    fn end(&mut self, x: Xid) -> Result<(), Failed> {
        self.inner.end(x)
    }

    fn prepare(&mut self, alloc: Global, x: Xid) -> Result<Vote, ResFault> {
        self.inner.prepare(alloc, x)
    }

    fn reserve_one_phase(&mut self, alloc: Global) -> Result<(), NoMemory> {
        self.inner.reserve_one_phase(alloc)
    }

    fn commit(&mut self, x: Xid, one_phase: bool) -> Result<(), Failed> {
        if one_phase {
            self.inner.commit_ended(x)
        } else {
            self.inner.commit_prepared(x)
        }
    }

    fn rollback(&mut self, x: Xid) -> Result<(), Failed> {
        self.inner.rollback(x)
    }

    fn recover(&mut self) -> Result<Option<Xid>, Failed> {
        match self.inner.state {
            ResState::Prepared(x) => Ok(Some(x)),
            _ => Ok(None),
        }
    }

    fn reopen(&mut self, alloc: Global) -> Result<(), ResFault> {
        self.inner.reopen(alloc)
    }
}
