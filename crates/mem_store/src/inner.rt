//! The fields of a journaled store, and the calls that ask or only move its state.

ghost use Rattle.std.specs.Prelude.{◌≡◌, IfOk, OnOk};
ghost use Rattle.resource.specs.declared.resource.ResState.TheVariants as state;
ghost use Rattle.resource.specs.Told.{IsWorld};
ghost use Rattle.resource.specs.Images.{Same};
ghost use Rattle.resource.specs.Needs.{IsIn, MayStart};
ghost use Rattle.resource.specs.Asks.{Allows, FitRows, AnswersQuery};
ghost use Rattle.resource.specs.Leaves.{Moves, Queries};

use crate::attached::Attached;
use gate_log::{Disk, Log};
use resource::{ResFault, ResState};
use std::alloc::Global;
use vdb_base::{Failed, Rows};
use vdb_model::{SourceQuery, Xid};

#[derive(Drop)]
pub struct Inner<D> {
    pub log: Log<D>,
    /// How many records of the log it knows.
    pub records: u64,
    /// The reopenings that found a store that breaks its form or its definitions. It stays at its last value.
    pub own_faults: u64,
    pub attached: Option<Attached>,
    pub state: ResState,
    /// The frame of a commit in one phase.
    pub reserved: Option<Vec<u8>>,
    pub asked: Vec<SourceQuery>,
}

impl<D: Disk> Inner<D> {
    ghost use Rattle.mem_store.specs.Standing.{Standing};
    ghost use Rattle.mem_store.specs.Store.{store_told, store_images, seen_of, unread};

    pub fn new(alloc: Global, disk: D) -> Inner<D>
        ensures seen { seen_of result ≡ unread disk }
        ensures stands { Standing D.told D.images result }
    {
        Inner {
            log: Log::closed(disk),
            records: 0,
            own_faults: 0,
            attached: None,
            state: ResState::Idle,
            reserved: None,
            asked: Vec::new(alloc),
        }
    }

    pub fn query(&mut self, alloc: Global, q: &SourceQuery) -> Result<Rows, ResFault>
        requires may { Allows (store_told D.told (seen_of self.old)) q.now }
        requires stands { Standing D.told D.images self.old }
        ensures answer { IfOk result (λ rows. AnswersQuery (store_told D.told (seen_of self.old)) q.now rows) }
        ensures fit { IfOk result (λ rows. FitRows (store_told D.told (seen_of self.old)) q.now rows) }
        ensures world { OnOk result (IsWorld (store_told D.told (seen_of self.old))) }
        ensures leaves { Queries q.now (store_told D.told (seen_of self.old)) (store_told D.told (seen_of self.new)) result }
        ensures stops { Same (store_images D.told D.images (seen_of self.old)) (store_images D.told D.images (seen_of self.new)) }
        ensures stands { Standing D.told D.images self.new }
    {
        let Some(attached) = &self.attached else {
            return Err(ResFault::Memory);
        };
        let Ok(rows) = attached.answer(alloc, q) else {
            return Err(ResFault::Memory);
        };
        let Ok(copied) = q.copy(alloc) else {
            return Err(ResFault::Memory);
        };
        if self.asked.push(copied).is_err() {
            return Err(ResFault::Memory);
        }
        Ok(rows)
    }

    pub fn start(&mut self, x: Xid) -> Result<(), Failed>
        requires may { MayStart (store_told D.told (seen_of self.old)) }
        requires stands { Standing D.told D.images self.old }
        ensures leaves { Moves (state.Active x) (store_told D.told (seen_of self.old)) (store_told D.told (seen_of self.new)) (store_images D.told D.images (seen_of self.new)) result }
        ensures stops { Same (store_images D.told D.images (seen_of self.old)) (store_images D.told D.images (seen_of self.new)) }
        ensures stands { Standing D.told D.images self.new }
    {
        self.state = ResState::Active(x);
        Ok(())
    }

    pub fn end(&mut self, x: Xid) -> Result<(), Failed>
        requires may { IsIn (state.Active x) (store_told D.told (seen_of self.old)) }
        requires stands { Standing D.told D.images self.old }
        ensures leaves { Moves (state.Ended x) (store_told D.told (seen_of self.old)) (store_told D.told (seen_of self.new)) (store_images D.told D.images (seen_of self.new)) result }
        ensures stops { Same (store_images D.told D.images (seen_of self.old)) (store_images D.told D.images (seen_of self.new)) }
        ensures stands { Standing D.told D.images self.new }
    {
        self.state = ResState::Ended(x);
        Ok(())
    }
}
