//! A resource in memory.

ghost use Rattle.std.specs.Prelude.{◌≡◌, true, is_some, is_err, IfOk, IfSome, OnOk, IsSome};
ghost use Rattle.resource.specs.Holding.{is_kept_well};
ghost use Rattle.resource.specs.Fields.{fields_of};
ghost use Rattle.resource.specs.Single as single;

use crate::inner::Inner;
use crate::mode::{Side, state_of};
use crate::resource::{AttachFault, ChangeFault, ResFault, ResState, Resource, Vote};
use crate::stored::Tables;
use std::alloc::Global;
use vdb_base::{Failed, NoMemory, Nums, Rows};
use vdb_model::{Caps, Delta, SourceQuery, TableDefs, Xid};

/// Whether rows of one table at a time are all that can be asked, by any criteria.
pub fn asks_one_table(caps: Caps) -> bool
    ensures { result ≡ single.asks_one_table caps }
{
    !caps.joins && !caps.distinct && !caps.order && !caps.limit && !caps.count_star
}

/// Tables in memory, by their source names; a table that isn't stored is empty.
///
/// Its k-th call that can answer Failed, from 1, fails where `fails` lists k, and no other does. It keeps no log, and its
/// calls without an allocator take no memory.
#[derive(Drop)]
pub struct MemResource {
    inner: Inner,
    ghost kept_well: { is_kept_well (fields_of inner) ≡ true },
}

impl MemResource {
    ghost use Rattle.vdb_base.specs.Calls.{uncalled};
    ghost use Rattle.resource.specs.MemResource.{held, calls_of, mem_told, unattached, IsStopped};

    /// Takes no memory. `asks_one_table` is the test of the capabilities.
    pub fn new(alloc: Global, stored: Tables, caps: Caps, fails: Nums) -> MemResource
        requires { single.asks_one_table caps ≡ true }
        ensures told { mem_told result ≡ unattached stored caps }
        ensures calls { calls_of result ≡ uncalled fails }
    {
        MemResource {
            inner: Inner::new(alloc, stored, caps, fails),
        }
    }

    /// The resource that a stop leaves, which is to be attached again. Where a call that failed left two images, image 0
    /// is the one that a `reopen` reads, and every other number stands for the other. Its calls go on being counted.
    pub fn stopped(self, image: u32) -> Result<MemResource, NoMemory>
        ensures told { IfOk result (λ left. IsStopped image (held self) (held left)) }
    {
        let MemResource { mut inner } = self;
        inner.stop(image);
        Ok(MemResource { inner })
    }
}

impl Resource for MemResource {
    ghost use Rattle.vdb_model.specs.declared.source.Delta.{Delta};
    ghost use Rattle.vdb_model.specs.declared.table.TableDef.{TableDef};
    ghost use Rattle.resource.specs.declared.resource.ResState.TheVariants as state;
    ghost use Rattle.resource.specs.Reading.{IsAttachAnswer};
    ghost use Rattle.resource.specs.Told.{IsWorld, Lowers, defs_in, is_settled};
    ghost use Rattle.resource.specs.Images.{Same, Fewer};
    ghost use Rattle.resource.specs.Needs.{IsIn, IsAtHand, MayStart, MayCommit, HasBranch, MayReserve, MayAttach};
    ghost use Rattle.resource.specs.Asks.{Allows, FitRows, AnswersQuery};
    ghost use Rattle.resource.specs.Changing.{MayChange, IsChangeAnswer};
    ghost use Rattle.resource.specs.Leaves.{Attaches, Queries, Moves, Changes, Prepares, PrepareStops, Reserves, Finishes, CommitStops, RollbackStops, Recovers, Reopens, unasked, committed, reverted};
    ghost use Rattle.resource.specs.Failing.{attach_failed, change_failed, res_failed};
    ghost use Rattle.resource.specs.MemResource.{mem_told, mem_images, calls_of, CallsByList};

    ghost told = { mem_told };

    ghost images = { mem_images };

    ghost needs = { λ defs deltas. 0 };

    fn caps(&self) -> Caps {
        self.inner.caps
    }

    fn state(&self) -> ResState {
        state_of(self.inner.mode)
    }

    fn attach(&mut self, alloc: Global, defs: &TableDefs) -> Result<(), AttachFault>
        requires { MayAttach defs.now (mem_told self.old) }
        ensures answer { IfSome (mem_told self.old).reads (λ reads. IsAttachAnswer (reads defs.now) result) }
        ensures leaves { Attaches defs.now (mem_told self.old) (mem_told self.new) (mem_images self.new) result }
        ensures settled { OnOk result (is_settled (mem_told self.new).state ≡ true) }
        ensures spare { is_some (mem_told self.new).spare ≡ is_some (mem_told self.old).spare }
        ensures stops { Fewer (mem_images self.old) (mem_images self.new) }
        ensures by_list { CallsByList (calls_of self.old) (calls_of self.new) (attach_failed result) }
    {
        self.inner.attach(alloc, defs)
    }

    fn clear_asked(&mut self)
        ensures leaves { mem_told self.new ≡ unasked (mem_told self.old) }
        ensures stops { Same (mem_images self.old) (mem_images self.new) }
        ensures calls { calls_of self.new ≡ calls_of self.old }
    {
        self.inner.asked.clear();
    }

    fn query(&mut self, alloc: Global, q: &SourceQuery) -> Result<Rows, ResFault>
        requires { Allows (mem_told self.old) q.now }
        ensures answer { IfOk result (λ rows. AnswersQuery (mem_told self.old) q.now rows) }
        ensures fit { IfOk result (λ rows. FitRows (mem_told self.old) q.now rows) }
        ensures world { OnOk result (IsWorld (mem_told self.old)) }
        ensures leaves { Queries q.now (mem_told self.old) (mem_told self.new) result }
        ensures stops { Same (mem_images self.old) (mem_images self.new) }
        ensures by_list { CallsByList (calls_of self.old) (calls_of self.new) (res_failed result) }
    {
        self.inner.query(alloc, q)
    }

    fn start(&mut self, x: Xid) -> Result<(), Failed>
        requires { MayStart (mem_told self.old) }
        ensures leaves { Moves (state.Active x) (mem_told self.old) (mem_told self.new) (mem_images self.new) result }
        ensures stops { Same (mem_images self.old) (mem_images self.new) }
        ensures by_list { CallsByList (calls_of self.old) (calls_of self.new) (is_err result) }
    {
        self.inner.start(x)
    }

    fn change(&mut self, alloc: Global, delta: &Delta) -> Result<(), ChangeFault>
        requires { MayChange (mem_told self.old) delta.now }
        ensures answer { IsChangeAnswer (λ defs deltas. 0) (mem_told self.old) delta.now result }
        ensures world { OnOk result (IsWorld (mem_told self.new)) }
        ensures leaves { Changes delta.now (mem_told self.old) (mem_told self.new) (mem_images self.new) result }
        ensures stops { Same (mem_images self.old) (mem_images self.new) }
        ensures by_list { CallsByList (calls_of self.old) (calls_of self.new) (change_failed result) }
    {
        self.inner.change(alloc, delta)
    }

    fn end(&mut self, x: Xid) -> Result<(), Failed>
        requires { IsIn (state.Active x) (mem_told self.old) }
        ensures leaves { Moves (state.Ended x) (mem_told self.old) (mem_told self.new) (mem_images self.new) result }
        ensures stops { Same (mem_images self.old) (mem_images self.new) }
        ensures by_list { CallsByList (calls_of self.old) (calls_of self.new) (is_err result) }
    {
        self.inner.end(x)
    }

    fn prepare(&mut self, _alloc: Global, x: Xid) -> Result<Vote, ResFault>
        requires { IsIn (state.Ended x) (mem_told self.old) }
        ensures leaves { Prepares x (mem_told self.old) (mem_told self.new) (mem_images self.new) result }
        ensures spare { Lowers (mem_told self.old).spare (mem_told self.new).spare }
        ensures stops { PrepareStops x (mem_told self.old) (mem_images self.old) (mem_images self.new) result }
        ensures by_list { CallsByList (calls_of self.old) (calls_of self.new) (res_failed result) }
    {
        self.inner.prepare(x)
    }

    fn reserve_one_phase(&mut self, _alloc: Global) -> Result<(), NoMemory>
        requires { MayReserve (mem_told self.old) }
        ensures leaves { Reserves (mem_told self.old) (mem_told self.new) result }
        ensures stops { Same (mem_images self.old) (mem_images self.new) }
        ensures calls { calls_of self.new ≡ calls_of self.old }
    {
        self.inner.reserved = true;
        Ok(())
    }

    fn commit(&mut self, x: Xid, one_phase: bool) -> Result<(), Failed>
        requires { MayCommit x one_phase (mem_told self.old) }
        ensures leaves { Finishes (committed (defs_in (mem_told self.old))) (mem_told self.old) (mem_told self.new) (mem_images self.new) result }
        ensures spare { Lowers (mem_told self.old).spare (mem_told self.new).spare }
        ensures stops { CommitStops (mem_told self.old) (mem_images self.old) (mem_images self.new) result }
        ensures by_list { CallsByList (calls_of self.old) (calls_of self.new) (is_err result) }
    {
        self.inner.finish(Side::Done)
    }

    fn rollback(&mut self, x: Xid) -> Result<(), Failed>
        requires { HasBranch x (mem_told self.old) }
        ensures leaves { Finishes reverted (mem_told self.old) (mem_told self.new) (mem_images self.new) result }
        ensures spare { Lowers (mem_told self.old).spare (mem_told self.new).spare }
        ensures stops { RollbackStops (mem_told self.old) (mem_images self.old) (mem_images self.new) result }
        ensures by_list { CallsByList (calls_of self.old) (calls_of self.new) (is_err result) }
    {
        self.inner.finish(Side::Plain)
    }

    fn recover(&mut self) -> Result<Option<Xid>, Failed>
        requires { IsAtHand (mem_told self.old) }
        ensures leaves { Recovers (mem_told self.old) (mem_told self.new) result }
        ensures stops { Same (mem_images self.old) (mem_images self.new) }
        ensures by_list { CallsByList (calls_of self.old) (calls_of self.new) (is_err result) }
    {
        self.inner.recover()
    }

    fn reopen(&mut self, _alloc: Global) -> Result<(), ResFault>
        requires { IsSome (mem_told self.old).defs }
        ensures leaves { Reopens (mem_told self.old) (mem_told self.new) (mem_images self.new) result }
        ensures settled { OnOk result (is_settled (mem_told self.new).state ≡ true) }
        ensures spare { is_some (mem_told self.new).spare ≡ is_some (mem_told self.old).spare }
        ensures stops { Fewer (mem_images self.old) (mem_images self.new) }
        ensures by_list { CallsByList (calls_of self.old) (calls_of self.new) (res_failed result) }
    {
        self.inner.reopen()
    }
}
