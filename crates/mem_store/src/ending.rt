//! The calls of a journaled store that prepare or end a branch.

ghost use Rattle.std.specs.Prelude.{◌≡◌, ◌≤◌, true, IfSome, MatchOption, length, nat_eq};
ghost use Rattle.gate_log.specs.Log.{IsOpen, left_of};
ghost use Rattle.gate_log.specs.Appending.{IsFrame, payload_of};
ghost use Rattle.mem_store.specs.Appends.{Appending};
ghost use Rattle.resource.specs.declared.resource.ResState.TheVariants as state;
ghost use Rattle.resource.specs.Told.{Lowers, defs_in};
ghost use Rattle.resource.specs.Images.{Same};
ghost use Rattle.resource.specs.Needs.{IsIn, MayCommit, HasBranch, MayReserve};
ghost use Rattle.resource.specs.Leaves.{Prepares, PrepareStops, Reserves, Finishes, CommitStops, RollbackStops, committed, reverted};

use crate::inner::Inner;
use gate_log::{Disk, Log};
use resource::{ResFault, ResState, Vote};
use std::alloc::Global;
use store_records::{Ending, Form, ending_frame};
use vdb_base::{Failed, NoMemory};
use vdb_model::Xid;

/// Appends a record that has room.
fn append<D: Disk>(log: &mut Log<D>, frame: &[u8]) -> Result<(), Failed>
    requires ready { IsOpen D.told D.images log.old }
    requires form { IsFrame frame.now }
    requires room { length frame.now ≤ left_of log.old }
    ensures { Appending D.told D.images (payload_of frame.now) (length frame.now) log.old log.new result }
{
    match log.append(frame) {
        Ok(()) => Ok(()),
        Err(_) => Err(Failed),
    }
}

impl<D: Disk> Inner<D> {
    ghost use Rattle.mem_store.specs.Standing.{Standing};
    ghost use Rattle.mem_store.specs.Store.{store_told, store_images, seen_of};
    ghost use Rattle.mem_store.specs.Taking.{IsDropped};
    ghost use Rattle.mem_store.specs.Writing.{Writes, Keeps, TakesBack};

    /// Appends a record that has room. The store is in this state then, or lost where that failed.
    fn write(&mut self, frame: &[u8], then: ResState) -> Result<(), Failed>
        requires ready { IsOpen D.told D.images self.old.log }
        requires form { IsFrame frame.now }
        requires room { length frame.now ≤ left_of self.old.log }
        ensures logs { Appending D.told D.images (payload_of frame.now) (length frame.now) self.old.log self.new.log result }
        ensures leaves { Writes then self.old self.new result }
    {
        match append(&mut self.log, frame) {
            Ok(()) => {
                self.records = self.records.saturating_add(1);
                self.state = then;
                Ok(())
            }
            Err(failed) => {
                self.state = ResState::Lost;
                Err(failed)
            }
        }
    }

    /// Keeps what the branch's changes made.
    fn keep(&mut self)
        ensures { MatchOption self.old.attached (self.new ≡ self.old) (Keeps self.old self.new) }
    {
        match &mut self.attached {
            Some(attached) => attached.keep(),
            None => {}
        }
    }

    /// Takes back what the branch's changes made.
    fn take_back(&mut self)
        ensures { MatchOption self.old.attached (self.new ≡ self.old) (TakesBack self.old self.new) }
    {
        match &mut self.attached {
            Some(attached) => attached.take_back(),
            None => {}
        }
    }

    pub fn prepare(&mut self, alloc: Global, x: Xid) -> Result<Vote, ResFault>
        requires may { IsIn (state.Ended x) (store_told D.told (seen_of self.old)) }
        requires stands { Standing D.told D.images self.old }
        ensures leaves { Prepares x (store_told D.told (seen_of self.old)) (store_told D.told (seen_of self.new)) (store_images D.told D.images (seen_of self.new)) result }
        ensures spare { Lowers (store_told D.told (seen_of self.old)).spare (store_told D.told (seen_of self.new)).spare }
        ensures stops { PrepareStops x (store_told D.told (seen_of self.old)) (store_images D.told D.images (seen_of self.old)) (store_images D.told D.images (seen_of self.new)) result }
        ensures stands { Standing D.told D.images self.new }
    {
        self.reserved = None;
        let Some(attached) = &self.attached else {
            return Err(ResFault::Memory);
        };
        if attached.deltas.is_empty() {
            self.state = ResState::Idle;
            return Ok(Vote::ReadOnly);
        }
        let Ok(frame) = attached.frame(alloc, Form::Prepared, x) else {
            return Err(ResFault::Memory);
        };
        match self.write(frame.as_slice(), ResState::Prepared(x)) {
            Ok(()) => Ok(Vote::Ready),
            Err(_) => Err(ResFault::Failed),
        }
    }

    pub fn reserve_one_phase(&mut self, alloc: Global) -> Result<(), NoMemory>
        requires may { MayReserve (store_told D.told (seen_of self.old)) }
        requires stands { Standing D.told D.images self.old }
        ensures leaves { Reserves (store_told D.told (seen_of self.old)) (store_told D.told (seen_of self.new)) result }
        ensures stops { Same (store_images D.told D.images (seen_of self.old)) (store_images D.told D.images (seen_of self.new)) }
        ensures stands { Standing D.told D.images self.new }
    {
        let (Some(attached), ResState::Ended(x)) = (&self.attached, self.state) else {
            return Err(NoMemory);
        };
        let Ok(frame) = attached.frame(alloc, Form::OnePhase, x) else {
            return Err(NoMemory);
        };
        self.reserved = Some(frame);
        Ok(())
    }

    /// Commits the prepared branch.
    pub fn commit_prepared(&mut self, x: Xid) -> Result<(), Failed>
        requires may { IsIn (state.Prepared x) (store_told D.told (seen_of self.old)) }
        requires stands { Standing D.told D.images self.old }
        ensures leaves { Finishes (committed (defs_in (store_told D.told (seen_of self.old)))) (store_told D.told (seen_of self.old)) (store_told D.told (seen_of self.new)) (store_images D.told D.images (seen_of self.new)) result }
        ensures spare { Lowers (store_told D.told (seen_of self.old)).spare (store_told D.told (seen_of self.new)).spare }
        ensures stops { CommitStops (store_told D.told (seen_of self.old)) (store_images D.told D.images (seen_of self.old)) (store_images D.told D.images (seen_of self.new)) result }
        ensures stands { Standing D.told D.images self.new }
    {
        match self.write(&ending_frame(Ending::Committed, x), ResState::Idle) {
            Ok(()) => {
                self.keep();
                Ok(())
            }
            Err(failed) => Err(failed),
        }
    }

    fn is_unchanged(&self) -> bool
        ensures { IfSome self.now.attached (λ a. result ≡ nat_eq (length a.deltas.items) 0) }
    {
        match &self.attached {
            Some(attached) => attached.deltas.is_empty(),
            None => true,
        }
    }

    /// Commits the ended branch at once. Where nothing was changed, nothing is written.
    pub fn commit_ended(&mut self, x: Xid) -> Result<(), Failed>
        requires may { MayCommit x true (store_told D.told (seen_of self.old)) }
        requires stands { Standing D.told D.images self.old }
        ensures leaves { Finishes (committed (defs_in (store_told D.told (seen_of self.old)))) (store_told D.told (seen_of self.old)) (store_told D.told (seen_of self.new)) (store_images D.told D.images (seen_of self.new)) result }
        ensures spare { Lowers (store_told D.told (seen_of self.old)).spare (store_told D.told (seen_of self.new)).spare }
        ensures stops { CommitStops (store_told D.told (seen_of self.old)) (store_images D.told D.images (seen_of self.old)) (store_images D.told D.images (seen_of self.new)) result }
        ensures stands { Standing D.told D.images self.new }
    {
        let Some(frame) = self.reserved.take() else {
            return Err(Failed);
        };
        if self.is_unchanged() {
            self.state = ResState::Idle;
            self.keep();
            return Ok(());
        }
        match self.write(frame.as_slice(), ResState::Idle) {
            Ok(()) => {
                self.keep();
                Ok(())
            }
            Err(failed) => Err(failed),
        }
    }

    /// Drops the prepared branch.
    pub fn roll_back_prepared(&mut self, x: Xid) -> Result<(), Failed>
        requires may { IsIn (state.Prepared x) (store_told D.told (seen_of self.old)) }
        requires stands { Standing D.told D.images self.old }
        ensures leaves { Finishes reverted (store_told D.told (seen_of self.old)) (store_told D.told (seen_of self.new)) (store_images D.told D.images (seen_of self.new)) result }
        ensures spare { Lowers (store_told D.told (seen_of self.old)).spare (store_told D.told (seen_of self.new)).spare }
        ensures stops { RollbackStops (store_told D.told (seen_of self.old)) (store_images D.told D.images (seen_of self.old)) (store_images D.told D.images (seen_of self.new)) result }
        ensures stands { Standing D.told D.images self.new }
    {
        match self.write(&ending_frame(Ending::RolledBack, x), ResState::Idle) {
            Ok(()) => {
                self.take_back();
                Ok(())
            }
            Err(failed) => Err(failed),
        }
    }

    /// Drops a branch that isn't prepared. Nothing is written.
    pub fn drop_branch(&mut self)
        requires stands { Standing D.told D.images self.old }
        ensures { IsDropped D.told D.images self.old self.new }
    {
        self.reserved = None;
        self.state = ResState::Idle;
        self.take_back();
    }

    pub fn rollback(&mut self, x: Xid) -> Result<(), Failed>
        requires may { HasBranch x (store_told D.told (seen_of self.old)) }
        requires stands { Standing D.told D.images self.old }
        ensures leaves { Finishes reverted (store_told D.told (seen_of self.old)) (store_told D.told (seen_of self.new)) (store_images D.told D.images (seen_of self.new)) result }
        ensures spare { Lowers (store_told D.told (seen_of self.old)).spare (store_told D.told (seen_of self.new)).spare }
        ensures stops { RollbackStops (store_told D.told (seen_of self.old)) (store_images D.told D.images (seen_of self.old)) (store_images D.told D.images (seen_of self.new)) result }
        ensures stands { Standing D.told D.images self.new }
    {
        match self.state {
            ResState::Prepared(_) => self.roll_back_prepared(x),
            _ => {
                self.drop_branch();
                Ok(())
            }
        }
    }
}
