//! Attaching definitions to a journaled store, and reading it again.

ghost use Rattle.std.specs.Prelude.{◌≡◌, true, IfSome, OnOk, IsSome};
ghost use Rattle.resource.specs.declared.resource.ResState.TheVariants as state;
ghost use Rattle.resource.specs.Reading.{IsAttachAnswer};
ghost use Rattle.resource.specs.Told.{is_settled};
ghost use Rattle.resource.specs.Images.{Fewer};
ghost use Rattle.resource.specs.Needs.{IsAtHand, IsIn, MayAttach};
ghost use Rattle.resource.specs.Leaves.{Attaches, Reopens};

use crate::attached::Attached;
use crate::inner::Inner;
use gate_log::Disk;
use resource::{AttachFault, ResFault, ResState};
use std::alloc::Global;
use store_replay::{Opened, Waiting, open_store, read_store};
use vdb_model::TableDefs;

impl<D: Disk> Inner<D> {
    ghost use Rattle.mem_store.specs.Standing.{Standing};
    ghost use Rattle.mem_store.specs.Counting.{CountsFault};
    ghost use Rattle.mem_store.specs.Taking.{Takes};
    ghost use Rattle.mem_store.specs.Store.{store_told, store_images, seen_of};

    pub fn attach(&mut self, alloc: Global, defs: &TableDefs) -> Result<(), AttachFault>
        requires may { MayAttach defs.now (store_told D.told (seen_of self.old)) }
        requires stands { Standing D.told D.images self.old }
        ensures answer { IfSome (store_told D.told (seen_of self.old)).reads (λ reads. IsAttachAnswer (reads defs.now) result) }
        ensures leaves { Attaches defs.now (store_told D.told (seen_of self.old)) (store_told D.told (seen_of self.new)) (store_images D.told D.images (seen_of self.new)) result }
        ensures settled { OnOk result (is_settled (store_told D.told (seen_of self.new)).state ≡ true) }
        ensures stops { Fewer (store_images D.told D.images (seen_of self.old)) (store_images D.told D.images (seen_of self.new)) }
        ensures stands { Standing D.told D.images self.new }
    {
        self.attached = None;
        self.reserved = None;
        let Ok(defs) = defs.copy(alloc) else {
            return Err(AttachFault::Memory);
        };
        match open_store(alloc, &mut self.log, defs) {
            Ok(opened) => {
                self.take(alloc, opened);
                Ok(())
            }
            Err(fault) => Err(fault),
        }
    }

    /// Reads a lost store again. What a call that failed wrote, or didn't write, shows then.
    fn reopen_lost(&mut self, alloc: Global) -> Result<(), ResFault>
        requires may { IsIn state.Lost (store_told D.told (seen_of self.old)) }
        requires stands { Standing D.told D.images self.old }
        ensures leaves { Reopens (store_told D.told (seen_of self.old)) (store_told D.told (seen_of self.new)) (store_images D.told D.images (seen_of self.new)) result }
        ensures settled { OnOk result (is_settled (store_told D.told (seen_of self.new)).state ≡ true) }
        ensures stops { Fewer (store_images D.told D.images (seen_of self.old)) (store_images D.told D.images (seen_of self.new)) }
        ensures stands { Standing D.told D.images self.new }
    {
        self.reserved = None;
        let Some(attached) = &self.attached else {
            return Err(ResFault::Memory);
        };
        let Ok(defs) = attached.shelf.copy_defs(alloc) else {
            return Err(ResFault::Memory);
        };
        match open_store(alloc, &mut self.log, defs) {
            Ok(opened) => {
                self.take(alloc, opened);
                Ok(())
            }
            Err(fault) => Err(self.count(fault)),
        }
    }

    /// Reads a store again whose log is open. The log stays as it is, so that want of memory leaves the branch as it was.
    fn read_again(&mut self, alloc: Global) -> Result<(), ResFault>
        requires may { IsAtHand (store_told D.told (seen_of self.old)) }
        requires stands { Standing D.told D.images self.old }
        ensures leaves { Reopens (store_told D.told (seen_of self.old)) (store_told D.told (seen_of self.new)) (store_images D.told D.images (seen_of self.new)) result }
        ensures settled { OnOk result (is_settled (store_told D.told (seen_of self.new)).state ≡ true) }
        ensures stops { Fewer (store_images D.told D.images (seen_of self.old)) (store_images D.told D.images (seen_of self.new)) }
        ensures stands { Standing D.told D.images self.new }
    {
        self.reserved = None;
        let Some(attached) = &self.attached else {
            return Err(ResFault::Memory);
        };
        let Ok(defs) = attached.shelf.copy_defs(alloc) else {
            return Err(ResFault::Memory);
        };
        match read_store(alloc, &mut self.log, defs) {
            Ok(opened) => {
                self.take(alloc, opened);
                Ok(())
            }
            Err(fault) => match fault {
                AttachFault::Memory => Err(ResFault::Memory),
                _ => {
                    self.state = ResState::Lost;
                    Err(self.count(fault))
                }
            },
        }
    }

    /// What a reopening answers that didn't read the store. Records that are no sound store's count as a fault.
    fn count(&mut self, fault: AttachFault) -> ResFault
        ensures { CountsFault fault self.old self.new result }
    {
        match fault {
            AttachFault::Memory => ResFault::Memory,
            AttachFault::Failed => ResFault::Failed,
            AttachFault::BadCell { .. } | AttachFault::BadStore { .. } => {
                self.own_faults = self.own_faults.saturating_add(1);
                ResFault::Failed
            }
        }
    }

    /// Reads the store again: a branch that isn't prepared is gone then. The log of a lost store is opened again before.
    pub fn reopen(&mut self, alloc: Global) -> Result<(), ResFault>
        requires may { IsSome (store_told D.told (seen_of self.old)).defs }
        requires stands { Standing D.told D.images self.old }
        ensures leaves { Reopens (store_told D.told (seen_of self.old)) (store_told D.told (seen_of self.new)) (store_images D.told D.images (seen_of self.new)) result }
        ensures settled { OnOk result (is_settled (store_told D.told (seen_of self.new)).state ≡ true) }
        ensures stops { Fewer (store_images D.told D.images (seen_of self.old)) (store_images D.told D.images (seen_of self.new)) }
        ensures stands { Standing D.told D.images self.new }
    {
        match self.state {
            ResState::Lost => self.reopen_lost(alloc),
            _ => self.read_again(alloc),
        }
    }

    /// Takes what was opened: its tables, and the branch that waits.
    fn take(&mut self, alloc: Global, opened: Opened)
        ensures { Takes opened self.old self.new }
    {
        let Opened {
            shelf,
            waiting,
            records,
        } = opened;
        self.records = records;
        match waiting {
            Some(Waiting { xid, deltas }) => {
                self.state = ResState::Prepared(xid);
                self.attached = Some(Attached::of(alloc, shelf, deltas));
            }
            None => {
                self.state = ResState::Idle;
                self.attached = Some(Attached::of(alloc, shelf, Vec::new(alloc)));
            }
        }
    }
}
