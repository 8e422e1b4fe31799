//! A change of a table of a journaled store.

ghost use Rattle.std.specs.Prelude.{OnOk};
ghost use Rattle.resource.specs.Told.{IsWorld};
ghost use Rattle.resource.specs.Images.{Same};
ghost use Rattle.resource.specs.Changing.{MayChange, IsChangeAnswer};
ghost use Rattle.resource.specs.Leaves.{Changes};
ghost use Rattle.mem_store.specs.Changes.{store_needs};

use crate::inner::Inner;
use gate_log::Disk;
use resource::ChangeFault;
use std::alloc::Global;
use vdb_model::Delta;

impl<D: Disk> Inner<D> {
    ghost use Rattle.mem_store.specs.Standing.{Standing};
    ghost use Rattle.mem_store.specs.Store.{store_told, store_images, seen_of};

    /// Makes a change in the attached tables. Nothing is written: the log has it with the branch.
    pub fn change(&mut self, alloc: Global, delta: &Delta) -> Result<(), ChangeFault>
        requires may { MayChange (store_told D.told (seen_of self.old)) delta.now }
        requires stands { Standing D.told D.images self.old }
        ensures answer { IsChangeAnswer store_needs (store_told D.told (seen_of self.old)) delta.now result }
        ensures world { OnOk result (IsWorld (store_told D.told (seen_of self.new))) }
        ensures leaves { Changes delta.now (store_told D.told (seen_of self.old)) (store_told D.told (seen_of self.new)) (store_images D.told D.images (seen_of self.new)) result }
        ensures stops { Same (store_images D.told D.images (seen_of self.old)) (store_images D.told D.images (seen_of self.new)) }
        ensures stands { Standing D.told D.images self.new }
    {
        let left = self.log.left();
        match &mut self.attached {
            Some(attached) => attached.change(alloc, delta, left),
            None => Err(ChangeFault::Memory),
        }
    }
}
