//! The calls of an object in memory, counted, some of which fail by their numbers.

ghost use Rattle.std.specs.Prelude.{◌≡◌, ◌≤◌};

use crate::seq::Nums;

/// A call to the outside that failed. The count of faults of the object that was called has risen.
#[derive(Clone, Copy, Debug, PartialEq, Eq)]
pub struct Failed;

/// The calls that a memory form has had, and the numbers, from 1, of those that fail.
#[derive(Debug, Drop)]
pub struct Calls {
    pub fails: Nums,
    pub made: u64,
    pub faults: u64,
}

impl Calls {
    ghost use Rattle.vdb_base.specs.Calls.{is_listed, uncalled};
    ghost use Rattle.vdb_base.specs.Counts.{raised};

    pub fn new(fails: Nums) -> Calls
        ensures { result ≡ uncalled fails }
    {
        Calls {
            fails,
            made: 0,
            faults: 0,
        }
    }

    /// Counts a call, and says whether it is listed as one that fails.
    pub fn begin(&mut self) -> bool
        ensures listed { result ≡ is_listed self.old }
        ensures counted { self.new ≡ record self.old { made = raised self.old.made } }
    {
        let made = self.made.saturating_add(1);
        let listed = self
            .fails
            .as_slice()
            .iter()
            .any(|fails| u64::from(*fails) == made);
        self.made = made;
        listed
    }

    /// Counts a fault.
    pub fn fail(&mut self) -> Failed
        ensures counted { self.new ≡ record self.old { faults = raised self.old.faults } }
        ensures later { self.old.faults ≤ self.new.faults }
    {
        self.faults = self.faults.saturating_add(1);
        Failed
    }
}
