//! Why a relation isn't expanded.

use vdb_base::NoMemory;

/// Why a relation isn't expanded.
#[derive(Clone, Copy, Debug, PartialEq, Eq)]
pub enum ExpandFault {
    /// The relation with every view expanded has more than 4,096 nodes, or is more than 512 deep.
    TooLarge { nodes: u64, depth: u64 },
    Memory,
}

impl From<NoMemory> for ExpandFault {
    ghost use Rattle.std.specs.Prelude.{◌≡◌};
    ghost use Rattle.view_stack.specs.declared.fault.ExpandFault.TheVariants.{Memory};

    ghost from_gives = { λ _ e. e ≡ Memory };

    fn from(_error: NoMemory) -> ExpandFault {
        ExpandFault::Memory
    }
}
