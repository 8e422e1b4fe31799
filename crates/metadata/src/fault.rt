//! Why a DDL isn't deployed.

use vdb_base::NoMemory;
use vdb_model::DeployFault;

/// Why a DDL isn't deployed.
#[derive(Debug, Drop)]
pub enum DeployRefusal {
    /// The first fault of its items.
    Refused(DeployFault),
    Memory,
}

impl From<NoMemory> for DeployRefusal {
    ghost use Rattle.std.specs.Prelude.{◌≡◌};
    ghost use Rattle.metadata.specs.declared.fault.DeployRefusal.TheVariants.{Memory};

    ghost from_gives = { λ _ e. e ≡ Memory };

    fn from(_error: NoMemory) -> DeployRefusal {
        DeployRefusal::Memory
    }
}
