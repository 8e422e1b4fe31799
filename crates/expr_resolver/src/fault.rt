//! Why a tree isn't resolved.

ghost use Rattle.std.specs.Prelude.{◌≡◌};
ghost use Rattle.vdb_model.specs.declared.reply.Refusal.TheVariants.{Mismatch, Fractional, TooWide};

use std::alloc::{AllocError, AllocFailed};
use vdb_base::NoMemory;
use vdb_model::Refusal;

/// Why a tree isn't resolved.
#[derive(Debug, Drop)]
pub enum ResolveFault {
    /// The first refusal that its walk meets.
    Refused(Refusal),
    Memory,
}

impl From<NoMemory> for ResolveFault {
    ghost use Rattle.expr_resolver.specs.declared.fault.ResolveFault.TheVariants.{Memory};

    ghost from_gives = { λ _ e. e ≡ Memory };

    fn from(_error: NoMemory) -> ResolveFault {
        ResolveFault::Memory
    }
}

impl From<AllocError> for ResolveFault {
    ghost use Rattle.expr_resolver.specs.declared.fault.ResolveFault.TheVariants.{Memory};

    ghost from_gives = { λ _ e. e ≡ Memory };

    fn from(_error: AllocError) -> ResolveFault {
        ResolveFault::Memory
    }
}

impl<T: Drop> From<AllocFailed<T>> for ResolveFault {
    ghost use Rattle.expr_resolver.specs.declared.fault.ResolveFault.TheVariants.{Memory};

    ghost from_gives = { λ _ e. e ≡ Memory };

    fn from(_error: AllocFailed<T>) -> ResolveFault {
        ResolveFault::Memory
    }
}

impl ResolveFault {
    ghost use Rattle.expr_resolver.specs.declared.fault.ResolveFault.TheVariants.{Refused};

    pub fn mismatch(at: usize) -> ResolveFault
        ensures { result ≡ Refused (Mismatch at) }
    {
        ResolveFault::Refused(Refusal::Mismatch { at: at as u64 })
    }

    pub fn too_wide(at: usize) -> ResolveFault
        ensures { result ≡ Refused (TooWide at) }
    {
        ResolveFault::Refused(Refusal::TooWide { at: at as u64 })
    }

    pub fn fractional(at: usize) -> ResolveFault
        ensures { result ≡ Refused (Fractional at) }
    {
        ResolveFault::Refused(Refusal::Fractional { at: at as u64 })
    }
}
