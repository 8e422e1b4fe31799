//! Values that may be absent.

ghost use Rattle.std.specs.Prelude.{◌≡◌, IfOk};

use std::alloc::Global;
use vdb_base::{Duplicate, NoMemory};

pub fn copy_optional<T: Duplicate>(alloc: Global, value: &Option<T>) -> Result<Option<T>, NoMemory>
    ensures { IfOk result (λ made. made ≡ value.now) }
{
    match value {
        None => Ok(None),
        Some(value) => Ok(Some(value.copy(alloc)?)),
    }
}
