//! Places of refusals, counted from the script's first byte.

ghost use Rattle.std.specs.Prelude.{◌≡◌, IfSome};
ghost use Rattle.vdb_session.specs.Meaning as spec;

use vdb_model::Refusal;

/// The refusal of a statement that begins at `base`, or None where its place is past 64 bits.
pub fn moved(base: u64, refusal: Refusal) -> Option<Refusal>
    ensures { IfSome result (λ made. made ≡ spec.moved base refusal) }
{
    match refusal {
        Refusal::Syntax { at } => Some(Refusal::Syntax {
            at: base.checked_add(at)?,
        }),
        Refusal::Mismatch { at } => Some(Refusal::Mismatch {
            at: base.checked_add(at)?,
        }),
        Refusal::Fractional { at } => Some(Refusal::Fractional {
            at: base.checked_add(at)?,
        }),
        Refusal::TooWide { at } => Some(Refusal::TooWide {
            at: base.checked_add(at)?,
        }),
        Refusal::Unknown { name } => Some(Refusal::Unknown { name }),
        Refusal::Ambiguous { name } => Some(Refusal::Ambiguous { name }),
        Refusal::Unbound { table } => Some(Refusal::Unbound { table }),
        Refusal::NotUpdatable { name } => Some(Refusal::NotUpdatable { name }),
        Refusal::ReadOnly { server } => Some(Refusal::ReadOnly { server }),
        Refusal::NullInto { column } => Some(Refusal::NullInto { column }),
        Refusal::DuplicateKey { table } => Some(Refusal::DuplicateKey { table }),
        Refusal::OutOfRange { column } => Some(Refusal::OutOfRange { column }),
        Refusal::TooLong { column } => Some(Refusal::TooLong { column }),
        Refusal::Raised { text } => Some(Refusal::Raised { text }),
        Refusal::BudgetSpent => Some(Refusal::BudgetSpent),
        Refusal::Transaction { opened } => Some(Refusal::Transaction { opened }),
        Refusal::Doomed { number } => Some(Refusal::Doomed { number }),
        Refusal::TooLarge { nodes, depth } => Some(Refusal::TooLarge { nodes, depth }),
        Refusal::LogFull {
            server,
            needed,
            left,
        } => Some(Refusal::LogFull {
            server,
            needed,
            left,
        }),
    }
}
