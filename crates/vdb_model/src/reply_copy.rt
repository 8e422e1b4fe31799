//! Copies of replies.

ghost use Rattle.std.specs.Prelude.{◌≡◌, IfOk};

use crate::reply::{Refusal, Reply};
use std::alloc::Global;
use vdb_base::{Duplicate, NoMemory};

/// The refusal of a variant with one text, with a copy of it.
macro_rules! with_text {
    ($alloc:ident, $variant:ident, $field:ident) => {
        Ok(Refusal::$variant {
            $field: $field.copy($alloc)?,
        })
    };
}

impl Refusal {
    pub fn copy(&self, alloc: Global) -> Result<Refusal, NoMemory>
        ensures { IfOk result (λ made. made ≡ self.now) }
    {
        match self {
            Refusal::Syntax { at } => Ok(Refusal::Syntax { at: *at }),
            Refusal::Unknown { name } => with_text!(alloc, Unknown, name),
            Refusal::Ambiguous { name } => with_text!(alloc, Ambiguous, name),
            Refusal::Mismatch { at } => Ok(Refusal::Mismatch { at: *at }),
            Refusal::Fractional { at } => Ok(Refusal::Fractional { at: *at }),
            Refusal::TooWide { at } => Ok(Refusal::TooWide { at: *at }),
            Refusal::Unbound { table } => with_text!(alloc, Unbound, table),
            Refusal::NotUpdatable { name } => with_text!(alloc, NotUpdatable, name),
            Refusal::ReadOnly { server } => with_text!(alloc, ReadOnly, server),
            Refusal::NullInto { column } => with_text!(alloc, NullInto, column),
            Refusal::DuplicateKey { table } => with_text!(alloc, DuplicateKey, table),
            Refusal::OutOfRange { column } => with_text!(alloc, OutOfRange, column),
            Refusal::TooLong { column } => with_text!(alloc, TooLong, column),
            Refusal::Raised { text } => with_text!(alloc, Raised, text),
            Refusal::BudgetSpent => Ok(Refusal::BudgetSpent),
            Refusal::Transaction { opened } => Ok(Refusal::Transaction { opened: *opened }),
            Refusal::Doomed { number } => Ok(Refusal::Doomed { number: *number }),
            Refusal::TooLarge { nodes, depth } => Ok(Refusal::TooLarge {
                nodes: *nodes,
                depth: *depth,
            }),
            Refusal::LogFull {
                server,
                needed,
                left,
            } => Ok(Refusal::LogFull {
                server: server.copy(alloc)?,
                needed: *needed,
                left: *left,
            }),
        }
    }
}

impl Reply {
    pub fn copy(&self, alloc: Global) -> Result<Reply, NoMemory>
        ensures { IfOk result (λ made. made ≡ self.now) }
    {
        match self {
            Reply::Rows { names, rows } => Ok(Reply::Rows {
                names: names.copy(alloc)?,
                rows: rows.copy(alloc)?,
            }),
            Reply::Updated(count) => Ok(Reply::Updated(*count)),
            Reply::Done => Ok(Reply::Done),
            Reply::Started => Ok(Reply::Started),
            Reply::Committed => Ok(Reply::Committed),
            Reply::RolledBack => Ok(Reply::RolledBack),
            Reply::Asked { asks, count } => Ok(Reply::Asked {
                asks: asks.copy(alloc)?,
                count: *count,
            }),
            Reply::Refused(refusal) => Ok(Reply::Refused(refusal.copy(alloc)?)),
            Reply::Memory => Ok(Reply::Memory),
        }
    }
}

impl Duplicate for Reply {
    fn copy(&self, alloc: Global) -> Result<Reply, NoMemory> {
        self.copy(alloc)
    }
}
