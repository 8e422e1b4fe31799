//! Replies to statements, refusals, and faults of a deployment.

ghost use Rattle.std.specs.Prelude.{◌≡◌};

use crate::rel::Names;
use vdb_base::{Rows, Seq, Text, Texts};

/// The answer to a statement. `Memory` says that memory was wanting, and that nothing changed.
#[derive(Drop)]
pub enum Reply {
    Rows { names: Names, rows: Rows },
    Updated(u64),
    Done,
    Started,
    Committed,
    RolledBack,
    /// What each source was asked, as the text after `ASK `, and how many rows the query has.
    Asked { asks: Texts, count: u64 },
    Refused(Refusal),
    Memory,
}

pub type Replies = Seq<Reply>;

/// Why a statement is refused. Places are byte offsets in the script; names stand as they are printed.
#[derive(Debug, Drop)]
pub enum Refusal {
    Syntax {
        at: u64,
    },
    Unknown {
        name: Text,
    },
    Ambiguous {
        name: Text,
    },
    Mismatch {
        at: u64,
    },
    Fractional {
        at: u64,
    },
    TooWide {
        at: u64,
    },
    Unbound {
        table: Text,
    },
    NotUpdatable {
        name: Text,
    },
    ReadOnly {
        server: Text,
    },
    NullInto {
        column: Text,
    },
    DuplicateKey {
        table: Text,
    },
    OutOfRange {
        column: Text,
    },
    TooLong {
        column: Text,
    },
    Raised {
        text: Text,
    },
    BudgetSpent,
    Transaction {
        opened: bool,
    },
    Doomed {
        number: u64,
    },
    TooLarge {
        nodes: u64,
        depth: u64,
    },
    LogFull {
        server: Text,
        needed: u64,
        left: u64,
    },
}

impl Refusal {
    ghost use Rattle.vdb_model.specs.RefusalText.{refusal_number};

    /// Its number, which stands before its text.
    pub fn number(&self) -> u64
        ensures { result ≡ refusal_number self.now }
    {
        match self {
            Refusal::Syntax { .. } => 1,
            Refusal::Unknown { .. } => 2,
            Refusal::Ambiguous { .. } => 3,
            Refusal::Mismatch { .. } => 4,
            Refusal::Fractional { .. } => 5,
            Refusal::TooWide { .. } => 6,
            Refusal::Unbound { .. } => 7,
            Refusal::NotUpdatable { .. } => 8,
            Refusal::ReadOnly { .. } => 9,
            Refusal::NullInto { .. } => 10,
            Refusal::DuplicateKey { .. } => 11,
            Refusal::OutOfRange { .. } => 12,
            Refusal::TooLong { .. } => 13,
            Refusal::Raised { .. } => 14,
            Refusal::BudgetSpent => 15,
            Refusal::Transaction { .. } => 16,
            Refusal::Doomed { .. } => 17,
            Refusal::TooLarge { .. } => 18,
            Refusal::LogFull { .. } => 19,
        }
    }
}

/// Why a database can't be opened. Places are byte offsets in its DDL; names stand as they are printed.
#[derive(Debug, Drop)]
pub enum DeployFault {
    Syntax {
        at: u64,
    },
    Duplicate {
        name: Text,
    },
    Unknown {
        name: Text,
    },
    FractionalType {
        at: u64,
    },
    BadOption {
        at: u64,
    },
    NoConnection {
        server: Text,
    },
    WrongKind {
        name: Text,
    },
    Columns {
        name: Text,
    },
    Limit {
        name: Text,
        count: u64,
    },
    BadPattern {
        table: Text,
    },
    /// A stored cell that its column doesn't take; row and column count from 1.
    BadCell {
        server: Text,
        table: Text,
        row: u64,
        col: u64,
    },
    /// A table, or the whole store, whose form breaks its rule.
    BadStore {
        server: Text,
        table: Option<Text>,
    },
    Astray {
        server: Text,
        epoch: u64,
        ours: u64,
    },
    Body {
        name: Text,
        number: u64,
    },
    JournalFull,
}

/// Whose fault it is. A lane goes by its place in the list of lanes.
#[derive(Clone, Copy, Debug, PartialEq, Eq)]
pub enum Who {
    Maker,
    Feed,
    Keeper,
    Lane(u32),
}

/// How far a statement that changes tables had come when a fault stopped it.
#[derive(Clone, Copy, Debug, PartialEq, Eq)]
pub enum Phase {
    Plain,
    Undecided,
    InDoubt,
    Decided,
}
