//! How a run ends, and its status.

ghost use Rattle.std.specs.Prelude.{◌≡◌};
ghost use Rattle.vdb.specs.Ending.{status_of, start_ending, ending_of};

use crate::answering::{Answers, Seen};
use crate::reading::ReadEnd;
use vdb_model::DeployFault;
use vdb_session::StartFault;

#[derive(Debug, Drop)]
pub enum Ending {
    /// The words have no form; the place, from 1, of the first that is wrong or missing.
    Usage { word: u64 },
    MakerFailed,
    /// Memory was wanting outside a statement.
    Memory,
    Deploy(DeployFault),
    LaneFailed { lane: u32 },
    FeedFailed,
    SinkFailed,
    /// The feed gave more than a script may have.
    TooLong,
    /// The script was read to its end, and each statement was answered.
    Whole(Seen),
}

pub fn start_ending(fault: StartFault) -> Ending
    ensures { result ≡ start_ending fault }
{
    match fault {
        StartFault::Refused(fault) => Ending::Deploy(fault),
        StartFault::Failed { lane } => Ending::LaneFailed { lane },
        StartFault::Memory => Ending::Memory,
    }
}

pub fn ending_of(read: ReadEnd, answers: Answers) -> Ending
    ensures { result ≡ ending_of read answers }
{
    match answers {
        Answers::LaneFailed { lane } => Ending::LaneFailed { lane },
        Answers::SinkFailed => Ending::SinkFailed,
        Answers::Whole(seen) => match read {
            ReadEnd::Whole => Ending::Whole(seen),
            ReadEnd::TooLong => Ending::TooLong,
            ReadEnd::Failed => Ending::FeedFailed,
            ReadEnd::Memory => Ending::Memory,
        },
    }
}

pub fn status_of(ending: &Ending) -> u8
    ensures { result ≡ status_of ending.now }
{
    match ending {
        Ending::Usage { word: _ } => 2,
        Ending::Deploy(_) => 3,
        Ending::MakerFailed
        | Ending::LaneFailed { lane: _ }
        | Ending::FeedFailed
        | Ending::SinkFailed => 4,
        Ending::Memory => 5,
        Ending::TooLong => 6,
        Ending::Whole(seen) => {
            if seen.memory {
                5
            } else if seen.refused {
                1
            } else {
                0
            }
        }
    }
}
