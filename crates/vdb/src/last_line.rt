//! The last line of a run.

ghost use Rattle.std.specs.Prelude.{is_ok};
ghost use Rattle.vdb_base.specs.Printing.{Prints};
ghost use Rattle.vdb_model.specs.declared.reply.Phase.TheVariants.{Plain};
ghost use Rattle.vdb_model.specs.declared.reply.Who.TheVariants as who;
ghost use Rattle.vdb_model.specs.FaultText.{fault_line};
ghost use Rattle.vdb.specs.Ending.{lane_texts, last_line};

use crate::ending::Ending;
use crate::words::Conns;
use vdb_base::{Failed, Sink};
use vdb_lines::{print_deploy, print_line, print_named, print_numbered};

/// Prints the fault of a lane, with the name of its connection.
fn print_lane<O: Sink>(lane: u32, conns: &Conns, out: &mut O) -> Result<(), Failed>
    ensures { Prints (is_ok result) (O.told out.old) (O.told out.new) (fault_line (lane_texts conns.now) (who.Lane lane) Plain) }
{
    match conns.get(lane as usize) {
        Some(conn) => print_named(b"FAULT ".as_slice(), &conn.name, out),
        None => print_line(b"FAULT ".as_slice(), out),
    }
}

/// Prints the last line of an ending, where it has one.
pub fn print_last<O: Sink>(ending: &Ending, conns: &Conns, out: &mut O) -> Result<(), Failed>
    ensures { Prints (is_ok result) (O.told out.old) (O.told out.new) (last_line conns.now ending.now) }
{
    match ending {
        Ending::Usage { word } => print_numbered(b"USAGE ".as_slice(), *word, out),
        Ending::Deploy(fault) => print_deploy(fault, out),
        Ending::MakerFailed => print_line(b"FAULT maker".as_slice(), out),
        Ending::LaneFailed { lane } => print_lane(*lane, conns, out),
        Ending::FeedFailed => print_line(b"FAULT feed".as_slice(), out),
        Ending::Memory => print_line(b"MEMORY".as_slice(), out),
        Ending::TooLong => print_line(b"TOO LONG".as_slice(), out),
        Ending::SinkFailed | Ending::Whole(_) => Ok(()),
    }
}
