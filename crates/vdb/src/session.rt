//! A run over parts that were made.

ghost use Rattle.std.specs.Prelude.{IsTrue};
ghost use Rattle.vdb_session.specs.Lanes.{are_apart, are_here, names_of};
ghost use Rattle.vdb.specs.Session.{pieces_read, IsScriptRun, IsSession};
ghost use Rattle.vdb.specs.Answering.{IsAnswered};

use crate::answering::{Answers, Seen, answer_all};
use crate::ending::{Ending, ending_of, start_ending};
use crate::reading::{ReadEnd, read_script};
use resource::Resource;
use std::alloc::Global;
use vdb_base::{Feed, Sink};
use vdb_session::{Engine, Parts};

/// The parts after a run, and how it ended.
#[derive(Drop)]
pub struct Ran<S> {
    pub parts: Parts<S>,
    pub ending: Ending,
}

/// Answers the statements of what was read.
fn answer_read<S: Resource, O: Sink>(
    engine: &mut Engine<S>,
    alloc: Global,
    bytes: &[u8],
    read: ReadEnd,
    out: &mut O,
) -> Answers
    ensures { IsAnswered S.told (pieces_read bytes.now read) engine.old engine.new (O.told out.old) (O.told out.new) result }
{
    match read {
        ReadEnd::Memory => Answers::Whole(Seen {
            refused: false,
            memory: false,
        }),
        ReadEnd::Whole => answer_all(engine, alloc, bytes, true, out),
        ReadEnd::TooLong => answer_all(engine, alloc, bytes, false, out),
        ReadEnd::Failed => answer_all(engine, alloc, bytes, false, out),
    }
}

/// Reads the script and answers its statements.
fn answer_script<S: Resource, I: Feed, O: Sink>(
    engine: &mut Engine<S>,
    alloc: Global,
    script: &mut I,
    out: &mut O,
) -> Ending
    ensures { IsScriptRun S.told engine.old engine.new (I.told script.old) (I.told script.new) (O.told out.old) (O.told out.new) result }
{
    let mut bytes = Vec::new(alloc);
    let read = read_script(script, &mut bytes);
    let answers = answer_read(engine, alloc, bytes.as_slice(), read, out);
    ending_of(read, answers)
}

/// Starts the engine, answers the script, and hands the parts back.
pub fn run_parts<S: Resource, I: Feed, O: Sink>(
    parts: Parts<S>,
    alloc: Global,
    script: &mut I,
    out: &mut O,
) -> Ran<S>
    requires apart { IsTrue (are_apart (names_of parts.lanes)) }
    requires here { IsTrue (are_here S.told parts.lanes) }
    ensures { IsSession S.told S.images parts result.parts (I.told script.old) (I.told script.new) (O.told out.old) (O.told out.new) result.ending }
{
    let mut engine = match Engine::start(parts, alloc) {
        Ok(engine) => engine,
        Err(refused) => {
            return Ran {
                parts: refused.parts,
                ending: start_ending(refused.fault),
            };
        }
    };
    let ending = answer_script(&mut engine, alloc, script, out);
    Ran {
        parts: engine.into_parts(),
        ending,
    }
}
