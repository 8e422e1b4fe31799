//! Answers the statements of a script, one after another.

ghost use Rattle.std.specs.Prelude.{◌≡◌, ◌≤◌, length};
ghost use Rattle.vdb_session.specs.Script.{part, statements_of};
ghost use Rattle.vdb.specs.Answering.{noted, AnswersOne, IsAnswered};

use resource::Resource;
use sql_tokens::{Found, next_statement};
use std::alloc::Global;
use vdb_base::Sink;
use vdb_model::Reply;
use vdb_session::{Answer, Engine, print_reply};

/// Which replies there were.
#[derive(Clone, Copy, Debug, PartialEq, Eq)]
pub struct Seen {
    pub refused: bool,
    pub memory: bool,
}

/// How the answering of one statement ended.
#[derive(Clone, Copy, Debug, PartialEq, Eq)]
pub enum Step {
    Answered(Seen),
    LaneFailed { lane: u32 },
    SinkFailed,
}

/// How the answering ended.
#[derive(Clone, Copy, Debug, PartialEq, Eq)]
pub enum Answers {
    Whole(Seen),
    LaneFailed { lane: u32 },
    SinkFailed,
}

fn note(seen: Seen, reply: &Reply) -> Seen
    ensures { result ≡ noted seen reply.now }
{
    match reply {
        Reply::Refused(_) => Seen {
            refused: true,
            memory: seen.memory,
        },
        Reply::Memory => Seen {
            refused: seen.refused,
            memory: true,
        },
        Reply::Rows { names: _, rows: _ }
        | Reply::Updated(_)
        | Reply::Done
        | Reply::Started
        | Reply::Committed
        | Reply::RolledBack
        | Reply::Asked { asks: _, count: _ } => seen,
    }
}

/// A statement's bytes.
fn piece(script: &[u8], start: usize, end: usize) -> &[u8]
    requires in_order { start ≤ end }
    requires in_range { end ≤ length script.now }
    ensures { result.now ≡ part script.now start end }
{
    let (_, rest) = script.split_at(start);
    let (text, _) = rest.split_at(end - start);
    text
}

/// Answers one statement and prints the reply.
fn answer_one<S: Resource, O: Sink>(
    engine: &mut Engine<S>,
    alloc: Global,
    text: &[u8],
    base: u64,
    seen: Seen,
    out: &mut O,
) -> Step
    ensures { AnswersOne S.told (record { at = base; text = text.now }) engine.old engine.new (O.told out.old) (O.told out.new) seen result }
{
    match engine.answer(alloc, text, base) {
        Answer::Fault { lane } => Step::LaneFailed { lane },
        Answer::Reply(reply) => match print_reply(&reply, out) {
            Ok(()) => Step::Answered(note(seen, &reply)),
            Err(_) => Step::SinkFailed,
        },
    }
}

/// Answers the statements of a script, each reply printed before the next statement is begun.
pub fn answer_all<S: Resource, O: Sink>(
    engine: &mut Engine<S>,
    alloc: Global,
    script: &[u8],
    ended: bool,
    out: &mut O,
) -> Answers
    ensures { IsAnswered S.told (statements_of script.now ended) engine.old engine.new (O.told out.old) (O.told out.new) result }
{
    let mut from = 0;
    let mut seen = Seen {
        refused: false,
        memory: false,
    };
    'statements: while let Found::Statement { start, end, next } = next_statement(
        script, from, ended,
    ) {
        match answer_one(
            engine,
            alloc,
            piece(script, start, end),
            start as u64,
            seen,
            out,
        ) {
            Step::Answered(now) => seen = now,
            Step::LaneFailed { lane } => return Answers::LaneFailed { lane },
            Step::SinkFailed => return Answers::SinkFailed,
        }
        from = next;
    }
    Answers::Whole(seen)
}
