//! The whole program.

ghost use Rattle.std.specs.Prelude.{◌≡◌, map, IsTrue};
ghost use Rattle.std.specs.String.{string_bytes};
ghost use Rattle.vdb.specs.Running.{IsRun, Finishes, words_ending};
ghost use Rattle.vdb.specs.Headline.{Headline};
ghost use Rattle.vdb.specs.Causes.{Causes, Complete};
ghost use Rattle.vdb.specs.Making.{conn_names};
ghost use Rattle.vdb_session.specs.Lanes.{are_apart};

use crate::ending::{Ending, status_of};
use crate::last_line::print_last;
use crate::maker::{MakeFault, Maker};
use crate::session::run_parts;
use crate::words::{Conns, Setup, WordsFault, read_words};
use std::alloc::Global;
use std::thread::Threads;
use vdb_base::{Feed, Seq, Sink};

/// All but the last line.
fn run_setup<M: Maker, I: Feed, O: Sink>(
    alloc: Global,
    setup: &Setup,
    maker: &mut M,
    script: &mut I,
    out: &mut O,
) -> Ending
    requires apart { IsTrue (are_apart (conn_names setup.now.conns)) }
    ensures { IsRun M.S.told M.S.images setup.now (M.told maker.old) (M.told maker.new) (I.told script.old) (I.told script.new) (O.told out.old) (O.told out.new) result }
{
    let parts = match maker.make(setup) {
        Ok(parts) => parts,
        Err(MakeFault::Failed) => return Ending::MakerFailed,
        Err(MakeFault::Memory) => return Ending::Memory,
    };
    let ran = run_parts(parts, alloc, script, out);
    maker.keep(ran.parts);
    ran.ending
}

fn words_ending(fault: WordsFault) -> Ending
    ensures { result ≡ words_ending fault }
{
    match fault {
        WordsFault::Usage { word } => Ending::Usage { word },
        WordsFault::Memory => Ending::Memory,
    }
}

/// Prints the last line of an ending, if it has one, and answers the status.
pub fn finish<O: Sink>(ending: &Ending, conns: &Conns, out: &mut O) -> u8
    ensures { Finishes conns.now ending.now (O.told out.old) (O.told out.new) result }
{
    match print_last(ending, conns, out) {
        Ok(()) => status_of(ending),
        Err(_) => 4,
    }
}

/// Runs the words over what the maker makes, and answers with a status.
pub fn program<R: Threads + Sync, M: Maker, I: Feed, O: Sink>(
    _rt: &R,
    alloc: Global,
    words: &Vec<String>,
    maker: &mut M,
    script: &mut I,
    out: &mut O,
) -> u8
    ensures headline { Headline M.S.told M.S.images (map string_bytes words.now.items) (M.told maker.old) (M.told maker.new) (I.told script.old) (I.told script.new) (O.told out.old) (O.told out.new) result }
    ensures causes { Causes M.S.told (map string_bytes words.now.items) (M.told maker.old) (M.told maker.new) (I.told script.old) (I.told script.new) (O.told out.old) (O.told out.new) result }
    ensures complete { Complete M.S.told (map string_bytes words.now.items) (M.told maker.old) (I.told script.old) (I.told script.new) (O.told out.old) (O.told out.new) result }
{
    let setup = match read_words(alloc, words) {
        Ok(setup) => setup,
        Err(fault) => return finish(&words_ending(fault), &Seq::new(alloc), out),
    };
    let ending = run_setup(alloc, &setup, maker, script, out);
    finish(&ending, &setup.conns, out)
}
