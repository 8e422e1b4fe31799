//! The program: it runs the statements of a script over the stores that its words name.
//!
//! `vdb run DDL NAME=csv:FOLDER` reads the DDL and the script on standard input, prints a reply to each statement in turn,
//! and ends with a status. `program` is the whole of it over what it is handed: its clauses say which bytes are printed,
//! what each status tells, and what is answered where nothing is wanting. It makes the parts of the run by its `Maker`, over
//! any number of lanes; `session` starts the engine of `vdb_session` over them and reads the script, which `answering` cuts
//! into statements, each answered and its reply printed in turn. `ending` and `last_line` are the last line and the status.
//! `files` is the maker of the real program: its stores are folders of CSV files, of which it reads those of the DDL's tables.
#![tactic(auto)]

mod answering;
mod ending;
#[cfg(test)]
mod file_tests;
mod files;
mod last_line;
mod maker;
mod program;
#[cfg(test)]
mod program_tests;
mod reading;
mod session;
#[cfg(test)]
mod setup_tests;
#[cfg(test)]
mod shop_tests;
mod words;

use ending::Ending;
use files::FileMaker;
use program::{finish, program};
use std::alloc::Global;
use std::env;
use std::io::{self, ErrorKind};
use std::process::ExitCode;
use std::rt::Runtime;
use vdb_base::{Seq, StdFeed, StdSink};

/// Why the words behind the program's name can't be had.
enum NoWords {
    /// One of them isn't UTF-8.
    NotText,
    Memory,
}

fn no_words(error: &io::Error) -> NoWords {
    match error.kind() {
        ErrorKind::InvalidData => NoWords::NotText,
        _ => NoWords::Memory,
    }
}

/// The words behind the program's name.
fn words_of(rt: &(impl Runtime + AllocGlobal), alloc: Global) -> Result<Vec<String>, NoWords> {
    let mut words = Vec::new(alloc);
    let args = match env::args(rt) {
        Ok(args) => args,
        Err(error) => return Err(no_words(&error)),
    };
    for word in args.skip(1) {
        if words.push(word).is_err() {
            return Err(NoWords::Memory);
        }
    }
    Ok(words)
}

fn main(rt: HostRuntime) -> ExitCode {
    let mut out = StdSink::new(io::writer(&rt));
    let words = match words_of(&rt, rt.alloc()) {
        Ok(words) => words,
        // Words that aren't all text are no words, and `program` says so: the first is missing.
        Err(NoWords::NotText) => Vec::new(rt.alloc()),
        Err(NoWords::Memory) => {
            let status = finish(&Ending::Memory, &Seq::new(rt.alloc()), &mut out);
            return ExitCode::from(status);
        }
    };
    let mut maker = FileMaker::new(&rt);
    let mut script = StdFeed::new(rt.reader());
    let status = program(&rt, rt.alloc(), &words, &mut maker, &mut script, &mut out);
    ExitCode::from(status)
}
