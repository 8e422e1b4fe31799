//! Work for the scripts of `bench/`: single crates, driven by two words.
//!
//! `bench_work WHAT HOW_MUCH` does one piece of work and prints what came of it: `log` and `bare` add records to a file
//! in the current folder, by the log and by the same calls without it; `join`, `group` and `sort` run one relational
//! operator over rows that it makes; `statement`, `script` and `ddl` read texts that it makes; `rows` and `block` put rows into a
//! journaled store over the same file, one by one or all at once, and `again` reads it. The scripts time it. It promises nothing
//! but that it is safe and ends.
#![tactic(auto)]

mod logs;
mod operators;
mod readers;
mod stores;

use logs::{add_frames, add_records};
use operators::{grouped, joined, sorted};
use readers::{read_definitions, read_long, read_script};
use std::fs::{File, OpenOptions};
use std::process::ExitCode;
use std::rt::Runtime;
use std::{env, io};
use stores::{filled, held};
use vdb_base::NoMemory;

/// What can be asked for.
#[derive(Clone, Copy, Debug, PartialEq, Eq)]
enum Work {
    Log,
    Bare,
    Join,
    Group,
    Sort,
    Statement,
    Script,
    Ddl,
    Rows,
    Block,
    Again,
}

fn work_of(word: &str) -> Option<Work> {
    match word {
        "log" => Some(Work::Log),
        "bare" => Some(Work::Bare),
        "join" => Some(Work::Join),
        "group" => Some(Work::Group),
        "sort" => Some(Work::Sort),
        "statement" => Some(Work::Statement),
        "script" => Some(Work::Script),
        "ddl" => Some(Work::Ddl),
        "rows" => Some(Work::Rows),
        "block" => Some(Work::Block),
        "again" => Some(Work::Again),
        _ => None,
    }
}

/// Why no work was done.
enum Fault {
    Words,
    File,
    Memory,
}

impl From<NoMemory> for Fault {
    fn from(_error: NoMemory) -> Fault {
        Fault::Memory
    }
}

impl From<io::Error> for Fault {
    fn from(_error: io::Error) -> Fault {
        Fault::File
    }
}

/// The two words.
fn asked(rt: &(impl Runtime + AllocGlobal)) -> Result<(Work, u32), Fault> {
    let mut words = env::args(rt)?.skip(1);
    let (Some(what), Some(count)) = (words.next(), words.next()) else {
        return Err(Fault::Words);
    };
    match (work_of(what.as_str()), count.as_str().parse::<u32>()) {
        (Some(work), Ok(count)) => Ok((work, count)),
        _ => Err(Fault::Words),
    }
}

/// An empty file of the current folder.
fn new_file(rt: &HostRuntime) -> io::Result<File> {
    OpenOptions::new()
        .read(true)
        .write(true)
        .create(true)
        .truncate(true)
        .open(rt, "bench_work.log")
}

/// The file that an earlier run left.
fn old_file(rt: &HostRuntime) -> io::Result<File> {
    OpenOptions::new()
        .read(true)
        .write(true)
        .open(rt, "bench_work.log")
}

/// How many records or rows came of the work.
fn done(rt: &HostRuntime, work: Work, count: u32) -> Result<usize, Fault> {
    let alloc = rt.alloc();
    match work {
        Work::Log => Ok(add_records(new_file(rt)?, count) as usize),
        Work::Bare => Ok(add_frames(&new_file(rt)?, count) as usize),
        Work::Join => Ok(joined(alloc, count)?),
        Work::Group => Ok(grouped(alloc, count)?),
        Work::Sort => Ok(sorted(alloc, count)?),
        Work::Statement => Ok(read_long(alloc, count)?),
        Work::Script => Ok(read_script(alloc, count)?),
        Work::Ddl => Ok(read_definitions(alloc, count)?),
        Work::Rows => Ok(filled(alloc, new_file(rt)?, count, 1)? as usize),
        Work::Block => Ok(filled(alloc, new_file(rt)?, count, count)? as usize),
        Work::Again => held(alloc, old_file(rt)?),
    }
}

fn run(rt: &HostRuntime) -> Result<(), Fault> {
    let (work, count) = asked(rt)?;
    let made = done(rt, work, count)?;
    println!(rt; "{made}")?;
    Ok(())
}

fn main(rt: HostRuntime) -> ExitCode {
    match run(&rt) {
        Ok(()) => ExitCode::SUCCESS,
        Err(Fault::Words) => ExitCode::from(2),
        Err(Fault::File) => ExitCode::from(4),
        Err(Fault::Memory) => ExitCode::from(5),
    }
}
