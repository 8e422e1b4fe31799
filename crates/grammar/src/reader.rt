//! Reads whole texts, and the longest front of a text.

ghost use Rattle.std.specs.Prelude.{[], ◌≡◌, ◌∷◌, true, take, vec_len, IfOk, MatchOption};
ghost use Rattle.grammar.specs.Reading.{start_of, IsReading, IsNone, IsFront, IfSyntax};
ghost use Rattle.grammar.specs.Runs.{IsRun, Settles};
ghost use Rattle.grammar.specs.Table.{shapes};
ghost use Rattle.grammar.specs.Threads.{symbols};
ghost use Rattle.grammar.specs.WellFormed.{is_well_formed};
ghost use Rattle.grammar.specs.declared.machine.Thread.{Thread};

use crate::fault::ReadFault;
use crate::machine::{Log, Stack, Symbol, Thread, step};
use crate::order::least;
use crate::table::{Grammar, Rule};
use std::alloc::{AllocError, Global};
use std::rc::Rc;

/// A sentence at the front of a text.
#[derive(Drop)]
pub struct Front {
    /// The actions of its derivation.
    pub log: Log,
    /// The index of the token after it, or the text's length.
    pub next: usize,
}

/// The longest front of a text that begins a sentence.
#[derive(Drop)]
pub(crate) struct Run {
    /// The actions that all threads share.
    done: Log,
    threads: Vec<Thread>,
    /// How many tokens the front has.
    at: usize,
}

/// One thread, before the text.
fn begin(alloc: Global, start: u16) -> Result<Vec<Thread>, AllocError>
    ensures { IfOk result (λ v. (th : Thread) × (v.items ≡ th ∷ []) × (th.log.items ≡ []) × (symbols th.stack.value ≡ start_of start)) }
{
    let mut threads = Vec::new(alloc);
    let bottom = Rc::new(alloc, Stack::Empty)?;
    let symbol = Symbol {
        id: start,
        depth: 0,
        count: 0,
    };
    let stack = Rc::new(alloc, Stack::On(symbol, bottom))?;
    threads.push(Thread {
        stack,
        log: Vec::new(alloc),
    })?;
    Ok(threads)
}

/// Where one thread is left, its actions are done. So a log isn't copied for long.
fn settle(
    alloc: Global,
    done: &mut Log,
    mut threads: Vec<Thread>,
) -> Result<Vec<Thread>, AllocError>
    ensures same { IfOk result (λ v. Settles done.old.items done.new.items threads.items v.items) }
    ensures len { IfOk result (λ v. vec_len v ≡ vec_len threads) }
{
    if threads.len() != 1 {
        return Ok(threads);
    }
    match threads.pop() {
        None => Ok(threads),
        Some(thread) => {
            let Thread { stack, log } = thread;
            done.extend_from_slice(log.as_slice())?;
            threads.push(Thread {
                stack,
                log: Vec::new(alloc),
            })?;
            Ok(threads)
        }
    }
}

/// Reads until no thread reads the next token.
fn longest_run(alloc: Global, rules: &[Rule], start: u16, text: &[u16]) -> Result<Run, AllocError>
    requires { is_well_formed (shapes rules.now) ≡ true }
    ensures { IfOk result (IsRun (shapes rules.now) start text.now) }
{
    let mut threads = begin(alloc, start)?;
    let mut done = Vec::new(alloc);
    for (at, token) in text.iter().enumerate() {
        let next = step(alloc, rules, threads.as_slice(), Some(*token), at)?;
        if next.is_empty() {
            return Ok(Run { done, threads, at });
        }
        threads = settle(alloc, &mut done, next)?;
    }
    Ok(Run {
        done,
        threads,
        at: text.len(),
    })
}

/// Reads the longest front of a text that begins a sentence of the symbol `start`, where it is one. The limits count from
/// the text's first token.
///
/// `Syntax` comes exactly where it is none, with the index of the token after it, or the text's length.
pub fn read_front(
    alloc: Global,
    grammar: &Grammar,
    start: u16,
    text: &[u16],
) -> Result<Front, ReadFault>
    ensures front { IfOk result (λ front. IsFront grammar.now start text.now front.next) }
    ensures reading { IfOk result (λ front. IsReading grammar.now start (take front.next text.now) front.log.items) }
    ensures place { IfSyntax result (IsFront grammar.now start text.now) }
    ensures none { IfSyntax result (λ at. IsNone grammar.now start (take at text.now)) }
{
    let rules = grammar.rules();
    let Run { done, threads, at } = longest_run(alloc, rules, start, text)?;
    let complete = step(alloc, rules, threads.as_slice(), None, at)?;
    let Some(last) = least(complete.as_slice()) else {
        return Err(ReadFault::Syntax { at });
    };
    let mut log = done;
    log.extend_from_slice(last)?;
    Ok(Front { log, next: at })
}

/// Reads a text that is a sentence of the symbol `start`, and gives the actions of its derivation.
///
/// `Syntax` comes exactly where it is none, with the index of the first token with which no sentence begins, or the
/// text's length.
pub fn read(alloc: Global, grammar: &Grammar, start: u16, text: &[u16]) -> Result<Log, ReadFault>
    ensures reading { IfOk result (λ log. IsReading grammar.now start text.now log.items) }
    ensures place { IfSyntax result (IsFront grammar.now start text.now) }
    ensures none { IfSyntax result (λ _. IsNone grammar.now start text.now) }
{
    match read_front(alloc, grammar, start, text) {
        Ok(front) if front.next < text.len() => Err(ReadFault::Syntax { at: front.next }),
        Ok(front) => Ok(front.log),
        Err(fault) => Err(fault),
    }
}
