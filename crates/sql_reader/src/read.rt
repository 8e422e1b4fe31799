//! Reads statements and queries.

ghost use Rattle.std.specs.Prelude.{◌≡◌, ◌≤◌, length, IfOk};
ghost use Rattle.grammar.specs.Reading.{IsReading};
ghost use Rattle.sql_reader.specs.Build.{waiting};
ghost use Rattle.sql_reader.specs.Symbols as symbol;
ghost use Rattle.sql_reader.specs.Table.{table};
ghost use Rattle.sql_reader.specs.Trees as spec;

use crate::build::{Parts, Source, build};
use crate::kinds::kinds_of;
use crate::symbols::{SET_ONLY_RULE, STATEMENT_RULE};
use crate::table::rules;
use crate::tree::{Query, Statement};
use grammar::{Front, Grammar, Log};
use sql_tokens::{Tokens, read_tokens};
use std::alloc::Global;
use vdb_base::NoMemory;

/// Why a text isn't read.
#[derive(Clone, Copy, Debug, PartialEq, Eq)]
pub enum ReadFault {
    /// No text of the grammar goes on with the token at this place, or ends there, at the end of the text.
    Syntax { at: usize },
    /// Memory was wanting.
    Memory,
}

impl From<NoMemory> for ReadFault {
    ghost use Rattle.std.specs.Prelude.{◌≡◌};
    ghost use Rattle.sql_reader.specs.declared.read.ReadFault.TheVariants.{Memory};

    ghost from_gives = { λ _ e. e ≡ Memory };

    fn from(_error: NoMemory) -> ReadFault {
        ReadFault::Memory
    }
}

/// A query without an order, and the index of the token after it.
#[derive(Drop)]
pub struct SetRead {
    pub query: Query,
    pub next: usize,
}

/// The place of a token by its number, or the end of the text.
fn place_of(source: &Source<'_>, token: usize) -> usize
    ensures { result ≡ spec.place_of source.now token }
{
    match source.tokens.get(token) {
        Some(token) => token.start,
        None => source.text.len(),
    }
}

/// The actions of the reading of all tokens.
#[tactic(auto, using(crate::proofs::Known::known))]
fn log_of(alloc: Global, source: &Source<'_>, start: u16) -> Result<Log, ReadFault>
    ensures reading { IfOk result (λ log. IsReading table start (spec.kinds source.now) log.items) }
    ensures place { spec.IfSyntax result (spec.IsFaultAt source.now start) }
{
    let kinds = kinds_of(alloc, source.text, source.tokens)?;
    let rules = rules(alloc)?;
    let grammar = Grammar::known(rules.as_slice());
    match grammar::read(alloc, &grammar, start, kinds.as_slice()) {
        Ok(log) => Ok(log),
        Err(grammar::ReadFault::Syntax { at }) => Err(ReadFault::Syntax {
            at: place_of(source, at),
        }),
        Err(grammar::ReadFault::Memory) => Err(ReadFault::Memory),
    }
}

/// The parts that the actions of the reading of all tokens build.
fn parts_of(alloc: Global, source: &Source<'_>, start: u16) -> Result<Parts, ReadFault>
    ensures parts { IfOk result (λ parts. spec.Builds source.now start (waiting parts)) }
    ensures place { spec.IfSyntax result (spec.IsFaultAt source.now start) }
{
    let log = log_of(alloc, source, start)?;
    Ok(build(alloc, source, log.as_slice())?)
}

/// The statement that a text is.
///
/// `Syntax` comes exactly where it is none, at the first token with which no statement begins, or at the text's end.
pub fn read_statement(alloc: Global, text: &[u8]) -> Result<Statement, ReadFault>
    ensures tree { IfOk result (spec.IsStatement text.now) }
    ensures place { spec.IfSyntax result (spec.IsFaultAt (spec.source_of text.now) symbol.STATEMENT_RULE) }
{
    let tokens = read_tokens(alloc, text)?;
    let source = Source {
        text,
        tokens: tokens.items.as_slice(),
    };
    let mut parts = parts_of(alloc, &source, STATEMENT_RULE)?;
    match parts.statements.pop() {
        Some(statement) => Ok(statement),
        None => unreachable!(),
    }
}

/// The longest front of some tokens that begins a query without an order, where it is one. They stand at the front of all
/// those that are left of a text.
#[tactic(auto, using(crate::proofs::Known::known))]
fn front_of(alloc: Global, left: &Source<'_>, part: &Source<'_>) -> Result<Front, ReadFault>
    ensures front { IfOk result (spec.IsFrontOf part.now) }
    ensures place { spec.IfSyntax result (spec.IsNoFrontOf left.now part.now) }
{
    let kinds = kinds_of(alloc, part.text, part.tokens)?;
    let rules = rules(alloc)?;
    let grammar = Grammar::known(rules.as_slice());
    match grammar::read_front(alloc, &grammar, SET_ONLY_RULE, kinds.as_slice()) {
        Ok(front) => Ok(front),
        Err(grammar::ReadFault::Syntax { at }) => Err(ReadFault::Syntax {
            at: place_of(left, at),
        }),
        Err(grammar::ReadFault::Memory) => Err(ReadFault::Memory),
    }
}

/// The query without an order that the longest front of some of a text's tokens is; the token at `until` belongs to none.
///
/// `Syntax` comes exactly where it is none, at the token after it, or at the text's end.
pub fn read_setq(
    alloc: Global,
    text: &[u8],
    tokens: &Tokens,
    from: usize,
    until: usize,
) -> Result<SetRead, ReadFault>
    requires order { from ≤ until }
    requires within { until ≤ length tokens.now.items }
    ensures tree { IfOk result (spec.IsFrontSet (record { text = text.now; tokens = tokens.now.items }) from until) }
    ensures place { spec.IfSyntax result (spec.IsNoFrontAt (record { text = text.now; tokens = tokens.now.items }) from until) }
{
    let left = Source {
        text,
        tokens: tokens.items.as_slice().split_at(from).1,
    };
    let part = Source {
        text,
        tokens: left.tokens.split_at(until - from).0,
    };
    let front = front_of(alloc, &left, &part)?;
    let mut parts = build(alloc, &part, front.log.as_slice())?;
    match parts.queries.pop() {
        Some(query) => Ok(SetRead {
            query,
            next: from + front.next,
        }),
        None => unreachable!(),
    }
}
