//! The machine: threads that read a text token by token.
//!
//! A thread is a stack of symbols that may derive what is left. For each token a thread opens the rules on its stack
//! until a token symbol is on top, which reads the token or ends the thread; where a rule has several alternatives that
//! read the token, the thread goes on as several.

ghost use Rattle.std.specs.Prelude.{true, [], ◌≡◌, ◌++◌, ◌∷◌, ◌+◌, ◌<◌, min, IfOk, OnOk};
ghost use Rattle.grammar.specs.Derivation.{has};
ghost use Rattle.grammar.specs.Limits.{child, children, is_within};
ghost use Rattle.grammar.specs.Table.{shapes, rule_of, Token};
ghost use Rattle.grammar.specs.Taking as spec;
ghost use Rattle.grammar.specs.Threads.{symbols, Adds, Reads, SomeReads, KeepsEnded};
ghost use Rattle.grammar.specs.WellFormed.{is_well_formed};

use crate::table::{Item, MAX_COUNT, MAX_DEPTH, MAX_TOKENS, Place, Rule, rule_at};
use std::alloc::{AllocError, Global};
use std::rc::Rc;

/// A symbol on a stack, with the nesting and the counted element that it stands in.
#[derive(Clone, Copy)]
pub(crate) struct Symbol {
    pub(crate) id: u16,
    pub(crate) depth: u8,
    pub(crate) count: u8,
}

/// An action of a derivation.
#[derive(Clone, Copy, Debug, PartialEq, Eq)]
pub struct Event {
    /// The number of its symbol.
    pub action: u16,
    /// How many tokens stand before it.
    pub at: usize,
}

/// The actions of a derivation in turn.
pub type Log = Vec<Event>;

/// Symbols in turn, the next one on top. Threads share what lies below.
#[derive(Drop)]
pub(crate) enum Stack {
    Empty,
    On(Symbol, Rc<Stack>),
}

/// One derivation that is open: what is still to be read, and the actions since the log was settled.
#[derive(Drop)]
pub(crate) struct Thread {
    pub(crate) stack: Rc<Stack>,
    pub(crate) log: Log,
}

/// The next number; one more than the limit stands for all past it.
fn one_more(number: u8, most: u8) -> u8
    requires { most < 255 }
    ensures { result ≡ min (number + 1) (most + 1) }
{
    if number < most { number + 1 } else { most + 1 }
}

/// An item where the symbol stood.
fn child_of(symbol: Symbol, item: Item) -> Symbol
    ensures { result ≡ child symbol item }
{
    let mut new = Symbol {
        id: item.symbol,
        depth: symbol.depth,
        count: symbol.count,
    };
    match item.place {
        Place::Same => {}
        Place::Deeper => new.depth = one_more(symbol.depth, MAX_DEPTH),
        Place::First => new.count = 1,
        Place::Next => new.count = one_more(symbol.count, MAX_COUNT),
    }
    new
}

/// Puts the items on a stack where the symbol stood.
fn put(
    alloc: Global,
    symbol: Symbol,
    items: &[Item],
    rest: &Rc<Stack>,
) -> Result<Rc<Stack>, AllocError>
    ensures { IfOk result (λ s. symbols s.value ≡ children symbol items.now ++ symbols rest.now.value) }
{
    match items {
        [] => rest.clone(),
        [item, items @ ..] => {
            let below = put(alloc, symbol, items, rest)?;
            let top = Rc::new(alloc, Stack::On(child_of(symbol, *item), below))?;
            Ok(top)
        }
    }
}

/// Whether the token is read as the symbol, which is one for these kinds.
fn takes(kinds: &[u16], at: usize, symbol: Symbol, token: Option<u16>) -> bool
    ensures { result ≡ spec.takes kinds.now at symbol token }
{
    match token {
        Some(token) => has_room(at, symbol) && kinds.contains(&token),
        None => false,
    }
}

/// Whether the limits let a token stand here.
fn has_room(at: usize, symbol: Symbol) -> bool
    ensures { result ≡ is_within at symbol }
{
    at < MAX_TOKENS && (symbol.depth <= MAX_DEPTH && symbol.count <= MAX_COUNT)
}

/// Whether a guard against these kinds stops.
fn stops(kinds: &[u16], token: Option<u16>) -> bool
    ensures { result ≡ spec.stops kinds.now token }
{
    match token {
        Some(token) => kinds.contains(&token),
        None => false,
    }
}

/// Whether an alternative begins with a token symbol that doesn't read the token, so that it need not be opened.
fn is_barred(rules: &[Rule], at: usize, symbol: Symbol, items: &[Item], token: Option<u16>) -> bool
    ensures { result ≡ spec.is_barred (shapes rules.now) at symbol items.now token }
{
    match items {
        [] => false,
        [item, ..] => match rule_at(rules, item.symbol) {
            Rule::Token(kinds) => !takes(kinds, at, child_of(symbol, *item), token),
            _ => false,
        },
    }
}

/// Reads a token of one of the symbol's kinds, where it may stand.
fn shift(
    alloc: Global,
    rules: &[Rule],
    symbol: Symbol,
    kinds: &[u16],
    rest: &Rc<Stack>,
    token: Option<u16>,
    at: usize,
    trail: &Log,
    out: &mut Vec<Thread>,
) -> Result<(), AllocError>
    requires { Token kinds.now ≡ rule_of (shapes rules.now) symbol.id }
    ensures adds { OnOk result (Adds (shapes rules.now) (at + 1) out.old.items out.new.items (Reads (shapes rules.now) at trail.now.items (symbol ∷ symbols rest.now.value) token)) }
    ensures ended { OnOk result (KeepsEnded token out.old.items out.new.items) }
{
    if !takes(kinds, at, symbol, token) {
        return Ok(());
    }
    let log = Vec::from_slice(alloc, trail.as_slice())?;
    out.push(Thread {
        stack: rest.clone()?,
        log,
    })?;
    Ok(())
}

/// An empty stack reads the end alone.
fn close(
    alloc: Global,
    rules: &[Rule],
    token: Option<u16>,
    at: usize,
    trail: &Log,
    out: &mut Vec<Thread>,
) -> Result<(), AllocError>
    ensures adds { OnOk result (Adds (shapes rules.now) (at + 1) out.old.items out.new.items (Reads (shapes rules.now) at trail.now.items [] token)) }
    ensures ended { OnOk result (KeepsEnded token out.old.items out.new.items) }
{
    match token {
        Some(_) => Ok(()),
        None => {
            let log = Vec::from_slice(alloc, trail.as_slice())?;
            let stack = Rc::new(alloc, Stack::Empty)?;
            out.push(Thread { stack, log })?;
            Ok(())
        }
    }
}

/// Adds a thread for each way in which the stack reads the token, or the end.
fn advance(
    alloc: Global,
    rules: &[Rule],
    stack: &Stack,
    token: Option<u16>,
    at: usize,
    trail: &mut Log,
    out: &mut Vec<Thread>,
) -> Result<(), AllocError>
    requires { is_well_formed (shapes rules.now) ≡ true }
    ensures trail { OnOk result (trail.new.items ≡ trail.old.items) }
    ensures adds { OnOk result (Adds (shapes rules.now) (at + 1) out.old.items out.new.items (Reads (shapes rules.now) at trail.old.items (symbols stack.now) token)) }
    ensures ended { OnOk result (KeepsEnded token out.old.items out.new.items) }
{
    match stack {
        Stack::Empty => close(alloc, rules, token, at, trail, out),
        Stack::On(symbol, rest) => {
            let symbol = *symbol;
            match rule_at(rules, symbol.id) {
                Rule::Token(kinds) => {
                    shift(alloc, rules, symbol, kinds, rest, token, at, trail, out)
                }
                Rule::Action => {
                    trail.push(Event {
                        action: symbol.id,
                        at,
                    })?;
                    advance(alloc, rules, rest, token, at, trail, out)?;
                    trail.pop();
                    Ok(())
                }
                Rule::Unless(kinds) => {
                    if stops(kinds, token) {
                        return Ok(());
                    }
                    advance(alloc, rules, rest, token, at, trail, out)?;
                    Ok(())
                }
                Rule::Choice { alternatives, .. } => {
                    for items in alternatives {
                        if !is_barred(rules, at, symbol, items, token) {
                            let next = put(alloc, symbol, items, rest)?;
                            advance(alloc, rules, &next, token, at, trail, out)?;
                        }
                    }
                    Ok(())
                }
            }
        }
    }
}

/// The threads that have read the token, or the end.
pub(crate) fn step(
    alloc: Global,
    rules: &[Rule],
    threads: &[Thread],
    token: Option<u16>,
    at: usize,
) -> Result<Vec<Thread>, AllocError>
    requires { is_well_formed (shapes rules.now) ≡ true }
    ensures adds { IfOk result (λ out. Adds (shapes rules.now) (at + 1) [] out.items (SomeReads (shapes rules.now) at threads.now token)) }
    ensures ended { IfOk result (λ out. KeepsEnded token [] out.items) }
{
    let mut out = Vec::new(alloc);
    for thread in threads {
        let mut trail = Vec::from_slice(alloc, thread.log.as_slice())?;
        advance(alloc, rules, &thread.stack, token, at, &mut trail, &mut out)?;
    }
    Ok(out)
}
