//! Reads the items of a text in turn.

ghost use Rattle.std.specs.Prelude.{◌≡◌, ◌<◌, ◌==◌, List, [], ◌∷◌, ℕ, ◌+◌, length, drop, IfOk};
ghost use Rattle.grammar.specs.Reading.{IsSentence};
ghost use Rattle.sql_reader.specs.Trees as sql;
ghost use Rattle.sql_reader.specs.Trees.{IfSyntax};
ghost use Rattle.vdb_ddl.specs.Build.{build};
ghost use Rattle.vdb_ddl.specs.Items as spec;
ghost use Rattle.vdb_ddl.specs.Steps as step;
ghost use Rattle.vdb_ddl.specs.Symbols.{DDL_ITEM_RULE};
ghost use Rattle.vdb_ddl.specs.Table.{table};
ghost use Rattle.vdb_ddl.specs.Waiting.{none};

use crate::build::build;
use crate::symbols::DDL_ITEM_RULE;
use crate::table::rules;
use crate::tree::{Item, Items};
use grammar::{Event, Grammar};
use sql_reader::build::Source;
use sql_reader::kinds::kinds_of;
use sql_reader::read::ReadFault;
use sql_reader::symbols::SEMICOLON;
use sql_tokens::read_tokens;
use std::alloc::Global;
use std::marker::Model;
use vdb_base::{NoMemory, Seq};

/// How many bytes a DDL text may have.
pub const MAX_BYTES: usize = 4_194_304;

/// The tokens that are left of a text, and their kinds.
#[derive(Drop)]
struct Left<'a> {
    source: Source<'a>,
    kinds: &'a [u16],
}

impl<'a> Model for Left<'a> {
    ghost use Rattle.std.specs.Prelude.{◌≡◌};
    ghost use Rattle.sql_reader.specs.Source.{Source};
    ghost use Rattle.sql_reader.specs.Trees as sql;

    ghost Value = { Source };

    ghost view = { λ left. left.source };

    ghost invariant = { λ left. left.kinds.now ≡ sql.kinds left.source };
}

/// The elements behind the one of this number.
#[tactic(auto, using(std::proofs::lemmas::List::drop_all))]
fn behind<'a, T>(elements: &'a [T], at: usize) -> &'a [T]
    ensures { result.now ≡ drop (at + 1) elements.now }
{
    if at < elements.len() {
        elements.split_at(at + 1).1
    } else {
        elements.split_at(elements.len()).1
    }
}

impl<'a> Left<'a> {
    fn is_empty(&self) -> bool
        ensures { result ≡ (length self.now.tokens == 0) }
    {
        self.source.tokens.is_empty()
    }

    /// The place of a token by its number, or the end of the text.
    fn place_of(&self, token: usize) -> usize
        ensures { result ≡ sql.place_of self.now token }
    {
        match self.source.tokens.get(token) {
            Some(token) => token.start,
            None => self.source.text.len(),
        }
    }

    /// Whether an item may end after so many tokens.
    fn ends_at(&self, count: usize) -> bool
        ensures { result ≡ spec.ends_at self.now count }
    {
        match self.kinds.get(count) {
            Some(kind) => *kind == SEMICOLON,
            None => true,
        }
    }

    /// What is left behind the token of this number.
    fn behind(&self, at: usize) -> Left<'a>
        ensures { result ≡ spec.after (at + 1) self.now }
    {
        Left {
            source: Source {
                text: self.source.text,
                tokens: behind(self.source.tokens, at),
            },
            kinds: behind(self.kinds, at),
        }
    }
}

/// The item that the actions of an item's derivation build.
fn item_of(alloc: Global, source: &Source<'_>, log: &[Event]) -> Result<Item, NoMemory>
    requires { (kinds : List ℕ) × IsSentence table DDL_ITEM_RULE kinds log.now }
    ensures { IfOk result (λ item. build source.now log.now none ≡ record none { items = item ∷ [] }) }
{
    let mut parts = build(alloc, source, log)?;
    match parts.items.pop() {
        Some(item) => Ok(item),
        None => unreachable!(),
    }
}

/// Adds the item at the front of what is left to a list, and tells how many tokens it has.
fn add_item(
    alloc: Global,
    grammar: &Grammar<'_>,
    left: &Left<'_>,
    items: &mut Items,
) -> Result<usize, ReadFault>
    requires grammar { grammar.now ≡ table }
    requires some { 0 < length left.now.tokens }
    ensures item { IfOk result (step.IsAdded left.now items.old items.new) }
    ensures place { IfSyntax result (spec.IsFault left.now) }
{
    match grammar::read_front(alloc, grammar, DDL_ITEM_RULE, left.kinds) {
        Ok(front) => {
            items.push(item_of(alloc, &left.source, front.log.as_slice())?)?;
            Ok(front.next)
        }
        Err(grammar::ReadFault::Syntax { at }) => Err(ReadFault::Syntax {
            at: left.place_of(at),
        }),
        Err(grammar::ReadFault::Memory) => Err(ReadFault::Memory),
    }
}

/// Adds the item at the front of what is left to a list, and gives what is left after its `;`.
fn next_item<'a>(
    alloc: Global,
    grammar: &Grammar<'_>,
    left: &Left<'a>,
    items: &mut Items,
) -> Result<Left<'a>, ReadFault>
    requires grammar { grammar.now ≡ table }
    requires some { 0 < length left.now.tokens }
    ensures item { IfOk result (step.IsNext left.now items.old items.new) }
    ensures place { IfSyntax result (spec.IsFault left.now) }
{
    let count = add_item(alloc, grammar, left, items)?;
    if !left.ends_at(count) {
        return Err(ReadFault::Syntax {
            at: left.place_of(count),
        });
    }
    Ok(left.behind(count))
}

/// The items that a text's tokens are.
#[tactic(auto, using(crate::proofs::Known::known))]
fn read_items(alloc: Global, source: &Source<'_>) -> Result<Items, ReadFault>
    ensures items { IfOk result (spec.IsItems source.now) }
    ensures place { IfSyntax result (spec.IsFault source.now) }
{
    let kinds = kinds_of(alloc, source.text, source.tokens)?;
    let rules = rules(alloc)?;
    let grammar = Grammar::known(rules.as_slice());
    let mut left = Left {
        source: Source {
            text: source.text,
            tokens: source.tokens,
        },
        kinds: kinds.as_slice(),
    };
    let mut items = Seq::new(alloc);
    while !left.is_empty() {
        left = next_item(alloc, &grammar, &left, &mut items)?;
    }
    Ok(items)
}

/// The items of a DDL text in turn.
///
/// `Syntax` comes exactly where it is none, at the first token that no item goes on with, or that stands after an item and is
/// no `;`, or at the text's end; and at 4,194,304 where a longer text has no such token before.
pub fn read_ddl(alloc: Global, text: &[u8]) -> Result<Items, ReadFault>
    ensures items { IfOk result (spec.IsDdl text.now) }
    ensures place { IfSyntax result (spec.IsRefused text.now) }
{
    let tokens = read_tokens(alloc, text)?;
    let source = Source {
        text,
        tokens: tokens.items.as_slice(),
    };
    match read_items(alloc, &source) {
        Ok(items) => {
            if text.len() <= MAX_BYTES {
                Ok(items)
            } else {
                Err(ReadFault::Syntax { at: MAX_BYTES })
            }
        }
        Err(ReadFault::Syntax { at }) => Err(ReadFault::Syntax {
            at: at.min(MAX_BYTES),
        }),
        Err(ReadFault::Memory) => Err(ReadFault::Memory),
    }
}
