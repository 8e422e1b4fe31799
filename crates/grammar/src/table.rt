//! Grammars as tables.

ghost use Rattle.std.specs.Prelude.{◌≡◌, true, IfOk, IfErr};
ghost use Rattle.grammar.specs.Table.{shapes, shape_of, rule_of};
ghost use Rattle.grammar.specs.WellFormed.{is_well_formed, IsFirstIll};

use crate::check::first_ill;
use std::marker::Model;

/// How deep a token may be nested.
pub const MAX_DEPTH: u8 = 64;

/// How many elements of a counted list are read.
pub const MAX_COUNT: u8 = 64;

/// How many tokens of a text are read.
pub const MAX_TOKENS: usize = 65_536;

/// Where an item stands, against its rule.
#[derive(Clone, Copy, Debug, PartialEq, Eq)]
pub enum Place {
    /// As deep, and in the same element of a counted list.
    Same,
    /// One level of nesting deeper.
    Deeper,
    /// In the first element of a counted list.
    First,
    /// In the next element of the counted list.
    Next,
}

/// A part of an alternative: a symbol, by its number in the table, and its place.
#[derive(Clone, Copy, Debug)]
pub struct Item {
    pub symbol: u16,
    pub place: Place,
}

/// What a symbol stands for. A number past the table's end is an action.
#[derive(Clone, Copy, Debug)]
pub enum Rule<'a> {
    /// A token of one of these kinds.
    Token(&'a [u16]),
    /// No token: an entry in the log.
    Action,
    /// No token, and what follows may not begin with a token of these kinds.
    Unless(&'a [u16]),
    /// One of the alternatives. The other fields are what the table's author knows of them, which `Grammar::new` tests.
    Choice {
        /// More than an alternative opens before it reads a token: a token opens nothing, an action or a guard 1, a
        /// rule its weight, and what comes after a solid symbol isn't counted.
        weight: u16,
        /// Whether each alternative has a solid symbol: a token, or a solid rule. What is solid derives no empty text.
        solid: bool,
        /// More than the rank of each symbol of some alternative; all but rules have rank 0.
        rank: u16,
        /// What the symbol may be replaced by.
        alternatives: &'a [&'a [Item]],
    },
}

/// What is wrong with a rule.
#[derive(Clone, Copy, Debug, PartialEq, Eq)]
pub enum Cause {
    /// A token of no kind.
    NoKind,
    /// An alternative opens as much as the rule's weight, as one that begins with the rule itself.
    Weight,
    /// The rule is called solid, and an alternative has no solid symbol.
    Solid,
    /// No alternative is made of symbols of lower ranks, as where each leads back to the rule.
    Rank,
}

/// The first rule of a table that is wrong.
#[derive(Clone, Copy, Debug, PartialEq, Eq)]
pub struct IllFormed {
    /// Its number.
    pub rule: usize,
    pub cause: Cause,
}

/// A table by which texts can be read.
#[derive(Drop)]
pub struct Grammar<'a> {
    rules: &'a [Rule<'a>],
}

impl<'a> Model for Grammar<'a> {
    ghost use Rattle.std.specs.Prelude.{◌≡◌, true};
    ghost use Rattle.grammar.specs.Table.{Rules, shapes};
    ghost use Rattle.grammar.specs.WellFormed.{is_well_formed};

    ghost Value = { Rules };

    ghost view = { λ g. shapes g.rules.now };

    ghost invariant = { λ g. is_well_formed (shapes g.rules.now) ≡ true };
}

impl<'a> Grammar<'a> {
    /// The grammar of a table, or the first of its rules that is wrong. It goes once over the table.
    pub fn new(rules: &'a [Rule<'a>]) -> Result<Grammar<'a>, IllFormed>
        ensures ok { IfOk result (λ grammar. grammar ≡ shapes rules.now) }
        ensures well_formed { IfOk result (λ _. is_well_formed (shapes rules.now) ≡ true) }
        ensures ill_formed { IfErr result (IsFirstIll (shapes rules.now)) }
    {
        match first_ill(rules) {
            None => Ok(Grammar { rules }),
            Some(fault) => Err(fault),
        }
    }

    /// The grammar of a table that is known to be well-formed, as one that stands in the code: that is found when the
    /// code is proved, and nothing is tested when it runs.
    pub fn known(rules: &'a [Rule<'a>]) -> Grammar<'a>
        requires { is_well_formed (shapes rules.now) ≡ true }
        ensures { result ≡ shapes rules.now }
    {
        Grammar { rules }
    }

    /// The table.
    pub(crate) fn rules(&self) -> &'a [Rule<'a>]
        ensures rules { shapes result.now ≡ self.now }
        ensures well_formed { is_well_formed self.now ≡ true }
    {
        self.rules
    }
}

/// The rule of a symbol.
pub(crate) fn rule_at<'a>(rules: &[Rule<'a>], symbol: u16) -> Rule<'a>
    ensures { shape_of result ≡ rule_of (shapes rules.now) symbol }
{
    let at = symbol as usize;
    if at < rules.len() {
        rules[at]
    } else {
        Rule::Action
    }
}
