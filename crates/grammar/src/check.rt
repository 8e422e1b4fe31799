//! The tests of a table.

ghost use Rattle.std.specs.Prelude.{◌≡◌, true, MatchOption, nat_lt};
ghost use Rattle.grammar.specs.Table.{shapes, shape_of, items_of};
ghost use Rattle.grammar.specs.Weights as weights;
ghost use Rattle.grammar.specs.WellFormed as spec;

use crate::table::{Cause, IllFormed, Item, Rule, rule_at};

fn weight_of(rule: &Rule) -> u16
    ensures { result ≡ weights.weight_of (shape_of rule.now) }
{
    match rule {
        Rule::Token(_) => 0,
        Rule::Action | Rule::Unless(_) => 1,
        Rule::Choice { weight, .. } => *weight,
    }
}

fn is_solid(rule: &Rule) -> bool
    ensures { result ≡ weights.is_solid (shape_of rule.now) }
{
    match rule {
        Rule::Token(_) => true,
        Rule::Action | Rule::Unless(_) => false,
        Rule::Choice { solid, .. } => *solid,
    }
}

fn rank_of(rule: &Rule) -> u16
    ensures { result ≡ weights.rank_of (shape_of rule.now) }
{
    match rule {
        Rule::Choice { rank, .. } => *rank,
        _ => 0,
    }
}

/// Whether an alternative opens less than the limit before it reads a token.
fn opens_below(rules: &[Rule], limit: u16, items: &[Item]) -> bool
    ensures { result ≡ nat_lt (weights.opening (shapes rules.now) items.now) limit }
{
    let mut left = limit;
    for item in items {
        let rule = rule_at(rules, item.symbol);
        let weight = weight_of(&rule);
        if left <= weight {
            return false;
        }
        if is_solid(&rule) {
            return true;
        }
        left -= weight;
    }
    left > 0
}

fn has_solid(rules: &[Rule], items: &[Item]) -> bool
    ensures { result ≡ weights.has_solid (shapes rules.now) items.now }
{
    for item in items {
        if is_solid(&rule_at(rules, item.symbol)) {
            return true;
        }
    }
    false
}

fn ranks_below(rules: &[Rule], rank: u16, items: &[Item]) -> bool
    ensures { result ≡ weights.ranks_below (shapes rules.now) rank items.now }
{
    for item in items {
        if rank_of(&rule_at(rules, item.symbol)) >= rank {
            return false;
        }
    }
    true
}

fn all_light(rules: &[Rule], weight: u16, alternatives: &[&[Item]]) -> bool
    ensures { result ≡ weights.all_light (shapes rules.now) weight (items_of alternatives.now) }
{
    for items in alternatives {
        if !opens_below(rules, weight, items) {
            return false;
        }
    }
    true
}

fn all_solid(rules: &[Rule], alternatives: &[&[Item]]) -> bool
    ensures { result ≡ weights.all_solid (shapes rules.now) (items_of alternatives.now) }
{
    for items in alternatives {
        if !has_solid(rules, items) {
            return false;
        }
    }
    true
}

fn any_below(rules: &[Rule], rank: u16, alternatives: &[&[Item]]) -> bool
    ensures { result ≡ weights.any_below (shapes rules.now) rank (items_of alternatives.now) }
{
    for items in alternatives {
        if ranks_below(rules, rank, items) {
            return true;
        }
    }
    false
}

/// What is wrong with a rule.
fn cause_of(rules: &[Rule], rule: &Rule) -> Option<Cause>
    ensures { result ≡ spec.cause_of (shapes rules.now) (shape_of rule.now) }
{
    match rule {
        Rule::Token([]) => Some(Cause::NoKind),
        Rule::Token(_) | Rule::Action | Rule::Unless(_) => None,
        Rule::Choice {
            weight,
            solid,
            rank,
            alternatives,
        } => {
            if !all_light(rules, *weight, alternatives) {
                Some(Cause::Weight)
            } else if *solid && !all_solid(rules, alternatives) {
                Some(Cause::Solid)
            } else if any_below(rules, *rank, alternatives) {
                None
            } else {
                Some(Cause::Rank)
            }
        }
    }
}

/// The first rule that is wrong.
pub(crate) fn first_ill(rules: &[Rule]) -> Option<IllFormed>
    ensures { MatchOption result (spec.is_well_formed (shapes rules.now) ≡ true) (spec.IsFirstIll (shapes rules.now)) }
{
    for (at, rule) in rules.iter().enumerate() {
        if let Some(cause) = cause_of(rules, rule) {
            return Some(IllFormed { rule: at, cause });
        }
    }
    None
}
