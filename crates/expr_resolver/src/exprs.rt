//! The walk over an expression: operands from left to right, and the operator after them.

ghost use Rattle.std.specs.Prelude.{◌≡◌, [], length};
ghost use Rattle.expr_resolver.specs.Answers.{Meets, Resolves};
ghost use Rattle.expr_resolver.specs.Exprs as spec;
ghost use Rattle.expr_resolver.specs.Operators as op;
ghost use Rattle.expr_resolver.specs.Scope as scope;
ghost use Rattle.expr_resolver.specs.Walking.{next, one, all};

use crate::aggregates::{aggregate_of, count_all};
use crate::fault::ResolveFault;
use crate::known::{Known, KnownArm, KnownArms, Knowns};
use crate::lists::{between, case_of, chain_type, chained, first_of, in_list, nothing};
use crate::lookup::{column_seen, first_place};
use crate::operators::{
    arithmetic, compared, condition, in_parens, item_of, like_test, literal_of, needs, negative,
    not_of, null_test,
};
use crate::scope::{Names, Over};
use sql_reader::tree::{Arm, ColumnName, Comparison, Expr, Link, Operator};
use sqlite_items::Boxed;
use std::alloc::Global;
use vdb_base::Seq;
use vdb_model::Aggs;

fn column_known(
    alloc: Global,
    names: &Names,
    over: Over,
    c: &ColumnName,
) -> Result<Known, ResolveFault>
    ensures { Resolves (next (scope.column_seen names.now over c.now) (op.column_at (scope.first_place c.now))) result }
{
    let (number, ty) = column_seen(alloc, names, over, c)?;
    Ok(Known {
        expr: vdb_model::Expr::Col(number),
        ty: Some(ty),
        first: first_place(c),
        column: true,
        between: false,
    })
}

/// The expression with its names and types, over the rows or the groups. The aggregates that it meets are added to `aggs`.
#[cycle(walk)]
#[tactic(auto, using(crate::proofs::Rules::walk_rules))]
pub fn walk(
    alloc: Global,
    names: &Names,
    over: Over,
    e: &Expr,
    aggs: &mut Aggs,
) -> Result<Known, ResolveFault>
    ensures { Meets (spec.walk names.now e.now over aggs.old) result aggs.new }
{
    match e {
        Expr::Literal(literal) => Ok(literal_of(alloc, literal)?),
        Expr::Column(c) => Ok(column_known(alloc, names, over, c)?),
        Expr::Parens { inner, at } => {
            Ok(in_parens(*at, walk(alloc, names, over, inner.get(), aggs)?)?)
        }
        Expr::Negate { operand, at } => {
            Ok(negative(alloc, *at, walk(alloc, names, over, operand.get(), aggs)?)?)
        }
        Expr::Chain { first, rest } => {
            let first = walk(alloc, names, over, first.get(), aggs)?;
            Ok(chain(alloc, names, over, rest.as_slice(), first, aggs)?)
        }
        Expr::Not { operand, at } => {
            Ok(not_of(alloc, *at, walk(alloc, names, over, operand.get(), aggs)?)?)
        }
        Expr::Compare {
            comparison,
            left,
            right,
            at,
        } => {
            let left = walk(alloc, names, over, left.get(), aggs)?;
            Ok(compare(
                alloc,
                names,
                over,
                left,
                *comparison,
                right.get(),
                *at,
                aggs,
            )?)
        }
        Expr::IsNull { operand, negated } => {
            Ok(null_test(
                alloc,
                *negated,
                walk(alloc, names, over, operand.get(), aggs)?,
            )?)
        }
        Expr::In {
            operand,
            negated,
            items,
            at,
        } => {
            let operand = walk(alloc, names, over, operand.get(), aggs)?;
            Ok(walk_in(
                alloc,
                names,
                over,
                operand,
                *negated,
                items.as_slice(),
                *at,
                aggs,
            )?)
        }
        Expr::Like {
            operand,
            negated,
            pattern,
            at,
        } => {
            let operand = walk(alloc, names, over, operand.get(), aggs)?;
            Ok(like_test(alloc, *negated, *at, pattern, operand)?)
        }
        Expr::Between {
            operand,
            negated,
            low,
            high,
            at,
        } => {
            let operand = walk(alloc, names, over, operand.get(), aggs)?;
            let low = walk(alloc, names, over, low.get(), aggs)?;
            Ok(walk_high(
                alloc,
                names,
                over,
                operand,
                *negated,
                low,
                high.get(),
                *at,
                aggs,
            )?)
        }
        Expr::CountAll { at } => Ok(count_all(over, names.keys.len(), *at, aggs)?),
        Expr::Aggregate {
            aggregate,
            operand,
            at,
        } => {
            let operand = walk(alloc, names, Over::Rows, operand.get(), aggs)?;
            Ok(aggregate_of(over, names.keys.len(), *aggregate, *at, operand, aggs)?)
        }
        Expr::Coalesce { items, at } => {
            Ok(first_of(
                alloc,
                *at,
                walk_all(alloc, names, over, items.as_slice(), aggs)?,
            )?)
        }
        Expr::Case {
            arms,
            otherwise,
            at,
        } => {
            let arms = walk_arms(alloc, names, over, arms.as_slice(), aggs)?;
            Ok(walk_last(alloc, names, over, arms, otherwise, *at, aggs)?)
        }
    }
}

/// A comparison behind its left side.
#[cycle(walk)]
#[tactic(auto, using(crate::proofs::Rules::walk_rules))]
fn compare(
    alloc: Global,
    names: &Names,
    over: Over,
    left: Known,
    comparison: Comparison,
    right: &Expr,
    at: usize,
    aggs: &mut Aggs,
) -> Result<Known, ResolveFault>
    ensures { Meets (one (spec.walk names.now right.now over) (op.compared comparison at left) aggs.old) result aggs.new }
{
    let right = walk(alloc, names, over, right, aggs)?;
    Ok(compared(alloc, comparison, at, left, right)?)
}

/// IN behind its operand.
#[cycle(walk)]
#[tactic(auto, using(crate::proofs::Rules::walk_rules))]
fn walk_in(
    alloc: Global,
    names: &Names,
    over: Over,
    operand: Known,
    negated: bool,
    items: &[Expr],
    at: usize,
    aggs: &mut Aggs,
) -> Result<Known, ResolveFault>
    ensures { Meets (one (all (spec.items over (spec.parts_of names.now items.now)) []) (op.in_list negated at operand) aggs.old) result aggs.new }
{
    let items = walk_items(alloc, names, over, items, aggs)?;
    Ok(in_list(alloc, negated, at, operand, items)?)
}

/// BETWEEN behind its first two operands.
#[cycle(walk)]
#[tactic(auto, using(crate::proofs::Rules::walk_rules))]
fn walk_high(
    alloc: Global,
    names: &Names,
    over: Over,
    operand: Known,
    negated: bool,
    low: Known,
    high: &Expr,
    at: usize,
    aggs: &mut Aggs,
) -> Result<Known, ResolveFault>
    ensures { Meets (one (spec.walk names.now high.now over) (op.between negated at operand low) aggs.old) result aggs.new }
{
    let high = walk(alloc, names, over, high, aggs)?;
    Ok(between(alloc, negated, at, operand, low, high)?)
}

/// A CASE behind its arms; without ELSE it ends with NULL.
#[cycle(walk)]
#[tactic(auto, using(crate::proofs::Rules::walk_rules))]
fn walk_last(
    alloc: Global,
    names: &Names,
    over: Over,
    arms: KnownArms,
    otherwise: &Option<Boxed<Expr>>,
    at: usize,
    aggs: &mut Aggs,
) -> Result<Known, ResolveFault>
    ensures { Meets (one (spec.last_in over at (spec.part_of names.now otherwise.now)) (op.case_of at arms) aggs.old) result aggs.new }
{
    match otherwise {
        None => Ok(case_of(alloc, at, arms, nothing(at))?),
        Some(e) => Ok(case_of(alloc, at, arms, walk(alloc, names, over, e.get(), aggs)?)?),
    }
}

#[cycle(walk)]
#[tactic(auto, using(crate::proofs::Rules::walk_rules))]
fn walk_all(
    alloc: Global,
    names: &Names,
    over: Over,
    es: &[Expr],
    aggs: &mut Aggs,
) -> Result<Knowns, ResolveFault>
    ensures { Meets (all (spec.walks over (spec.parts_of names.now es.now)) [] aggs.old) result aggs.new }
{
    let mut made = Seq::new(alloc);
    for e in es {
        made.push(walk(alloc, names, over, e, aggs)?)?;
    }
    Ok(made)
}

/// The items of IN, each without a column.
#[cycle(walk)]
#[tactic(auto, using(crate::proofs::Rules::walk_rules))]
fn walk_items(
    alloc: Global,
    names: &Names,
    over: Over,
    es: &[Expr],
    aggs: &mut Aggs,
) -> Result<Knowns, ResolveFault>
    ensures { Meets (all (spec.items over (spec.parts_of names.now es.now)) [] aggs.old) result aggs.new }
{
    let mut made = Seq::new(alloc);
    for e in es {
        made.push(item_of(walk(alloc, names, over, e, aggs)?)?)?;
    }
    Ok(made)
}

/// One WHEN .. THEN ..; its condition is tested before its value.
#[cycle(walk)]
#[tactic(auto, using(crate::proofs::Rules::walk_rules))]
fn walk_arm(
    alloc: Global,
    names: &Names,
    over: Over,
    arm: &Arm,
    aggs: &mut Aggs,
) -> Result<KnownArm, ResolveFault>
    ensures { Meets (spec.arm_in over (spec.arm_of names.now arm.now) aggs.old) result aggs.new }
{
    let condition = condition(walk(alloc, names, over, &arm.condition, aggs)?)?;
    let value = walk(alloc, names, over, &arm.value, aggs)?;
    Ok(KnownArm { condition, value })
}

#[cycle(walk)]
#[tactic(auto, using(crate::proofs::Rules::walk_rules))]
fn walk_arms(
    alloc: Global,
    names: &Names,
    over: Over,
    arms: &[Arm],
    aggs: &mut Aggs,
) -> Result<KnownArms, ResolveFault>
    ensures { Meets (all (spec.arms_in over (spec.arms_of names.now arms.now)) [] aggs.old) result aggs.new }
{
    let mut made = Seq::new(alloc);
    for arm in arms {
        made.push(walk_arm(alloc, names, over, arm, aggs)?)?;
    }
    Ok(made)
}

/// A chain behind its first operand.
#[cycle(walk)]
#[tactic(auto, using(crate::proofs::Rules::walk_rules))]
fn chain(
    alloc: Global,
    names: &Names,
    over: Over,
    links: &[Link],
    first: Known,
    aggs: &mut Aggs,
) -> Result<Known, ResolveFault>
    ensures { Meets (spec.chain over (spec.links_of names.now links.now) first aggs.old) result aggs.new }
{
    let Some(link) = links.first() else {
        return Ok(first);
    };
    let at = link.at;
    match link.operator {
        Operator::Or => Ok(listed(alloc, names, over, Operator::Or, at, links, first, aggs)?),
        Operator::And => Ok(listed(alloc, names, over, Operator::And, at, links, first, aggs)?),
        Operator::Concat => {
            Ok(listed(alloc, names, over, Operator::Concat, at, links, first, aggs)?)
        }
        Operator::Add => Ok(computed(alloc, names, over, links, first, aggs)?),
        Operator::Subtract => Ok(computed(alloc, names, over, links, first, aggs)?),
        Operator::Multiply => Ok(computed(alloc, names, over, links, first, aggs)?),
    }
}

/// A chain of OR, of AND or of `||`.
#[cycle(walk)]
#[tactic(auto, using(crate::proofs::Rules::walk_rules), unfolding(crate::specs::Exprs::listed))]
fn listed(
    alloc: Global,
    names: &Names,
    over: Over,
    operator: Operator,
    at: usize,
    links: &[Link],
    first: Known,
    aggs: &mut Aggs,
) -> Result<Known, ResolveFault>
    ensures { Meets (spec.listed operator over at (spec.links_of names.now links.now) first aggs.old) result aggs.new }
{
    let place = first.first;
    let operands = operands(alloc, names, over, operator, at, links, first, aggs)?;
    Ok(chained(alloc, operator, place, operands)?)
}

#[cycle(walk)]
#[tactic(auto, using(crate::proofs::Rules::walk_rules))]
fn operands(
    alloc: Global,
    names: &Names,
    over: Over,
    operator: Operator,
    at: usize,
    links: &[Link],
    first: Known,
    aggs: &mut Aggs,
) -> Result<Knowns, ResolveFault>
    ensures { Meets (spec.all_operands operator over at (spec.links_of names.now links.now) first aggs.old) result aggs.new }
{
    let ty = chain_type(operator);
    let mut made = Seq::new(alloc);
    made.push(needs(ty, at, first)?)?;
    for link in links {
        made.push(needs(ty, link.at, walk(alloc, names, over, &link.operand, aggs)?)?)?;
    }
    Ok(made)
}

/// Arithmetic from left to right.
#[cycle(walk)]
#[tactic(auto, using(crate::proofs::Rules::walk_rules))]
fn computed(
    alloc: Global,
    names: &Names,
    over: Over,
    links: &[Link],
    first: Known,
    aggs: &mut Aggs,
) -> Result<Known, ResolveFault>
    ensures { Meets (spec.computed over (spec.links_of names.now links.now) first aggs.old) result aggs.new }
{
    let mut so_far = first;
    for link in links {
        let operand = walk(alloc, names, over, &link.operand, aggs)?;
        so_far = arithmetic(alloc, link.operator, link.at, so_far, operand)?;
    }
    Ok(so_far)
}
