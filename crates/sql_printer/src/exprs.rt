//! Expressions.

ghost use Rattle.std.specs.Prelude.{◌≡◌, ◌++◌, OnOk};
ghost use Rattle.sql_printer.specs.Exprs as spec;
ghost use Rattle.sql_printer.specs.Lists.{all};
ghost use Rattle.sql_printer.specs.Said.{word};
ghost use Rattle.sql_printer.specs.Spelled.{spelled};

use crate::names::{put_column, put_literal};
use crate::put::{put, put_before, put_optional};
use sql_reader::symbols::NOT;
use sql_reader::tree::{Aggregate, Arm, Comparison, Expr, Link, Operator};
use std::alloc::Global;
use vdb_base::{NoMemory, Text};

fn put_operator(operator: Operator, out: &mut Text) -> Result<(), NoMemory>
    ensures { OnOk result (out.new ≡ out.old ++ spelled (word (spec.operator_kind operator))) }
{
    match operator {
        Operator::Or => put("or", out),
        Operator::And => put("and", out),
        Operator::Concat => put("||", out),
        Operator::Add => put("+", out),
        Operator::Subtract => put("-", out),
        Operator::Multiply => put("*", out),
    }
}

fn put_comparison(comparison: Comparison, out: &mut Text) -> Result<(), NoMemory>
    ensures { OnOk result (out.new ≡ out.old ++ spelled (word (spec.comparison_kind comparison))) }
{
    match comparison {
        Comparison::Equal => put("=", out),
        Comparison::NotEqual => put("<>", out),
        Comparison::Less => put("<", out),
        Comparison::AtMost => put("<=", out),
        Comparison::Greater => put(">", out),
        Comparison::AtLeast => put(">=", out),
    }
}

fn put_aggregate(aggregate: Aggregate, out: &mut Text) -> Result<(), NoMemory>
    ensures { OnOk result (out.new ≡ out.old ++ spelled (word (spec.aggregate_kind aggregate))) }
{
    match aggregate {
        Aggregate::Count => put("count", out),
        Aggregate::Sum => put("sum", out),
        Aggregate::Min => put("min", out),
        Aggregate::Max => put("max", out),
    }
}

/// Appends the text of an expression.
#[cycle(printing)]
#[tactic(auto, using(crate::proofs::Rules::expr_rules))]
pub(crate) fn put_expr(alloc: Global, expr: &Expr, out: &mut Text) -> Result<(), NoMemory>
    ensures { OnOk result (out.new ≡ out.old ++ spelled (spec.expr expr.now)) }
{
    match expr {
        Expr::Literal(literal) => put_literal(alloc, literal, out),
        Expr::Column(column) => put_column(alloc, column, out),
        Expr::Parens { inner, .. } => {
            put("(", out)?;
            put_expr(alloc, inner.get(), out)?;
            put(")", out)
        }
        Expr::Negate { operand, .. } => {
            put("-", out)?;
            put_expr(alloc, operand.get(), out)
        }
        Expr::Chain { first, rest } => {
            put_expr(alloc, first.get(), out)?;
            put_links(alloc, rest.as_slice(), out)
        }
        Expr::Not { operand, .. } => {
            put("not", out)?;
            put_expr(alloc, operand.get(), out)
        }
        Expr::Compare {
            comparison,
            left,
            right,
            ..
        } => {
            put_expr(alloc, left.get(), out)?;
            put_comparison(*comparison, out)?;
            put_expr(alloc, right.get(), out)
        }
        Expr::IsNull { operand, negated } => {
            put_expr(alloc, operand.get(), out)?;
            put("is", out)?;
            put_optional(*negated, NOT, "not", out)?;
            put("null", out)
        }
        Expr::In {
            operand,
            negated,
            items,
            ..
        } => {
            put_expr(alloc, operand.get(), out)?;
            put_optional(*negated, NOT, "not", out)?;
            put("in", out)?;
            put("(", out)?;
            put_exprs(alloc, items.as_slice(), out)?;
            put(")", out)
        }
        Expr::Like {
            operand,
            negated,
            pattern,
            ..
        } => {
            put_expr(alloc, operand.get(), out)?;
            put_optional(*negated, NOT, "not", out)?;
            put("like", out)?;
            put_literal(alloc, pattern, out)
        }
        Expr::Between {
            operand,
            negated,
            low,
            high,
            ..
        } => {
            put_expr(alloc, operand.get(), out)?;
            put_optional(*negated, NOT, "not", out)?;
            put("between", out)?;
            put_expr(alloc, low.get(), out)?;
            put("and", out)?;
            put_expr(alloc, high.get(), out)
        }
        Expr::CountAll { .. } => {
            put("count", out)?;
            put("(", out)?;
            put("*", out)?;
            put(")", out)
        }
        Expr::Aggregate {
            aggregate,
            operand,
            ..
        } => {
            put_aggregate(*aggregate, out)?;
            put("(", out)?;
            put_expr(alloc, operand.get(), out)?;
            put(")", out)
        }
        Expr::Coalesce { items, .. } => {
            put("coalesce", out)?;
            put("(", out)?;
            put_exprs(alloc, items.as_slice(), out)?;
            put(")", out)
        }
        Expr::Case {
            arms,
            otherwise,
            ..
        } => {
            put("case", out)?;
            put_arms(alloc, arms.as_slice(), out)?;
            match otherwise {
                Some(last) => {
                    put("else", out)?;
                    put_expr(alloc, last.get(), out)?;
                    put("end", out)
                }
                None => put("end", out),
            }
        }
    }
}

/// Expressions with commas between them.
#[cycle(printing)]
#[tactic(auto, using(crate::proofs::Rules::expr_rules))]
fn put_exprs(alloc: Global, exprs: &[Expr], out: &mut Text) -> Result<(), NoMemory>
    ensures { OnOk result (out.new ≡ out.old ++ spelled (spec.exprs exprs.now)) }
{
    let mut first = true;
    for expr in exprs {
        put_before(first, "", out)?;
        put_expr(alloc, expr, out)?;
        first = false;
    }
    Ok(())
}

/// The operators of a chain, each with the operand after it.
#[cycle(printing)]
#[tactic(auto, using(crate::proofs::Rules::expr_rules))]
fn put_links(alloc: Global, links: &[Link], out: &mut Text) -> Result<(), NoMemory>
    ensures { OnOk result (out.new ≡ out.old ++ spelled (all spec.link links.now)) }
{
    for link in links {
        put_operator(link.operator, out)?;
        put_expr(alloc, &link.operand, out)?;
    }
    Ok(())
}

/// The arms of a CASE.
#[cycle(printing)]
#[tactic(auto, using(crate::proofs::Rules::expr_rules))]
fn put_arms(alloc: Global, arms: &[Arm], out: &mut Text) -> Result<(), NoMemory>
    ensures { OnOk result (out.new ≡ out.old ++ spelled (all spec.arm arms.now)) }
{
    for arm in arms {
        put("when", out)?;
        put_expr(alloc, &arm.condition, out)?;
        put("then", out)?;
        put_expr(alloc, &arm.value, out)?;
    }
    Ok(())
}
