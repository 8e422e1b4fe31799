//! What is built of expressions.

ghost use Rattle.std.specs.Prelude.{◌≡◌, reverse, OnOk};
ghost use Rattle.sql_reader.specs.Build.{waiting};
ghost use Rattle.sql_reader.specs.BuildExprs as spec;
ghost use Rattle.sql_reader.specs.Waiting.{rest, on, made, made2, put, put2, put_two, joined, joined3, with};
ghost use Rattle.sql_reader.specs.declared.tree.expr.Expr.TheVariants.{Column, CountAll};

use crate::build::parts::{append, push};
use crate::build::{ExprAction, Parts};
use crate::tree::{
    Aggregate, Arm, Arms, ColumnName, Comparison, Expr, Exprs, Link, Links, Literal, Operator,
};
use sqlite_items::{Boxed, Items};
use std::alloc::Global;
use vdb_base::NoMemory;

fn constant(
    alloc: Global,
    literals: &mut Vec<Literal>,
    exprs: &mut Vec<Boxed<Expr>>,
) -> Result<(), NoMemory>
    ensures literals { OnOk result (reverse literals.new.items ≡ rest (reverse literals.old.items)) }
    ensures exprs { OnOk result (reverse exprs.new.items ≡ made spec.constant (reverse literals.old.items) (reverse exprs.old.items)) }
{
    let Some(literal) = literals.pop() else {
        return Ok(());
    };
    push(alloc, Expr::Literal(literal), exprs)
}

fn column(
    alloc: Global,
    columns: &mut Vec<ColumnName>,
    exprs: &mut Vec<Boxed<Expr>>,
) -> Result<(), NoMemory>
    ensures columns { OnOk result (reverse columns.new.items ≡ rest (reverse columns.old.items)) }
    ensures exprs { OnOk result (reverse exprs.new.items ≡ made Column (reverse columns.old.items) (reverse exprs.old.items)) }
{
    let Some(column) = columns.pop() else {
        return Ok(());
    };
    push(alloc, Expr::Column(column), exprs)
}

fn parens(
    alloc: Global,
    places: &mut Vec<usize>,
    exprs: &mut Vec<Boxed<Expr>>,
) -> Result<(), NoMemory>
    ensures places { OnOk result (reverse places.new.items ≡ rest (reverse places.old.items)) }
    ensures exprs { OnOk result (reverse exprs.new.items ≡ put spec.parens (reverse places.old.items) (reverse exprs.old.items)) }
{
    let Some(at) = places.pop() else {
        return Ok(());
    };
    let Some(inner) = exprs.pop() else {
        return Ok(());
    };
    push(alloc, Expr::Parens { inner, at }, exprs)
}

fn negate(
    alloc: Global,
    places: &mut Vec<usize>,
    exprs: &mut Vec<Boxed<Expr>>,
) -> Result<(), NoMemory>
    ensures places { OnOk result (reverse places.new.items ≡ rest (reverse places.old.items)) }
    ensures exprs { OnOk result (reverse exprs.new.items ≡ put spec.negate (reverse places.old.items) (reverse exprs.old.items)) }
{
    let Some(at) = places.pop() else {
        return Ok(());
    };
    let Some(operand) = exprs.pop() else {
        return Ok(());
    };
    push(alloc, Expr::Negate { operand, at }, exprs)
}

fn not_expr(
    alloc: Global,
    places: &mut Vec<usize>,
    exprs: &mut Vec<Boxed<Expr>>,
) -> Result<(), NoMemory>
    ensures places { OnOk result (reverse places.new.items ≡ rest (reverse places.old.items)) }
    ensures exprs { OnOk result (reverse exprs.new.items ≡ put spec.not_expr (reverse places.old.items) (reverse exprs.old.items)) }
{
    let Some(at) = places.pop() else {
        return Ok(());
    };
    let Some(operand) = exprs.pop() else {
        return Ok(());
    };
    push(alloc, Expr::Not { operand, at }, exprs)
}

/// An operator and the operand after it, at the end of a chain.
fn link(
    operator: Operator,
    places: &mut Vec<usize>,
    exprs: &mut Vec<Boxed<Expr>>,
    links: &mut Vec<Links>,
) -> Result<(), NoMemory>
    ensures places { OnOk result (reverse places.new.items ≡ rest (reverse places.old.items)) }
    ensures exprs { OnOk result (reverse exprs.new.items ≡ rest (reverse exprs.old.items)) }
    ensures links { OnOk result (reverse links.new.items ≡ put2 (spec.add_link operator) (reverse places.old.items) (reverse exprs.old.items) (reverse links.old.items)) }
{
    let Some((at, operand)) = places.pop().zip(exprs.pop()) else {
        return Ok(());
    };
    let operand = operand.into_inner();
    append(
        Link {
            operator,
            operand,
            at,
        },
        links,
    )
}

fn chain(
    alloc: Global,
    links: &mut Vec<Links>,
    exprs: &mut Vec<Boxed<Expr>>,
) -> Result<(), NoMemory>
    ensures links { OnOk result (reverse links.new.items ≡ rest (reverse links.old.items)) }
    ensures exprs { OnOk result (reverse exprs.new.items ≡ put spec.chain (reverse links.old.items) (reverse exprs.old.items)) }
{
    let Some(rest) = links.pop() else {
        return Ok(());
    };
    let Some(first) = exprs.pop() else {
        return Ok(());
    };
    push(alloc, Expr::Chain { first, rest }, exprs)
}

fn compare(
    alloc: Global,
    comparison: Comparison,
    places: &mut Vec<usize>,
    exprs: &mut Vec<Boxed<Expr>>,
) -> Result<(), NoMemory>
    ensures places { OnOk result (reverse places.new.items ≡ rest (reverse places.old.items)) }
    ensures exprs { OnOk result (reverse exprs.new.items ≡ with (λ at. joined (spec.compare comparison at)) (reverse places.old.items) (reverse exprs.old.items)) }
{
    let Some(at) = places.pop() else {
        return Ok(());
    };
    let Some((right, left)) = exprs.pop().zip(exprs.pop()) else {
        return Ok(());
    };
    push(
        alloc,
        Expr::Compare {
            comparison,
            left,
            right,
            at,
        },
        exprs,
    )
}

fn is_null(alloc: Global, negated: bool, exprs: &mut Vec<Boxed<Expr>>) -> Result<(), NoMemory>
    ensures exprs { OnOk result (reverse exprs.new.items ≡ on (spec.is_null negated) (reverse exprs.old.items)) }
{
    let Some(operand) = exprs.pop() else {
        return Ok(());
    };
    push(alloc, Expr::IsNull { operand, negated }, exprs)
}

fn add(exprs: &mut Vec<Boxed<Expr>>, lists: &mut Vec<Exprs>) -> Result<(), NoMemory>
    ensures exprs { OnOk result (reverse exprs.new.items ≡ rest (reverse exprs.old.items)) }
    ensures lists { OnOk result (reverse lists.new.items ≡ put spec.add (reverse exprs.old.items) (reverse lists.old.items)) }
{
    let Some(e) = exprs.pop() else {
        return Ok(());
    };
    append(e.into_inner(), lists)
}

fn in_list(
    alloc: Global,
    negated: bool,
    places: &mut Vec<usize>,
    lists: &mut Vec<Exprs>,
    exprs: &mut Vec<Boxed<Expr>>,
) -> Result<(), NoMemory>
    ensures places { OnOk result (reverse places.new.items ≡ rest (reverse places.old.items)) }
    ensures lists { OnOk result (reverse lists.new.items ≡ rest (reverse lists.old.items)) }
    ensures exprs { OnOk result (reverse exprs.new.items ≡ put2 (spec.in_list negated) (reverse places.old.items) (reverse lists.old.items) (reverse exprs.old.items)) }
{
    let Some((at, items)) = places.pop().zip(lists.pop()) else {
        return Ok(());
    };
    let Some(operand) = exprs.pop() else {
        return Ok(());
    };
    push(
        alloc,
        Expr::In {
            operand,
            negated,
            items,
            at,
        },
        exprs,
    )
}

fn like(
    alloc: Global,
    negated: bool,
    places: &mut Vec<usize>,
    literals: &mut Vec<Literal>,
    exprs: &mut Vec<Boxed<Expr>>,
) -> Result<(), NoMemory>
    ensures places { OnOk result (reverse places.new.items ≡ rest (reverse places.old.items)) }
    ensures literals { OnOk result (reverse literals.new.items ≡ rest (reverse literals.old.items)) }
    ensures exprs { OnOk result (reverse exprs.new.items ≡ put2 (spec.like negated) (reverse places.old.items) (reverse literals.old.items) (reverse exprs.old.items)) }
{
    let Some((at, pattern)) = places.pop().zip(literals.pop()) else {
        return Ok(());
    };
    let Some(operand) = exprs.pop() else {
        return Ok(());
    };
    push(
        alloc,
        Expr::Like {
            operand,
            negated,
            pattern,
            at,
        },
        exprs,
    )
}

fn between(
    alloc: Global,
    negated: bool,
    places: &mut Vec<usize>,
    exprs: &mut Vec<Boxed<Expr>>,
) -> Result<(), NoMemory>
    ensures places { OnOk result (reverse places.new.items ≡ rest (reverse places.old.items)) }
    ensures exprs { OnOk result (reverse exprs.new.items ≡ with (λ at. joined3 (spec.between negated at)) (reverse places.old.items) (reverse exprs.old.items)) }
{
    let Some(at) = places.pop() else {
        return Ok(());
    };
    let Some(((high, low), operand)) = exprs.pop().zip(exprs.pop()).zip(exprs.pop()) else {
        return Ok(());
    };
    push(
        alloc,
        Expr::Between {
            operand,
            negated,
            low,
            high,
            at,
        },
        exprs,
    )
}

fn count_all(
    alloc: Global,
    places: &mut Vec<usize>,
    exprs: &mut Vec<Boxed<Expr>>,
) -> Result<(), NoMemory>
    ensures places { OnOk result (reverse places.new.items ≡ rest (reverse places.old.items)) }
    ensures exprs { OnOk result (reverse exprs.new.items ≡ made CountAll (reverse places.old.items) (reverse exprs.old.items)) }
{
    let Some(at) = places.pop() else {
        return Ok(());
    };
    push(alloc, Expr::CountAll { at }, exprs)
}

fn aggregate(
    alloc: Global,
    aggregate: Aggregate,
    places: &mut Vec<usize>,
    exprs: &mut Vec<Boxed<Expr>>,
) -> Result<(), NoMemory>
    ensures places { OnOk result (reverse places.new.items ≡ rest (reverse places.old.items)) }
    ensures exprs { OnOk result (reverse exprs.new.items ≡ put (spec.aggregate aggregate) (reverse places.old.items) (reverse exprs.old.items)) }
{
    let Some(at) = places.pop() else {
        return Ok(());
    };
    let Some(operand) = exprs.pop() else {
        return Ok(());
    };
    push(
        alloc,
        Expr::Aggregate {
            aggregate,
            operand,
            at,
        },
        exprs,
    )
}

fn coalesce(
    alloc: Global,
    places: &mut Vec<usize>,
    lists: &mut Vec<Exprs>,
    exprs: &mut Vec<Boxed<Expr>>,
) -> Result<(), NoMemory>
    ensures places { OnOk result (reverse places.new.items ≡ rest (reverse places.old.items)) }
    ensures lists { OnOk result (reverse lists.new.items ≡ rest (reverse lists.old.items)) }
    ensures exprs { OnOk result (reverse exprs.new.items ≡ made2 spec.coalesce (reverse places.old.items) (reverse lists.old.items) (reverse exprs.old.items)) }
{
    let Some((at, items)) = places.pop().zip(lists.pop()) else {
        return Ok(());
    };
    push(alloc, Expr::Coalesce { items, at }, exprs)
}

fn arm(exprs: &mut Vec<Boxed<Expr>>, arms: &mut Vec<Arms>) -> Result<(), NoMemory>
    ensures exprs { OnOk result (reverse exprs.new.items ≡ rest (rest (reverse exprs.old.items))) }
    ensures arms { OnOk result (reverse arms.new.items ≡ put_two spec.add_arm (reverse exprs.old.items) (reverse arms.old.items)) }
{
    let Some((value, condition)) = exprs.pop().zip(exprs.pop()) else {
        return Ok(());
    };
    let condition = condition.into_inner();
    let value = value.into_inner();
    append(Arm { condition, value }, arms)
}

fn case(
    alloc: Global,
    places: &mut Vec<usize>,
    arms: &mut Vec<Arms>,
    exprs: &mut Vec<Boxed<Expr>>,
) -> Result<(), NoMemory>
    ensures places { OnOk result (reverse places.new.items ≡ rest (reverse places.old.items)) }
    ensures arms { OnOk result (reverse arms.new.items ≡ rest (reverse arms.old.items)) }
    ensures exprs { OnOk result (reverse exprs.new.items ≡ made2 spec.case (reverse places.old.items) (reverse arms.old.items) (reverse exprs.old.items)) }
{
    let Some((at, list)) = places.pop().zip(arms.pop()) else {
        return Ok(());
    };
    push(
        alloc,
        Expr::Case {
            arms: list,
            otherwise: None,
            at,
        },
        exprs,
    )
}

fn case_else(
    alloc: Global,
    places: &mut Vec<usize>,
    arms: &mut Vec<Arms>,
    exprs: &mut Vec<Boxed<Expr>>,
) -> Result<(), NoMemory>
    ensures places { OnOk result (reverse places.new.items ≡ rest (reverse places.old.items)) }
    ensures arms { OnOk result (reverse arms.new.items ≡ rest (reverse arms.old.items)) }
    ensures exprs { OnOk result (reverse exprs.new.items ≡ put2 spec.case_else (reverse places.old.items) (reverse arms.old.items) (reverse exprs.old.items)) }
{
    let Some((at, list)) = places.pop().zip(arms.pop()) else {
        return Ok(());
    };
    let Some(otherwise) = exprs.pop() else {
        return Ok(());
    };
    let otherwise = Some(otherwise);
    push(
        alloc,
        Expr::Case {
            arms: list,
            otherwise,
            at,
        },
        exprs,
    )
}

/// Does an action of expressions.
pub(super) fn act(alloc: Global, action: ExprAction, parts: &mut Parts) -> Result<(), NoMemory>
    ensures { OnOk result (waiting parts.new ≡ spec.expr_on action (waiting parts.old)) }
{
    match action {
        ExprAction::Constant => constant(alloc, &mut parts.literals, &mut parts.exprs),
        ExprAction::Column => column(alloc, &mut parts.columns, &mut parts.exprs),
        ExprAction::Parens => parens(alloc, &mut parts.places, &mut parts.exprs),
        ExprAction::Negate => negate(alloc, &mut parts.places, &mut parts.exprs),
        ExprAction::Not => not_expr(alloc, &mut parts.places, &mut parts.exprs),
        ExprAction::Links => Ok(parts.links.push(Items::new(alloc))?),
        ExprAction::Link(operator) => link(
            operator,
            &mut parts.places,
            &mut parts.exprs,
            &mut parts.links,
        ),
        ExprAction::Chain => chain(alloc, &mut parts.links, &mut parts.exprs),
        ExprAction::Compare(comparison) => compare(
            alloc,
            comparison,
            &mut parts.places,
            &mut parts.exprs,
        ),
        ExprAction::IsNull(negated) => is_null(alloc, negated, &mut parts.exprs),
        ExprAction::List => Ok(parts.lists.push(Items::new(alloc))?),
        ExprAction::Add => add(&mut parts.exprs, &mut parts.lists),
        ExprAction::In(negated) => in_list(
            alloc,
            negated,
            &mut parts.places,
            &mut parts.lists,
            &mut parts.exprs,
        ),
        ExprAction::Like(negated) => like(
            alloc,
            negated,
            &mut parts.places,
            &mut parts.literals,
            &mut parts.exprs,
        ),
        ExprAction::Between(negated) => between(
            alloc,
            negated,
            &mut parts.places,
            &mut parts.exprs,
        ),
        ExprAction::CountAll => count_all(alloc, &mut parts.places, &mut parts.exprs),
        ExprAction::Aggregate(kind) => aggregate(alloc, kind, &mut parts.places, &mut parts.exprs),
        ExprAction::Coalesce => coalesce(
            alloc,
            &mut parts.places,
            &mut parts.lists,
            &mut parts.exprs,
        ),
        ExprAction::Arms => Ok(parts.arms.push(Items::new(alloc))?),
        ExprAction::Arm => arm(&mut parts.exprs, &mut parts.arms),
        ExprAction::Case => case(alloc, &mut parts.places, &mut parts.arms, &mut parts.exprs),
        ExprAction::CaseElse => case_else(
            alloc,
            &mut parts.places,
            &mut parts.arms,
            &mut parts.exprs,
        ),
    }
}
