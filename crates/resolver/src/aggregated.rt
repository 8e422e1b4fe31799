//! Whether an aggregate stands in an expression.

ghost use Rattle.std.specs.Prelude.{◌≡◌};
ghost use Rattle.resolver.specs.Items as spec;

use sql_reader::tree::{Arm, Expr, Link, SelectItem};
use sqlite_items::Boxed;

#[cycle(aggregated)]
#[tactic(auto, using(crate::proofs::Rules::item_rules))]
fn has_aggregate(e: &Expr) -> bool
    ensures { result ≡ spec.has_aggregate e.now }
{
    match e {
        Expr::Literal(_) => false,
        Expr::Column(_) => false,
        Expr::Parens { inner, .. } => has_aggregate(inner.get()),
        Expr::Negate { operand, .. } => has_aggregate(operand.get()),
        Expr::Chain { first, rest } => has_aggregate(first.get()) || any_link(rest.as_slice()),
        Expr::Not { operand, .. } => has_aggregate(operand.get()),
        Expr::Compare { left, right, .. } => has_aggregate(left.get())
            || has_aggregate(right.get()),
        Expr::IsNull { operand, .. } => has_aggregate(operand.get()),
        Expr::In { operand, items, .. } => has_aggregate(operand.get())
            || any_expr(items.as_slice()),
        Expr::Like { operand, .. } => has_aggregate(operand.get()),
        Expr::Between {
            operand,
            low,
            high,
            ..
        } => has_aggregate(operand.get()) || has_aggregate(low.get()) || has_aggregate(high.get()),
        Expr::CountAll { .. } => true,
        Expr::Aggregate { .. } => true,
        Expr::Coalesce { items, .. } => any_expr(items.as_slice()),
        Expr::Case {
            arms,
            otherwise,
            ..
        } => any_arm(arms.as_slice()) || last_has(otherwise),
    }
}

#[cycle(aggregated)]
fn any_expr(es: &[Expr]) -> bool
    ensures { result ≡ spec.any_has es.now }
{
    for e in es {
        if has_aggregate(e) {
            return true;
        }
    }
    false
}

#[cycle(aggregated)]
fn any_link(links: &[Link]) -> bool
    ensures { result ≡ spec.any_link_has links.now }
{
    for link in links {
        if has_aggregate(&link.operand) {
            return true;
        }
    }
    false
}

#[cycle(aggregated)]
fn any_arm(arms: &[Arm]) -> bool
    ensures { result ≡ spec.any_arm_has arms.now }
{
    for arm in arms {
        if has_aggregate(&arm.condition) || has_aggregate(&arm.value) {
            return true;
        }
    }
    false
}

#[cycle(aggregated)]
fn last_has(otherwise: &Option<Boxed<Expr>>) -> bool
    ensures { result ≡ spec.last_has otherwise.now }
{
    match otherwise {
        None => false,
        Some(e) => has_aggregate(e.get()),
    }
}

/// Whether one stands among the items.
pub fn any_aggregate(items: &[SelectItem]) -> bool
    ensures { result ≡ spec.any_aggregate items.now }
{
    for item in items {
        if let SelectItem::Expr { expr, .. } = item {
            if has_aggregate(expr) {
                return true;
            }
        }
    }
    false
}
