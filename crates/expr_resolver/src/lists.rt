//! What operators make of lists of operands.

ghost use Rattle.std.specs.Prelude.{◌≡◌, ◌∷◌, ◌++◌, [], Ok, IfOk, is_some};
ghost use Rattle.expr_resolver.specs.Answers.{Resolves};
ghost use Rattle.expr_resolver.specs.Operators as spec;
ghost use Rattle.expr_resolver.specs.Types as types;
ghost use Rattle.vdb_model.specs.declared.expr.Expr.TheVariants.{And, Cmp};

use crate::fault::ResolveFault;
use crate::known::{Known, KnownArm, KnownArms, Knowns};
use crate::operators::around;
use crate::types::{common, settled, with_others};
use sql_reader::tree::Operator;
use sqlite_items::{Boxed, Items};
use std::alloc::Global;
use vdb_base::{NoMemory, Ty, Value};
use vdb_model::{Arm, Arms, CmpOp, Expr, Exprs};

#[tactic(auto, using(crate::proofs::OneMore::exprs_more))]
pub fn exprs_of(alloc: Global, ks: Knowns) -> Result<Exprs, NoMemory>
    ensures { IfOk result (λ made. made ≡ spec.exprs_of ks) }
{
    let mut made = Vec::with_capacity(alloc, ks.len())?;
    for k in ks.into_vec() {
        made.push(k.expr)?;
    }
    Ok(Items::from_vec(made))
}

fn any_column(ks: &[Known]) -> bool
    ensures { result ≡ spec.any_column ks.now }
{
    for k in ks {
        if k.column {
            return true;
        }
    }
    false
}

fn any_between(ks: &[Known]) -> bool
    ensures { result ≡ spec.any_between ks.now }
{
    for k in ks {
        if k.between {
            return true;
        }
    }
    false
}

fn chain_expr(operator: Operator, es: Exprs) -> Expr
    ensures { result ≡ spec.chain_of operator es }
{
    match operator {
        Operator::Or => Expr::Or(es),
        Operator::And => Expr::And(es),
        Operator::Concat => Expr::Concat(es),
        Operator::Add => Expr::Concat(es),
        Operator::Subtract => Expr::Concat(es),
        Operator::Multiply => Expr::Concat(es),
    }
}

/// The type of the operands of a chain of OR, of AND or of `||`, and of the chain itself.
pub fn chain_type(operator: Operator) -> Ty
    ensures { result ≡ spec.chain_type operator }
{
    match operator {
        Operator::Or => Ty::Boolean,
        Operator::And => Ty::Boolean,
        Operator::Concat => Ty::Str,
        Operator::Add => Ty::Str,
        Operator::Subtract => Ty::Str,
        Operator::Multiply => Ty::Str,
    }
}

pub fn chained(
    alloc: Global,
    operator: Operator,
    first: usize,
    ks: Knowns,
) -> Result<Known, ResolveFault>
    ensures { Resolves (spec.chained operator first ks) result }
{
    let column = any_column(ks.as_slice());
    let between = any_between(ks.as_slice());
    let es = exprs_of(alloc, ks)?;
    Ok(Known {
        expr: chain_expr(operator, es),
        ty: Some(chain_type(operator)),
        first,
        column,
        between,
    })
}

pub fn in_list(
    alloc: Global,
    negated: bool,
    at: usize,
    k: Known,
    items: Knowns,
) -> Result<Known, ResolveFault>
    ensures { Resolves (spec.in_list negated at k items) result }
{
    if with_others(k.ty, items.as_slice()).is_none() {
        return Err(ResolveFault::mismatch(at));
    }
    let column = k.column || any_column(items.as_slice());
    let between = k.between || any_between(items.as_slice());
    let Known { expr, first, .. } = k;
    let operand = Boxed::new(alloc, expr)?;
    let test = Expr::In(operand, exprs_of(alloc, items)?);
    Ok(Known {
        expr: around(alloc, negated, test)?,
        ty: Some(Ty::Boolean),
        first,
        column,
        between,
    })
}

fn comparison(alloc: Global, op: CmpOp, a: Expr, b: Expr) -> Result<Expr, NoMemory>
    ensures { IfOk result (λ made. made ≡ Cmp op a b) }
{
    let a = Boxed::new(alloc, a)?;
    let b = Boxed::new(alloc, b)?;
    Ok(Expr::Cmp(op, a, b))
}

fn both(alloc: Global, a: Expr, b: Expr) -> Result<Expr, NoMemory>
    ensures { IfOk result (λ made. made ≡ And (a ∷ b ∷ [])) }
{
    let mut es = Vec::with_capacity(alloc, 2)?;
    es.push(a)?;
    es.push(b)?;
    Ok(Expr::And(Items::from_vec(es)))
}

/// `a >= low AND a <= high`
fn within(alloc: Global, e: Expr, low: Expr, high: Expr) -> Result<Expr, NoMemory>
    ensures { IfOk result (λ made. made ≡ spec.within e low high) }
{
    let again = e.copy(alloc)?;
    let low = comparison(alloc, CmpOp::Ge, e, low)?;
    let high = comparison(alloc, CmpOp::Le, again, high)?;
    both(alloc, low, high)
}

fn common_of_three(a: Option<Ty>, b: Option<Ty>, c: Option<Ty>) -> bool
    ensures { result ≡ is_some (types.common_of (a ∷ b ∷ c ∷ [])) }
{
    match common(a, b) {
        None => false,
        Some(ty) => common(ty, c).is_some(),
    }
}

/// The test of a BETWEEN, negated or not.
fn within_test(
    alloc: Global,
    negated: bool,
    e: Expr,
    low: Expr,
    high: Expr,
) -> Result<Expr, ResolveFault>
    ensures { Resolves (Ok (spec.around negated (spec.within e low high))) result }
{
    let test = within(alloc, e, low, high)?;
    Ok(around(alloc, negated, test)?)
}

pub fn between(
    alloc: Global,
    negated: bool,
    at: usize,
    k: Known,
    low: Known,
    high: Known,
) -> Result<Known, ResolveFault>
    ensures { Resolves (spec.between negated at k low high) result }
{
    if k.between || !common_of_three(k.ty, low.ty, high.ty) {
        return Err(ResolveFault::mismatch(at));
    }
    let column = k.column || low.column || high.column;
    let first = k.first;
    Ok(Known {
        expr: within_test(alloc, negated, k.expr, low.expr, high.expr)?,
        ty: Some(Ty::Boolean),
        first,
        column,
        between: true,
    })
}

/// COALESCE
pub fn first_of(alloc: Global, at: usize, ks: Knowns) -> Result<Known, ResolveFault>
    ensures { Resolves (spec.first_of at ks) result }
{
    let Some(ty) = with_others(None, ks.as_slice()) else {
        return Err(ResolveFault::mismatch(at));
    };
    let column = any_column(ks.as_slice());
    let between = any_between(ks.as_slice());
    Ok(Known {
        expr: Expr::Coalesce(exprs_of(alloc, ks)?),
        ty: Some(settled(ty)),
        first: at,
        column,
        between,
    })
}

#[tactic(auto, using(crate::proofs::OneMore::arms_more))]
fn arms_of(alloc: Global, arms: KnownArms) -> Result<Arms, NoMemory>
    ensures { IfOk result (λ made. made ≡ spec.arms_of arms) }
{
    let mut made = Vec::with_capacity(alloc, arms.len())?;
    for arm in arms.into_vec() {
        made.push(Arm {
            when: arm.condition.expr,
            gives: arm.value.expr,
        })?;
    }
    Ok(Items::from_vec(made))
}

fn arms_type(arms: &[KnownArm], last: &Known) -> Option<Option<Ty>>
    ensures { result ≡ types.common_of (spec.types_of (spec.values_of arms.now ++ last.now ∷ [])) }
{
    let mut so_far = None;
    for arm in arms {
        match common(so_far, arm.value.ty) {
            Some(ty) => so_far = ty,
            None => return None,
        }
    }
    common(so_far, last.ty)
}

fn arms_column(arms: &[KnownArm], last: &Known) -> bool
    ensures { result ≡ spec.any_column (spec.parts_of arms.now ++ last.now ∷ []) }
{
    for arm in arms {
        if arm.condition.column || arm.value.column {
            return true;
        }
    }
    last.column
}

fn arms_between(arms: &[KnownArm], last: &Known) -> bool
    ensures { result ≡ spec.any_between (spec.parts_of arms.now ++ last.now ∷ []) }
{
    for arm in arms {
        if arm.condition.between || arm.value.between {
            return true;
        }
    }
    last.between
}

pub fn case_of(
    alloc: Global,
    at: usize,
    arms: KnownArms,
    last: Known,
) -> Result<Known, ResolveFault>
    ensures { Resolves (spec.case_of at arms last) result }
{
    let Some(ty) = arms_type(arms.as_slice(), &last) else {
        return Err(ResolveFault::mismatch(at));
    };
    let column = arms_column(arms.as_slice(), &last);
    let between = arms_between(arms.as_slice(), &last);
    let arms = arms_of(alloc, arms)?;
    let last = Boxed::new(alloc, last.expr)?;
    Ok(Known {
        expr: Expr::Case(arms, last),
        ty: Some(settled(ty)),
        first: at,
        column,
        between,
    })
}

/// A CASE without ELSE ends with NULL.
pub fn nothing(at: usize) -> Known
    ensures { result ≡ spec.nothing at }
{
    Known {
        expr: Expr::Const(Value::Null),
        ty: None,
        first: at,
        column: false,
        between: false,
    }
}
