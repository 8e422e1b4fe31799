//! What operators make of their operands.

ghost use Rattle.std.specs.Prelude.{◌≡◌, Some, Ok};
ghost use Rattle.expr_resolver.specs.Answers.{Resolves};
ghost use Rattle.expr_resolver.specs.Operators as spec;

use crate::fault::ResolveFault;
use crate::known::Known;
use crate::types::{common, computed_type, is_a, type_of, widened};
use sql_reader::tree::{Comparison, Constant, Literal, Operator};
use sqlite_items::Boxed;
use std::alloc::Global;
use vdb_base::{Text, Ty, Value};
use vdb_model::{ArithOp, CmpOp, Expr};

/// A literal with its type.
pub fn literal_of(alloc: Global, literal: &Literal) -> Result<Known, ResolveFault>
    ensures { Resolves (spec.literal_of literal.now) result }
{
    match &literal.constant {
        Constant::Value(value) => Ok(Known {
            expr: Expr::Const(value.copy(alloc)?),
            ty: type_of(value),
            first: literal.at,
            column: false,
            between: false,
        }),
        Constant::Fraction => Err(ResolveFault::fractional(literal.at)),
        Constant::TooLong => Err(ResolveFault::too_wide(literal.at)),
    }
}

pub fn in_parens(at: usize, k: Known) -> Result<Known, ResolveFault>
    ensures { Resolves (spec.in_parens at k) result }
{
    let Known {
        expr,
        ty,
        column,
        between,
        ..
    } = k;
    Ok(Known {
        expr,
        ty,
        first: at,
        column,
        between,
    })
}

/// The operand, which has to be of the type.
pub fn needs(ty: Ty, at: usize, k: Known) -> Result<Known, ResolveFault>
    ensures { Resolves (spec.needs ty at k) result }
{
    if is_a(ty, k.ty) {
        Ok(k)
    } else {
        Err(ResolveFault::mismatch(at))
    }
}

/// A condition, which is refused at its first token.
pub fn condition(k: Known) -> Result<Known, ResolveFault>
    ensures { Resolves (spec.condition k) result }
{
    let at = k.first;
    needs(Ty::Boolean, at, k)
}

pub fn negative(alloc: Global, at: usize, k: Known) -> Result<Known, ResolveFault>
    ensures { Resolves (spec.negative at k) result }
{
    let ty = widened(at, k.ty)?;
    let Known {
        expr,
        column,
        between,
        ..
    } = k;
    Ok(Known {
        expr: Expr::Neg(Boxed::new(alloc, expr)?),
        ty: Some(ty),
        first: at,
        column,
        between,
    })
}

fn arith_op(operator: Operator) -> Option<ArithOp>
    ensures { result ≡ spec.arith_op operator }
{
    match operator {
        Operator::Or => None,
        Operator::And => None,
        Operator::Concat => None,
        Operator::Add => Some(ArithOp::Add),
        Operator::Subtract => Some(ArithOp::Sub),
        Operator::Multiply => Some(ArithOp::Mul),
    }
}

fn binary_of(
    alloc: Global,
    op: ArithOp,
    at: usize,
    a: Known,
    b: Known,
) -> Result<Known, ResolveFault>
    ensures { Resolves (spec.arithmetic (Some op) at a b) result }
{
    let ty = computed_type(at, common(a.ty, b.ty))?;
    let left = Boxed::new(alloc, a.expr)?;
    let right = Boxed::new(alloc, b.expr)?;
    Ok(Known {
        expr: Expr::Arith(op, left, right),
        ty: Some(ty),
        first: a.first,
        column: a.column || b.column,
        between: a.between || b.between,
    })
}

/// An operator of arithmetic.
pub fn arithmetic(
    alloc: Global,
    operator: Operator,
    at: usize,
    a: Known,
    b: Known,
) -> Result<Known, ResolveFault>
    ensures { Resolves (spec.arithmetic (spec.arith_op operator) at a b) result }
{
    match arith_op(operator) {
        None => Err(ResolveFault::mismatch(at)),
        Some(op) => Ok(binary_of(alloc, op, at, a, b)?),
    }
}

pub fn not_of(alloc: Global, at: usize, k: Known) -> Result<Known, ResolveFault>
    ensures { Resolves (spec.not_of at k) result }
{
    let Known {
        expr,
        column,
        between,
        ..
    } = needs(Ty::Boolean, at, k)?;
    Ok(Known {
        expr: Expr::Not(Boxed::new(alloc, expr)?),
        ty: Some(Ty::Boolean),
        first: at,
        column,
        between,
    })
}

/// A Not around the expression where NOT stands before the word.
pub fn around(alloc: Global, negated: bool, e: Expr) -> Result<Expr, ResolveFault>
    ensures { Resolves (Ok (spec.around negated e)) result }
{
    if negated {
        Ok(Expr::Not(Boxed::new(alloc, e)?))
    } else {
        Ok(e)
    }
}

fn cmp_op(comparison: Comparison) -> CmpOp
    ensures { result ≡ spec.cmp_op comparison }
{
    match comparison {
        Comparison::Equal => CmpOp::Eq,
        Comparison::NotEqual => CmpOp::Ne,
        Comparison::Less => CmpOp::Lt,
        Comparison::AtMost => CmpOp::Le,
        Comparison::Greater => CmpOp::Gt,
        Comparison::AtLeast => CmpOp::Ge,
    }
}

pub fn compared(
    alloc: Global,
    comparison: Comparison,
    at: usize,
    a: Known,
    b: Known,
) -> Result<Known, ResolveFault>
    ensures { Resolves (spec.compared comparison at a b) result }
{
    if common(a.ty, b.ty).is_none() {
        return Err(ResolveFault::mismatch(at));
    }
    let left = Boxed::new(alloc, a.expr)?;
    let right = Boxed::new(alloc, b.expr)?;
    Ok(Known {
        expr: Expr::Cmp(cmp_op(comparison), left, right),
        ty: Some(Ty::Boolean),
        first: a.first,
        column: a.column || b.column,
        between: a.between || b.between,
    })
}

pub fn null_test(alloc: Global, negated: bool, k: Known) -> Result<Known, ResolveFault>
    ensures { Resolves (spec.null_test negated k) result }
{
    let Known {
        expr,
        first,
        column,
        between,
        ..
    } = k;
    let test = Expr::IsNull(Boxed::new(alloc, expr)?);
    Ok(Known {
        expr: around(alloc, negated, test)?,
        ty: Some(Ty::Boolean),
        first,
        column,
        between,
    })
}

/// An item of IN, which has no column.
pub fn item_of(k: Known) -> Result<Known, ResolveFault>
    ensures { Resolves (spec.item_of k) result }
{
    if k.column {
        Err(ResolveFault::mismatch(k.first))
    } else {
        Ok(k)
    }
}

fn pattern_of(alloc: Global, constant: &Constant) -> Result<Text, ResolveFault>
    ensures { Resolves (Ok (spec.pattern_of constant.now)) result }
{
    match constant {
        Constant::Value(Value::Str(text)) => Ok(text.copy(alloc)?),
        _ => Ok(Text::new(alloc)),
    }
}

pub fn like_test(
    alloc: Global,
    negated: bool,
    at: usize,
    pattern: &Literal,
    k: Known,
) -> Result<Known, ResolveFault>
    ensures { Resolves (spec.like_test negated at pattern.now k) result }
{
    let Known {
        expr,
        first,
        column,
        between,
        ..
    } = needs(Ty::Str, at, k)?;
    let pattern = pattern_of(alloc, &pattern.constant)?;
    let test = Expr::Like(Boxed::new(alloc, expr)?, pattern);
    Ok(Known {
        expr: around(alloc, negated, test)?,
        ty: Some(Ty::Boolean),
        first,
        column,
        between,
    })
}
