//! Which types go together.

ghost use Rattle.std.specs.Prelude.{◌≡◌, true, Some};
ghost use Rattle.expr_resolver.specs.Answers.{Resolves};
ghost use Rattle.expr_resolver.specs.Operators.{types_of};
ghost use Rattle.expr_resolver.specs.Types as spec;
ghost use Rattle.vdb_model.specs.Typed as typed;
ghost use Rattle.vdb_base.specs.declared.value.Value.TheVariants.{Num};

use crate::fault::ResolveFault;
use crate::known::Known;
use sql_reader::tree::Aggregate;
use vdb_base::{Ty, Value};

fn same_type(a: Ty, b: Ty) -> bool
    ensures { result ≡ typed.same_type a b }
{
    match (a, b) {
        (Ty::Boolean, Ty::Boolean) => true,
        (Ty::Integer, Ty::Integer) => true,
        (Ty::Long, Ty::Long) => true,
        (Ty::BigInteger, Ty::BigInteger) => true,
        (Ty::Str, Ty::Str) => true,
        _ => false,
    }
}

fn goes_into(a: Ty, b: Ty) -> bool
    ensures { result ≡ typed.goes_into a b }
{
    match (a, b) {
        (Ty::Integer, Ty::Long) => true,
        (Ty::Integer, Ty::BigInteger) => true,
        (Ty::Long, Ty::BigInteger) => true,
        _ => same_type(a, b),
    }
}

/// Whether an operand is of the type; a NULL is of every type.
pub fn is_a(ty: Ty, found: Option<Ty>) -> bool
    ensures { result ≡ spec.is_a ty found }
{
    match found {
        None => true,
        Some(found) => same_type(ty, found),
    }
}

fn number_type(value: i128) -> Ty
    ensures is { Some result ≡ spec.type_of (Num value) }
    ensures held { spec.is_held (Num value) ≡ true }
{
    if -2147483648 <= value && value <= 2147483647 {
        Ty::Integer
    } else if -9223372036854775808 <= value && value <= 9223372036854775807 {
        Ty::Long
    } else {
        Ty::BigInteger
    }
}

/// The type of a literal.
pub fn type_of(value: &Value) -> Option<Ty>
    ensures is { result ≡ spec.type_of value.now }
    ensures held { spec.is_held value.now ≡ true }
{
    match value {
        Value::Null => None,
        Value::Bool(_) => Some(Ty::Boolean),
        Value::Num(n) => Some(number_type(*n)),
        Value::Str(_) => Some(Ty::Str),
    }
}

fn wider(a: Ty, b: Ty) -> Option<Option<Ty>>
    ensures { result ≡ spec.wider a b }
{
    if goes_into(a, b) {
        Some(Some(b))
    } else if goes_into(b, a) {
        Some(Some(a))
    } else {
        None
    }
}

/// The type that two go together in, where they do.
pub fn common(a: Option<Ty>, b: Option<Ty>) -> Option<Option<Ty>>
    ensures { result ≡ spec.common a b }
{
    match (a, b) {
        (None, b) => Some(b),
        (Some(a), None) => Some(Some(a)),
        (Some(a), Some(b)) => wider(a, b),
    }
}

/// The type that one goes together with others in, where it does.
pub fn with_others(ty: Option<Ty>, others: &[Known]) -> Option<Option<Ty>>
    ensures { result ≡ spec.with_others (Some ty) (types_of others.now) }
{
    let mut so_far = ty;
    for other in others {
        match common(so_far, other.ty) {
            Some(ty) => so_far = ty,
            None => return None,
        }
    }
    Some(so_far)
}

/// Where nothing gives a NULL its type, it is an integer as the operand of arithmetic.
fn as_number(ty: Option<Ty>) -> Ty
    ensures { result ≡ spec.as_number ty }
{
    match ty {
        None => Ty::Integer,
        Some(ty) => ty,
    }
}

/// And else a string.
pub fn settled(ty: Option<Ty>) -> Ty
    ensures { result ≡ spec.settled ty }
{
    match ty {
        None => Ty::Str,
        Some(ty) => ty,
    }
}

/// What arithmetic gives on operands of the type.
pub fn widened(at: usize, ty: Option<Ty>) -> Result<Ty, ResolveFault>
    ensures { Resolves (spec.widened at (spec.as_number ty)) result }
{
    match as_number(ty) {
        Ty::Integer => Ok(Ty::Long),
        Ty::Long => Ok(Ty::BigInteger),
        Ty::BigInteger => Err(ResolveFault::too_wide(at)),
        Ty::Boolean => Err(ResolveFault::mismatch(at)),
        Ty::Str => Err(ResolveFault::mismatch(at)),
    }
}

/// What arithmetic gives on operands that go together in the type.
pub fn computed_type(at: usize, ty: Option<Option<Ty>>) -> Result<Ty, ResolveFault>
    ensures { Resolves (spec.computed_type at ty) result }
{
    match ty {
        None => Err(ResolveFault::mismatch(at)),
        Some(ty) => Ok(widened(at, ty)?),
    }
}

fn summed(at: usize, ty: Ty) -> Result<Ty, ResolveFault>
    ensures { Resolves (spec.summed at ty) result }
{
    match ty {
        Ty::Integer => Ok(Ty::BigInteger),
        Ty::Long => Ok(Ty::BigInteger),
        Ty::BigInteger => Err(ResolveFault::too_wide(at)),
        Ty::Boolean => Err(ResolveFault::mismatch(at)),
        Ty::Str => Err(ResolveFault::mismatch(at)),
    }
}

/// What an aggregate of an operand of the type gives.
pub fn aggregate_type(aggregate: Aggregate, at: usize, ty: Option<Ty>) -> Result<Ty, ResolveFault>
    ensures { Resolves (spec.aggregate_type aggregate at ty) result }
{
    match aggregate {
        Aggregate::Count => Ok(Ty::Long),
        Aggregate::Sum => Ok(summed(at, as_number(ty))?),
        Aggregate::Min => Ok(settled(ty)),
        Aggregate::Max => Ok(settled(ty)),
    }
}

/// What can be assigned: two numbers or one type.
pub fn is_assignable(ty: Ty, found: Option<Ty>) -> bool
    ensures { result ≡ spec.is_assignable ty found }
{
    match found {
        None => true,
        Some(found) => goes_into(ty, found) || goes_into(found, ty),
    }
}
