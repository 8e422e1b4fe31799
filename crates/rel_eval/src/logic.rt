//! The logic of three values.

ghost use Rattle.std.specs.Prelude.{◌≡◌, IfOk, not};
ghost use Rattle.std.specs.List.{list_any, list_all, find};
ghost use Rattle.std.specs.Option.{option_copied};
ghost use Rattle.vdb_model.specs.Logic as spec;

use std::alloc::{AllocError, Global};
use std::cmp::Ordering;
use vdb_base::{NoMemory, Value, cmp_values};
use vdb_model::CmpOp;

pub fn is_null(v: &Value) -> bool
    ensures { result ≡ spec.is_null v.now }
{
    matches!(v, Value::Null)
}

pub fn is_true(v: &Value) -> bool
    ensures { result ≡ spec.is_true v.now }
{
    matches!(v, Value::Bool(true))
}

pub fn is_false(v: &Value) -> bool
    ensures { result ≡ spec.is_false v.now }
{
    matches!(v, Value::Bool(false))
}

pub fn not_of(v: &Value) -> Value
    ensures { result ≡ spec.not_of v.now }
{
    match v {
        Value::Bool(truth) => Value::Bool(!truth),
        _ => Value::Null,
    }
}

fn has_true(vs: &[Value]) -> bool
    ensures { result ≡ list_any spec.is_true vs.now }
{
    vs.iter().any(is_true)
}

fn are_false(vs: &[Value]) -> bool
    ensures { result ≡ list_all spec.is_false vs.now }
{
    vs.iter().all(is_false)
}

fn any_of(vs: &[Value]) -> Value
    ensures { result ≡ spec.any_of vs.now }
{
    if has_true(vs) {
        Value::Bool(true)
    } else if are_false(vs) {
        Value::Bool(false)
    } else {
        Value::Null
    }
}

fn answers(op: CmpOp, order: Ordering) -> bool
    ensures { result ≡ spec.answers op order }
{
    match op {
        CmpOp::Eq => order.is_eq(),
        CmpOp::Ne => order.is_ne(),
        CmpOp::Lt => order.is_lt(),
        CmpOp::Le => order.is_le(),
        CmpOp::Gt => order.is_gt(),
        CmpOp::Ge => order.is_ge(),
    }
}

pub fn compared(op: CmpOp, a: &Value, b: &Value) -> Value
    ensures { result ≡ spec.compared op a.now b.now }
{
    if is_null(a) || is_null(b) {
        Value::Null
    } else {
        Value::Bool(answers(op, cmp_values(a, b)))
    }
}

fn equalities(alloc: Global, v: &Value, items: &[Value]) -> Result<Vec<Value>, AllocError>
    ensures { IfOk result (λ made. made.items ≡ spec.equalities v.now items.now) }
{
    items
        .iter()
        .map(|item| compared(CmpOp::Eq, v, item))
        .collect(alloc)
}

pub fn is_in(alloc: Global, v: &Value, items: &[Value]) -> Result<Value, NoMemory>
    ensures { IfOk result (λ made. made ≡ spec.is_in v.now items.now) }
{
    if is_null(v) {
        return Ok(Value::Null);
    }
    let found = equalities(alloc, v, items)?;
    Ok(any_of(&found))
}

fn known(vs: &[Value]) -> Option<&Value>
    ensures { option_copied result ≡ find (λ v. not (spec.is_null v)) vs.now }
{
    vs.iter().find(|v| !is_null(v))
}

/// The first value that isn't NULL.
pub fn first_known(alloc: Global, vs: &[Value]) -> Result<Value, NoMemory>
    ensures { IfOk result (λ v. v ≡ spec.first_known vs.now) }
{
    match known(vs) {
        Some(v) => Ok(v.copy(alloc)?),
        None => Ok(Value::Null),
    }
}
