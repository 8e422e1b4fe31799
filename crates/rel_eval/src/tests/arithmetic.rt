//! Sums, differences, products and negation.

ghost use Rattle.std.specs.Prelude.{◌<◌};

use super::{boxed, gives, maybe_number};
use sqlite_items::Boxed;
use std::alloc::Global;
use std::test::Fail;
use vdb_base::{NoMemory, Value};
use vdb_model::{ArithOp, Expr};

fn computed(
    alloc: Global,
    op: ArithOp,
    a: Option<i128>,
    b: Option<i128>,
) -> Result<Expr, NoMemory> {
    let a = boxed(alloc, maybe_number(a))?;
    Ok(Expr::Arith(op, a, boxed(alloc, maybe_number(b))?))
}

fn negated(alloc: Global, e: Expr) -> Result<Expr, NoMemory> {
    Ok(Expr::Neg(Boxed::new(alloc, e)?))
}

/// `-(a + b) * c`
fn nested(alloc: Global, a: i128, b: i128, c: i128) -> Result<Expr, NoMemory> {
    let sum = computed(alloc, ArithOp::Add, Some(a), Some(b))?;
    let left = Boxed::new(alloc, negated(alloc, sum)?)?;
    Ok(Expr::Arith(ArithOp::Mul, left, boxed(alloc, Value::Num(c))?))
}

#[test]
fn of_two(rt: HostRuntime) -> Result<(), Fail> {
    let alloc = rt.alloc();
    for (op, a, b, want) in [
        (ArithOp::Add, Some(2), Some(3), Some(5)),
        (ArithOp::Add, Some(2), Some(-3), Some(-1)),
        (ArithOp::Sub, Some(2), Some(3), Some(-1)),
        (ArithOp::Sub, Some(2), Some(-3), Some(5)),
        (ArithOp::Mul, Some(2), Some(3), Some(6)),
        (ArithOp::Mul, Some(-2), Some(3), Some(-6)),
    ] {
        let e = computed(alloc, op, a, b)?;
        assert!(rt;
            gives(alloc, e, maybe_number(want))?,
            "{op:?} of {a:?}, {b:?}"
        );
    }
    Ok(())
}

#[test]
fn of_null(rt: HostRuntime) -> Result<(), Fail> {
    let alloc = rt.alloc();
    for op in [ArithOp::Add, ArithOp::Sub, ArithOp::Mul] {
        for (a, b) in [(None, Some(0)), (Some(0), None), (None, None)] {
            let e = computed(alloc, op, a, b)?;
            assert!(rt; gives(alloc, e, Value::Null)?, "{op:?} of {a:?}, {b:?}");
        }
    }
    Ok(())
}

#[test]
fn negation(rt: HostRuntime) -> Result<(), Fail> {
    let alloc = rt.alloc();
    for (a, want) in [
        (Some(5), Some(-5)),
        (Some(-5), Some(5)),
        (Some(0), Some(0)),
        (None, None),
    ] {
        let e = negated(alloc, Expr::Const(maybe_number(a)))?;
        assert!(rt; gives(alloc, e, maybe_number(want))?, "-{a:?}");
    }
    Ok(())
}

#[test]
fn one_in_another(rt: HostRuntime) -> Result<(), Fail> {
    let alloc = rt.alloc();
    assert!(rt; gives(alloc, nested(alloc, 2, 3, 4)?, Value::Num(-20))?);
    Ok(())
}
