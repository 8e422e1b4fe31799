//! What is TRUE, FALSE or unknown: NOT, AND, OR, comparisons, IS NULL and IN.

ghost use Rattle.std.specs.Prelude.{◌<◌};

use super::{boxed, compare, gives, maybe_number, maybe_truth, two, word};
use std::alloc::Global;
use std::test::Fail;
use vdb_base::{NoMemory, Value};
use vdb_model::{CmpOp, Expr};

const YES: Option<bool> = Some(true);

const NO: Option<bool> = Some(false);

const UNKNOWN: Option<bool> = None;

fn negation(alloc: Global, a: Option<bool>) -> Result<Expr, NoMemory> {
    Ok(Expr::Not(boxed(alloc, maybe_truth(a))?))
}

fn both(alloc: Global, a: Option<bool>, b: Option<bool>) -> Result<Expr, NoMemory> {
    Ok(Expr::And(two(alloc, maybe_truth(a), maybe_truth(b))?))
}

fn either(alloc: Global, a: Option<bool>, b: Option<bool>) -> Result<Expr, NoMemory> {
    Ok(Expr::Or(two(alloc, maybe_truth(a), maybe_truth(b))?))
}

fn is_null(alloc: Global, v: Value) -> Result<Expr, NoMemory> {
    Ok(Expr::IsNull(boxed(alloc, v)?))
}

fn is_one_of(
    alloc: Global,
    a: Option<i128>,
    b: Option<i128>,
    c: Option<i128>,
) -> Result<Expr, NoMemory> {
    let items = two(alloc, maybe_number(b), maybe_number(c))?;
    Ok(Expr::In(boxed(alloc, maybe_number(a))?, items))
}

fn compared(alloc: Global, op: CmpOp, a: Option<i128>, b: Option<i128>) -> Result<Expr, NoMemory> {
    compare(alloc, op, maybe_number(a), maybe_number(b))
}

fn same_word(alloc: Global, a: &str, b: &str) -> Result<Expr, NoMemory> {
    let a = word(alloc, a)?;
    compare(alloc, CmpOp::Eq, a, word(alloc, b)?)
}

#[test]
fn not(rt: HostRuntime) -> Result<(), Fail> {
    let alloc = rt.alloc();
    for (a, want) in [(YES, NO), (NO, YES), (UNKNOWN, UNKNOWN)] {
        let e = negation(alloc, a)?;
        assert!(rt; gives(alloc, e, maybe_truth(want))?, "NOT {a:?}");
    }
    Ok(())
}

#[test]
fn and_or(rt: HostRuntime) -> Result<(), Fail> {
    let alloc = rt.alloc();
    for (a, b, and, or) in [
        (YES, YES, YES, YES),
        (YES, UNKNOWN, UNKNOWN, YES),
        (YES, NO, NO, YES),
        (UNKNOWN, YES, UNKNOWN, YES),
        (UNKNOWN, UNKNOWN, UNKNOWN, UNKNOWN),
        (UNKNOWN, NO, NO, UNKNOWN),
        (NO, YES, NO, YES),
        (NO, UNKNOWN, NO, UNKNOWN),
        (NO, NO, NO, NO),
    ] {
        let e = both(alloc, a, b)?;
        assert!(rt; gives(alloc, e, maybe_truth(and))?, "{a:?} AND {b:?}");
        let e = either(alloc, a, b)?;
        assert!(rt; gives(alloc, e, maybe_truth(or))?, "{a:?} OR {b:?}");
    }
    Ok(())
}

#[test]
fn comparisons(rt: HostRuntime) -> Result<(), Fail> {
    let alloc = rt.alloc();
    for (op, less, same, more) in [
        (CmpOp::Eq, NO, YES, NO),
        (CmpOp::Ne, YES, NO, YES),
        (CmpOp::Lt, YES, NO, NO),
        (CmpOp::Le, YES, YES, NO),
        (CmpOp::Gt, NO, NO, YES),
        (CmpOp::Ge, NO, YES, YES),
    ] {
        for (b, want) in [(3, less), (2, same), (1, more)] {
            let e = compared(alloc, op, Some(2), Some(b))?;
            assert!(rt; gives(alloc, e, maybe_truth(want))?, "2 {op:?} {b}");
        }
    }
    Ok(())
}

#[test]
fn comparisons_of_null(rt: HostRuntime) -> Result<(), Fail> {
    let alloc = rt.alloc();
    for op in [
        CmpOp::Eq,
        CmpOp::Ne,
        CmpOp::Lt,
        CmpOp::Le,
        CmpOp::Gt,
        CmpOp::Ge,
    ] {
        for (a, b) in [(None, Some(1)), (Some(1), None), (None, None)] {
            let e = compared(alloc, op, a, b)?;
            assert!(rt; gives(alloc, e, Value::Null)?, "{a:?} {op:?} {b:?}");
        }
    }
    Ok(())
}

#[test]
fn equal_texts(rt: HostRuntime) -> Result<(), Fail> {
    let alloc = rt.alloc();
    for (a, b, want) in [("é", "é", true), ("a", "A", false), ("a", "", false)] {
        let e = same_word(alloc, a, b)?;
        assert!(rt; gives(alloc, e, Value::Bool(want))?, "{a} = {b}");
    }
    Ok(())
}

#[test]
fn nulls(rt: HostRuntime) -> Result<(), Fail> {
    let alloc = rt.alloc();
    for (n, want) in [(None, true), (Some(0), false)] {
        let e = is_null(alloc, maybe_number(n))?;
        assert!(rt; gives(alloc, e, Value::Bool(want))?, "{n:?} IS NULL");
    }
    Ok(())
}

#[test]
fn members(rt: HostRuntime) -> Result<(), Fail> {
    let alloc = rt.alloc();
    for (a, b, c, want) in [
        (Some(2), Some(1), Some(2), YES),
        (Some(2), None, Some(2), YES),
        (Some(2), Some(2), None, YES),
        (Some(2), Some(1), None, UNKNOWN),
        (Some(2), None, None, UNKNOWN),
        (Some(2), Some(1), Some(3), NO),
        (None, Some(1), Some(2), UNKNOWN),
        (None, None, Some(2), UNKNOWN),
    ] {
        let e = is_one_of(alloc, a, b, c)?;
        assert!(rt;
            gives(alloc, e, maybe_truth(want))?,
            "{a:?} IN ({b:?}, {c:?})"
        );
    }
    Ok(())
}
