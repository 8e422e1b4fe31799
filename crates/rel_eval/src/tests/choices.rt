//! Columns, variables, and what one of several gives: CASE and COALESCE.

ghost use Rattle.std.specs.Prelude.{◌<◌};

use super::{boxed, gives, gives_word, maybe_number, maybe_truth, maybe_word, three, word};
use crate::eval;
use sqlite_items::Items;
use std::alloc::Global;
use std::test::Fail;
use vdb_base::{NoMemory, Row, Seq, Text, Value, print_value};
use vdb_model::{Arm, Arms, Expr};

fn columns(alloc: Global) -> Result<Row, NoMemory> {
    let mut row = Seq::new(alloc);
    row.push(word(alloc, "é")?)?;
    row.push(Value::Num(7))?;
    Ok(row)
}

fn variables(alloc: Global) -> Result<Row, NoMemory> {
    let mut row = Seq::new(alloc);
    row.push(Value::Null)?;
    row.push(word(alloc, "x")?)?;
    Ok(row)
}

/// Whether an expression over the columns and variables has the value that is printed so.
fn prints(alloc: Global, e: Expr, want: &str) -> Result<bool, NoMemory> {
    let v = eval(alloc, &e, &columns(alloc)?, &variables(alloc)?)?;
    let mut text = Text::new(alloc);
    print_value(alloc, &v, &mut text)?;
    Ok(text.as_str() == want)
}

fn arm(when: Option<bool>, gives: i128) -> Arm {
    Arm {
        when: Expr::Const(maybe_truth(when)),
        gives: Expr::Const(Value::Num(gives)),
    }
}

fn arms(alloc: Global, first: Option<bool>, second: Option<bool>) -> Result<Arms, NoMemory> {
    let mut arms = Vec::new(alloc);
    arms.push(arm(first, 1))?;
    arms.push(arm(second, 2))?;
    Ok(Items::from_vec(arms))
}

/// `CASE WHEN .. THEN 1 WHEN .. THEN 2 ELSE .. END`
fn case(
    alloc: Global,
    first: Option<bool>,
    second: Option<bool>,
    last: Value,
) -> Result<Expr, NoMemory> {
    let last = boxed(alloc, last)?;
    Ok(Expr::Case(arms(alloc, first, second)?, last))
}

fn case_or_word(alloc: Global, last: &str) -> Result<Expr, NoMemory> {
    case(alloc, Some(false), None, word(alloc, last)?)
}

fn first_number(
    alloc: Global,
    a: Option<i128>,
    b: Option<i128>,
    c: Option<i128>,
) -> Result<Expr, NoMemory> {
    let items = three(alloc, maybe_number(a), maybe_number(b), maybe_number(c))?;
    Ok(Expr::Coalesce(items))
}

fn first_word(alloc: Global, a: Option<&str>, b: Option<&str>) -> Result<Expr, NoMemory> {
    let a = maybe_word(alloc, a)?;
    let items = three(alloc, Value::Null, a, maybe_word(alloc, b)?)?;
    Ok(Expr::Coalesce(items))
}

#[test]
fn columns_and_variables(rt: HostRuntime) -> Result<(), Fail> {
    let alloc = rt.alloc();
    for (at, column, variable) in [(0, "'é'", "NULL"), (1, "7", "'x'")] {
        assert!(rt; prints(alloc, Expr::Col(at), column)?, "column {at}");
        assert!(rt; prints(alloc, Expr::Var(at), variable)?, "variable {at}");
    }
    Ok(())
}

#[test]
fn constants(rt: HostRuntime) -> Result<(), Fail> {
    let alloc = rt.alloc();
    for want in [None, Some("é")] {
        let e = Expr::Const(maybe_word(alloc, want)?);
        assert!(rt; gives_word(alloc, e, want)?, "{want:?}");
    }
    Ok(())
}

#[test]
fn cases(rt: HostRuntime) -> Result<(), Fail> {
    let alloc = rt.alloc();
    for (first, second, want) in [
        (Some(true), Some(true), 1),
        (Some(true), None, 1),
        (Some(false), Some(true), 2),
        (None, Some(true), 2),
        (Some(false), None, 3),
        (None, None, 3),
    ] {
        let e = case(alloc, first, second, Value::Num(3))?;
        assert!(rt;
            gives(alloc, e, Value::Num(want))?,
            "CASE of {first:?}, {second:?}"
        );
    }
    Ok(())
}

#[test]
fn last_of_a_case(rt: HostRuntime) -> Result<(), Fail> {
    let alloc = rt.alloc();
    assert!(rt;
        gives(
            alloc,
            case(alloc, None, Some(false), Value::Null)?,
            Value::Null
        )?
    );
    assert!(rt; gives_word(alloc, case_or_word(alloc, "é")?, Some("é"))?);
    Ok(())
}

#[test]
fn coalesce(rt: HostRuntime) -> Result<(), Fail> {
    let alloc = rt.alloc();
    for (a, b, c, want) in [
        (Some(1), Some(2), Some(3), Some(1)),
        (Some(1), None, None, Some(1)),
        (None, Some(2), Some(3), Some(2)),
        (None, None, Some(3), Some(3)),
        (None, None, None, None),
    ] {
        let e = first_number(alloc, a, b, c)?;
        assert!(rt;
            gives(alloc, e, maybe_number(want))?,
            "COALESCE of {a:?}, {b:?}, {c:?}"
        );
    }
    Ok(())
}

#[test]
fn coalesce_of_texts(rt: HostRuntime) -> Result<(), Fail> {
    let alloc = rt.alloc();
    for (a, b, want) in [(Some("é"), None, "é"), (None, Some(""), "")] {
        let e = first_word(alloc, a, b)?;
        assert!(rt;
            gives_word(alloc, e, Some(want))?,
            "COALESCE of NULL, {a:?}, {b:?}"
        );
    }
    Ok(())
}
