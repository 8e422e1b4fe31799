//! The value of an expression.

ghost use Rattle.std.specs.Prelude.{◌≡◌, ◌++◌, IfOk};
ghost use Rattle.vdb_model.specs.Logic.{all_of, any_of};
ghost use Rattle.vdb_model.specs.Meaning.{value, values, cell, arms_value};
ghost use Rattle.rel_eval.specs.Held.{held};

use crate::logic::{compared, first_known, is_false, is_in, is_null, is_true, not_of};
use crate::number::{computed, negated};
use crate::words::{joined, like};
use std::alloc::Global;
use vdb_base::{NoMemory, Row, Value};
use vdb_model::{Arm, Expr};

/// A value that was lent where it stands, or made.
#[derive(Drop)]
pub enum Held<'a> {
    Lent(&'a Value),
    Made(Value),
}

impl<'a> Held<'a> {
    pub fn get(&self) -> &Value
        ensures { result.now ≡ held self.now }
    {
        match self {
            Held::Lent(v) => v,
            Held::Made(v) => v,
        }
    }

    pub fn own(self, alloc: Global) -> Result<Value, NoMemory>
        ensures { IfOk result (λ v. v ≡ held self.entry) }
    {
        match self {
            Held::Lent(v) => v.copy(alloc),
            Held::Made(v) => Ok(v),
        }
    }
}

/// A cell of a row, or NULL past its end.
pub fn cell(cells: &[Value], at: usize) -> Held<'_>
    ensures { held result ≡ cell cells.now at }
{
    match cells.get(at) {
        Some(v) => Held::Lent(v),
        None => Held::Made(Value::Null),
    }
}

/// A cell of two rows, one behind the other.
fn cell_of<'a>(left: &'a [Value], right: &'a [Value], at: usize) -> Held<'a>
    ensures { held result ≡ cell (left.now ++ right.now) at }
{
    if at < left.len() {
        cell(left, at)
    } else {
        cell(right, at - left.len())
    }
}

/// The value of an expression at a row and variables.
pub fn eval(alloc: Global, e: &Expr, row: &Row, vars: &Row) -> Result<Value, NoMemory>
    ensures { IfOk result (λ v. v ≡ value e.now row.now vars.now) }
{
    eval_over(alloc, e, row.as_slice(), &[], vars.as_slice())
}

/// The value at two rows, one behind the other, which needn't be put together for it.
#[cycle(eval)]
#[tactic(auto, using(crate::proofs::Rules::value_rules))]
pub fn eval_over(
    alloc: Global,
    e: &Expr,
    left: &[Value],
    right: &[Value],
    vars: &[Value],
) -> Result<Value, NoMemory>
    ensures { IfOk result (λ v. v ≡ value e.now (left.now ++ right.now) vars.now) }
{
    match e {
        Expr::Col(at) => Ok(cell_of(left, right, *at as usize).own(alloc)?),
        Expr::Var(at) => Ok(cell(vars, *at as usize).own(alloc)?),
        Expr::Const(v) => Ok(v.copy(alloc)?),
        Expr::Not(e) => Ok(not_of(look(alloc, e.get(), left, right, vars)?.get())),
        Expr::And(es) => Ok(eval_and(alloc, es.as_slice(), left, right, vars)?),
        Expr::Or(es) => Ok(eval_or(alloc, es.as_slice(), left, right, vars)?),
        Expr::Cmp(op, a, b) => {
            let a = look(alloc, a.get(), left, right, vars)?;
            let b = look(alloc, b.get(), left, right, vars)?;
            Ok(compared(*op, a.get(), b.get()))
        }
        Expr::IsNull(e) => Ok(Value::Bool(is_null(look(alloc, e.get(), left, right, vars)?.get()))),
        Expr::In(e, es) => {
            let v = look(alloc, e.get(), left, right, vars)?;
            let items = eval_all(alloc, es.as_slice(), left, right, vars)?;
            Ok(is_in(alloc, v.get(), &items)?)
        }
        Expr::Like(e, pattern) => Ok(like(look(alloc, e.get(), left, right, vars)?.get(), pattern)),
        Expr::Arith(op, a, b) => {
            let a = look(alloc, a.get(), left, right, vars)?;
            let b = look(alloc, b.get(), left, right, vars)?;
            Ok(computed(*op, a.get(), b.get()))
        }
        Expr::Neg(e) => Ok(negated(look(alloc, e.get(), left, right, vars)?.get())),
        Expr::Concat(es) => Ok(joined(alloc, &eval_all(alloc, es.as_slice(), left, right, vars)?)?),
        Expr::Case(arms, last) => match eval_arms(alloc, arms.as_slice(), left, right, vars)? {
            Some(v) => Ok(v),
            None => Ok(eval_over(alloc, last.get(), left, right, vars)?),
        },
        Expr::Coalesce(es) => {
            Ok(first_known(alloc, &eval_all(alloc, es.as_slice(), left, right, vars)?)?)
        }
    }
}

/// The same value; a column, a variable and a constant are lent.
#[cycle(eval)]
#[tactic(auto, using(crate::proofs::Rules::value_rules))]
fn look<'a>(
    alloc: Global,
    e: &'a Expr,
    left: &'a [Value],
    right: &'a [Value],
    vars: &'a [Value],
) -> Result<Held<'a>, NoMemory>
    ensures { IfOk result (λ v. held v ≡ value e.now (left.now ++ right.now) vars.now) }
{
    match e {
        Expr::Col(at) => Ok(cell_of(left, right, *at as usize)),
        Expr::Var(at) => Ok(cell(vars, *at as usize)),
        Expr::Const(v) => Ok(Held::Lent(v)),
        _ => Ok(Held::Made(eval_over(alloc, e, left, right, vars)?)),
    }
}

/// AND; the first FALSE decides.
#[cycle(eval)]
#[tactic(auto, using(crate::proofs::Rules::value_rules, crate::proofs::Conjuncts::conjunct_steps))]
fn eval_and(
    alloc: Global,
    es: &[Expr],
    left: &[Value],
    right: &[Value],
    vars: &[Value],
) -> Result<Value, NoMemory>
    ensures { IfOk result (λ v. v ≡ all_of (values es.now (left.now ++ right.now) vars.now)) }
{
    let mut all = true;
    for e in es {
        let v = look(alloc, e, left, right, vars)?;
        if is_false(v.get()) {
            return Ok(Value::Bool(false));
        }
        all = all && is_true(v.get());
    }
    Ok(if all { Value::Bool(true) } else { Value::Null })
}

/// OR; the first TRUE decides.
#[cycle(eval)]
#[tactic(auto, using(crate::proofs::Rules::value_rules, crate::proofs::Conjuncts::disjunct_steps))]
fn eval_or(
    alloc: Global,
    es: &[Expr],
    left: &[Value],
    right: &[Value],
    vars: &[Value],
) -> Result<Value, NoMemory>
    ensures { IfOk result (λ v. v ≡ any_of (values es.now (left.now ++ right.now) vars.now)) }
{
    let mut none = true;
    for e in es {
        let v = look(alloc, e, left, right, vars)?;
        if is_true(v.get()) {
            return Ok(Value::Bool(true));
        }
        none = none && is_false(v.get());
    }
    Ok(if none {
        Value::Bool(false)
    } else {
        Value::Null
    })
}

#[cycle(eval)]
#[tactic(auto, using(crate::proofs::Rules::value_rules))]
pub fn eval_all(
    alloc: Global,
    es: &[Expr],
    left: &[Value],
    right: &[Value],
    vars: &[Value],
) -> Result<Vec<Value>, NoMemory>
    ensures { IfOk result (λ vs. vs.items ≡ values es.now (left.now ++ right.now) vars.now) }
{
    let mut made = Vec::with_capacity(alloc, es.len())?;
    for e in es {
        made.push(eval_over(alloc, e, left, right, vars)?)?;
    }
    Ok(made)
}

/// The value of the first arm whose condition is TRUE.
#[cycle(eval)]
#[tactic(auto, using(crate::proofs::Rules::value_rules))]
fn eval_arms(
    alloc: Global,
    arms: &[Arm],
    left: &[Value],
    right: &[Value],
    vars: &[Value],
) -> Result<Option<Value>, NoMemory>
    ensures { IfOk result (λ v. v ≡ arms_value arms.now (left.now ++ right.now) vars.now) }
{
    for arm in arms {
        if is_true(&eval_over(alloc, &arm.when, left, right, vars)?) {
            return Ok(Some(eval_over(alloc, &arm.gives, left, right, vars)?));
        }
    }
    Ok(None)
}
