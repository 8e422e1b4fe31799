//! The equalities between the two sides of a join that its condition asks for.

ghost use Rattle.std.specs.Prelude.{◌≡◌, ◌++◌, [], ◌∷◌, IfOk, OnOk};
ghost use Rattle.vdb_model.specs.declared.expr.Expr.TheVariants.{Col};
ghost use Rattle.rel_eval.specs.Equal.{IsForced, AreForced, IsForcedBy};

use std::alloc::Global;
use vdb_base::{NoMemory, Nums, Seq};
use vdb_model::{CmpOp, Expr};

/// Columns of the left side, and as many of the right side that have to be equal to them in turn.
#[derive(Drop)]
pub struct Equalities {
    pub lefts: Nums,
    pub rights: Nums,
}

fn none(alloc: Global) -> Equalities
    ensures lefts { result.lefts ≡ [] }
    ensures rights { result.rights ≡ [] }
{
    Equalities {
        lefts: Seq::new(alloc),
        rights: Seq::new(alloc),
    }
}

fn one(alloc: Global, left: u32, right: u32) -> Result<Equalities, NoMemory>
    ensures lefts { IfOk result (λ made. made.lefts ≡ left ∷ []) }
    ensures rights { IfOk result (λ made. made.rights ≡ right ∷ []) }
{
    let mut made = none(alloc);
    made.lefts.push(left)?;
    made.rights.push(right)?;
    Ok(made)
}

impl Equalities {
    fn add(&mut self, more: Equalities) -> Result<(), NoMemory>
        ensures lefts { OnOk result (self.new.lefts ≡ self.old.lefts ++ more.lefts) }
        ensures rights { OnOk result (self.new.rights ≡ self.old.rights ++ more.rights) }
    {
        let Equalities { lefts, rights } = more;
        self.lefts.append(lefts)?;
        self.rights.append(rights)
    }
}

/// The equality of two columns, where one is of the left side and the other of the right.
fn across(alloc: Global, a: u32, b: u32, width: usize) -> Result<Equalities, NoMemory>
    ensures { IfOk result (λ made. IsForcedBy (Col a) (Col b) width made.lefts made.rights) }
{
    if (a as usize) < width && width <= b as usize {
        Ok(one(alloc, a, (b as usize - width) as u32)?)
    } else if (b as usize) < width && width <= a as usize {
        Ok(one(alloc, b, (a as usize - width) as u32)?)
    } else {
        Ok(none(alloc))
    }
}

fn between(alloc: Global, a: &Expr, b: &Expr, width: usize) -> Result<Equalities, NoMemory>
    ensures { IfOk result (λ made. IsForcedBy a.now b.now width made.lefts made.rights) }
{
    match (a, b) {
        (Expr::Col(a), Expr::Col(b)) => across(alloc, *a, *b, width),
        _ => Ok(none(alloc)),
    }
}

/// The equalities of columns among the conjuncts of a condition, where left rows have the width.
#[cycle(forced)]
pub fn forced_by(alloc: Global, e: &Expr, width: usize) -> Result<Equalities, NoMemory>
    ensures { IfOk result (λ made. IsForced e.now width made.lefts made.rights) }
{
    match e {
        Expr::And(es) => Ok(forced_by_all(alloc, es.as_slice(), width)?),
        Expr::Cmp(op, a, b) => match op {
            CmpOp::Eq => Ok(between(alloc, a.get(), b.get(), width)?),
            _ => Ok(none(alloc)),
        },
        _ => Ok(none(alloc)),
    }
}

#[cycle(forced)]
fn forced_by_all(alloc: Global, es: &[Expr], width: usize) -> Result<Equalities, NoMemory>
    ensures { IfOk result (λ made. AreForced es.now width made.lefts made.rights) }
{
    let mut made = none(alloc);
    for e in es {
        made.add(forced_by(alloc, e, width)?)?;
    }
    Ok(made)
}
