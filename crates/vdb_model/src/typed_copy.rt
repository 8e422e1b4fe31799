//! Copies of statements and blocks.

ghost use Rattle.std.specs.Prelude.{◌≡◌, IfOk};
ghost use Rattle.vdb_model.specs.declared.typed.TypedStmt.TheVariants.{Declare, Assign, Run, Raise, If, While, Loop};

use crate::expr::Expr;
use crate::optional::copy_optional;
use crate::rel::Ranked;
use crate::typed::{Typed, TypedBlock, TypedStmt, TypedStmts, VarDef};
use sqlite_items::Items;
use std::alloc::Global;
use vdb_base::{Duplicate, NoMemory};

impl Typed {
    pub fn copy(&self, alloc: Global) -> Result<Typed, NoMemory>
        ensures { IfOk result (λ made. made ≡ self.now) }
    {
        match self {
            Typed::Query(query) => Ok(Typed::Query(query.copy(alloc)?)),
            Typed::Explain(query) => Ok(Typed::Explain(query.copy(alloc)?)),
            Typed::Insert {
                target,
                columns,
                rows,
            } => Ok(Typed::Insert {
                target: *target,
                columns: columns.copy(alloc)?,
                rows: rows.copy(alloc)?,
            }),
            Typed::Update {
                target,
                columns,
                values,
                rows,
            } => Ok(Typed::Update {
                target: *target,
                columns: columns.copy(alloc)?,
                values: values.copy(alloc)?,
                rows: rows.copy(alloc)?,
            }),
            Typed::Delete { target, rows } => Ok(Typed::Delete {
                target: *target,
                rows: rows.copy(alloc)?,
            }),
            Typed::Exec { procedure, args } => Ok(Typed::Exec {
                procedure: *procedure,
                args: args.copy(alloc)?,
            }),
            Typed::Start => Ok(Typed::Start),
            Typed::Commit => Ok(Typed::Commit),
            Typed::Rollback => Ok(Typed::Rollback),
        }
    }
}

impl VarDef {
    pub fn copy(&self, alloc: Global) -> Result<VarDef, NoMemory>
        ensures { IfOk result (λ made. made ≡ self.now) }
    {
        Ok(VarDef {
            name: self.name.copy(alloc)?,
            ty: self.ty,
        })
    }
}

impl Duplicate for VarDef {
    fn copy(&self, alloc: Global) -> Result<VarDef, NoMemory> {
        self.copy(alloc)
    }
}

impl TypedBlock {
    pub fn copy(&self, alloc: Global) -> Result<TypedBlock, NoMemory>
        ensures { IfOk result (λ made. made ≡ self.now) }
    {
        Ok(TypedBlock {
            vars: self.vars.copy(alloc)?,
            body: copy_stmts(alloc, self.body.as_slice())?,
        })
    }
}

// One function for each kind of statement keeps the proof of the recursion small.
fn declare_of(alloc: Global, var: u32, value: &Option<Expr>) -> Result<TypedStmt, NoMemory>
    ensures { IfOk result (λ made. made ≡ Declare var value.now) }
{
    let value = copy_optional(alloc, value)?;
    Ok(TypedStmt::Declare { var, value })
}

fn assign_of(alloc: Global, var: u32, value: &Expr) -> Result<TypedStmt, NoMemory>
    ensures { IfOk result (λ made. made ≡ Assign var value.now) }
{
    let value = value.copy(alloc)?;
    Ok(TypedStmt::Assign { var, value })
}

fn run_of(alloc: Global, statement: &Typed) -> Result<TypedStmt, NoMemory>
    ensures { IfOk result (λ made. made ≡ Run statement.now) }
{
    Ok(TypedStmt::Run(statement.copy(alloc)?))
}

fn raise_of(alloc: Global, text: &Expr) -> Result<TypedStmt, NoMemory>
    ensures { IfOk result (λ made. made ≡ Raise text.now) }
{
    Ok(TypedStmt::Raise(text.copy(alloc)?))
}

fn if_of(alloc: Global, cond: &Expr, yes: TypedStmts, no: TypedStmts) -> Result<TypedStmt, NoMemory>
    ensures { IfOk result (λ made. made ≡ If cond.now yes no) }
{
    let cond = cond.copy(alloc)?;
    Ok(TypedStmt::If { cond, yes, no })
}

fn while_of(alloc: Global, cond: &Expr, body: TypedStmts) -> Result<TypedStmt, NoMemory>
    ensures { IfOk result (λ made. made ≡ While cond.now body) }
{
    let cond = cond.copy(alloc)?;
    Ok(TypedStmt::While { cond, body })
}

fn loop_of(
    alloc: Global,
    query: &Ranked,
    first: u32,
    body: TypedStmts,
) -> Result<TypedStmt, NoMemory>
    ensures { IfOk result (λ made. made ≡ Loop query.now first body) }
{
    let query = query.copy(alloc)?;
    Ok(TypedStmt::Loop { query, first, body })
}

impl TypedStmt {
    #[cycle(typed_copy)]
    pub fn copy(&self, alloc: Global) -> Result<TypedStmt, NoMemory>
        ensures { IfOk result (λ made. made ≡ self.now) }
    {
        match self {
            TypedStmt::Declare { var, value } => declare_of(alloc, *var, value),
            TypedStmt::Assign { var, value } => assign_of(alloc, *var, value),
            TypedStmt::Run(statement) => run_of(alloc, statement),
            TypedStmt::Raise(text) => raise_of(alloc, text),
            TypedStmt::If { cond, yes, no } => {
                let yes = copy_stmts(alloc, yes.as_slice())?;
                let no = copy_stmts(alloc, no.as_slice())?;
                if_of(alloc, cond, yes, no)
            }
            TypedStmt::While { cond, body } => {
                while_of(alloc, cond, copy_stmts(alloc, body.as_slice())?)
            }
            TypedStmt::Loop { query, first, body } => {
                loop_of(alloc, query, *first, copy_stmts(alloc, body.as_slice())?)
            }
        }
    }
}

#[cycle(typed_copy)]
fn copy_stmts(alloc: Global, stmts: &[TypedStmt]) -> Result<TypedStmts, NoMemory>
    ensures { IfOk result (λ made. made ≡ stmts.now) }
{
    let mut made = Vec::with_capacity(alloc, stmts.len())?;
    for stmt in stmts {
        made.push(stmt.copy(alloc)?)?;
    }
    Ok(Items::from_vec(made))
}

impl Duplicate for TypedStmt {
    fn copy(&self, alloc: Global) -> Result<TypedStmt, NoMemory> {
        self.copy(alloc)
    }
}
