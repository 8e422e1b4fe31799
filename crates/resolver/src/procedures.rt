//! Which procedure of the catalog a name means.

ghost use Rattle.std.specs.Prelude.{◌≡◌, ◌++◌, IfOk};
ghost use Rattle.expr_resolver.specs.Answers.{Resolves};
ghost use Rattle.resolver.specs.Relations as spec;

use crate::relations::{is_meant, written_relation};
use expr_resolver::ResolveFault;
use expr_resolver::aggregates::place;
use sql_reader::tree::RelationName;
use std::alloc::Global;
use vdb_base::{NoMemory, Seq, Tys};
use vdb_model::{Catalog, ProcedureDef, Refusal, VarDef};

fn types_of(alloc: Global, parameters: &[VarDef]) -> Result<Tys, NoMemory>
    ensures { IfOk result (λ made. made ≡ spec.types_of parameters.now) }
{
    let mut made = Seq::new(alloc);
    for p in parameters {
        made.push(p.ty)?;
    }
    Ok(made)
}

fn procedures_named(
    alloc: Global,
    r: &RelationName,
    procedures: &[ProcedureDef],
) -> Result<Vec<(u32, Tys)>, NoMemory>
    ensures { IfOk result (λ found. found.items ≡ spec.procedures_named 0 r.now procedures.now) }
{
    let mut found = Vec::new(alloc);
    let mut number = 0;
    for d in procedures {
        if is_meant(r, &d.schema, &d.name) {
            found.push((number, types_of(alloc, d.parameters.as_slice())?))?;
        }
        number = place(number as usize, 1)?;
    }
    Ok(found)
}

/// The only procedure of the name, by its number, and the types of its parameters.
pub fn procedure_of(
    alloc: Global,
    cat: &Catalog,
    r: &RelationName,
) -> Result<(u32, Tys), ResolveFault>
    ensures { Resolves (spec.procedure_of cat.now r.now) result }
{
    let mut found = procedures_named(alloc, r, cat.procedures().as_slice())?;
    let Some(procedure) = found.pop() else {
        return Err(ResolveFault::Refused(Refusal::Unknown {
            name: written_relation(alloc, r)?,
        }));
    };
    if found.is_empty() {
        Ok(procedure)
    } else {
        Err(ResolveFault::Refused(Refusal::Ambiguous {
            name: written_relation(alloc, r)?,
        }))
    }
}
