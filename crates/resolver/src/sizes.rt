//! How large the relation of a statement is with every view expanded.

ghost use Rattle.std.specs.Prelude.{◌≡◌, IfOk};
ghost use Rattle.std.specs.Option.{option_copied};
ghost use Rattle.expr_resolver.specs.Answers.{Resolves};
ghost use Rattle.resolver.specs.Statements as spec;
ghost use Rattle.vdb_model.specs.Sizes.{nodes_of, depth_of};

use expr_resolver::ResolveFault;
use vdb_base::NoMemory;
use vdb_model::{Catalog, Refusal, Rel, Typed};
use view_stack::{Size, expanded_size};

/// A query's relation, or that of an update's rows.
fn sized_rel(typed: &Typed) -> Option<&Rel>
    ensures { option_copied result ≡ spec.sized_rel typed.now }
{
    match typed {
        Typed::Query(r) => Some(&r.rel),
        Typed::Explain(r) => Some(&r.rel),
        Typed::Insert { rows, .. } => Some(rows),
        Typed::Update { rows, .. } => Some(rows),
        Typed::Delete { rows, .. } => Some(rows),
        Typed::Exec { .. } => None,
        Typed::Start => None,
        Typed::Commit => None,
        Typed::Rollback => None,
    }
}

fn size_of(cat: &Catalog, rel: &Rel) -> Result<Size, NoMemory>
    ensures nodes { IfOk result (λ size. size.nodes ≡ nodes_of cat.now.views rel.now) }
    ensures depth { IfOk result (λ size. size.depth ≡ depth_of cat.now.views rel.now) }
{
    match expanded_size(cat, rel) {
        Some(size) => Ok(size),
        None => Err(NoMemory),
    }
}

/// The statement, unless its relation is too large. No memory could hold one whose counts are past 64 bits.
pub fn within_size(cat: &Catalog, typed: Typed) -> Result<Typed, ResolveFault>
    ensures { Resolves (spec.within_size cat.now.views (spec.sized_rel typed) typed) result }
{
    let Some(rel) = sized_rel(&typed) else {
        return Ok(typed);
    };
    let size = size_of(cat, rel)?;
    if size.is_within_limits() {
        Ok(typed)
    } else {
        Err(ResolveFault::Refused(Refusal::TooLarge {
            nodes: size.nodes,
            depth: size.depth,
        }))
    }
}
