//! How many views stand over one another.

ghost use Rattle.std.specs.Prelude.{◌≡◌, slice_index_or};
ghost use Rattle.metadata.specs.Parts.{chains_each};
ghost use Rattle.vdb_model.specs.Chains.{chain_below};
ghost use Rattle.vdb_model.specs.Sizes.{greatest};

use vdb_model::Rel;

fn chain_at(chains: &[u32], at: usize) -> u32
    ensures { result ≡ slice_index_or chains.now at 0 }
{
    match chains.get(at) {
        Some(chain) => *chain,
        None => 0,
    }
}

/// The longest chain that begins at a view that the relation names, by the chains of the views.
#[cycle(chain_below)]
#[tactic(auto, using(crate::proofs::ChainByKinds::chain_of_kinds))]
pub(crate) fn chain_below(chains: &[u32], rel: &Rel) -> u32
    ensures { result ≡ chain_below chains.now rel.now }
{
    match rel {
        Rel::One => 0,
        Rel::Table(_) => 0,
        Rel::View(at) => chain_at(chains, *at as usize),
        Rel::Where(of, _) => chain_below(chains, of.get()),
        Rel::Select(of, _) => chain_below(chains, of.get()),
        Rel::Join { left, right, .. } => {
            let left = chain_below(chains, left.get());
            left.max(chain_below(chains, right.get()))
        }
        Rel::Group { of, .. } => chain_below(chains, of.get()),
        Rel::Distinct(of) => chain_below(chains, of.get()),
        Rel::Union(parts) => chain_below_all(chains, parts.as_slice()),
    }
}

/// The longest below the parts of a union.
#[cycle(chain_below)]
#[tactic(auto, using(crate::proofs::ChainByKinds::chain_of_kinds))]
fn chain_below_all(chains: &[u32], parts: &[Rel]) -> u32
    ensures { result ≡ greatest (chains_each chains.now parts.now) }
{
    let mut all: u32 = 0;
    for part in parts {
        all = all.max(chain_below(chains, part));
    }
    all
}
