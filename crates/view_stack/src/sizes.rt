//! How many nodes a relation has and how deep it is, with every view expanded.

ghost use Rattle.std.specs.Prelude.{◌≡◌, ◌+◌, ◌^◌, ◌≤◌, max, IfSome, IfNone, slice_get};
ghost use Rattle.vdb_model.specs.Sizes.{nodes_of, depth_of, together, greatest, kept_nodes, kept_depth, is_within_size};
ghost use Rattle.view_stack.specs.Parts.{nodes_each, depth_each};

use vdb_model::{Catalog, Rel, ViewDef};

/// Every node of a relation is one; a leaf has depth 1.
#[derive(Clone, Copy, Debug, PartialEq, Eq)]
pub struct Size {
    pub nodes: u64,
    pub depth: u64,
}

/// The most nodes that a relation may have with every view expanded.
pub const NODE_LIMIT: u64 = 4096;

/// How deep it may be.
pub const DEPTH_LIMIT: u64 = 512;

impl Size {
    /// Neither count is past its limit.
    pub fn is_within_limits(self) -> bool
        ensures { result ≡ is_within_size self.nodes self.depth }
    {
        self.nodes <= NODE_LIMIT && self.depth <= DEPTH_LIMIT
    }
}

/// One row without columns, or a table.
const LEAF: Size = Size { nodes: 1, depth: 1 };

/// The size of a relation with every view expanded, by the sizes that the catalog keeps of its views: a view counts as
/// what is kept of it. None where a count is past 64 bits. It takes the time of a walk through the relation itself.
pub fn expanded_size(cat: &Catalog, rel: &Rel) -> Option<Size>
    ensures nodes { IfSome result (λ size. size.nodes ≡ nodes_of cat.now.views rel.now) }
    ensures depth { IfSome result (λ size. size.depth ≡ depth_of cat.now.views rel.now) }
    ensures past { IfNone result (2 ^ 64 ≤ max (nodes_of cat.now.views rel.now) (depth_of cat.now.views rel.now)) }
{
    size_of(cat.views().as_slice(), rel)
}

/// The size of a node over a part of that size.
fn above(part: Size) -> Option<Size>
    ensures nodes { IfSome result (λ size. size.nodes ≡ part.nodes + 1) }
    ensures depth { IfSome result (λ size. size.depth ≡ part.depth + 1) }
    ensures past { IfNone result (2 ^ 64 ≤ max (part.nodes + 1) (part.depth + 1)) }
{
    Some(Size {
        nodes: part.nodes.checked_add(1)?,
        depth: part.depth.checked_add(1)?,
    })
}

/// The size of two parts together, without a node over them.
fn beside(left: Size, right: Size) -> Option<Size>
    ensures nodes { IfSome result (λ size. size.nodes ≡ left.nodes + right.nodes) }
    ensures depth { IfSome result (λ size. size.depth ≡ max left.depth right.depth) }
    ensures past { IfNone result (2 ^ 64 ≤ left.nodes + right.nodes) }
{
    Some(Size {
        nodes: left.nodes.checked_add(right.nodes)?,
        depth: left.depth.max(right.depth),
    })
}

/// The size that is kept of the view with the number, and none where no view has it.
fn kept(views: &[ViewDef], at: usize) -> Size
    ensures nodes { result.nodes ≡ kept_nodes (slice_get views.now at) }
    ensures depth { result.depth ≡ kept_depth (slice_get views.now at) }
{
    match views.get(at) {
        Some(view) => Size {
            nodes: view.nodes,
            depth: view.depth,
        },
        None => Size { nodes: 0, depth: 0 },
    }
}

/// The size of a relation over views.
#[cycle(size_of)]
#[tactic(auto, using(crate::proofs::Rules::size_rules))]
pub fn size_of(views: &[ViewDef], rel: &Rel) -> Option<Size>
    ensures nodes { IfSome result (λ size. size.nodes ≡ nodes_of views.now rel.now) }
    ensures depth { IfSome result (λ size. size.depth ≡ depth_of views.now rel.now) }
    ensures past { IfNone result (2 ^ 64 ≤ max (nodes_of views.now rel.now) (depth_of views.now rel.now)) }
{
    match rel {
        Rel::One => Some(LEAF),
        Rel::Table(_) => Some(LEAF),
        Rel::View(at) => Some(kept(views, *at as usize)),
        Rel::Where(of, _) => above(size_of(views, of.get())?),
        Rel::Select(of, _) => above(size_of(views, of.get())?),
        Rel::Join { left, right, .. } => {
            let left = size_of(views, left.get())?;
            let right = size_of(views, right.get())?;
            above(beside(left, right)?)
        }
        Rel::Group { of, .. } => above(size_of(views, of.get())?),
        Rel::Distinct(of) => above(size_of(views, of.get())?),
        Rel::Union(parts) => above(size_of_all(views, parts.as_slice())?),
    }
}

/// The size of the parts of a union together.
#[cycle(size_of)]
#[tactic(auto, using(crate::proofs::Rules::size_rules))]
fn size_of_all(views: &[ViewDef], parts: &[Rel]) -> Option<Size>
    ensures nodes { IfSome result (λ size. size.nodes ≡ together (nodes_each views.now parts.now)) }
    ensures depth { IfSome result (λ size. size.depth ≡ greatest (depth_each views.now parts.now)) }
    ensures past { IfNone result (2 ^ 64 ≤ max (together (nodes_each views.now parts.now)) (greatest (depth_each views.now parts.now))) }
{
    let mut all = Size { nodes: 0, depth: 0 };
    for part in parts {
        all = beside(all, size_of(views, part)?)?;
    }
    Some(all)
}
