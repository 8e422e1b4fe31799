//! Views over views: how large a relation is with every view expanded, and the expansion itself.
//!
//! `expanded_size` counts nodes and depth by the sizes that a catalog keeps of its views, in the time of a walk through the
//! relation itself. `expand` gives the relation over foreign tables alone, in which each view has given its place to its
//! own relation: no view is left, and over any tables and variables it has the very rows of the original, in the same
//! order, and as many columns. `TooLarge` comes exactly where the expanded relation would have more than 4,096 nodes or
//! be more than 512 deep, with both counts, before anything is built.
//!
//! The views of a catalog are stacked: each names only views before it, reads no variable, and its kept size is that of its
//! relation. The resolver counts with `expanded_size`; the session expands what it is to run. The tests over worked catalogs
//! stand where catalogs are deployed, in `catalog_laws`.
#![tactic(auto)]

mod expansion;
mod fault;
mod sizes;

pub use expansion::expand;
pub use fault::ExpandFault;
pub use sizes::{DEPTH_LIMIT, NODE_LIMIT, Size, expanded_size};
