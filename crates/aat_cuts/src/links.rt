//! The edges to each state, as links from one to the next.
ghost use Rattle.std.specs.Prelude.{◌≡◌, ℕ, IfOk, length, slice_index};
ghost use Rattle.aat_cuts.specs.inside.Waiting.{AreLinksOf};

use crate::labels::{Edge, STATES};
use std::alloc::{AllocError, Global};

/// Where the edges stand that look at a state, from the last one back. A link is one more than a place in the list of
/// edges, or 0 where there is none.
#[derive(Drop)]
pub(crate) struct Links {
    /// For each state, the last edge that looks at it.
    pub(crate) last: Vec<usize>,
    /// For each edge, the one before it that looks at the same state.
    pub(crate) before: Vec<usize>,
}

/// So many links to no edge.
fn no_links(alloc: Global, count: usize) -> Result<Vec<usize>, AllocError>
    ensures long { IfOk result (λ links. length links.items ≡ count) }
    ensures none { IfOk result (λ links. (i : ℕ) → slice_index links.items i ≡ 0) }
{
    vec![in alloc; 0usize; count]
}

/// The links of edges.
pub(crate) fn links_of(alloc: Global, edges: &[Edge]) -> Result<Links, AllocError>
    ensures { IfOk result (AreLinksOf edges.now) }
{
    let mut last = no_links(alloc, STATES)?;
    let mut before = Vec::new(alloc);
    for (place, edge) in edges.iter().enumerate() {
        let to = edge.to as usize;
        before.push(last[to])?;
        last[to] = place + 1;
    }
    Ok(Links { last, before })
}
