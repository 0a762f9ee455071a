//! What is reached along given edges.
ghost use Rattle.std.specs.Prelude.{◌≡◌, ◌<◌, ◌^◌, ℕ, false, length, IfOk, All};
ghost use Rattle.std.specs.List.{slice_index_or};
ghost use Rattle.reachability.specs.Reached.{has_edge, connects, ReachedAlong, Tells, IsWithin};

use crate::directed::Graph;
use crate::edge::Edge;
use std::alloc::{AllocError, Global};

/// Which nodes are reached from the seeds, each a node whose mark is true, along edges: a mark for each node. The nodes
/// are numbered from 0. The work grows with the number of nodes and edges.
#[tactic(auto, using(crate::proofs::AlongLaws::tells_along))]
pub fn reached_along(
    alloc: Global,
    nodes: usize,
    edges: &[Edge],
    seeds: &[bool],
) -> Result<Vec<bool>, AllocError>
    requires few { nodes < 2 ^ 32 }
    requires seeds { length seeds.now ≡ nodes }
    requires within { All (IsWithin nodes) edges.now }
    ensures len { IfOk result (λ marks. length marks.items ≡ nodes) }
    ensures marks { IfOk result (λ marks. (node : ℕ) → node < nodes
        → Tells (slice_index_or marks.items node false) (ReachedAlong edges.now seeds.now node)) }
{
    graph_of(alloc, nodes, edges)?.reached(alloc, seeds)
}

/// The graph of so many nodes with these edges.
fn graph_of(alloc: Global, nodes: usize, edges: &[Edge]) -> Result<Graph, AllocError>
    requires few { nodes < 2 ^ 32 }
    requires within { All (IsWithin nodes) edges.now }
    ensures nodes { IfOk result (λ graph. length graph ≡ nodes) }
    ensures edges { IfOk result (λ graph. (from to : ℕ) → has_edge graph from to ≡ connects edges.now from to) }
{
    let mut graph = Graph::new(alloc, nodes)?;
    for edge in edges {
        graph.add(edge.from as usize, edge.to as usize)?;
    }
    Ok(graph)
}
