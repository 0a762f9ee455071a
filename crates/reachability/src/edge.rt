//! An edge of a directed graph.

/// An edge of a directed graph, whose nodes are numbered from 0.
#[derive(Clone, Copy, PartialEq, Eq)]
pub struct Edge {
    /// The node that the edge leaves.
    pub from: u32,
    /// The node that it goes to.
    pub to: u32,
}
