//! A directed graph.
ghost use Rattle.std.specs.Prelude.{◌≡◌, ◌==◌, ◌&&◌, ◌||◌, ◌<◌, ◌^◌, ℕ, Bool, false, length, OnOk, OnErr, IfOk};
ghost use Rattle.std.specs.List.{slice_index_or};
ghost use Rattle.reachability.specs.Reached.{has_edge, Reached, Tells};

use crate::walk::{Successors, reached_of};
use std::alloc::{AllocError, Global};
use std::marker::Model;

/// A directed graph of nodes 0, 1, .., fewer than 2 to the power 32. A clause sees it as the list of its
/// nodes' successors.
#[derive(Drop)]
pub(crate) struct Graph {
    successors: Vec<Successors>,
}

impl Model for Graph {
    ghost use Rattle.std.specs.Prelude.{List, ℕ, ◌<◌, ◌^◌, length};

    ghost Value = { List (List ℕ) };

    ghost use Rattle.reachability.specs.Reached.{HasItsSuccessors};

    ghost view = { λ g. g.successors.items };

    ghost invariant = { λ g. (length g.successors.items < 2 ^ 32) × HasItsSuccessors g.successors.items };
}

impl Graph {
    /// The graph of so many nodes without edges.
    pub(crate) fn new(alloc: Global, nodes: usize) -> Result<Self, AllocError>
        requires { nodes < 2 ^ 32 }
        ensures nodes { IfOk result (λ graph. length graph ≡ nodes) }
        ensures edges { IfOk result (λ graph. (from to : ℕ) → has_edge graph from to ≡ false) }
    {
        let mut successors = Vec::new(alloc);
        for _node in 0..nodes {
            successors.push(Successors::new(alloc))?;
        }
        Ok(Graph { successors })
    }

    /// Adds the edge from one node to another. If memory runs out the graph is as before.
    pub(crate) fn add(&mut self, from: usize, to: usize) -> Result<(), AllocError>
        requires from { from < length self.old }
        requires to { to < length self.old }
        ensures nodes { length self.new ≡ length self.old }
        ensures edges { OnOk result ((a b : ℕ) → has_edge self.new a b
            ≡ (has_edge self.old a b || ((a == from) && (b == to)))) }
        ensures err { OnErr result (self.new ≡ self.old) }
    {
        let successors = &mut self.successors[from];
        successors.push(to as u32)
    }

    /// Which nodes are reached from the seeds, each a node whose mark is true, along edges: a mark for
    /// each node. The work grows with the number of nodes and edges.
    pub(crate) fn reached(&self, alloc: Global, seeds: &[bool]) -> Result<Vec<bool>, AllocError>
        requires { length seeds.now ≡ length self.now }
        ensures nodes { IfOk result (λ marks. length marks.items ≡ length self.now) }
        ensures reached { IfOk result (λ marks. (node : ℕ) → Tells (slice_index_or marks.items node false)
            (Reached self.now seeds.now node)) }
    {
        reached_of(alloc, self.successors.as_slice(), seeds)
    }
}
