//! A walk over a graph, which marks each node that it reaches and follows the edges of each once.
ghost use Rattle.std.specs.Prelude.{◌≡◌, ◌<◌, ℕ, Bool, false, length, OnOk, IfOk};
ghost use Rattle.std.specs.List.{slice_index, slice_index_or, fold, All};
ghost use Rattle.reachability.specs.Reached.{Reached, Tells, HasItsSuccessors};
ghost use Rattle.reachability.specs.inside.Walk.{unmarked, marked, marked_if, seeded, visited};

use ks_base::ListOf;
use std::alloc::{AllocError, Global};
use std::marker::Model;

/// The successors of one node.
pub(crate) type Successors = ListOf<u32>;

/// How far a walk has come.
#[derive(Drop)]
struct Reaching {
    marks: Vec<bool>,
    /// the marked nodes in the order in which they were marked
    queue: Vec<usize>,
}

impl Model for Reaching {
    ghost use Rattle.reachability.specs.inside.Walk.{Walk};

    ghost Value = { Walk };

    ghost view = { λ r. record { marks = r.marks.items; queue = r.queue.items } };
}

impl Reaching {
    /// A walk that has marked none of so many nodes.
    fn new(alloc: Global, nodes: usize) -> Result<Self, AllocError>
        ensures { IfOk result (λ walk. walk ≡ unmarked nodes) }
    {
        Ok(Reaching {
            marks: vec![in alloc; false; nodes]?,
            queue: Vec::new(alloc),
        })
    }

    /// How many nodes are marked.
    fn len(&self) -> usize
        ensures { result ≡ length self.now.queue }
    {
        self.queue.len()
    }

    /// The marked node of a number, counted from 0 in the order in which nodes were marked.
    fn node_at(&self, turn: usize) -> usize
        requires { turn < length self.now.queue }
        ensures { result ≡ slice_index self.now.queue turn }
    {
        self.queue[turn]
    }

    /// Which nodes are marked.
    fn into_marks(self) -> Vec<bool>
        ensures { result.items ≡ self.marks }
    {
        self.marks
    }

    /// Marks a node.
    fn mark(&mut self, node: usize) -> Result<(), AllocError>
        requires { node < length self.old.marks }
        ensures nodes { length self.new.marks ≡ length self.old.marks }
        ensures marked { OnOk result (self.new ≡ marked self.old node) }
    {
        if self.marks[node] {
            return Ok(());
        }
        self.queue.push(node)?;
        self.marks[node] = true;
        Ok(())
    }

    /// Marks a node where that is wanted.
    fn mark_if(&mut self, wanted: bool, node: usize) -> Result<(), AllocError>
        requires { node < length self.old.marks }
        ensures nodes { length self.new.marks ≡ length self.old.marks }
        ensures marked { OnOk result (self.new ≡ marked_if wanted self.old node) }
    {
        if wanted { self.mark(node) } else { Ok(()) }
    }

    /// Marks the seeds.
    fn mark_seeds(&mut self, seeds: &[bool]) -> Result<(), AllocError>
        requires { length seeds.now ≡ length self.old.marks }
        ensures { OnOk result (self.new ≡ seeded self.old seeds.now (length seeds.now)) }
    {
        for (node, seed) in seeds.iter().enumerate() {
            self.mark_if(*seed, node)?;
        }
        Ok(())
    }

    /// Marks each node of a list.
    fn mark_all(&mut self, nodes: &[u32]) -> Result<(), AllocError>
        requires { All (λ node. node < length self.old.marks) nodes.now }
        ensures { OnOk result (self.new ≡ fold marked self.old nodes.now) }
    {
        for node in nodes {
            self.mark(*node as usize)?;
        }
        Ok(())
    }

    /// Marks the successors of the marked node of a number.
    fn visit(&mut self, graph: &[Successors], turn: usize) -> Result<(), AllocError>
        requires queued { turn < length self.old.queue }
        requires node { slice_index self.old.queue turn < length graph.now }
        requires nodes { length self.old.marks ≡ length graph.now }
        requires successors { HasItsSuccessors graph.now }
        ensures { OnOk result (self.new ≡ visited graph.now self.old turn) }
    {
        let successors = &graph[self.node_at(turn)];
        self.mark_all(successors.as_slice())
    }
}

/// Which nodes of a graph are reached from the seeds.
#[tactic(auto, using(crate::proofs::WalkLaws::walk_begins, crate::proofs::WalkLaws::walk_ends))]
pub(crate) fn reached_of(
    alloc: Global,
    graph: &[Successors],
    seeds: &[bool],
) -> Result<Vec<bool>, AllocError>
    requires seeds { length seeds.now ≡ length graph.now }
    requires successors { HasItsSuccessors graph.now }
    ensures nodes { IfOk result (λ marks. length marks.items ≡ length graph.now) }
    ensures reached { IfOk result (λ marks. (node : ℕ) → Tells (slice_index_or marks.items node false)
        (Reached graph.now seeds.now node)) }
{
    let mut walk = Reaching::new(alloc, graph.len())?;
    walk.mark_seeds(seeds)?;
    let mut turn = 0;
    while turn < walk.len() {
        walk.visit(graph, turn)?;
        turn += 1;
    }
    Ok(walk.into_marks())
}
