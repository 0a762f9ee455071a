//! Which nodes of a directed graph are reached from given ones along its edges.
#![tactic(auto)]

mod along;
mod directed;
mod edge;
mod walk;

pub use along::reached_along;
pub use edge::Edge;
