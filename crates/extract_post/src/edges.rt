//! The edges along which an update's parts are searched for.
ghost use Rattle.std.specs.Prelude.{◌≡◌, ◌+◌, ◌++◌, OnOk, IfOk, option_to_list};
ghost use Rattle.std.specs.List.{flat_map};
ghost use Rattle.extract_post.specs.inside.Edges.{edge, forward, backward};

use crate::types::{Link, Numbers};
use reachability::Edge;
use std::alloc::{AllocError, Global};

fn forward_edge(link: &Link) -> Option<Edge>
    ensures { option_to_list result ≡ forward link.now }
{
    if !link.to_class.is_constant() {
        return None;
    }
    Some(Edge {
        from: link.from,
        to: link.to,
    })
}

fn backward_edge(link: &Link) -> Option<Edge>
    ensures { option_to_list result ≡ backward link.now }
{
    if !link.to_class.is_constant() {
        return None;
    }
    Some(Edge {
        from: link.to,
        to: link.from,
    })
}

/// Puts an edge at the end, where there is one.
fn add_edge(edges: &mut Vec<Edge>, edge: Option<Edge>) -> Result<(), AllocError>
    ensures { OnOk result (edges.new.items ≡ edges.old.items ++ option_to_list edge) }
{
    if let Some(edge) = edge {
        edges.push(edge)?;
    }
    Ok(())
}

/// The edges along which sections reach read-only data and texts.
pub(crate) fn forward_edges(alloc: Global, links: &[Link]) -> Result<Vec<Edge>, AllocError>
    ensures { IfOk result (λ edges. edges.items ≡ flat_map forward links.now) }
{
    let mut edges = Vec::new(alloc);
    for link in links {
        add_edge(&mut edges, forward_edge(link))?;
    }
    Ok(edges)
}

/// The same edges, each the other way.
pub(crate) fn backward_edges(alloc: Global, links: &[Link]) -> Result<Vec<Edge>, AllocError>
    ensures { IfOk result (λ edges. edges.items ≡ flat_map backward links.now) }
{
    let mut edges = Vec::new(alloc);
    for link in links {
        add_edge(&mut edges, backward_edge(link))?;
    }
    Ok(edges)
}
