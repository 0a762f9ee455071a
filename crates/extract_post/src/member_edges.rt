//! The edges along which an update's functions are searched for.
ghost use Rattle.std.specs.Prelude.{◌≡◌, ◌<◌, ◌+◌, ◌*◌, ◌^◌, ◌++◌, ◌∷◌, [], true, false, IfOk, OnOk, All, length};
ghost use Rattle.std.specs.List.{flat_map};
ghost use Rattle.i386_reloc.specs.Classes.{is_code_class};
ghost use Rattle.extract_post.specs.inside.Edges.{edge, links_in, joins, twins_from, member_edges};
ghost use Rattle.extract_post.specs.inside.Edges.{member_node, from_node, into_node};
ghost use Rattle.i386_reloc.specs.Reaches.{is_constant_class};
ghost use Rattle.extract_post.specs.inside.Fits.{two_edges, IsNumbered};

use crate::types::{Link, Numbers};
use i386_reloc::{Normal, NormalSection};
use reachability::Edge;
use std::alloc::{AllocError, Global};

/// The nodes of a section: for being a member, for being reached from one, and for leading into one.
fn member_node(numbers: Numbers, place: u32) -> u32
    requires { into_node numbers place < 2 ^ 32 }
    ensures { result ≡ member_node numbers place }
{
    numbers.base + place
}

fn from_node(numbers: Numbers, place: u32) -> u32
    requires { into_node numbers place < 2 ^ 32 }
    ensures { result ≡ from_node numbers place }
{
    numbers.total + (numbers.base + place)
}

fn into_node(numbers: Numbers, place: u32) -> u32
    requires { into_node numbers place < 2 ^ 32 }
    ensures { result ≡ into_node numbers place }
{
    numbers.total + (numbers.total + (numbers.base + place))
}

/// Two edges, by the nodes that each leaves and goes to.
fn two(from: u32, to: u32, other_from: u32, other_to: u32) -> Option<(Edge, Edge)>
    ensures { two_edges result ≡ edge from to ∷ edge other_from other_to ∷ [] }
{
    Some((
        Edge { from, to },
        Edge {
            from: other_from,
            to: other_to,
        },
    ))
}

/// The edges of a link to the interior of code.
fn joins_interior(n: Numbers, link: &Link) -> Option<(Edge, Edge)>
    requires fits { IsNumbered n link.now }
    requires code { is_code_class link.now.to_class ≡ true }
    requires interior { link.now.interior ≡ true }
    ensures { two_edges result ≡ joins n link.now }
{
    let to = member_node(n, link.to);
    if link.from_class.is_code() {
        let from = member_node(n, link.from);
        return two(from, to, to, from);
    }
    if link.from_class.is_read_only() {
        return two(from_node(n, link.from), to, to, into_node(n, link.from));
    }
    None
}

/// The edges of a link to read-only data or texts.
fn joins_constant(n: Numbers, link: &Link) -> Option<(Edge, Edge)>
    requires fits { IsNumbered n link.now }
    requires code { is_code_class link.now.to_class ≡ false }
    requires constant { is_constant_class link.now.to_class ≡ true }
    ensures { two_edges result ≡ joins n link.now }
{
    let (from_to, into_to) = (from_node(n, link.to), into_node(n, link.to));
    if link.from_class.is_code() {
        let from = member_node(n, link.from);
        return two(from, from_to, into_to, from);
    }
    if link.from_class.is_constant() {
        return two(
            from_node(n, link.from),
            from_to,
            into_to,
            into_node(n, link.from),
        );
    }
    None
}

/// The edges of a link.
fn joins(n: Numbers, link: &Link) -> Option<(Edge, Edge)>
    requires { IsNumbered n link.now }
    ensures { two_edges result ≡ joins n link.now }
{
    if link.to_class.is_code() {
        if link.interior {
            return joins_interior(n, link);
        }
        return None;
    }
    if link.to_class.is_constant() {
        return joins_constant(n, link);
    }
    None
}

/// Puts two edges at the end, where there are any.
fn add_two(edges: &mut Vec<Edge>, two: Option<(Edge, Edge)>) -> Result<(), AllocError>
    ensures { OnOk result (edges.new.items ≡ edges.old.items ++ two_edges two) }
{
    if let Some((one, other)) = two {
        edges.push(one)?;
        edges.push(other)?;
    }
    Ok(())
}

/// Puts the edges of links at the end.
fn add_joins(edges: &mut Vec<Edge>, n: Numbers, links: &[Link]) -> Result<(), AllocError>
    requires { All (IsNumbered n) links.now }
    ensures { OnOk result (edges.new.items ≡ edges.old.items ++ flat_map (joins n) links.now) }
{
    for link in links {
        add_two(edges, joins(n, link))?;
    }
    Ok(())
}

/// The edges between a section of the first object and the one of its name in the second.
#[tactic(auto, using(crate::proofs::Numbered::place_within))]
fn twins(
    p: Numbers,
    q: Numbers,
    post: &Normal<'_>,
    place: u32,
    section: &NormalSection<'_>,
) -> Option<(Edge, Edge)>
    requires p { p.base + place < 2 ^ 32 }
    requires q { q.base + length post.now < 2 ^ 32 }
    ensures { two_edges result ≡ twins_from p q post.now place (section.now ∷ []) }
{
    let other = post.place(section.name.as_slice())?;
    let (here, there) = (p.base + place, q.base + other as u32);
    two(here, there, there, here)
}

/// Puts the edges between sections of one name in both objects at the end.
fn add_twins(
    edges: &mut Vec<Edge>,
    p: Numbers,
    q: Numbers,
    pre: &Normal<'_>,
    post: &Normal<'_>,
) -> Result<(), AllocError>
    requires p { p.base + length pre.now < 2 ^ 32 }
    requires q { q.base + length post.now < 2 ^ 32 }
    ensures { OnOk result (edges.new.items ≡ edges.old.items ++ twins_from p q post.now 0 pre.now) }
{
    let sections = pre.as_slice();
    for i in 0..sections.len() {
        add_two(edges, twins(p, q, post, i as u32, &sections[i]))?;
    }
    Ok(())
}

/// The edges along which members are found, among three nodes a section of both objects.
#[tactic(auto, using(crate::proofs::Numbered::pre_numbered, crate::proofs::Numbered::post_numbered), unfolding(crate::specs::inside::Edges::member_edges))]
pub(crate) fn member_edges(
    alloc: Global,
    pre: &Normal<'_>,
    post: &Normal<'_>,
    pre_links: &[Link],
    post_links: &[Link],
) -> Result<Vec<Edge>, AllocError>
    requires few { 3 * (length pre.now + length post.now) < 2 ^ 32 }
    requires pre_links { pre_links.now ≡ links_in pre.now }
    requires post_links { post_links.now ≡ links_in post.now }
    ensures { IfOk result (λ edges. edges.items ≡ member_edges pre.now post.now) }
{
    let total = (pre.len() + post.len()) as u32;
    let old = Numbers {
        base: post.len() as u32,
        total,
    };
    let new = Numbers { base: 0, total };
    let mut edges = Vec::new(alloc);
    add_joins(&mut edges, old, pre_links)?;
    add_joins(&mut edges, new, post_links)?;
    add_twins(&mut edges, old, new, pre, post)?;
    Ok(edges)
}
