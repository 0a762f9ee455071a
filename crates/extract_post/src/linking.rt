//! The references of an object's sections, as the search sees them.
ghost use Rattle.std.specs.Prelude.{◌≡◌, ◌<◌, ◌++◌, ◌^◌, Some, length, OnOk, IfOk, option_to_list};
ghost use Rattle.std.specs.List.{slice_get};
ghost use Rattle.i386_reloc.specs.Places.{reference_at};
ghost use Rattle.i386_reloc.specs.Places.{place_of_target};
ghost use Rattle.extract_post.specs.inside.Edges.{link_to, links_of, links_in};

use crate::types::Link;
use i386_reloc::{Class, Normal, NormalSection, Ref};
use std::alloc::{AllocError, Global};

/// The place of the section that the reference `k` of the section at a place goes to, `None` where it goes to none of
/// this object. No name is looked up.
#[tactic(auto, using(crate::proofs::Targets::place_here))]
pub(crate) fn place_of_target(
    normal: &Normal<'_>,
    place: usize,
    k: usize,
    r: &Ref<'_>,
) -> Option<usize>
    requires { reference_at normal.now place k ≡ Some r.now }
    ensures { result ≡ place_of_target normal.now r.now.target }
{
    normal.target_place(place, k)
}

/// The link of the reference `k` of the section of a class at a place.
#[tactic(auto, using(std::proofs::lemmas::Option::slice_get_within))]
fn link_to(normal: &Normal<'_>, from: u32, k: usize, from_class: Class, r: &Ref<'_>) -> Option<Link>
    requires few { length normal.now < 2 ^ 32 }
    requires at { reference_at normal.now from k ≡ Some r.now }
    ensures { option_to_list result
        ≡ link_to normal.now from from_class r.now (place_of_target normal.now r.now.target) }
{
    let to = place_of_target(normal, from as usize, k, r)?;
    let target = normal.as_slice().get(to)?;
    Some(Link {
        from,
        from_class,
        to: to as u32,
        to_class: target.class,
        interior: r.is_interior(),
    })
}

/// Puts a link at the end, where there is one.
fn add_link(links: &mut Vec<Link>, link: Option<Link>) -> Result<(), AllocError>
    ensures { OnOk result (links.new.items ≡ links.old.items ++ option_to_list link) }
{
    if let Some(link) = link {
        links.push(link)?;
    }
    Ok(())
}

/// Puts the links of a section's references at the end.
#[tactic(auto, using(crate::proofs::Targets::reference_here))]
fn add_links(
    links: &mut Vec<Link>,
    normal: &Normal<'_>,
    from: u32,
    section: &NormalSection<'_>,
) -> Result<(), AllocError>
    requires few { length normal.now < 2 ^ 32 }
    requires at { slice_get normal.now from ≡ Some section.now }
    ensures { OnOk result (links.new.items ≡ links.old.items ++ links_of normal.now from section.now) }
{
    let class = section.class;
    let refs = section.refs.as_slice();
    for k in 0..refs.len() {
        add_link(links, link_to(normal, from, k, class, &refs[k]))?;
    }
    Ok(())
}

/// The links of all references of an object's sections.
pub(crate) fn links(alloc: Global, normal: &Normal<'_>) -> Result<Vec<Link>, AllocError>
    requires { length normal.now < 2 ^ 32 }
    ensures { IfOk result (λ links. links.items ≡ links_in normal.now) }
{
    let mut links = Vec::new(alloc);
    let sections = normal.as_slice();
    for i in 0..sections.len() {
        add_links(&mut links, normal, i as u32, &sections[i])?;
    }
    Ok(links)
}
