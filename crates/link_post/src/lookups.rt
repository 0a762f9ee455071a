//! Where sections were placed, and what unknowns came to.
ghost use Rattle.std.specs.Prelude.{◌≡◌, ◌≤◌, ◌↔◌, length, true, false, IsTrue};
ghost use Rattle.std.specs.List.Sorted.{IsPartitionPoint};
ghost use Rattle.link_post.specs.Places.{base_in};
ghost use Rattle.link_post.specs.Values.{solved_as};
ghost use Rattle.link_post.specs.Linked.{place_in, AreInOrder, value_in};
ghost use Rattle.link_post.specs.inside.Lookups.{is_before};

use crate::types::{Placed, Placement};
use i386_reloc::Normal;
use std::alloc::Global;
use symbol_table::{Solved, Unknown, Values};

/// Where the section of a name stands among those of an object, or how many these are.
fn place_in(post: &Normal<'_>, name: &[u8]) -> usize
    ensures place { result ≡ place_in post.now name.now }
    ensures bound { result ≤ length post.now }
    ensures few { length post.now ≤ 4096 }
{
    let count = post.len();
    match post.place(name) {
        Some(place) => place,
        None => count,
    }
}

/// Whether places stand in the order in which the object has their sections, none of them twice.
pub fn in_order(post: &Normal<'_>, placement: &Placement) -> bool
    ensures { IsTrue result ↔ AreInOrder post.now placement.now }
{
    let mut floor = 0;
    for placed in placement.as_slice() {
        let place = place_in(post, placed.section.as_slice());
        if place < floor {
            return false;
        }
        floor = place + 1;
    }
    true
}

/// How many of the placed sections stand before a place in the object.
fn begun(post: &Normal<'_>, placement: &[Placed], place: usize) -> usize
    requires { AreInOrder post.now placement.now }
    ensures bound { result ≤ length placement.now }
    ensures point { IsPartitionPoint (λ placed. is_before post.now place placed ≡ true)
        (λ placed. is_before post.now place placed ≡ false) placement.now result }
{
    placement.partition_point(|placed| place_in(post, placed.section.as_slice()) < place)
}

/// Where the section of a name was placed. Where all sections of the object were placed it stands at its own index among
/// them, which is looked at first; otherwise it is found by halving.
pub(crate) fn base_in(post: &Normal<'_>, placement: &[Placed], name: &[u8]) -> Option<u32>
    requires { AreInOrder post.now placement.now }
    ensures { result ≡ base_in placement.now name.now }
{
    let place = place_in(post, name);
    if let Some(placed) = placement.get(place) {
        if placed.section.as_slice() == name {
            return Some(placed.base);
        }
    }
    halved(post, placement, name, place)
}

/// The same by halving, from the section's place in the object.
fn halved(post: &Normal<'_>, placement: &[Placed], name: &[u8], place: usize) -> Option<u32>
    requires order { AreInOrder post.now placement.now }
    requires place { place ≡ place_in post.now name.now }
    ensures { result ≡ base_in placement.now name.now }
{
    let begun = begun(post, placement, place);
    if begun == placement.len() {
        return None;
    }
    let placed = &placement[begun];
    if placed.section.as_slice() == name {
        Some(placed.base)
    } else {
        None
    }
}

/// What an unknown came to, `None` exactly where the values say nothing of it.
pub fn solved_as(values: &Values, which: &Unknown) -> Option<Solved>
    ensures { result ≡ solved_as values.now.entries which.now }
{
    values.get(which).copied()
}

/// The address that stands for an unknown: of a function its home.
pub fn value_in(values: &Values, which: &Unknown) -> Option<u32>
    ensures { result ≡ value_in values.now.entries which.now }
{
    match solved_as(values, which)? {
        Solved::Body { home, .. } => Some(home),
        Solved::Address(address) => Some(address),
    }
}
