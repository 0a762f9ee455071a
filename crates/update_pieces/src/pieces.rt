//! The pieces of memory that an update adds.
ghost use Rattle.std.specs.Prelude.{◌≡◌, IfOk};
ghost use Rattle.link_post.specs.Linked.{AreInOrder};
ghost use Rattle.update_pieces.specs.Pieces.{new_piece, new_pieces};

use crate::parts::{Part, PlacedPart, at_places};
use i386_reloc::Normal;
use image_memory::{Piece, Pieces};
use ks_base::Name;
use link_post::{Placement, kind_of_class, linked};
use std::alloc::{AllocError, Global};
use symbol_table::Values;

/// The pieces of an update, one for each section that it places, in their order: at the section's place its linked
/// bytes, which are zeros of a section of zeros. Functions become code, data that the program may change writable, and
/// texts and other data read-only. Places are given in the order of the sections, as [`place`](link_post::place) does.
/// `Err` comes only if memory runs out.
pub fn new_pieces(
    alloc: Global,
    post: &Normal<'_>,
    parts: &[Part<'_, '_>],
    placement: &Placement,
    values: &Values,
) -> Result<Pieces, AllocError>
    requires { AreInOrder post.now placement.now }
    ensures { IfOk result (λ pieces. pieces ≡ new_pieces post.now parts.now placement.now values.now.entries) }
{
    let placed = at_places(alloc, parts, placement)?;
    let mut pieces = Pieces::new(alloc);
    for part in &placed {
        pieces.push(new_piece(alloc, post, part, placement, values)?)?;
    }
    Ok(pieces)
}

fn new_piece(
    alloc: Global,
    post: &Normal<'_>,
    part: &PlacedPart<'_, '_>,
    placement: &Placement,
    values: &Values,
) -> Result<Piece, AllocError>
    requires { AreInOrder post.now placement.now }
    ensures { IfOk result (λ piece. piece ≡ new_piece post.now placement.now values.now.entries part.now) }
{
    let section = part.section();
    let name = Name::from_slice(alloc, section.name.as_slice())?;
    let bytes = linked(alloc, post, &name, placement, values)?;
    Ok(Piece {
        kind: kind_of_class(section.class),
        base: part.base(),
        bytes,
    })
}
