//! What holds of all new pieces, and of all reports.
ghost use Rattle.std.specs.Prelude.{◌≡◌, ℕ, List, map, Ok};
ghost use Rattle.std.specs.List.{All};
ghost use Rattle.ks_base.specs.declared.places.Range.{Range};
ghost use Rattle.i386_reloc.specs.declared.types.NormalSection.{NormalSection};
ghost use Rattle.image_memory.specs.Ranges.{Ascends};
ghost use Rattle.link_post.specs.declared.types.Placed.{Placed};
ghost use Rattle.link_post.specs.Linked.{AreInOrder};
ghost use Rattle.link_post.specs.Places.{placed};
ghost use Rattle.link_post.specs.Values.{ValueList};
ghost use Rattle.update_retired.specs.declared.types.OldFunction.{OldFunction};
ghost use Rattle.update_pieces.specs.Parts.{NewPart, at_places, size_of};
ghost use Rattle.update_pieces.specs.Pieces.{new_pieces};
ghost use Rattle.update_pieces.specs.Reports.{report_of};
ghost use Rattle.update_pieces.specs.Apart.{ArePartsOf, AreNewPieces, AreFound};
ghost use Rattle.update_pieces.specs.NewText.{HasNewText};

use link_post::places_lie_apart;

/// The pieces of whole sections of an object at the places that [`place`](link_post::place) gives: one for each
/// section, with the section's size and the kind of its class. Each has all its bytes, of which there are some, in one
/// of the gaps, and no two share an address.
pub fn new_pieces_lie_apart()
    ensures { (post : List NormalSection) (parts : List NewPart) (gaps : List Range) (placement : List Placed)
        (values : ValueList) → Ascends (λ range. range) 0 gaps → ArePartsOf post parts
        → placed (map size_of parts) gaps ≡ Ok placement
        → AreNewPieces gaps parts placement (new_pieces post parts placement values) }
{
    // Nothing is done here: the law says that places lie in gaps, and no two of them meet.
    places_lie_apart();
}

/// The bytes of a piece are linked for the piece's own address: at the places that [`place`](link_post::place) gives,
/// the name of each section leads to its place.
pub fn places_are_found()
    ensures { (post : List NormalSection) (parts : List NewPart) (gaps : List Range) (placement : List Placed)
        → Ascends (λ range. range) 0 gaps → placed (map size_of parts) gaps ≡ Ok placement
        → AreInOrder post placement → AreFound placement (at_places parts placement) }
{
    // Nothing is done here: the law says that each section has its place.
    places_lie_apart();
}

/// Each function that a report says is replaced is an old one, and goes on where a changed section of its name is
/// placed: a piece of the update begins there, with the section's linked bytes.
pub fn replaced_functions_have_new_text()
    ensures { (post : List NormalSection) (parts : List NewPart) (placement : List Placed) (values : ValueList)
        (olds : List OldFunction) → All (HasNewText post parts placement values olds)
        (report_of parts placement olds).replaced }
{}
