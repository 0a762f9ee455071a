//! What stands at the places of linked objects.
ghost use Rattle.linked_places.specs.Held.{PlacesHoldSections};

use i386_reloc::sections_are_whole;

/// Each section of each object that was linked stands at its place in the image: its bytes in memory of its kind, as
/// code that is fetched from there, those outside the fields of its references as they are in the object, and in each
/// field the value of its reference.
pub fn places_hold_sections()
    ensures { PlacesHoldSections }
{
    // Nothing is done here: the law says that each section has its bytes.
    sections_are_whole();
}
