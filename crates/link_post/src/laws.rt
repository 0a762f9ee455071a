//! What holds of all places and values.
ghost use Rattle.std.specs.Prelude.{◌≡◌, ℕ, List, map, IsSome, Some, None, Ok, Err};
ghost use Rattle.ks_base.specs.declared.places.Range.{Range};
ghost use Rattle.ks_base.specs.declared.refusals.Refusal.{Refusal};
ghost use Rattle.image_memory.specs.Ranges.{Ascends};
ghost use Rattle.link_post.specs.declared.types.Placed.{Placed};
ghost use Rattle.link_post.specs.declared.types.SectionSize.{SectionSize};
ghost use Rattle.i386_reloc.specs.declared.types.NormalSection.{NormalSection};
ghost use Rattle.i386_reloc.specs.declared.types.Ref.{Ref};
ghost use Rattle.i386_reloc.specs.declared.types.Target.{Target};
ghost use Rattle.symbol_table.specs.declared.symbols.Symbol.{Symbol};
ghost use Rattle.link_post.specs.Places.{name_of, lowest, placed, ArePlaces, IsLowest, FitsNowhere, ArePlacedLow};
ghost use Rattle.link_post.specs.Places.{FindsNoRoom};
ghost use Rattle.link_post.specs.Values.{ValueList, needed_by, resolved, Tell, AreFound};
ghost use Rattle.link_post.specs.Linked.{AreNamesInOrder, AreInOrder, target_address};

/// The places that [`place`](crate::place) gives: each section lies at a multiple of 16 and of its alignment, with
/// all its bytes in one of the gaps, and no two sections share an address.
pub fn places_lie_apart()
    ensures { (sizes : List SectionSize) (gaps : List Range) (places : List Placed) → Ascends (λ range. range) 0 gaps
        → placed sizes gaps ≡ Ok places → ArePlaces gaps sizes places }
{}

/// Where the names of the sections stand in the order of an object, so do their places: what
/// [`linked`](crate::linked) asks for.
pub fn places_keep_the_order()
    ensures { (post : List NormalSection) (sizes : List SectionSize) (gaps : List Range) (places : List Placed)
        → Ascends (λ range. range) 0 gaps → placed sizes gaps ≡ Ok places → AreNamesInOrder post (map name_of sizes)
        → AreInOrder post places }
{}

/// The address that is chosen for a section is the lowest multiple of its boundary from which all its bytes lie in one
/// of the free ranges, and where none is chosen there is none. So each place that [`place`](crate::place) gives is the
/// lowest in what those before it leave, and the section of whose size its refusal tells fits nowhere in what those
/// before it leave.
pub fn places_are_lowest()
    ensures some { (section : SectionSize) (free : List Range) (base : ℕ) → lowest section free ≡ Some base
        → IsLowest free section base }
    ensures none { (section : SectionSize) (free : List Range) → lowest section free ≡ None
        → FitsNowhere free section }
    ensures places { (sections : List SectionSize) (free : List Range) (places : List Placed)
        → placed sections free ≡ Ok places → ArePlacedLow free sections places }
    ensures refused { (sections : List SectionSize) (free : List Range) (refusal : Refusal)
        → placed sections free ≡ Err refusal → FindsNoRoom free sections refusal }
{}

/// The values that [`resolve_post`](crate::resolve_post) gives: those that were there, unchanged, and one for each
/// name that the object doesn't define and each kept section of data to which a reference of the sections goes.
pub fn values_are_found()
    ensures { (pre post : List NormalSection) (symbols : List Symbol) (sections : List (List ℕ))
        (earlier found : ValueList) → resolved pre post symbols sections earlier ≡ Ok found
        → AreFound pre post sections earlier found }
{}

/// Where values give what a reference needs, its target has an address in [`linked`](crate::linked). Nothing is said of
/// a reference that needs no value.
pub fn needed_targets_have_addresses()
    ensures { (pre post : List NormalSection) (placement : List Placed) (values : ValueList) (r : Ref) (target : Target)
        → IsSome (needed_by pre post target) → Tell values (needed_by pre post target)
        → IsSome (target_address post placement values r target) }
{}
