//! Which loaded section has which name.
ghost use Rattle.std.specs.Prelude.{◌≡◌, ◌<◌, ℕ, ◌+◌, if◌then◌else◌, List, Some, is_some, IfOk, OnOk};
ghost use Rattle.std.specs.BTreeMap.{btree_map_len};
ghost use Rattle.elf32_object.specs.Fields.{section_count};
ghost use Rattle.elf32_object.specs.Rule.{Finds};
ghost use Rattle.i386_reloc.specs.Normal.{same_bytes, loaded_below, loaded_sections};
ghost use Rattle.i386_reloc.specs.inside.NamePlaces.{HasPlaces, named};
ghost use Rattle.i386_reloc.specs.Refused.{refused_where, name_fault, name_fault_at};

use crate::loaded::loaded_section;
use elf32_object::Object;
use ks_base::{Name, Refusal};
use std::alloc::Global;
use std::collections::BTreeMap;

/// The place of each loaded section's name among the loaded sections. Refuses a name that an earlier loaded section
/// has.
#[tactic(auto, using(crate::proofs::Firsts::first_below_more), unfolding(crate::specs::Refused::name_fault, crate::specs::Normal::loaded_sections))]
pub(crate) fn places<'a>(
    alloc: Global,
    object: &Object<'a>,
) -> Result<BTreeMap<&'a [u8], usize>, Refusal>
    ensures finds { Finds Refusal.Memory result (name_fault object.now) }
    ensures places { IfOk result (λ places. HasPlaces (loaded_sections object.now) places) }
{
    let mut places = BTreeMap::new(alloc);
    for i in 0..object.section_count() {
        place_section(alloc, &mut places, object, i)?;
    }
    Ok(places)
}

/// Gives the name of section `i` its place, if the section is loaded.
#[tactic(auto, using(crate::proofs::PlacedNames::name_fault_read, crate::proofs::Faults::name_fault_unloaded, crate::proofs::PlacedNames::has_places_read, crate::proofs::PlacedNames::has_places_unloaded))]
fn place_section<'a>(
    alloc: Global,
    places: &mut BTreeMap<&'a [u8], usize>,
    object: &Object<'a>,
    i: u32,
) -> Result<(), Refusal>
    requires within { i < section_count object.now }
    requires before { HasPlaces (loaded_below object.now i) places.old }
    ensures finds { Finds Refusal.Memory result (name_fault_at object.now i) }
    ensures places { OnOk result (HasPlaces (loaded_below object.now (i + 1)) places.new) }
{
    match loaded_section(object, i) {
        Some(section) => place(alloc, places, section.name),
        None => Ok(()),
    }
}

/// Gives a name the place after the others. Refuses one that has a place.
#[tactic(auto, using(crate::proofs::Places::equal_keys))]
fn place<'a>(
    alloc: Global,
    places: &mut BTreeMap<&'a [u8], usize>,
    name: &'a [u8],
) -> Result<(), Refusal>
    ensures finds { Finds Refusal.Memory result
        (refused_where (is_some (named places.old name.now)) (Refusal.DoubleName name.now)) }
    ensures len { OnOk result (btree_map_len places.new ≡ btree_map_len places.old + 1) }
    ensures placed { OnOk result ((q : List ℕ) → named places.new q
        ≡ (if same_bytes name.now q then Some (btree_map_len places.old) else named places.old q)) }
{
    if places.contains_key(name) {
        return Err(Refusal::DoubleName(Name::from_slice(alloc, name)?));
    }
    let last = places.len();
    match places.insert(name, last) {
        Ok(_) => Ok(()),
        Err(_) => Err(Refusal::Memory),
    }
}
