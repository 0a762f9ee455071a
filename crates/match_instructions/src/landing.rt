//! Where the code of a section can't be matched, and the offsets of a section that references name.
ghost use Rattle.std.specs.Prelude.{◌≡◌, ◌==◌, List};
ghost use Rattle.i386_reloc.specs.declared.types.NormalSection.{NormalSection};
ghost use Rattle.i386_reloc.specs.Normal.{HasFieldsInOrder};
ghost use Rattle.match_instructions.specs.Instructions.{Instruction};
ghost use Rattle.match_instructions.specs.PreCode.{pre_code};
ghost use Rattle.match_instructions.specs.Landing.{is_landing, broken_offsets, goes_astray, astray_offsets};
ghost use Rattle.match_instructions.specs.Landing.{unmet_offsets, empty_offsets, offsets_named, undecoded_offset};
ghost use Rattle.match_instructions.specs.Landing.{interior_offset};
ghost use Rattle.match_instructions.specs.inside.Least.{least};
ghost use Rattle.match_instructions.specs.Places.{places_of};
ghost use Rattle.match_instructions.specs.PreLists.{IsListOf};

use crate::instructions::{PreInstruction, pre_instruction_at};
use crate::least::{lesser, noted};
use crate::places::Places;
use crate::pre_code::{PreList, instructions_lie_within};
use i386_reloc::{FIELD_LENGTH, Form, NormalSection, Ref};

/// Whether an instruction begins at an offset, with a kept one at or after it.
#[tactic(auto, using(crate::specs::laws::PlaceLaws::stands_for_by))]
fn is_landing(places: &Places, offset: u32) -> bool
    ensures { (code : List Instruction) → places.now ≡ places_of code → result ≡ is_landing code offset }
{
    places.number_of(offset).is_some()
}

/// Whether an instruction is a direct branch that has no reference and doesn't go to a landing offset.
fn goes_astray(places: &Places, instruction: &PreInstruction<'_, '_>) -> bool
    ensures { (code : List Instruction) → places.now ≡ places_of code → result ≡ goes_astray code instruction.now }
{
    instruction.branch().is_some()
        && instruction.references().is_empty()
        && !is_landing(places, instruction.target())
}

/// The first such branch.
fn astray_offset(section: &NormalSection<'_>, places: &Places) -> Option<u32>
    requires order { HasFieldsInOrder section.now }
    requires places { places.now ≡ places_of (pre_code section.now) }
    ensures { result ≡ least (astray_offsets (pre_code section.now)) }
{
    // Nothing is done here: the law says that the loop ends.
    instructions_lie_within();
    let mut first = None;
    let mut offset = 0;
    while let Some(instruction) = pre_instruction_at(section, offset) {
        first = noted(goes_astray(places, &instruction), offset, first);
        offset = instruction.after();
    }
    first
}

/// The least of some offsets that isn't a landing offset.
fn unmet_offset(places: &Places, named: &[u32]) -> Option<u32>
    ensures { (code : List Instruction) → places.now ≡ places_of code → result ≡ least (unmet_offsets code named.now) }
{
    let mut first = None;
    for offset in named {
        first = noted(!is_landing(places, *offset), *offset, first);
    }
    first
}

/// The section's end, where decoding breaks off before it.
fn broken_offset(end: u32, size: u32) -> Option<u32>
    ensures { result ≡ least (broken_offsets end size) }
{
    if end < size { Some(end) } else { None }
}

/// The section's size, where no instruction is kept.
fn empty_offset(places: &Places, size: u32) -> Option<u32>
    ensures { (code : List Instruction) → places.now ≡ places_of code → result ≡ least (empty_offsets code size) }
{
    if places.kept_count() == 0 {
        Some(size)
    } else {
        None
    }
}

/// The least offset at which the code of a section can't be matched, `None` where it can be, from the list of its
/// instructions and the offsets in it that references name: where decoding breaks off, a field where none may stand, a
/// branch or a reference to an offset that isn't a landing offset, or the end where nothing is kept.
pub fn undecoded_offset(section: &NormalSection<'_>, list: &PreList, named: &[u32]) -> Option<u32>
    requires order { HasFieldsInOrder section.now }
    requires list { IsListOf section.now list.now }
    ensures { (object : List NormalSection) → named.now ≡ offsets_named object section.now.name
        → result ≡ undecoded_offset object section.now }
{
    let mut first = broken_offset(list.end, section.size);
    first = lesser(first, list.misplaced);
    first = lesser(first, astray_offset(section, &list.places));
    first = lesser(first, unmet_offset(&list.places, named));
    lesser(first, empty_offset(&list.places, section.size))
}

/// The offset in a code section that an interior reference names: its addend, counted from the field's end where it is
/// relative.
pub fn interior_offset(r: &Ref<'_>) -> u32
    ensures { result ≡ interior_offset r.now }
{
    match r.form {
        Form::Absolute => r.addend,
        Form::Relative => r.addend.wrapping_add(FIELD_LENGTH),
    }
}
