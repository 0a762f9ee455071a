//! Checks the relocations of loaded sections.

ghost use Rattle.std.specs.Prelude.{◌≡◌, ◌+◌, ◌*◌, ◌≤◌, ◌<◌, not, true, false, suc, length, None, OnOk, IfOk};
ghost use Rattle.elf32_object.specs.Below.{first_below};
ghost use Rattle.elf32_object.specs.Fields.{section_count, section_header, symbol_count, entry_count, relocation};
ghost use Rattle.elf32_object.specs.Rules.{has_field, is_met_before, is_placed};
ghost use Rattle.elf32_object.specs.Rules.{relocation_fault, relocations_fault, section_fault};
ghost use Rattle.elf32_object.specs.Rule.{Finds};
ghost use Rattle.elf32_object.specs.inside.Taken.{field_key, AreTaken, IsFree, IsMet};
ghost use Rattle.elf32_object.specs.inside.Held.{AreHeld, IsPatch};

use crate::elf::{REL_SIZE, SHT_NOBITS};
use crate::layout::Layout;
use crate::reading::entry_at;
use crate::types::{ObjectFault, Reloc, SectionHeader};
use std::alloc::{AllocError, Global};
use std::collections::BTreeSet;

/// The fields that earlier entries change. As long as each begins where the one before has ended or above, as compilers
/// write them, where the last has ended; then all of them.
#[derive(Drop)]
struct Taken {
    rising: bool,
    end: u64,
    fields: BTreeSet<u64>,
}

/// A section with relocations of a loaded section, its header and that of the loaded section, which are read once for all
/// entries.
#[derive(Clone, Copy)]
struct Patch {
    index: u32,
    header: SectionHeader,
    target: SectionHeader,
}

impl Patch {
    /// The section of an index, which has an entry.
    fn new(layout: &Layout<'_>, i: u32) -> Patch
        requires within { i < layout.now.count }
        requires entry { 0 < entry_count layout.now.bytes.now i }
        ensures index { result.index ≡ i }
        ensures patch { IsPatch layout.now.bytes.now result }
    {
        let header = layout.header(i);
        Patch {
            index: i,
            header,
            target: layout.header(header.info),
        }
    }

    /// One of its entries.
    #[tactic(auto, unfolding(crate::specs::Fields::relocation))]
    fn entry(&self, layout: &Layout<'_>, k: u32) -> Reloc
        requires patch { IsPatch layout.now.bytes.now self.now }
        requires sections { first_below (section_fault layout.now.bytes.now) (section_count layout.now.bytes.now) ≡ None }
        requires entry { k < entry_count layout.now.bytes.now self.now.index }
        ensures { result ≡ relocation layout.now.bytes.now self.now.index k }
    {
        entry_at(
            layout.bytes,
            self.header.offset as usize + REL_SIZE as usize * k as usize,
            self.index,
            k,
        )
    }
}

/// A field of a section as a number.
fn field_key(section: u32, offset: u32) -> u64
    ensures { result ≡ field_key section offset }
{
    u64::from(section) * 0x1_0000_0000 + u64::from(offset)
}

/// Whether the four bytes at an offset of a section share none with a field of the set.
fn is_free(fields: &BTreeSet<u64>, section: u32, offset: u32) -> bool
    requires { section ≤ 4096 }
    ensures free { result ≡ true → IsFree fields.now section offset }
    ensures taken { result ≡ false → IsMet fields.now section offset }
{
    let first = field_key(section, offset.saturating_sub(3));
    match fields.range(first..).next() {
        Some(next) => *next >= field_key(section, offset) + 4,
        None => true,
    }
}

/// Whether the four bytes at an offset of a section are apart from the fields that earlier entries change. The set has
/// those fields, and only it is read: the file, and the place of the entry, are there for the contract.
fn is_apart(
    layout: &Layout<'_>,
    fields: &BTreeSet<u64>,
    section: u32,
    offset: u32,
    i: u32,
    k: u32,
) -> bool
    requires within { section ≤ 4096 }
    requires small { offset + 4 ≤ 4294967296 }
    requires taken { AreTaken layout.now.bytes.now i k fields.now }
    ensures { result ≡ not (is_met_before layout.now.bytes.now section offset i k) }
{
    is_free(fields, section, offset)
}

/// Adds the field that an entry changes, if it changes one, to those of the earlier entries.
fn add_field(
    layout: &Layout<'_>,
    fields: &mut BTreeSet<u64>,
    i: u32,
    k: u32,
) -> Result<(), AllocError>
    requires within { i < layout.now.count }
    requires in_file { (section_header layout.now.bytes.now i).offset + REL_SIZE * (k + 1)
        ≤ length layout.now.bytes.now }
    requires taken { AreTaken layout.now.bytes.now i k fields.old }
    ensures { OnOk result (AreTaken layout.now.bytes.now i (suc k) fields.new) }
{
    let reloc = layout.entry(i, k);
    if !reloc.has_field() {
        return Ok(());
    }
    fields.insert(field_key(layout.header(i).info, reloc.offset))?;
    Ok(())
}

/// Adds the fields that the first `count` entries of a section change.
fn add_fields(
    layout: &Layout<'_>,
    fields: &mut BTreeSet<u64>,
    i: u32,
    count: u32,
) -> Result<(), AllocError>
    requires within { i < layout.now.count }
    requires sections { first_below (section_fault layout.now.bytes.now) (section_count layout.now.bytes.now) ≡ None }
    requires count { count ≤ entry_count layout.now.bytes.now i }
    requires taken { AreTaken layout.now.bytes.now i 0 fields.old }
    ensures { OnOk result (AreTaken layout.now.bytes.now i count fields.new) }
{
    for k in 0..count {
        add_field(layout, fields, i, k)?;
    }
    Ok(())
}

/// The fields that the entries before one change.
fn fields_before(
    alloc: Global,
    layout: &Layout<'_>,
    i: u32,
    k: u32,
) -> Result<BTreeSet<u64>, AllocError>
    requires within { i < layout.now.count }
    requires sections { first_below (section_fault layout.now.bytes.now) (section_count layout.now.bytes.now) ≡ None }
    requires entry { k ≤ entry_count layout.now.bytes.now i }
    ensures { IfOk result (λ fields. AreTaken layout.now.bytes.now i k fields) }
{
    let mut fields = BTreeSet::new(alloc);
    for j in 0..i {
        add_fields(layout, &mut fields, j, layout.entry_count(j))?;
    }
    add_fields(layout, &mut fields, i, k)?;
    Ok(fields)
}

/// Lists all fields, where they weren't listed before.
fn list(
    alloc: Global,
    layout: &Layout<'_>,
    taken: &mut Taken,
    i: u32,
    k: u32,
) -> Result<(), AllocError>
    requires within { i < layout.now.count }
    requires sections { first_below (section_fault layout.now.bytes.now) (section_count layout.now.bytes.now) ≡ None }
    requires entry { k < entry_count layout.now.bytes.now i }
    requires taken { AreHeld layout.now.bytes.now i k taken.old }
    ensures listed { OnOk result (taken.new.rising ≡ false) }
    ensures fields { OnOk result (AreTaken layout.now.bytes.now i k taken.new.fields) }
{
    if taken.rising {
        taken.fields = fields_before(alloc, layout, i, k)?;
        taken.rising = false;
    }
    Ok(())
}

/// Whether the field of an entry is apart from those of earlier entries, to which it is added then.
fn take(
    alloc: Global,
    layout: &Layout<'_>,
    taken: &mut Taken,
    target: u32,
    reloc: Reloc,
    i: u32,
    k: u32,
) -> Result<bool, AllocError>
    requires within { i < layout.now.count }
    requires sections { first_below (section_fault layout.now.bytes.now) (section_count layout.now.bytes.now) ≡ None }
    requires entry { k < entry_count layout.now.bytes.now i }
    requires target { target ≡ (section_header layout.now.bytes.now i).info }
    requires few { target ≤ 4096 }
    requires reloc { reloc ≡ relocation layout.now.bytes.now i k }
    requires field { has_field reloc ≡ true }
    requires small { reloc.offset + 4 ≤ 4294967296 }
    requires taken { AreHeld layout.now.bytes.now i k taken.old }
    ensures apart { IfOk result (λ apart. apart
        ≡ not (is_met_before layout.now.bytes.now target reloc.offset i k)) }
    ensures taken { IfOk result (λ apart. apart ≡ true → AreHeld layout.now.bytes.now i (suc k) taken.new) }
{
    let key = field_key(target, reloc.offset);
    if taken.rising && key >= taken.end {
        taken.end = key + 4;
        return Ok(true);
    }
    list(alloc, layout, taken, i, k)?;
    if !is_apart(layout, &taken.fields, target, reloc.offset, i, k) {
        return Ok(false);
    }
    taken.fields.insert(key)?;
    Ok(true)
}

/// Whether an entry's field lies in its section, which has this size, and apart from the fields of earlier entries, to
/// which it is added then; an entry without a field has to begin in its section.
#[tactic(auto, unfolding(crate::specs::Rules::is_placed))]
fn place(
    alloc: Global,
    layout: &Layout<'_>,
    taken: &mut Taken,
    patch: &Patch,
    reloc: Reloc,
    k: u32,
) -> Result<bool, AllocError>
    requires sections { first_below (section_fault layout.now.bytes.now) (section_count layout.now.bytes.now) ≡ None }
    requires patch { IsPatch layout.now.bytes.now patch.now }
    requires entry { k < entry_count layout.now.bytes.now patch.now.index }
    requires reloc { reloc ≡ relocation layout.now.bytes.now patch.now.index k }
    requires taken { AreHeld layout.now.bytes.now patch.now.index k taken.old }
    ensures placed { IfOk result (λ placed. placed ≡ is_placed layout.now.bytes.now patch.now.index k) }
    ensures taken { IfOk result (λ placed. placed ≡ true
        → AreHeld layout.now.bytes.now patch.now.index (suc k) taken.new) }
{
    let size = patch.target.size;
    if !reloc.has_field() {
        return Ok(reloc.offset < size);
    }
    if u64::from(reloc.offset) + 4 > u64::from(size) {
        return Ok(false);
    }
    take(
        alloc,
        layout,
        taken,
        patch.header.info,
        reloc,
        patch.index,
        k,
    )
}

/// Checks an entry of a relocation section of a loaded section, and adds its field to those of the earlier entries.
#[tactic(auto, unfolding(crate::specs::Rules::relocation_fault))]
fn check_relocation(
    alloc: Global,
    layout: &Layout<'_>,
    symbols: u32,
    taken: &mut Taken,
    patch: &Patch,
    k: u32,
) -> Result<(), ObjectFault>
    requires sections { first_below (section_fault layout.now.bytes.now) (section_count layout.now.bytes.now) ≡ None }
    requires symbols { symbols ≡ symbol_count layout.now.bytes.now }
    requires patch { IsPatch layout.now.bytes.now patch.now }
    requires entry { k < entry_count layout.now.bytes.now patch.now.index }
    requires taken { AreHeld layout.now.bytes.now patch.now.index k taken.old }
    ensures finds { Finds ObjectFault.Memory result (relocation_fault layout.now.bytes.now patch.now.index k) }
    ensures taken { OnOk result (AreHeld layout.now.bytes.now patch.now.index (suc k) taken.new) }
{
    let reloc = patch.entry(layout, k);
    if reloc.symbol >= symbols || patch.target.kind == SHT_NOBITS {
        return Err(ObjectFault::BadReloc(patch.index, k));
    }
    if !place(alloc, layout, taken, patch, reloc, k)? {
        return Err(ObjectFault::BadReloc(patch.index, k));
    }
    Ok(())
}

/// Checks the entries of a section, where it is a relocation section of a loaded section.
#[tactic(auto, unfolding(crate::specs::Rules::relocations_fault))]
fn check_entries(
    alloc: Global,
    layout: &Layout<'_>,
    symbols: u32,
    taken: &mut Taken,
    i: u32,
) -> Result<(), ObjectFault>
    requires within { i < layout.now.count }
    requires sections { first_below (section_fault layout.now.bytes.now) (section_count layout.now.bytes.now) ≡ None }
    requires symbols { symbols ≡ symbol_count layout.now.bytes.now }
    requires taken { AreHeld layout.now.bytes.now i 0 taken.old }
    ensures finds { Finds ObjectFault.Memory result (relocations_fault layout.now.bytes.now i) }
    ensures taken { OnOk result (AreHeld layout.now.bytes.now (suc i) 0 taken.new) }
{
    let count = layout.entry_count(i);
    if count == 0 {
        return Ok(());
    }
    let patch = Patch::new(layout, i);
    for k in 0..count {
        check_relocation(alloc, layout, symbols, taken, &patch, k)?;
    }
    Ok(())
}

/// Checks the relocations, in the order of their sections and entries.
pub(crate) fn check_relocations(
    alloc: Global,
    layout: &Layout<'_>,
    symbols: u32,
) -> Result<(), ObjectFault>
    requires sections { first_below (section_fault layout.now.bytes.now) (section_count layout.now.bytes.now) ≡ None }
    requires symbols { symbols ≡ symbol_count layout.now.bytes.now }
    ensures { Finds ObjectFault.Memory result
        (first_below (relocations_fault layout.now.bytes.now) (section_count layout.now.bytes.now)) }
{
    let mut taken = Taken {
        rising: true,
        end: 0,
        fields: BTreeSet::new(alloc),
    };
    for i in 0..layout.count {
        check_entries(alloc, layout, symbols, &mut taken, i)?;
    }
    Ok(())
}
