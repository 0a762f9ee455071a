//! Checks the sections of a file whose header is in order.

ghost use Rattle.std.specs.Prelude.{◌≡◌, ◌≤◌, ◌<◌, ◌&&◌, ◌||◌, ◌==◌, suc, IfOk};
ghost use Rattle.elf32_object.specs.Below.{sum_below, count_below, first_below};
ghost use Rattle.elf32_object.specs.Fields.{section_count, section_header, has_no_bytes, lies_in_file, is_section};
ghost use Rattle.elf32_object.specs.Fields.{is_symbol_table, is_string_table, patches_loaded, entry_count};
ghost use Rattle.elf32_object.specs.Rules.{only_where, is_alignment, can_be_loaded, place_fault, symbol_table_fault};
ghost use Rattle.elf32_object.specs.Rules.{relocation_section_fault, loaded_size, content_fault, section_fault};
ghost use Rattle.elf32_object.specs.inside.Kept.{AreTotals};
ghost use Rattle.elf32_object.specs.Rule.{Finds};

use crate::elf::{REL_SIZE, SHF_COMPRESSED, SHF_TLS, SHT_RELA, SHT_SYMTAB, SYM_SIZE};
use crate::layout::{Layout, has_flag, has_no_bytes, is_string_table, lies_in_file};
use crate::strings::is_name;
use crate::types::{Large, ObjectFault, SectionHeader};

/// How many entries a symbol table may have.
const MOST_SYMBOLS: u32 = 65_536;

/// How many relocations of loaded sections a file may have.
const MOST_RELOCATIONS: u32 = 262_144;

/// How many bytes the loaded sections of a file may have in all.
const MOST_CONTENT: u64 = 8_388_608;

/// Whether a number is 0 or a power of two up to 4,096.
fn is_alignment(n: u32) -> bool
    ensures { result ≡ is_alignment n }
{
    matches!(
        n,
        0 | 1 | 2 | 4 | 8 | 16 | 32 | 64 | 128 | 256 | 512 | 1024 | 2048 | 4096
    )
}

/// Whether a loaded section may have this header.
fn can_be_loaded(header: SectionHeader) -> bool
    ensures { result ≡ can_be_loaded header }
{
    is_alignment(header.align)
        && !has_flag(header.flags, SHF_TLS)
        && !has_flag(header.flags, SHF_COMPRESSED)
}

/// Whether a section has no bytes in the file, or its bytes lie there.
fn has_its_bytes(bytes: &[u8], header: SectionHeader) -> bool
    ensures { result ≡ (has_no_bytes header || lies_in_file bytes.now header) }
{
    has_no_bytes(header) || lies_in_file(bytes, header)
}

/// Checks a section's name, its place in the file, and what a loaded one may be.
#[tactic(auto, unfolding(crate::specs::Rules::place_fault, crate::specs::Fields::section_name), using(crate::proofs::Zeros::ends_within))]
fn check_place(layout: &Layout<'_>, i: u32) -> Result<(), ObjectFault>
    requires { i < layout.now.count }
    ensures { Finds ObjectFault.Memory result (place_fault layout.now.bytes.now i) }
{
    let header = layout.header(i);
    if !layout.names.has_end(header.name) {
        return Err(ObjectFault::BadSection(i));
    }
    if !is_name(layout.names.bytes, header.name) {
        return Err(ObjectFault::TooLarge(Large::Name));
    }
    if !has_its_bytes(layout.bytes, header) {
        return Err(ObjectFault::BadSection(i));
    }
    if layout.is_loaded(i) && !can_be_loaded(header) {
        return Err(ObjectFault::BadSection(i));
    }
    Ok(())
}

/// Whether a section's link names a string table in the file.
fn links_to_strings(layout: &Layout<'_>, i: u32) -> bool
    requires { i < layout.now.count }
    ensures { result ≡ (is_section layout.now.bytes.now (section_header layout.now.bytes.now i).link
        && is_string_table layout.now.bytes.now
        (section_header layout.now.bytes.now (section_header layout.now.bytes.now i).link)) }
{
    let link = layout.header(i).link;
    layout.is_section(link) && is_string_table(layout.bytes, layout.header(link))
}

/// Checks a symbol table, where the section is one and the file has this number of them.
#[tactic(auto, unfolding(crate::specs::Rules::symbol_table_fault))]
fn check_symbol_table(layout: &Layout<'_>, tables: u32, i: u32) -> Result<(), ObjectFault>
    requires within { i < layout.now.count }
    requires tables { tables ≡ count_below (is_symbol_table layout.now.bytes.now) (section_count layout.now.bytes.now) }
    ensures { Finds ObjectFault.Memory result
        (only_where ((section_header layout.now.bytes.now i).kind == SHT_SYMTAB)
        (symbol_table_fault layout.now.bytes.now i)) }
{
    let header = layout.header(i);
    if header.kind != SHT_SYMTAB {
        return Ok(());
    }
    if tables != 1
        || header.entry != SYM_SIZE
        || header.size % SYM_SIZE != 0
        || !links_to_strings(layout, i)
    {
        return Err(ObjectFault::BadSection(i));
    }
    if header.size / SYM_SIZE > MOST_SYMBOLS {
        return Err(ObjectFault::TooLarge(Large::Symbols));
    }
    Ok(())
}

/// Checks a relocation section of a loaded section, where the section is one. `total` is the number of such relocations
/// in earlier sections, and the answer adds this section's.
#[tactic(auto, unfolding(crate::specs::Rules::relocation_section_fault, crate::specs::Fields::entry_count))]
fn check_relocation_section(layout: &Layout<'_>, total: u32, i: u32) -> Result<u32, ObjectFault>
    requires within { i < layout.now.count }
    requires total { total ≡ sum_below (entry_count layout.now.bytes.now) i }
    requires few { total ≤ 262144 }
    ensures finds { Finds ObjectFault.Memory result
        (only_where (patches_loaded layout.now.bytes.now i) (relocation_section_fault layout.now.bytes.now i)) }
    ensures total { IfOk result (λ t. t ≡ sum_below (entry_count layout.now.bytes.now) (suc i)) }
    ensures few { IfOk result (λ t. t ≤ 262144) }
{
    if !layout.patches_loaded(i) {
        return Ok(total);
    }
    let header = layout.header(i);
    if header.entry != REL_SIZE
        || header.size % REL_SIZE != 0
        || !layout.is_symbol_table(header.link)
    {
        return Err(ObjectFault::BadSection(i));
    }
    let total = total + header.size / REL_SIZE;
    if total > MOST_RELOCATIONS {
        return Err(ObjectFault::TooLarge(Large::Relocations));
    }
    Ok(total)
}

/// How many bytes a section adds to the program.
#[tactic(auto, unfolding(crate::specs::Rules::loaded_size))]
fn loaded_size(layout: &Layout<'_>, i: u32) -> u32
    requires { i < layout.now.count }
    ensures { result ≡ loaded_size layout.now.bytes.now i }
{
    if layout.is_loaded(i) {
        layout.header(i).size
    } else {
        0
    }
}

/// Checks that no relocations with addends change a loaded section, and how many bytes are loaded. `total` is what
/// earlier sections load, and the answer adds this section's.
#[tactic(auto, unfolding(crate::specs::Rules::content_fault))]
fn check_content(layout: &Layout<'_>, total: u64, i: u32) -> Result<u64, ObjectFault>
    requires within { i < layout.now.count }
    requires total { total ≡ sum_below (loaded_size layout.now.bytes.now) i }
    requires few { total ≤ 8388608 }
    ensures finds { Finds ObjectFault.Memory result (content_fault layout.now.bytes.now i) }
    ensures total { IfOk result (λ t. t ≡ sum_below (loaded_size layout.now.bytes.now) (suc i)) }
    ensures few { IfOk result (λ t. t ≤ 8388608) }
{
    let header = layout.header(i);
    if header.kind == SHT_RELA && layout.is_loaded(header.info) {
        return Err(ObjectFault::BadSection(i));
    }
    let total = total + u64::from(loaded_size(layout, i));
    if total > MOST_CONTENT {
        return Err(ObjectFault::TooLarge(Large::Content));
    }
    Ok(total)
}

/// What sections add up to: their relocations of loaded sections, and the bytes that they load.
#[derive(Clone, Copy)]
struct Totals {
    relocations: u32,
    content: u64,
}

/// Checks a section, and adds it to the totals of those below it.
#[tactic(auto, using(crate::proofs::Rules::section_fault_at))]
fn check_section(
    layout: &Layout<'_>,
    tables: u32,
    totals: Totals,
    i: u32,
) -> Result<Totals, ObjectFault>
    requires above_null { 0 < i }
    requires within { i < layout.now.count }
    requires tables { tables ≡ count_below (is_symbol_table layout.now.bytes.now) (section_count layout.now.bytes.now) }
    requires totals { AreTotals layout.now.bytes.now i totals.relocations totals.content }
    ensures finds { Finds ObjectFault.Memory result (section_fault layout.now.bytes.now i) }
    ensures totals { IfOk result (λ t. AreTotals layout.now.bytes.now (suc i) t.relocations t.content) }
{
    check_place(layout, i)?;
    check_symbol_table(layout, tables, i)?;
    let relocations = check_relocation_section(layout, totals.relocations, i)?;
    let content = check_content(layout, totals.content, i)?;
    Ok(Totals {
        relocations,
        content,
    })
}

/// How many symbol tables a file has.
fn symbol_tables(layout: &Layout<'_>) -> u32
    ensures { result ≡ count_below (is_symbol_table layout.now.bytes.now) (section_count layout.now.bytes.now) }
{
    let mut count = 0;
    for i in 0..layout.count {
        if layout.is_symbol_table(i) {
            count += 1;
        }
    }
    count
}

/// Checks the sections, in their order.
pub(crate) fn check_sections(layout: &Layout<'_>) -> Result<(), ObjectFault>
    ensures { Finds ObjectFault.Memory result
        (first_below (section_fault layout.now.bytes.now) (section_count layout.now.bytes.now)) }
{
    let tables = symbol_tables(layout);
    let mut totals = Totals {
        relocations: 0,
        content: 0,
    };
    for i in 1..layout.count {
        totals = check_section(layout, tables, totals, i)?;
    }
    Ok(())
}
