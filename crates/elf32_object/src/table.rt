//! Lists the relocations of each section.

ghost use Rattle.std.specs.Prelude.{◌≡◌, ℕ, ◌+◌, ◌<◌, ◌≤◌, ◌∷◌, [], ◌++◌, get_or};
ghost use Rattle.std.specs.Prelude.{slice_set, length, OnOk, IfOk, vec_len, suc, None};
ghost use Rattle.elf32_object.specs.Below.{each_below, first_below};
ghost use Rattle.elf32_object.specs.Fields.{section_count, relocations_below, IsRelocation};
ghost use Rattle.elf32_object.specs.Rules.{section_fault};
ghost use Rattle.elf32_object.specs.inside.Rows.{rows_of, spot_of, AreRows};

use crate::layout::Layout;
use crate::rows::Spot;
use crate::types::Reloc;
use std::alloc::{AllocError, Global};

/// Adds a place to the end of a row.
fn add_spot(rows: &mut Vec<Vec<Spot>>, section: u32, spot: Spot) -> Result<(), AllocError>
    requires { section < vec_len rows.old }
    ensures len { vec_len rows.new ≡ vec_len rows.old }
    ensures added { OnOk result (rows_of rows.new.items ≡ slice_set (rows_of rows.old.items) section
        (get_or (rows_of rows.old.items) section [] ++ spot ∷ [])) }
{
    rows[section as usize].push(spot)?;
    Ok(())
}

/// Empty rows, this many.
fn empty_rows(alloc: Global, count: u32) -> Result<Vec<Vec<Spot>>, AllocError>
    ensures count { IfOk result (λ rows. vec_len rows ≡ count) }
    ensures empty { IfOk result (λ rows. (section : ℕ) → get_or (rows_of rows.items) section [] ≡ []) }
{
    let mut rows = Vec::new(alloc);
    for _ in 0..count {
        rows.push(Vec::new(alloc))?;
    }
    Ok(rows)
}

/// Adds the first `count` entries of a section to a row.
fn add_entries(
    rows: &mut Vec<Vec<Spot>>,
    section: u32,
    from: u32,
    count: u32,
) -> Result<(), AllocError>
    requires { section < vec_len rows.old }
    ensures { OnOk result (rows_of rows.new.items ≡ slice_set (rows_of rows.old.items) section
        (get_or (rows_of rows.old.items) section [] ++ each_below (spot_of from) count)) }
{
    for index in 0..count {
        add_spot(rows, section, Spot { from, index })?;
    }
    Ok(())
}

/// Adds the entries of a section to the row of the loaded section that it changes, if it changes one.
fn add_section(layout: &Layout<'_>, rows: &mut Vec<Vec<Spot>>, i: u32) -> Result<(), AllocError>
    requires within { i < layout.now.count }
    requires rows { AreRows layout.now.bytes.now i (rows_of rows.old.items) }
    ensures { OnOk result (AreRows layout.now.bytes.now (suc i) (rows_of rows.new.items)) }
{
    if !layout.patches_loaded(i) {
        return Ok(());
    }
    add_entries(rows, layout.header(i).info, i, layout.entry_count(i))
}

/// The relocations of each section, in their order.
pub(crate) fn rows_by_section(
    alloc: Global,
    layout: &Layout<'_>,
) -> Result<Vec<Vec<Spot>>, AllocError>
    ensures { IfOk result (λ rows. AreRows layout.now.bytes.now (section_count layout.now.bytes.now)
        (rows_of rows.items)) }
{
    let mut rows = empty_rows(alloc, layout.count)?;
    for i in 0..layout.count {
        add_section(layout, &mut rows, i)?;
    }
    Ok(rows)
}

/// How many relocations a section has.
pub(crate) fn count_of(layout: &Layout<'_>, rows: &[Vec<Spot>], section: u32) -> u32
    requires within { section < section_count layout.now.bytes.now }
    requires sections { first_below (section_fault layout.now.bytes.now) (section_count layout.now.bytes.now) ≡ None }
    requires rows { AreRows layout.now.bytes.now (section_count layout.now.bytes.now) (rows_of rows.now) }
    ensures count { result ≡ relocations_below layout.now.bytes.now section (section_count layout.now.bytes.now) }
    ensures few { result ≤ 262144 }
{
    rows[section as usize].len() as u32
}

/// The place of this number in a row.
fn spot_at(row: &[Spot], k: u32) -> Spot
    requires { k < length row.now }
    ensures { result ≡ get_or row.now k result }
{
    row[k as usize]
}

/// A relocation of a section, by its number.
pub(crate) fn relocation_of(layout: &Layout<'_>, rows: &[Vec<Spot>], section: u32, k: u32) -> Reloc
    requires within { section < section_count layout.now.bytes.now }
    requires below { k < relocations_below layout.now.bytes.now section (section_count layout.now.bytes.now) }
    requires sections { first_below (section_fault layout.now.bytes.now) (section_count layout.now.bytes.now) ≡ None }
    requires rows { AreRows layout.now.bytes.now (section_count layout.now.bytes.now) (rows_of rows.now) }
    ensures { IsRelocation layout.now.bytes.now section k result }
{
    let spot = spot_at(rows[section as usize].as_slice(), k);
    layout.entry(spot.from, spot.index)
}
