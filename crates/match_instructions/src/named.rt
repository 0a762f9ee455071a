//! The offsets in each code section that references of code and of read-only data name.
ghost use Rattle.std.specs.Prelude.{◌≡◌, ◌<◌, ◌+◌, ◌++◌, Some, length, map, take, IfOk, OnOk, if◌then◌else◌, []};
ghost use Rattle.std.specs.List.{IsDistinct, slice_get};
ghost use Rattle.std.specs.Option.{ForSome};
ghost use Rattle.i386_reloc.specs.Normal.{same_bytes, name_of};
ghost use Rattle.i386_reloc.specs.Places.{place_of_target, reference_at};
ghost use Rattle.i386_reloc.specs.Reaches.{is_interior};
ghost use Rattle.match_instructions.specs.Landing.{interior_offset, is_naming_class, all_offsets};
ghost use Rattle.match_instructions.specs.inside.Named.{naming, named_by, put_at};

use crate::landing::interior_offset;
use i386_reloc::{Class, Normal, NormalSection, Ref};
use ks_base::ListOf;
use std::alloc::{AllocError, Global};

/// Offsets in a section, in the order in which references name them.
pub type Offsets = ListOf<u32>;

/// For each section the offsets in it that references of code and of read-only data name, from one pass over these.
/// `Err` comes only if memory runs out.
pub fn offsets_named(alloc: Global, normal: &Normal<'_>) -> Result<Vec<Offsets>, AllocError>
    ensures { IfOk result (λ named. named.items ≡ all_offsets normal.now) }
{
    let sections = normal.as_slice();
    let mut table = no_offsets(alloc, sections)?;
    for i in 0..sections.len() {
        take_section(&mut table, normal, i, &sections[i])?;
    }
    Ok(table)
}

/// No offsets for each section.
fn no_offsets(alloc: Global, sections: &[NormalSection<'_>]) -> Result<Vec<Offsets>, AllocError>
    ensures { IfOk result (λ table. table.items ≡ named_by sections.now []) }
{
    let mut table = Vec::new(alloc);
    for _section in sections {
        table.push(ListOf::new(alloc))?;
    }
    Ok(table)
}

/// Whether a section is code or read-only data.
fn is_naming(class: Class) -> bool
    ensures { result ≡ is_naming_class class }
{
    class.is_code() || class.is_read_only()
}

/// Takes what the references of section `i` name into the table.
fn take_section(
    table: &mut Vec<Offsets>,
    normal: &Normal<'_>,
    i: usize,
    section: &NormalSection<'_>,
) -> Result<(), AllocError>
    requires at { slice_get normal.now i ≡ Some section.now }
    requires distinct { IsDistinct same_bytes (map name_of normal.now) }
    requires before { table.old.items ≡ named_by normal.now (naming (take i normal.now)) }
    ensures { OnOk result (table.new.items ≡ named_by normal.now (naming (take (i + 1) normal.now))) }
{
    if is_naming(section.class) {
        take_references(table, normal, i, section)?;
    }
    Ok(())
}

fn take_references(
    table: &mut Vec<Offsets>,
    normal: &Normal<'_>,
    i: usize,
    section: &NormalSection<'_>,
) -> Result<(), AllocError>
    requires at { slice_get normal.now i ≡ Some section.now }
    requires distinct { IsDistinct same_bytes (map name_of normal.now) }
    requires before { table.old.items ≡ named_by normal.now (naming (take i normal.now)) }
    ensures { OnOk result (table.new.items ≡ named_by normal.now (naming (take i normal.now) ++ section.now.refs)) }
{
    let references = section.refs.as_slice();
    for k in 0..references.len() {
        take_reference(table, normal, i, k, &references[k])?;
    }
    Ok(())
}

/// Takes what the reference `k` of section `i` names into the table.
fn take_reference(
    table: &mut Vec<Offsets>,
    normal: &Normal<'_>,
    i: usize,
    k: usize,
    r: &Ref<'_>,
) -> Result<(), AllocError>
    requires at { reference_at normal.now i k ≡ Some r.now }
    requires whole { length table.old.items ≡ length normal.now }
    ensures { OnOk result (table.new.items ≡ (if is_interior r.now
        then put_at table.old.items (place_of_target normal.now r.now.target) (interior_offset r.now)
        else table.old.items)) }
{
    if r.is_interior() {
        put(table, target_place(normal, i, k, r), interior_offset(r))?;
    }
    Ok(())
}

/// Puts an offset at the end of the list at a place.
fn put(table: &mut Vec<Offsets>, place: Option<usize>, offset: u32) -> Result<(), AllocError>
    requires { ForSome place (λ p. p < length table.old.items) }
    ensures { OnOk result (table.new.items ≡ put_at table.old.items place offset) }
{
    if let Some(place) = place {
        table[place].push(offset)?;
    }
    Ok(())
}

/// The place of the section that the reference `k` of section `i` goes to.
#[tactic(auto, using(crate::proofs::NamedLaws::place_here, crate::proofs::NamedLaws::target_within))]
fn target_place(normal: &Normal<'_>, i: usize, k: usize, r: &Ref<'_>) -> Option<usize>
    requires { reference_at normal.now i k ≡ Some r.now }
    ensures place { result ≡ place_of_target normal.now r.now.target }
    ensures within { ForSome result (λ p. p < length normal.now) }
{
    normal.target_place(i, k)
}
