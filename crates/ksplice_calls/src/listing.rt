//! The lines of a difference.
ghost use Rattle.std.specs.Prelude.{◌≡◌, ◌++◌, Some, IfOk, OnOk};
ghost use Rattle.std.specs.Option.{option_copied};
ghost use Rattle.std.specs.List.{flat_map};
ghost use Rattle.ksplice_calls.specs.Difference.{function_of, verb_line, section_line};
ghost use Rattle.ksplice_calls.specs.Difference.{line_in, dropped_line, listing_by, listing};
ghost use Rattle.extract_post.specs.Roles.{role_at};

use extract_post::{Extract, Role, roles_of};
use i386_reloc::{Normal, NormalSection};
use ks_base::{Line, Name, Names};
use std::alloc::{AllocError, Global};
use std::collections::BTreeMap;

/// The lines of an extract: for each section of the second object that it lists, in that object's order, and then
/// for each function of the first that goes, in that object's order.
#[tactic(auto, using(crate::proofs::Listings::same_listing))]
pub fn list_extract(
    alloc: Global,
    old: &Normal<'_>,
    new: &Normal<'_>,
    extract: &Extract,
) -> Result<Line, AllocError>
    ensures { IfOk result (λ lines. lines ≡ listing old.now new.now extract.now) }
{
    let roles = roles_of(alloc, extract)?;
    list_by(alloc, &roles, old, new, &extract.dropped)
}

#[tactic(auto, unfolding(crate::specs::Difference::listing_by))]
fn list_by(
    alloc: Global,
    roles: &BTreeMap<&[u8], Role>,
    old: &Normal<'_>,
    new: &Normal<'_>,
    dropped: &Names,
) -> Result<Line, AllocError>
    ensures { IfOk result (λ lines. lines ≡ listing_by (role_at roles.now) old.now new.now dropped.now) }
{
    let mut lines = Line::new(alloc);
    put_sections(alloc, &mut lines, roles, old, new)?;
    put_dropped(alloc, &mut lines, old, dropped)?;
    Ok(lines)
}

fn put_sections(
    alloc: Global,
    lines: &mut Line,
    roles: &BTreeMap<&[u8], Role>,
    old: &Normal<'_>,
    new: &Normal<'_>,
) -> Result<(), AllocError>
    ensures { OnOk result (lines.new ≡ lines.old ++ flat_map (line_in (role_at roles.now) old.now) new.now) }
{
    for section in new.as_slice() {
        put_section(alloc, lines, roles, old, section)?;
    }
    Ok(())
}

fn put_section(
    alloc: Global,
    lines: &mut Line,
    roles: &BTreeMap<&[u8], Role>,
    old: &Normal<'_>,
    section: &NormalSection<'_>,
) -> Result<(), AllocError>
    ensures { OnOk result (lines.new ≡ lines.old ++ line_in (role_at roles.now) old.now section.now) }
{
    let name = section.name.as_slice();
    match roles.get(name).copied() {
        Some(role) => put_in_role(alloc, lines, role, old.find(name), section),
        None => Ok(()),
    }
}

fn put_in_role(
    alloc: Global,
    lines: &mut Line,
    role: Role,
    old: Option<&NormalSection<'_>>,
    section: &NormalSection<'_>,
) -> Result<(), AllocError>
    ensures { OnOk result (lines.new ≡ lines.old ++ section_line (Some role) (option_copied old.entry) section.now) }
{
    match role {
        Role::Changed => put_line(alloc, lines, "changed ", function_of(old)),
        Role::Added => put_line(alloc, lines, "added ", section.function_name()),
        Role::Carried => put_line(alloc, lines, "carried ", section.name.as_slice()),
        Role::NewData => put_line(alloc, lines, "data ", section.name.as_slice()),
    }
}

fn put_dropped(
    alloc: Global,
    lines: &mut Line,
    old: &Normal<'_>,
    names: &Names,
) -> Result<(), AllocError>
    ensures { OnOk result (lines.new ≡ lines.old ++ flat_map (dropped_line old.now) names.now) }
{
    for name in names.as_slice() {
        let function = function_of(old.find(name.as_slice()));
        put_line(alloc, lines, "dropped ", function)?;
    }
    Ok(())
}

fn put_line(alloc: Global, lines: &mut Line, verb: &str, name: &[u8]) -> Result<(), AllocError>
    ensures { OnOk result (lines.new ≡ lines.old ++ verb_line verb.now name.now) }
{
    lines.put_text(verb)?;
    lines.put_name(&Name::from_slice(alloc, name)?)?;
    lines.put_text("\n")
}

/// The name of the function that a section is, and none where there is no section.
pub fn function_of<'a>(section: Option<&'a NormalSection<'_>>) -> &'a [u8]
    ensures { result.now ≡ function_of (option_copied section.entry) }
{
    match section {
        Some(section) => section.function_name(),
        None => &[],
    }
}
