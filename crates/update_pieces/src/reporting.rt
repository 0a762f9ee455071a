//! What an update reports.
ghost use Rattle.std.specs.Prelude.{◌≡◌, ◌++◌, List, option_to_list, IfOk, OnOk};
ghost use Rattle.std.specs.List.{filter_map};
ghost use Rattle.std.specs.Option.{option_copied};
ghost use Rattle.update_retired.specs.declared.types.OldFunction.{OldFunction as Old};
ghost use Rattle.update_pieces.specs.Reports.{added_of, dropped_in, replaced_as, replaced_of, replaced_old, report_of};
ghost use Rattle.update_pieces.specs.inside.OldMaps.{AreFirst};

use crate::olds::olds_by_section;
use crate::parts::{Part, PlacedPart, at_places};
use extract_post::Role;
use ks_base::{Added, AddedList, Name, Names, Replaced, ReplacedList, Report};
use link_post::Placement;
use std::alloc::{AllocError, Global};
use std::collections::BTreeMap;
use update_retired::OldFunction;

/// What an update reports: the functions that it replaces and those that it adds, in the order of the new object's
/// sections, and those that it drops, in the order of the old object's. A replaced function is named as the old object
/// names it, with its home, its new base, and the length of the body that ran until then; it is the old function of the
/// same section. `Err` comes only if memory runs out.
pub fn report_of(
    alloc: Global,
    parts: &[Part<'_, '_>],
    placement: &Placement,
    olds: &[OldFunction],
) -> Result<Report, AllocError>
    ensures { IfOk result (λ report. report ≡ report_of parts.now placement.now olds.now) }
{
    let placed = at_places(alloc, parts, placement)?;
    let replaced = replaced_functions(alloc, placed.as_slice(), olds)?;
    let added = added_functions(alloc, placed.as_slice())?;
    let dropped = dropped_functions(alloc, olds)?;
    Ok(Report {
        replaced,
        added,
        dropped,
    })
}

/// The functions that are replaced, each found by its section.
fn replaced_functions(
    alloc: Global,
    placed: &[PlacedPart<'_, '_>],
    olds: &[OldFunction],
) -> Result<ReplacedList, AllocError>
    ensures { IfOk result (λ replaced. replaced ≡ filter_map (replaced_of olds.now) placed.now) }
{
    let by_section = olds_by_section(alloc, olds)?;
    let mut replaced = ReplacedList::new(alloc);
    for part in placed {
        add_replaced(alloc, &mut replaced, &by_section, part)?;
    }
    Ok(replaced)
}

/// Adds the function that a part replaces, where it replaces one.
fn add_replaced(
    alloc: Global,
    replaced: &mut ReplacedList,
    by_section: &BTreeMap<&[u8], &OldFunction>,
    part: &PlacedPart<'_, '_>,
) -> Result<(), AllocError>
    ensures { OnOk result ((olds : List Old) → AreFirst by_section.now olds
        → replaced.new ≡ replaced.old ++ option_to_list (replaced_of olds part.now)) }
{
    if let Some(old) = replaced_old(by_section, part) {
        replaced.push(replaced_as(alloc, part.base(), old)?)?;
    }
    Ok(())
}

/// The old function that a part replaces.
fn replaced_old<'o>(
    by_section: &BTreeMap<&[u8], &'o OldFunction>,
    part: &PlacedPart<'_, '_>,
) -> Option<&'o OldFunction>
    ensures { (olds : List Old) → AreFirst by_section.now olds
        → option_copied result ≡ replaced_old olds part.now }
{
    match part.role() {
        Role::Changed => by_section.get(part.section().name.as_slice()).copied(),
        Role::Added => None,
        Role::Carried => None,
        Role::NewData => None,
    }
}

/// A replaced function in the report.
fn replaced_as(alloc: Global, base: u32, old: &OldFunction) -> Result<Replaced, AllocError>
    ensures { IfOk result (λ replaced. replaced ≡ replaced_as base old.now) }
{
    Ok(Replaced {
        function: Name::from_slice(alloc, old.function.as_slice())?,
        home: old.home,
        base,
        length: old.length,
    })
}

/// The functions that are added.
fn added_functions(alloc: Global, placed: &[PlacedPart<'_, '_>]) -> Result<AddedList, AllocError>
    ensures { IfOk result (λ added. added ≡ filter_map added_of placed.now) }
{
    let mut added = AddedList::new(alloc);
    for part in placed {
        add_added(alloc, &mut added, part)?;
    }
    Ok(added)
}

/// Adds the function that a part is, where it is added.
fn add_added(
    alloc: Global,
    added: &mut AddedList,
    part: &PlacedPart<'_, '_>,
) -> Result<(), AllocError>
    ensures { OnOk result (added.new ≡ added.old ++ option_to_list (added_of part.now)) }
{
    match part.role() {
        Role::Added => added.push(Added {
            function: Name::from_slice(alloc, part.section().function_name())?,
            base: part.base(),
        }),
        Role::Changed => Ok(()),
        Role::Carried => Ok(()),
        Role::NewData => Ok(()),
    }
}

/// The names of the functions that are dropped.
fn dropped_functions(alloc: Global, olds: &[OldFunction]) -> Result<Names, AllocError>
    ensures { IfOk result (λ names. names ≡ dropped_in olds.now) }
{
    let mut names = Names::new(alloc);
    for old in olds {
        if old.fate.is_dropped() {
            names.push(Name::from_slice(alloc, old.function.as_slice())?)?;
        }
    }
    Ok(names)
}
