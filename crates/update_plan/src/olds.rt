//! The functions of the old object of an update, as they run.
ghost use Rattle.std.specs.Prelude.{◌≡◌, ◌++◌, ◌∷◌, [], IfOk, OnOk};
ghost use Rattle.extract_post.specs.declared.types.Extract.{Extract as Lists};
ghost use Rattle.update_plan.specs.Olds.{old_as, olds_of};
ghost use Rattle.update_plan.specs.inside.Fates.{AreFates, fate_at};

use crate::fates::fates_of;
use extract_post::Extract;
use i386_reloc::{Normal, NormalSection};
use ks_base::Name;
use link_post::solved_as;
use std::alloc::{AllocError, Global};
use std::collections::BTreeMap;
use symbol_table::{Solved, Unknown, Values};
use update_retired::{Fate, OldFunction};

/// The functions of the old object as they run, in its order: each code section that has a body among the values, with
/// what the update does with it. `Err` comes only if memory runs out. The time is n log n in the sections.
pub(crate) fn olds_of(
    alloc: Global,
    pre: &Normal<'_>,
    values: &Values,
    extract: &Extract,
) -> Result<Vec<OldFunction>, AllocError>
    ensures { IfOk result (λ olds. olds.items ≡ olds_of extract.now values.now.entries pre.now) }
{
    let fates = fates_of(alloc, extract)?;
    let mut olds = Vec::new(alloc);
    for section in pre.as_slice() {
        add_old(alloc, &mut olds, &fates, values, section)?;
    }
    Ok(olds)
}

/// Adds the function that a section is, where it is one that runs.
fn add_old(
    alloc: Global,
    olds: &mut Vec<OldFunction>,
    fates: &BTreeMap<&[u8], Fate>,
    values: &Values,
    section: &NormalSection<'_>,
) -> Result<(), AllocError>
    ensures { OnOk result ((extract : Lists) → AreFates fates.now extract
        → olds.new.items ≡ olds.old.items ++ olds_of extract values.now.entries (section.now ∷ [])) }
{
    if !section.class.is_code() {
        return Ok(());
    }
    let which = Unknown::Code(Name::from_slice(alloc, section.name.as_slice())?);
    let solved = solved_as(values, &which);
    add_solved(alloc, olds, fates, section, solved)
}

/// Adds a section that has a body in the running program, as that function.
fn add_solved(
    alloc: Global,
    olds: &mut Vec<OldFunction>,
    fates: &BTreeMap<&[u8], Fate>,
    section: &NormalSection<'_>,
    solved: Option<Solved>,
) -> Result<(), AllocError>
    ensures { OnOk result ((extract : Lists) → AreFates fates.now extract
        → olds.new.items ≡ olds.old.items ++ old_as extract section.now solved) }
{
    match solved {
        Some(Solved::Body { home, base, length }) => {
            olds.push(OldFunction {
                section: Name::from_slice(alloc, section.name.as_slice())?,
                function: Name::from_slice(alloc, section.function_name())?,
                home,
                base,
                length,
                fate: fate_at(fates, section.name.as_slice()),
            })?;
            Ok(())
        }
        Some(Solved::Address(_)) => Ok(()),
        None => Ok(()),
    }
}

/// What a map says of the function that is the section of a name.
fn fate_at(fates: &BTreeMap<&[u8], Fate>, name: &[u8]) -> Fate
    ensures { result ≡ fate_at fates.now name.now }
{
    fates.get(name).copied().unwrap_or(Fate::Kept)
}
