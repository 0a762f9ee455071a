//! The functions of an old object by their sections.
ghost use Rattle.std.specs.Prelude.{◌≡◌, ℕ, List, Some, None, if◌then◌else◌, IfOk, OnOk};
ghost use Rattle.std.specs.Option.{option_or};
ghost use Rattle.i386_reloc.specs.Normal.{same_bytes};
ghost use Rattle.update_pieces.specs.inside.OldMaps.{AreFirst, old_at};

use std::alloc::{AllocError, Global};
use std::collections::BTreeMap;
use update_retired::OldFunction;

/// The first function of each section's name.
#[tactic(auto, using(crate::proofs::OldNames::first_more, crate::proofs::OldNames::first_all))]
pub(crate) fn olds_by_section<'o>(
    alloc: Global,
    olds: &'o [OldFunction],
) -> Result<BTreeMap<&'o [u8], &'o OldFunction>, AllocError>
    ensures { IfOk result (λ by_section. AreFirst by_section olds.now) }
{
    let mut by_section = BTreeMap::new(alloc);
    for old in olds {
        put_first(&mut by_section, old)?;
    }
    Ok(by_section)
}

/// Gives a section's name the function, where it has none.
fn put_first<'o>(
    by_section: &mut BTreeMap<&'o [u8], &'o OldFunction>,
    old: &'o OldFunction,
) -> Result<(), AllocError>
    ensures { OnOk result ((q : List ℕ) → old_at by_section.new q
        ≡ option_or (old_at by_section.old q) (if same_bytes old.now.section q then Some old.now else None)) }
{
    let name = old.section.as_slice();
    if by_section.contains_key(name) {
        return Ok(());
    }
    put_old(by_section, name, old)
}

/// Gives a name the function, in place of the one that it had.
fn put_old<'o>(
    by_section: &mut BTreeMap<&'o [u8], &'o OldFunction>,
    name: &'o [u8],
    old: &'o OldFunction,
) -> Result<(), AllocError>
    ensures { OnOk result ((q : List ℕ) → old_at by_section.new q
        ≡ (if same_bytes name.now q then Some old.now else old_at by_section.old q)) }
{
    by_section.insert(name, old)?;
    Ok(())
}
