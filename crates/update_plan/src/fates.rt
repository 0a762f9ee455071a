//! What an update does with each function of its old object.
ghost use Rattle.std.specs.Prelude.{◌≡◌, ℕ, List, if◌then◌else◌, IfOk, OnOk};
ghost use Rattle.i386_reloc.specs.Normal.{same_bytes};
ghost use Rattle.extract_post.specs.Roles.{is_among};
ghost use Rattle.update_plan.specs.inside.Fates.{AreFates, fate_at};

use extract_post::Extract;
use ks_base::Names;
use std::alloc::{AllocError, Global};
use std::collections::BTreeMap;
use update_retired::Fate;

/// The fate of each function that the update doesn't keep, by the name of its section.
pub(crate) fn fates_of<'e>(
    alloc: Global,
    extract: &'e Extract,
) -> Result<BTreeMap<&'e [u8], Fate>, AllocError>
    ensures { IfOk result (λ fates. AreFates fates extract.now) }
{
    let mut fates = BTreeMap::new(alloc);
    put_fates(&mut fates, &extract.dropped, Fate::Dropped)?;
    put_fates(&mut fates, &extract.changed, Fate::Replaced)?;
    Ok(fates)
}

/// Gives each name the fate, in place of the one that it had.
fn put_fates<'e>(
    fates: &mut BTreeMap<&'e [u8], Fate>,
    names: &'e Names,
    fate: Fate,
) -> Result<(), AllocError>
    ensures { OnOk result ((q : List ℕ) → fate_at fates.new q
        ≡ (if is_among names.now q then fate else fate_at fates.old q)) }
{
    for name in names.as_slice() {
        put_fate(fates, name.as_slice(), fate)?;
    }
    Ok(())
}

fn put_fate<'e>(
    fates: &mut BTreeMap<&'e [u8], Fate>,
    name: &'e [u8],
    fate: Fate,
) -> Result<(), AllocError>
    ensures { OnOk result ((q : List ℕ) → fate_at fates.new q
        ≡ (if same_bytes name.now q then fate else fate_at fates.old q)) }
{
    fates.insert(name, fate)?;
    Ok(())
}
