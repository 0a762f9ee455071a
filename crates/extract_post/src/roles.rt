//! The role of each section that an extract lists.
ghost use Rattle.std.specs.Prelude.{◌≡◌, ℕ, List, Some, if◌then◌else◌, IfOk, OnOk};
ghost use Rattle.i386_reloc.specs.Normal.{same_bytes};
ghost use Rattle.extract_post.specs.Roles.{is_among, role_at, role_of};

use crate::role::Role;
use crate::types::Extract;
use ks_base::Names;
use std::alloc::{AllocError, Global};
use std::collections::BTreeMap;

/// The role of the section of each name that an extract lists, so that a section is looked up by halving. `Err` comes
/// only if memory runs out.
#[tactic(auto, unfolding(crate::specs::Roles::role_of))]
pub fn roles_of<'e>(
    alloc: Global,
    extract: &'e Extract,
) -> Result<BTreeMap<&'e [u8], Role>, AllocError>
    ensures { IfOk result (λ roles. (q : List ℕ) → role_at roles q ≡ role_of extract.now q) }
{
    let mut roles = BTreeMap::new(alloc);
    put_roles(&mut roles, &extract.new_data, Role::NewData)?;
    put_roles(&mut roles, &extract.carried, Role::Carried)?;
    put_roles(&mut roles, &extract.added, Role::Added)?;
    put_roles(&mut roles, &extract.changed, Role::Changed)?;
    Ok(roles)
}

/// Gives each name the role, in place of the one that it had.
fn put_roles<'e>(
    roles: &mut BTreeMap<&'e [u8], Role>,
    names: &'e Names,
    role: Role,
) -> Result<(), AllocError>
    ensures { OnOk result ((q : List ℕ) → role_at roles.new q
        ≡ (if is_among names.now q then Some role else role_at roles.old q)) }
{
    for name in names.as_slice() {
        put_role(roles, name.as_slice(), role)?;
    }
    Ok(())
}

fn put_role<'e>(
    roles: &mut BTreeMap<&'e [u8], Role>,
    name: &'e [u8],
    role: Role,
) -> Result<(), AllocError>
    ensures { OnOk result ((q : List ℕ) → role_at roles.new q
        ≡ (if same_bytes name.now q then Some role else role_at roles.old q)) }
{
    roles.insert(name, role)?;
    Ok(())
}
