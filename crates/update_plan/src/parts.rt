//! The sections of the new object that an update places.
ghost use Rattle.std.specs.Prelude.{◌≡◌, ◌++◌, IfOk, OnOk};
ghost use Rattle.link_post.specs.Linked.{AreNamesInOrder};
ghost use Rattle.extract_post.specs.Roles.{role_at};
ghost use Rattle.update_plan.specs.Placing.{names_of, part_as, parts_of};

use extract_post::{Extract, Role, roles_of};
use i386_reloc::{Normal, NormalSection};
use ks_base::{Name, Names};
use std::alloc::{AllocError, Global};
use std::collections::BTreeMap;
use update_pieces::Part;

/// The sections of the new object that are placed, in its order: those that have a role. `Err` comes only if memory
/// runs out. The time is n log n in the sections.
#[tactic(auto, unfolding(crate::specs::Placing::parts_of))]
pub(crate) fn parts_of<'p, 'a>(
    alloc: Global,
    post: &'p Normal<'a>,
    extract: &Extract,
) -> Result<Vec<Part<'p, 'a>>, AllocError>
    ensures parts { IfOk result (λ parts. parts.items ≡ parts_of extract.now post.now) }
    ensures order { IfOk result (λ parts. AreNamesInOrder post.now (names_of parts.items)) }
{
    let roles = roles_of(alloc, extract)?;
    let mut parts = Vec::new(alloc);
    for section in post.as_slice() {
        let role = role_at(&roles, section.name.as_slice());
        add_part(&mut parts, section, role)?;
    }
    Ok(parts)
}

/// What a map says of the section of a name.
fn role_at(roles: &BTreeMap<&[u8], Role>, name: &[u8]) -> Option<Role>
    ensures { result ≡ role_at roles.now name.now }
{
    roles.get(name).copied()
}

/// Adds a section where it has a role.
fn add_part<'p, 'a>(
    parts: &mut Vec<Part<'p, 'a>>,
    section: &'p NormalSection<'a>,
    role: Option<Role>,
) -> Result<(), AllocError>
    ensures { OnOk result (parts.new.items ≡ parts.old.items ++ part_as section.now role) }
{
    match role {
        Some(role) => {
            parts.push(Part::new(section, role))?;
            Ok(())
        }
        None => Ok(()),
    }
}

/// The names of sections, in their order. `Err` comes only if memory runs out.
pub(crate) fn names_of(alloc: Global, parts: &[Part<'_, '_>]) -> Result<Names, AllocError>
    ensures { IfOk result (λ names. names ≡ names_of parts.now) }
{
    let mut names = Names::new(alloc);
    for part in parts {
        names.push(Name::from_slice(alloc, part.section().name.as_slice())?)?;
    }
    Ok(names)
}
