//! Which classes the sections of a name have in two objects.
ghost use Rattle.std.specs.Prelude.{◌≡◌};
ghost use Rattle.i386_reloc.specs.Reaches.{is_in};
ghost use Rattle.extract_post.specs.inside.Asked.{is_wanted, passes};
ghost use Rattle.i386_reloc.specs.Normal.{section_named};
ghost use Rattle.extract_post.specs.Extract.{other_class};
ghost use Rattle.extract_post.specs.Members.{is_there};

use crate::types::{Asked, Wanted};
use i386_reloc::{Class, Normal};
use section_equal::same_class;

/// Whether a class is wanted.
fn is_wanted(wanted: Wanted, class: Class) -> bool
    ensures { result ≡ is_wanted wanted class }
{
    match wanted {
        Wanted::Code => class.is_code(),
        Wanted::Data => class.is_data(),
        Wanted::ReadOnly => class.is_read_only(),
        Wanted::Constant => class.is_constant(),
    }
}

/// Whether an object has a section of this name.
fn is_there(normal: &Normal<'_>, name: &[u8]) -> bool
    ensures { result ≡ is_there normal.now name.now }
{
    normal.find(name).is_some()
}

/// Whether an object has a section of this name, of a wanted class.
fn is_in(wanted: Wanted, normal: &Normal<'_>, name: &[u8]) -> bool
    ensures { result ≡ is_in (is_wanted wanted) normal.now name.now }
{
    match normal.find(name) {
        Some(section) => is_wanted(wanted, section.class),
        None => false,
    }
}

/// Whether both objects have a section of this name, of different classes.
fn is_of_other_class(pre: &Normal<'_>, post: &Normal<'_>, name: &[u8]) -> bool
    ensures { result ≡ other_class (section_named pre.now name.now) (section_named post.now name.now) }
{
    match (pre.find(name), post.find(name)) {
        (Some(old), Some(new)) => !same_class(old.class, new.class),
        (_, _) => false,
    }
}

/// Whether the section of this name in the first of two objects is asked for.
pub(crate) fn passes(asked: Asked, here: &Normal<'_>, there: &Normal<'_>, name: &[u8]) -> bool
    ensures { result ≡ passes asked here.now there.now name.now }
{
    match asked {
        Asked::Here(wanted) => is_in(wanted, here, name),
        Asked::InBoth(wanted) => is_in(wanted, there, name) && is_in(wanted, here, name),
        Asked::Alone(wanted) => is_in(wanted, here, name) && !is_there(there, name),
        Asked::OtherClass => is_of_other_class(there, here, name),
    }
}
