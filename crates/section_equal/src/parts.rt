//! What two sections have in common beside the targets of their references.
ghost use Rattle.std.specs.Prelude.{◌≡◌};
ghost use Rattle.section_equal.specs.Same.{same_class, same_form};
ghost use Rattle.section_equal.specs.inside.Texts.{same_field, same_content};

use crate::bytes::equal_bytes;
use i386_reloc::{Class, Form, NormalSection, Ref};

/// Whether two classes are the same.
pub fn same_class(old: Class, new: Class) -> bool
    ensures { result ≡ same_class old new }
{
    old == new
}

/// Whether the values of two references are counted alike.
fn same_form(old: Form, new: Form) -> bool
    ensures { result ≡ same_form old new }
{
    old == new
}

/// Whether two references agree in all but their targets.
pub(crate) fn same_field(old: &Ref<'_>, new: &Ref<'_>) -> bool
    ensures { result ≡ same_field old.now new.now }
{
    old.offset == new.offset && same_form(old.form, new.form) && old.addend == new.addend
}

/// Whether two sections agree in all but their references.
pub(crate) fn same_content(old: &NormalSection<'_>, new: &NormalSection<'_>) -> bool
    ensures { result ≡ same_content old.now new.now }
{
    if !same_class(old.class, new.class) {
        return false;
    }
    if old.class.is_strings() {
        return true;
    }
    old.size == new.size && equal_bytes(old.bytes.as_slice(), new.bytes.as_slice())
}
