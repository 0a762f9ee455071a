//! The entries of a list of functions: a reference to a function's start in each four bytes.
ghost use Rattle.std.specs.Prelude.{◌≡◌, ◌≤◌, ◌^◌};
ghost use Rattle.std.specs.Option.{option_copied};
ghost use Rattle.i386_reloc.specs.Classes.{is_code_class};
ghost use Rattle.i386_reloc.specs.Reaches.{is_in};
ghost use Rattle.hook_list.specs.Listed.{bad_hooks, entry_at, entry_count, first_gap, is_entry, is_function, lists_nothing, most_hook_bytes};

use i386_reloc::{Class, FIELD_LENGTH, Normal, NormalSection, Ref, Target};

/// The most bytes that a list may have.
const MOST_BYTES: u32 = 256;

/// Whether a section of this class lists no function.
fn lists_nothing(class: Class) -> bool
    ensures { result ≡ lists_nothing class }
{
    matches!(class, Class::Code | Class::Strings | Class::Zero)
}

/// Whether a target is a function of the object.
fn is_function(object: &Normal<'_>, target: &Target<'_>) -> bool
    ensures { result ≡ is_function object.now target.now }
{
    let Target::Section(name) = target else {
        return false;
    };
    match object.find(name.as_slice()) {
        Some(section) => section.class.is_code(),
        None => false,
    }
}

/// Whether a reference goes to the start of a function.
fn is_entry(object: &Normal<'_>, reference: &Ref<'_>) -> bool
    ensures { result ≡ is_entry object.now reference.now }
{
    !reference.is_interior() && is_function(object, &reference.target)
}

/// The first reference at an offset of a section that goes to the start of a function.
pub(crate) fn entry_at<'n, 'a>(
    object: &'n Normal<'a>,
    section: &'n NormalSection<'a>,
    offset: u32,
) -> Option<&'n Ref<'a>>
    ensures { option_copied result ≡ entry_at object.now section.now offset }
{
    section.refs.as_slice().iter().find(|reference| reference.offset == offset
        && is_entry(object, reference))
}

/// How many entries a section has, the last perhaps cut off.
pub(crate) fn entry_count(section: &NormalSection<'_>) -> u32
    ensures count { result ≡ entry_count section.now }
    ensures few { result ≤ 2 ^ 30 }
{
    section.size.div_ceil(FIELD_LENGTH)
}

/// The offset of the first entry that is none.
fn first_gap<'n, 'a>(object: &'n Normal<'a>, section: &'n NormalSection<'a>) -> Option<u32>
    ensures { result ≡ first_gap object.now section.now }
{
    for entry in 0..entry_count(section) {
        let offset = entry * FIELD_LENGTH;
        if entry_at(object, section, offset).is_none() {
            return Some(offset);
        }
    }
    None
}

/// The offset at which a list is broken, `None` where it isn't.
#[tactic(auto, unfolding(crate::specs::Listed::bad_hooks))]
pub(crate) fn bad_hooks<'n, 'a>(
    object: &'n Normal<'a>,
    section: &'n NormalSection<'a>,
) -> Option<u32>
    ensures { result ≡ bad_hooks object.now section.now }
{
    if lists_nothing(section.class) {
        return Some(0);
    }
    if section.size > MOST_BYTES {
        return Some(MOST_BYTES);
    }
    if let Some(offset) = first_gap(object, section) {
        return Some(offset);
    }
    if section.size % FIELD_LENGTH != 0 {
        return Some(section.size);
    }
    None
}
