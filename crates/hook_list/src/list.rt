//! The list of the functions that an object wants to be run.
ghost use Rattle.std.specs.Prelude.{◌≡◌, length};
ghost use Rattle.std.specs.Option.{option_copied};
ghost use Rattle.std.specs.List.{slice_get};
ghost use Rattle.hook_list.specs.Listed.{listed};

use crate::entries::{bad_hooks, entry_at, entry_count};
use i386_reloc::{FIELD_LENGTH, Normal, NormalSection, Ref};
use std::marker::Model;

/// The name of the section that lists functions.
pub const HOOK_SECTION_NAME: &[u8] = b".ksplice_apply";

/// The functions that an object lists, to be run in their order at an update to it. Contracts see the list of the
/// references to them, each of which goes to the start of a function of the object.
#[derive(Drop)]
pub struct HookList<'n, 'a> {
    object: &'n Normal<'a>,
    section: &'n NormalSection<'a>,
}

impl<'n, 'a> Model for HookList<'n, 'a> {
    ghost use Rattle.std.specs.Prelude.{◌≡◌, List, None};
    ghost use Rattle.i386_reloc.specs.declared.types.Ref.{Ref};
    ghost use Rattle.hook_list.specs.Listed.{bad_hooks, entries};

    ghost Value = { List Ref };

    ghost view = { λ l. entries l.object.now l.section.now };

    ghost invariant = { λ l. bad_hooks l.object.now l.section.now ≡ None };
}

impl<'n, 'a> HookList<'n, 'a> {
    /// How many functions there are: at most 64.
    pub fn len(&self) -> usize
        ensures { result ≡ length self.now }
    {
        entry_count(self.section) as usize
    }

    /// The reference to the function of a number, counted from 0; `None` exactly where there are no more than that many
    /// functions.
    pub fn get(&self, number: usize) -> Option<&'n Ref<'a>>
        ensures { option_copied result ≡ slice_get self.now number }
    {
        let count = entry_count(self.section);
        if number >= count as usize {
            return None;
        }
        entry_at(self.object, self.section, number as u32 * FIELD_LENGTH)
    }
}

/// The functions that an object lists in its section `.ksplice_apply`, in order, `None` where it has no such section.
///
/// The section holds four bytes for each: the field of a reference that goes to the start of a function of the same
/// object. `Err` comes with an offset of the section, in bytes, exactly where the list is broken: 0 where the section's
/// class is code, texts or zeros; else 256 where it has more than 256 bytes; else the first multiple of four at which it
/// has no such reference; else its size, where that is no multiple of four.
#[tactic(auto, unfolding(crate::specs::Listed::listed))]
pub fn read_hooks<'n, 'a>(object: &'n Normal<'a>) -> Result<Option<HookList<'n, 'a>>, u32>
    ensures { result ≡ listed object.now }
{
    let Some(section) = object.find(HOOK_SECTION_NAME) else {
        return Ok(None);
    };
    match bad_hooks(object, section) {
        Some(offset) => Err(offset),
        None => Ok(Some(HookList { object, section })),
    }
}
