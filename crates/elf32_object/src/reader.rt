//! Reads an object file, and refuses one that breaks a rule.

ghost use Rattle.std.specs.Prelude.{◌≡◌, ◌≢◌, Some, None, IfOk, IfErr};
ghost use Rattle.elf32_object.specs.Rules.{object_fault};

use crate::header::read_layout;
use crate::object::Object;
use crate::relocations::check_relocations;
use crate::sections::check_sections;
use crate::symbols::{check_symbols, symbols_of};
use crate::table::rows_by_section;
use crate::types::ObjectFault;
use std::alloc::Global;

/// Reads an object file. A file that breaks a rule is refused by the first one that it breaks, in this order: the
/// file's size and kind, the ELF header, the sections by index, the symbols by index, the relocations by section and
/// entry. `Memory` comes where memory runs out, and for nothing else.
#[tactic(auto, unfolding(crate::specs::Rules::object_fault))]
pub fn read_object(alloc: Global, bytes: &[u8]) -> Result<Object<'_>, ObjectFault>
    ensures ok { IfOk result (λ object. (object ≡ bytes.now) × (object_fault bytes.now ≡ None)) }
    ensures refused { IfErr result (λ fault. fault ≢ ObjectFault.Memory → object_fault bytes.now ≡ Some fault) }
{
    let layout = read_layout(bytes)?;
    check_sections(&layout)?;
    let symbols = symbols_of(&layout);
    check_symbols(&layout, &symbols)?;
    check_relocations(alloc, &layout, symbols.count)?;
    let rows = rows_by_section(alloc, &layout)?;
    Ok(Object {
        layout,
        symbols,
        rows,
    })
}
