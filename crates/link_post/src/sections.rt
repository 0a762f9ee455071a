//! What a placed section becomes in memory: the kind of its bytes, and the symbols of what stands in it.
ghost use Rattle.std.specs.Prelude.{◌≡◌, IfOk};
ghost use Rattle.link_post.specs.Sections.{function_symbol, kind_of_class, variable_symbol};

use i386_reloc::{Class, NormalSection, ObjectSymbol};
use image_memory::Kind;
use ks_base::Name;
use std::alloc::{AllocError, Global};
use symbol_table::Symbol;

/// What the memory of a section may be used for, by its class: functions become code, data that the program may change
/// writable, and texts and other data read-only.
pub fn kind_of_class(class: Class) -> Kind
    ensures { result ≡ kind_of_class class }
{
    match class {
        Class::Code => Kind::Code,
        Class::ReadOnly => Kind::ReadOnly,
        Class::Strings => Kind::ReadOnly,
        Class::Writable => Kind::Writable,
        Class::Zero => Kind::Writable,
    }
}

/// The symbol of the function that a section is, at the section's base. It is global where it is so in the object.
/// `Err` comes only if memory runs out.
pub fn function_symbol(
    alloc: Global,
    section: &NormalSection<'_>,
    base: u32,
) -> Result<Symbol, AllocError>
    ensures { IfOk result (λ symbol. symbol ≡ function_symbol section.now base) }
{
    Ok(Symbol {
        address: base,
        function: true,
        global: section.global,
        name: Name::from_slice(alloc, section.function_name())?,
    })
}

/// The symbol of a variable of a section, where it begins when the section stands at a base: its address is counted
/// modulo 2 to the 32nd. It is global where it is so in the object. `Err` comes only if memory runs out.
pub fn variable_symbol(
    alloc: Global,
    object: &ObjectSymbol<'_>,
    base: u32,
) -> Result<Symbol, AllocError>
    ensures { IfOk result (λ symbol. symbol ≡ variable_symbol base object.now) }
{
    Ok(Symbol {
        address: base.wrapping_add(object.value),
        function: false,
        global: object.global,
        name: Name::from_slice(alloc, object.name.as_slice())?,
    })
}
