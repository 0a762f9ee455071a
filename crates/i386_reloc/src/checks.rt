//! Whether each code section is one function.
ghost use Rattle.std.specs.Prelude.{◌≡◌, ◌<◌, ◌&&◌, ◌||◌, is_none};
ghost use Rattle.elf32_object.specs.Fields.{section_count, symbol_count};
ghost use Rattle.elf32_object.specs.Rule.{Finds};
ghost use Rattle.i386_reloc.specs.inside.Functions.{AreFunctions};
ghost use Rattle.i386_reloc.specs.Classes.{is_code_class};
ghost use Rattle.i386_reloc.specs.Refused.{function_fault, function_fault_at};

use crate::functions::Functions;
use crate::loaded::{class_of, loaded_section};
use crate::types::Class;
use elf32_object::Object;
use ks_base::{Name, Refusal};
use std::alloc::Global;

/// Refuses the first code section that isn't one function.
#[tactic(auto, using(crate::proofs::Firsts::first_below_more, crate::proofs::Firsts::finds_first), unfolding(crate::specs::Refused::function_fault))]
pub(crate) fn check_functions(
    alloc: Global,
    object: &Object<'_>,
    functions: &[Functions],
) -> Result<(), Refusal>
    requires { AreFunctions object.now (symbol_count object.now) functions.now }
    ensures { Finds Refusal.Memory result (function_fault object.now) }
{
    for i in 0..object.section_count() {
        check_function(alloc, object, i, functions)?;
    }
    Ok(())
}

#[tactic(auto, using(crate::proofs::Faults::function_fault_loaded, crate::proofs::Faults::function_fault_unloaded))]
fn check_function(
    alloc: Global,
    object: &Object<'_>,
    i: u32,
    functions: &[Functions],
) -> Result<(), Refusal>
    requires functions { AreFunctions object.now (symbol_count object.now) functions.now }
    requires within { i < section_count object.now }
    ensures { Finds Refusal.Memory result (function_fault_at object.now i) }
{
    let Some(section) = loaded_section(object, i) else {
        return Ok(());
    };
    if is_not_one_function(class_of(&section), functions[i as usize]) {
        return Err(Refusal::NotOneFunction(Name::from_slice(alloc, section.name)?));
    }
    Ok(())
}

fn is_not_one_function(class: Class, functions: Functions) -> bool
    ensures { result ≡ (is_code_class class && (is_none functions.first || functions.inner)) }
{
    class.is_code() && (functions.first.is_none() || functions.inner)
}
