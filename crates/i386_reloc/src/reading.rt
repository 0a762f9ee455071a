//! Reads the loaded sections of an object.
ghost use Rattle.std.specs.Prelude.{◌≡◌, ◌≢◌, ◌<◌, ◌≤◌, ◌+◌, ◌++◌, ◌∷◌, [], if◌then◌else◌, option_map};
ghost use Rattle.std.specs.Prelude.{Some, None, IfOk, IfErr, OnOk, All, map, length, true};
ghost use Rattle.std.specs.List.{IsDistinct};
ghost use Rattle.std.specs.Option.{ForSome};
ghost use Rattle.elf32_object.specs.Fields.{section_count, symbol_count, symbol_name, is_loaded};
ghost use Rattle.elf32_object.specs.Rule.{Finds};
ghost use Rattle.i386_reloc.specs.Classes.{is_code_class};
ghost use Rattle.i386_reloc.specs.Normal.{function_symbol, is_global_at, loaded_sections, name_of};
ghost use Rattle.i386_reloc.specs.Normal.{normal_section, same_bytes, section_named, IsFunction};
ghost use Rattle.i386_reloc.specs.References.{objects_of, relocations_of, fields_of, AreByOffset, HasOrder};
ghost use Rattle.i386_reloc.specs.Refused.{normal_fault, relocation_fault, relocation_fault_at};
ghost use Rattle.i386_reloc.specs.inside.Fields.{IsField};
ghost use Rattle.i386_reloc.specs.inside.Functions.{AreFunctions};
ghost use Rattle.i386_reloc.specs.inside.Loaded.{IsLoadedSection};
ghost use Rattle.i386_reloc.specs.inside.Targets.{places_of, places_below};

use crate::blanking::blanked;
use crate::checks::check_functions;
use crate::fields::fields;
use crate::functions::{Functions, gather};
use crate::loaded::{class_of, loaded_section};
use crate::names::places;
use crate::objects::{gather_objects, is_global, take_objects};
use crate::references::references;
use crate::relocation_checks::check_relocations;
use crate::relocations::relocations;
use crate::sections::Normal;
use crate::source::Source;
use crate::span::Span;
use crate::targets;
use crate::types::{Class, NormalSection, Objects};
use elf32_object::Object;
use elf32_object::types::{Reloc, Section};
use ks_base::{Bytes, ListOf, Refusal};
use std::alloc::{AllocError, Global};

/// The loaded sections of an object. Refuses the first of these faults, each being looked for in all sections before
/// the next: a loaded section with the name of an earlier one, a code section that isn't one function, and a relocation
/// that makes no reference. A relocation is refused for its type and where it stands, for its symbol, or for its text,
/// in this order. [`Refusal::Memory`] comes only if memory runs out.
///
/// The references of a section are those of its relocations that change a field, by offset.
#[tactic(auto, unfolding(crate::specs::Refused::normal_fault))]
pub fn normalise<'a>(alloc: Global, object: &Object<'a>) -> Result<Normal<'a>, Refusal>
    ensures ok { IfOk result (λ normal. (normal ≡ loaded_sections object.now) × (normal_fault object.now ≡ None)) }
    ensures refused { IfErr result
        (λ refusal. refusal ≢ Refusal.Memory → normal_fault object.now ≡ Some refusal) }
    ensures functions { IfOk result (λ normal. All IsFunction normal) }
    ensures distinct { IfOk result (λ normal. IsDistinct same_bytes (map name_of normal)) }
    ensures named { IfOk result
        (λ normal. All (λ section. section_named normal section.name ≡ Some section) normal) }
    ensures by_offset { IfOk result (λ _. HasOrder object.now (section_count object.now)) }
{
    // The object breaks no rule.
    let _count = object.section_count();
    let places = places(alloc, object)?;
    let source = Source::new(alloc, object)?;
    let functions = gather(alloc, &source)?;
    check_functions(alloc, source.object, &functions)?;
    let Read { sections, targets } = read_all(alloc, &source, &functions)?;
    Ok(Normal::new(sections, places, targets))
}

/// Loaded sections, and for each the places of the sections to which its references go.
#[derive(Drop)]
struct Read<'a> {
    sections: ListOf<NormalSection<'a>>,
    targets: ListOf<ListOf<Option<u32>>>,
}

#[tactic(auto, using(crate::proofs::Firsts::first_below_more, crate::proofs::Parts::loaded_below_step, crate::proofs::Parts::few_loaded, crate::proofs::RelocationFaults::order_more), unfolding(crate::specs::Normal::loaded_sections, crate::specs::Refused::relocation_fault))]
fn read_all<'a>(
    alloc: Global,
    source: &Source<'_, 'a>,
    functions: &[Functions],
) -> Result<Read<'a>, Refusal>
    requires { AreFunctions source.now.object.now (symbol_count source.now.object.now) functions.now }
    ensures finds { Finds Refusal.Memory result (relocation_fault source.now.object.now) }
    ensures sections { IfOk result (λ read. read.sections ≡ loaded_sections source.now.object.now) }
    ensures targets { IfOk result
        (λ read. read.targets ≡ places_below source.now.object.now (section_count source.now.object.now)) }
    ensures few { IfOk result (λ read. length read.sections ≤ 4096) }
    ensures order { IfOk result (λ _. HasOrder source.now.object.now (section_count source.now.object.now)) }
{
    let mut objects = gather_objects(alloc, source)?;
    let mut read = Read {
        sections: ListOf::new(alloc),
        targets: ListOf::new(alloc),
    };
    for i in 0..source.object.section_count() {
        let own = take_objects(alloc, source.object, &mut objects, i);
        add_section(alloc, &mut read, source, i, functions, own)?;
    }
    Ok(Read {
        sections: fitted(read.sections),
        targets: fitted(read.targets),
    })
}

/// The same list, with no more room than it needs.
fn fitted<T: Drop>(list: ListOf<T>) -> ListOf<T>
    ensures { result ≡ list }
{
    let mut items = list.into_vec();
    items.shrink_to_fit();
    ListOf::from_vec(items)
}

/// Adds section `i`, if it is loaded.
#[tactic(auto, unfolding(crate::specs::Refused::relocation_fault_at, crate::specs::inside::Targets::places_of))]
fn add_section<'a>(
    alloc: Global,
    read: &mut Read<'a>,
    source: &Source<'_, 'a>,
    i: u32,
    functions: &[Functions],
    objects: Objects<'a>,
) -> Result<(), Refusal>
    requires within { i < section_count source.now.object.now }
    requires functions { AreFunctions source.now.object.now (symbol_count source.now.object.now) functions.now }
    requires objects { objects ≡ objects_of source.now.object.now i }
    ensures finds { Finds Refusal.Memory result (relocation_fault_at source.now.object.now i) }
    ensures sections { OnOk result (read.new.sections ≡ (if is_loaded source.now.object.now i
        then read.old.sections ++ normal_section source.now.object.now i ∷ [] else read.old.sections)) }
    ensures targets { OnOk result (read.new.targets ≡ read.old.targets
        ++ (if is_loaded source.now.object.now i then places_of source.now.object.now i ∷ [] else [])) }
    ensures order { OnOk result (is_loaded source.now.object.now i ≡ true
        → AreByOffset (relocations_of source.now.object.now i) (fields_of source.now.object.now i)) }
{
    let Some(section) = loaded_section(source.object, i) else {
        return Ok(());
    };
    let fields = checked_fields(alloc, source, i, &section)?;
    let places = targets::places(alloc, source, i, &fields)?;
    let function = symbol_of(class_of(&section), functions[i as usize]);
    let section = read_section(alloc, source, i, &section, function, &fields, objects)?;
    read.sections.push(section)?;
    read.targets.push(places)?;
    Ok(())
}

/// The relocations of loaded section `i` that change a field, by offset. Refuses the first that makes no reference.
#[tactic(auto, unfolding(crate::specs::Refused::relocation_fault_at))]
fn checked_fields(
    alloc: Global,
    source: &Source<'_, '_>,
    i: u32,
    section: &Section<'_>,
) -> Result<Vec<Reloc>, Refusal>
    requires { IsLoadedSection source.now.object.now i section.now }
    ensures finds { Finds Refusal.Memory result (relocation_fault_at source.now.object.now i) }
    ensures items { IfOk result (λ fields. fields.items ≡ fields_of source.now.object.now i) }
    ensures each { IfOk result (λ fields. All (IsField source.now.object.now i) fields.items) }
    ensures order { IfOk result
        (λ _. AreByOffset (relocations_of source.now.object.now i) (fields_of source.now.object.now i)) }
{
    let relocations = relocations(alloc, source.object, i)?;
    check_relocations(alloc, source, i, section, &relocations)?;
    Ok(fields(alloc, &relocations)?)
}

/// Loaded section `i` as it is compared, from its function symbol, fields and variables.
#[tactic(auto, unfolding(crate::specs::Normal::normal_section, crate::specs::References::references_of, crate::specs::References::blanked_bytes))]
fn read_section<'a>(
    alloc: Global,
    source: &Source<'_, 'a>,
    i: u32,
    section: &Section<'a>,
    function: Option<u32>,
    fields: &[Reloc],
    objects: Objects<'a>,
) -> Result<NormalSection<'a>, AllocError>
    requires loaded { IsLoadedSection source.now.object.now i section.now }
    requires function { function ≡ function_symbol source.now.object.now i }
    requires fields { fields.now ≡ fields_of source.now.object.now i }
    requires each { All (IsField source.now.object.now i) fields.now }
    requires objects { objects ≡ objects_of source.now.object.now i }
    ensures { IfOk result (λ read. read ≡ normal_section source.now.object.now i) }
{
    Ok(NormalSection {
        name: Span::new(section.name),
        class: class_of(section),
        function: function_name(source.object, function),
        global: is_global_function(source.object, function),
        align: section.align,
        size: section.size,
        bytes: Bytes::from_vec(blanked(alloc, section.bytes, fields)?),
        refs: references(alloc, source, i, section, fields)?,
        objects,
    })
}

/// The function symbol that a section of this class has.
fn symbol_of(class: Class, functions: Functions) -> Option<u32>
    ensures { result ≡ (if is_code_class class then functions.first else None) }
{
    if class.is_code() {
        functions.first
    } else {
        None
    }
}

fn function_name<'a>(object: &Object<'a>, symbol: Option<u32>) -> Option<Span<'a>>
    requires { ForSome symbol (λ k. (0 < k) × (k < symbol_count object.now)) }
    ensures { result ≡ option_map (symbol_name object.now) symbol }
{
    let k = symbol?;
    Some(Span::new(object.symbol(k).name))
}

/// Whether a function is seen from other objects.
fn is_global_function(object: &Object<'_>, symbol: Option<u32>) -> bool
    requires { ForSome symbol (λ k. (0 < k) × (k < symbol_count object.now)) }
    ensures { result ≡ is_global_at object.now symbol }
{
    match symbol {
        Some(k) => is_global(object.symbol(k).info),
        None => false,
    }
}
