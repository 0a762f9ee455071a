//! The two objects of a work.
ghost use Rattle.std.specs.Prelude.{◌≡◌, ◌++◌, ◌+◌, ◌-◌, [], ◌∷◌, map, length, codes, OnOk, IfOk};
ghost use Rattle.std.specs.List.{flat_map};
ghost use Rattle.work_gen.specs.Encoding.{ended};
ghost use Rattle.work_gen.specs.ElfFile.{string_table};
ghost use Rattle.work_gen.specs.Functions.{functions, function_name, object_code};
ghost use Rattle.work_gen.specs.Objects.{code_section, relocation_section, symbol, section_symbol};
ghost use Rattle.work_gen.specs.Objects.{function_symbols, symbols, symbol_table, symbol_names, object_file};
ghost use Rattle.work_gen.specs.inside.Builds.{count_of, constants_of};

use crate::elf_file::{elf_file, string_table};
use crate::encoding::{put_copies, put_half, put_words};
use crate::functions::{
    ADDEND, calls_next, code_size, function_count, put_code, put_function_name,
};
use crate::types::{Build, Section};
use ks_base::{Bytes, ListOf};
use std::alloc::{AllocError, Global};

const PROGBITS: usize = 1;

const SYMTAB: usize = 2;

const REL: usize = 9;

/// The flags ALLOC and EXECINSTR.
const LOADED_CODE: usize = 6;

const ENTRY_OF_REL: usize = 8;

const ENTRY_OF_SYMTAB: usize = 16;

/// The type of a relocation that is a distance from its field, R_386_PC32.
const RELATIVE: usize = 2;

/// Where a call's field stands in its function.
const CALL_FIELD: usize = 6;

const LOCAL_SECTION: u8 = 0x03;

const GLOBAL_FUNCTION: u8 = 0x12;

/// The object file of a build.
#[tactic(auto, using(crate::proofs::AppendLaws::append_laws), unfolding(crate::specs::Objects::object_file, crate::specs::Objects::sections))]
pub(crate) fn object_file(alloc: Global, build: Build) -> Result<Bytes, AllocError>
    ensures { IfOk result (λ file. file ≡ object_file (count_of build) (constants_of build)) }
{
    let mut sections: ListOf<Section> = ListOf::new(alloc);
    put_code_sections(alloc, &mut sections, build)?;
    put_relocation_sections(alloc, &mut sections, function_count(build.number))?;
    put_tables(alloc, &mut sections, build)?;
    elf_file(alloc, sections.as_slice())
}

/// The section of function `i`.
#[tactic(auto, unfolding(crate::specs::Objects::code_section, crate::specs::Objects::section_name, crate::specs::Functions::object_code))]
fn code_section(alloc: Global, build: Build, i: u32) -> Result<Section, AllocError>
    ensures { IfOk result (λ section. section ≡ code_section (count_of build) (constants_of build) i) }
{
    let calls = calls_next(function_count(build.number), i);
    let mut name = Vec::from_slice(alloc, b".text.")?;
    put_function_name(&mut name, i)?;
    let mut code = Vec::new(alloc);
    put_code(&mut code, calls, ADDEND, build.constant(i))?;
    Ok(Section {
        name: Bytes::from_vec(name),
        kind: PROGBITS,
        flags: LOADED_CODE,
        link: 0,
        info: 0,
        alignment: 16,
        entry_size: 0,
        content: Bytes::from_vec(code),
    })
}

#[tactic(auto, using(crate::proofs::AppendLaws::count_laws))]
fn put_code_sections(
    alloc: Global,
    sections: &mut ListOf<Section>,
    build: Build,
) -> Result<(), AllocError>
    ensures { OnOk result (sections.new
        ≡ sections.old ++ map (code_section (count_of build) (constants_of build)) (functions (count_of build))) }
{
    for i in 0..function_count(build.number) {
        sections.push(code_section(alloc, build, i)?)?;
    }
    Ok(())
}

/// The relocations of function `i`: the symbol of the next function's section has that section's index.
#[tactic(auto, unfolding(crate::specs::Objects::relocation_section, crate::specs::Objects::section_name))]
fn relocation_section(alloc: Global, count: u32, i: u32) -> Result<Section, AllocError>
    ensures { IfOk result (λ section. section ≡ relocation_section count i) }
{
    let mut name = Vec::from_slice(alloc, b".rel.text.")?;
    put_function_name(&mut name, i)?;
    let mut entries = Vec::new(alloc);
    put_words(
        &mut entries,
        &[CALL_FIELD, 256 * (i as usize + 2) + RELATIVE],
    )?;
    Ok(Section {
        name: Bytes::from_vec(name),
        kind: REL,
        flags: 0,
        link: 2 * count as usize,
        info: i as usize + 1,
        alignment: 4,
        entry_size: ENTRY_OF_REL,
        content: Bytes::from_vec(entries),
    })
}

#[tactic(auto, using(crate::proofs::AppendLaws::count_laws))]
fn put_relocation_sections(
    alloc: Global,
    sections: &mut ListOf<Section>,
    count: u32,
) -> Result<(), AllocError>
    ensures { OnOk result
        (sections.new ≡ sections.old ++ map (relocation_section count) (functions (count - 1))) }
{
    for i in 0..count.saturating_sub(1) {
        sections.push(relocation_section(alloc, count, i)?)?;
    }
    Ok(())
}

/// Appends a symbol at the start of a section: where its name begins, its size, and its type with its binding.
#[tactic(auto, using(crate::proofs::AppendLaws::append_laws), unfolding(crate::specs::Objects::symbol))]
fn put_symbol(
    to: &mut Vec<u8>,
    name: usize,
    size: usize,
    info: u8,
    section: usize,
) -> Result<(), AllocError>
    ensures { OnOk result (to.new.items ≡ to.old.items ++ symbol name size info section) }
{
    put_words(to, &[name, 0, size])?;
    to.extend_from_slice(&[info, 0])?;
    put_half(to, section)
}

#[tactic(auto, using(crate::proofs::AppendLaws::count_laws))]
fn put_section_symbols(to: &mut Vec<u8>, count: u32) -> Result<(), AllocError>
    ensures { OnOk result (to.new.items ≡ to.old.items ++ flat_map section_symbol (functions count)) }
{
    for i in 0..count {
        put_symbol(to, 0, 0, LOCAL_SECTION, i as usize + 1)?;
    }
    Ok(())
}

/// Appends the symbol of function `i`, whose name goes to the names.
#[tactic(auto, using(crate::proofs::AppendLaws::append_laws), unfolding(crate::specs::Functions::object_code))]
fn put_function_symbol(
    to: &mut Vec<u8>,
    names: &mut Vec<u8>,
    build: Build,
    i: u32,
) -> Result<(), AllocError>
    ensures entries { OnOk result (to.new.items ≡ to.old.items ++ symbol (length names.old.items)
        (length (object_code (count_of build) (constants_of build) i)) 0x12 (i + 1)) }
    ensures names { OnOk result (names.new.items ≡ names.old.items ++ ended (function_name i)) }
{
    let size = code_size(calls_next(function_count(build.number), i));
    put_symbol(to, names.len(), size, GLOBAL_FUNCTION, i as usize + 1)?;
    put_function_name(names, i)?;
    names.push(0)?;
    Ok(())
}

/// Appends the symbols of all functions, whose names go to the names.
fn put_function_symbols(
    to: &mut Vec<u8>,
    names: &mut Vec<u8>,
    build: Build,
) -> Result<(), AllocError>
    ensures entries { OnOk result (to.new.items ≡ to.old.items
        ++ function_symbols (count_of build) (constants_of build) (length names.old.items) (functions (count_of build))) }
    ensures names { OnOk result (names.new.items ≡ names.old.items
        ++ flat_map ended (map function_name (functions (count_of build)))) }
{
    for i in 0..function_count(build.number) {
        put_function_symbol(to, names, build, i)?;
    }
    Ok(())
}

/// The symbol table of so many functions.
#[tactic(auto, unfolding(crate::specs::Objects::symbol_table))]
fn symbol_table(alloc: Global, count: u32, entries: Vec<u8>) -> Result<Section, AllocError>
    ensures { IfOk result (λ section. section ≡ symbol_table count entries.items) }
{
    let name = Bytes::from_slice(alloc, b".symtab")?;
    Ok(Section {
        name,
        kind: SYMTAB,
        flags: 0,
        link: 2 * count as usize + 1,
        info: count as usize + 1,
        alignment: 4,
        entry_size: ENTRY_OF_SYMTAB,
        content: Bytes::from_vec(entries),
    })
}

/// Appends all symbols. The functions' names go to the names, which have one zero so far.
#[tactic(auto, using(crate::proofs::AppendLaws::append_laws), unfolding(crate::specs::Objects::symbols))]
fn put_symbols(to: &mut Vec<u8>, names: &mut Vec<u8>, build: Build) -> Result<(), AllocError>
    requires { length names.old.items ≡ 1 }
    ensures entries { OnOk result
        (to.new.items ≡ to.old.items ++ symbols (count_of build) (constants_of build)) }
    ensures names { OnOk result (names.new.items ≡ names.old.items
        ++ flat_map ended (map function_name (functions (count_of build)))) }
{
    put_copies(to, 0, ENTRY_OF_SYMTAB)?;
    put_section_symbols(to, function_count(build.number))?;
    put_function_symbols(to, names, build)
}

/// Adds the symbols and their names, each a section.
fn put_tables(alloc: Global, sections: &mut ListOf<Section>, build: Build) -> Result<(), AllocError>
    ensures { OnOk result (sections.new ≡ sections.old
        ++ symbol_table (count_of build) (symbols (count_of build) (constants_of build))
        ∷ string_table (codes ".strtab") (symbol_names (count_of build)) ∷ []) }
{
    let mut entries = Vec::new(alloc);
    let mut names = Vec::from_slice(alloc, &[0])?;
    put_symbols(&mut entries, &mut names, build)?;
    sections.push(symbol_table(alloc, function_count(build.number), entries)?)?;
    sections.push(string_table(alloc, b".strtab", names)?)
}
