//! Reads a small object, and files that are as long as they may be, and longer.

use elf32_object::read_object;
use elf32_object::types::{Large, ObjectFault, Reloc, Section, Symbol};
use ks_base::{Line, Name};
use std::alloc::{AllocError, Global};
use std::process::Abort;
use std::test::Fail;

/// An object of 808 bytes. Its sections are `.text.f` (6 bytes), `.text.main` (11), `.data.d` (8), `.bss.b` (8),
/// `.eh_frame` (4), the relocations of `.text.f` (one) and `.text.main` (two), the symbol table (9 symbols) and the two
/// string tables.
const OBJECT: &[u8] =
    b"\x7fELF\x01\x01\x01\0\0\0\0\0\0\0\0\0\x01\0\x03\0\x01\0\0\0\0\0\0\0\0\0\0\0p\x01\0\0\0\0\0\04\0\0\0\0\0(\0\x0b\0\
    \x0a\0\xb8\x04\0\0\0\xc3\0\0\xe8\xfc\xff\xff\xff\xe8\xfc\xff\xff\xff\xc3\0\x01\x02\x03\x04\x05\x06\x07\x08\0\0\0\
    \0\x01\0\0\0\x01\x03\0\0\x01\0\0\0\x02\x01\0\0\x06\0\0\0\x02\x08\0\0\0\0\0\0\0\0\0\0\0\0\0\0\0\0\0\0\0\0\0\0\0\0\
    \0\0\0\0\0\0\x03\0\x01\0\0\0\0\0\0\0\0\0\0\0\0\0\x03\0\x02\0\0\0\0\0\0\0\0\0\0\0\0\0\x03\0\x03\0\0\0\0\0\0\0\0\0\
    \0\0\0\0\x03\0\x04\0\0\0\0\0\0\0\0\0\0\0\0\0\x03\0\x05\0\x01\0\0\0\0\0\0\0\x06\0\0\0\x12\0\x01\0\x03\0\0\0\0\0\0\
    \0\x0b\0\0\0\x12\0\x02\0\x08\0\0\0\0\0\0\0\0\0\0\0\x10\0\0\0\0f\0main\0puts\0\0\0\0\0.text.f\0.text.main\0.data.d\
    \0.bss.b\0.eh_frame\0.rel.text.f\0.rel.text.main\0.symtab\0.strtab\0.shstrtab\0\0\0\0\0\0\0\0\0\0\0\0\0\0\0\0\0\0\
    \0\0\0\0\0\0\0\0\0\0\0\0\0\0\0\0\0\0\0\0\0\0\0\0\0\x01\0\0\0\x01\0\0\0\x06\0\0\0\0\0\0\04\0\0\0\x06\0\0\0\0\0\0\0\
    \0\0\0\0\x10\0\0\0\0\0\0\0\x09\0\0\0\x01\0\0\0\x06\0\0\0\0\0\0\0<\0\0\0\x0b\0\0\0\0\0\0\0\0\0\0\0\x10\0\0\0\0\0\0\
    \0\x14\0\0\0\x01\0\0\0\x03\0\0\0\0\0\0\0H\0\0\0\x08\0\0\0\0\0\0\0\0\0\0\0\x04\0\0\0\0\0\0\0\x1c\0\0\0\x08\0\0\0\
    \x03\0\0\0\0\0\0\0\0\0\0\0\x08\0\0\0\0\0\0\0\0\0\0\0\x04\0\0\0\0\0\0\0#\0\0\0\x01\0\0\0\x02\0\0\0\0\0\0\0P\0\0\0\
    \x04\0\0\0\0\0\0\0\0\0\0\0\x01\0\0\0\0\0\0\0-\0\0\0\x09\0\0\0\0\0\0\0\0\0\0\0T\0\0\0\x08\0\0\0\x08\0\0\0\x01\0\0\
    \0\x04\0\0\0\x08\0\0\09\0\0\0\x09\0\0\0\0\0\0\0\0\0\0\0\\\0\0\0\x10\0\0\0\x08\0\0\0\x02\0\0\0\x04\0\0\0\x08\0\0\0\
    H\0\0\0\x02\0\0\0\0\0\0\0\0\0\0\0l\0\0\0\x90\0\0\0\x09\0\0\0\x06\0\0\0\x04\0\0\0\x10\0\0\0P\0\0\0\x03\0\0\0\0\0\0\
    \0\0\0\0\0\xfc\0\0\0\x0d\0\0\0\0\0\0\0\0\0\0\0\x01\0\0\0\0\0\0\0X\0\0\0\x03\0\0\0\0\0\0\0\0\0\0\0\x0c\x01\0\0b\0\
    \0\0\0\0\0\0\0\0\0\0\x01\0\0\0\0\0\0\0";

/// How many bytes stand after the object, and the rule that is broken then.
static TOO_LONG: [(usize, Option<ObjectFault>); 3] = [
    (0, None),
    (8_387_800, None),
    (8_387_801, Some(ObjectFault::TooLarge(Large::Bytes))),
];

/// The fault of the object with zeros after it.
fn fault_of(alloc: Global, more: usize) -> Result<Option<ObjectFault>, AllocError> {
    let mut bytes = OBJECT.to_vec(alloc)?;
    for _ in 0..more {
        bytes.push(0)?;
    }
    Ok(read_object(alloc, &bytes).err())
}

#[test]
fn files_too_long(rt: HostRuntime) -> Result<(), Fail> {
    for (more, fault) in TOO_LONG.iter() {
        assert!(rt; fault_of(rt.alloc(), *more)? == *fault);
    }
    Ok(())
}

/// A name, and then numbers.
pub(crate) fn put_row(
    alloc: Global,
    line: &mut Line,
    name: &[u8],
    numbers: &[u32],
) -> Result<(), AllocError> {
    let name = Name::from_slice(alloc, name)?;
    line.put_name(&name)?;
    for number in numbers {
        line.put_text(" ")?;
        line.put_number(u64::from(*number))?;
    }
    line.put_text("\n")
}

fn put_section(alloc: Global, line: &mut Line, read: &Section<'_>) -> Result<(), AllocError> {
    let in_file = u32::try_from(read.bytes.len()).unwrap_or(u32::MAX);
    let numbers = [
        read.kind,
        read.flags,
        read.align,
        read.entry,
        read.size,
        in_file,
        u32::from(read.loaded),
    ];
    put_row(alloc, line, read.name, &numbers)
}

fn put_symbol(alloc: Global, line: &mut Line, read: &Symbol<'_>) -> Result<(), AllocError> {
    let numbers = [
        read.value,
        read.size,
        u32::from(read.info),
        u32::from(read.section),
    ];
    put_row(alloc, line, read.name, &numbers)
}

/// The sections from 1 on: the name; type, flags, alignment, entry size and size; how many bytes stand in the file;
/// whether it is loaded. Then the symbols from 1 on: the name, value, size, info and section.
const ALL: &str = ".text.f 1 6 16 0 6 6 1
.text.main 1 6 16 0 11 11 1
.data.d 1 3 4 0 8 8 1
.bss.b 8 3 4 0 8 0 1
.eh_frame 1 2 1 0 4 4 0
.rel.text.f 9 0 4 8 8 8 0
.rel.text.main 9 0 4 8 16 16 0
.symtab 2 0 4 16 144 144 0
.strtab 3 0 1 0 13 13 0
.shstrtab 3 0 1 0 98 98 0
 0 0 3 1
 0 0 3 2
 0 0 3 3
 0 0 3 4
 0 0 3 5
f 0 6 18 1
main 0 11 18 2
puts 0 0 16 0
";

/// All sections and symbols of the object.
fn put_all(alloc: Global, line: &mut Line) -> Result<(), Fail> {
    let object = read_object(alloc, OBJECT).ok().ok_or("not read")?;
    for i in 1..object.section_count() {
        put_section(alloc, line, &object.section(i))?;
    }
    for k in 1..object.symbol_count() {
        put_symbol(alloc, line, &object.symbol(k))?;
    }
    Ok(())
}

#[test]
fn sections_and_symbols(rt: HostRuntime) -> Result<(), Fail> {
    let mut line = Line::new(rt.alloc());
    put_all(rt.alloc(), &mut line)?;
    assert!(rt; line.bytes() == ALL.as_bytes());
    Ok(())
}

/// The relocation of a number of a section.
fn relocation(rt: &impl Abort, alloc: Global, section: u32, k: u32) -> Result<Reloc, Fail> {
    let object = read_object(alloc, OBJECT).ok().ok_or("not read")?;
    assert!(rt; 0 < section && section < object.section_count());
    assert!(rt; object.section(section).loaded && k < object.reloc_count(section));
    Ok(object.reloc(section, k))
}

#[test]
fn relocations_by_number(rt: HostRuntime) -> Result<(), Fail> {
    for (section, k, offset, symbol, kind, from, index) in [
        (1, 0, 1, 3, 1, 6, 0),
        (2, 0, 1, 1, 2, 7, 0),
        (2, 1, 6, 8, 2, 7, 1),
    ] {
        let expected = Reloc {
            offset,
            symbol,
            kind,
            from,
            index,
        };
        assert!(rt; relocation(&rt, rt.alloc(), section, k)? == expected);
    }
    Ok(())
}
