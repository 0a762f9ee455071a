//! The sections of small objects, their references and variables; the values of fields; and refusals.

use crate::objects::put_row;
use elf32_object::types::ObjectFault;
use i386_reloc::{
    Class, Form, Normal, NormalSection, Ref, Target, field_value, object_refusal, read_sections,
};
use ks_base::{Line, Refusal};
use std::alloc::{AllocError, Global};
use std::process::Abort;
use std::test::Fail;

/// Sections: 1 `.text.f` of six bytes, 2 `.text.g` of one byte, 3 `.rel` (not a relocation section, though laid out as
/// one of section 1), 4 to 6 the symbol table and its strings. Symbols: 1 `alias`, no function, 2 the local function
/// `g`, 3 the weak function `f`, 4 the global function `alias`, which is `f` again.
const FUNCTIONS: &[u8] =
    b"\x7fELF\x01\x01\x01\0\0\0\0\0\0\0\0\0\x01\0\x03\0\x01\0\0\0\0\0\0\0\0\0\0\0\xd4\0\0\0\0\0\0\04\0\0\0\0\0(\0\x07\0\
    \x06\0\xb8\x01\0\0\0\xc3\0\0\xc3\0\0\0\x01\0\0\0\x01\x02\0\0\0\0\0\0\0\0\0\0\0\0\0\0\0\0\0\0\x03\0\0\0\0\0\0\0\0\
    \0\0\0\0\0\x01\0\x09\0\0\0\0\0\0\0\x01\0\0\0\x02\0\x02\0\x01\0\0\0\0\0\0\0\x06\0\0\0\"\0\x01\0\x03\0\0\0\0\0\0\0\
    \x06\0\0\0\x12\0\x01\0\0f\0alias\0g\0\0\0.text.f\0.text.g\0.rel\0.symtab\0.strtab\0.shstrtab\0\0\0\0\0\0\0\0\0\0\
    \0\0\0\0\0\0\0\0\0\0\0\0\0\0\0\0\0\0\0\0\0\0\0\0\0\0\0\0\0\0\0\x01\0\0\0\x01\0\0\0\x06\0\0\0\0\0\0\04\0\0\0\x06\0\
    \0\0\0\0\0\0\0\0\0\0\x10\0\0\0\0\0\0\0\x09\0\0\0\x01\0\0\0\x06\0\0\0\0\0\0\0<\0\0\0\x01\0\0\0\0\0\0\0\0\0\0\0\x10\
    \0\0\0\0\0\0\0\x11\0\0\0\x01\0\0\0\0\0\0\0\0\0\0\0@\0\0\0\x08\0\0\0\x04\0\0\0\x01\0\0\0\x04\0\0\0\x08\0\0\0\x16\0\
    \0\0\x02\0\0\0\0\0\0\0\0\0\0\0H\0\0\0P\0\0\0\x05\0\0\0\x03\0\0\0\x04\0\0\0\x10\0\0\0\x1e\0\0\0\x03\0\0\0\0\0\0\0\
    \0\0\0\0\x98\0\0\0\x0b\0\0\0\0\0\0\0\0\0\0\0\x01\0\0\0\0\0\0\0&\0\0\0\x03\0\0\0\0\0\0\0\0\0\0\0\xa4\0\0\00\0\0\0\
    \0\0\0\0\0\0\0\0\x01\0\0\0\0\0\0\0";

/// The sections: class, size, alignment, whether it is seen from other objects; its function; and its bytes.
const OF_FUNCTIONS: &str = "\
.text.f 1 6 16 1
is f
bytes 184 1 0 0 0 195
.text.g 1 1 16 0
is g
bytes 195
";

/// Sections: 1 `.text.f`, 2 `.rodata.str` of the texts `ab` and `cdef`, 3 `.rodata.k`, 4 `.data.v`, 5 `.bss.z`, 6 and 7
/// the relocations of sections 1 and 3, 8 to 10 the symbol table and its strings. Symbols: 1 section 2, 2 `.LC` at
/// offset 3 of section 2, 3 the function `f`, 4 `printf`, undefined, 5 the global variable `v` and 6 the local `w` of
/// section 4, 7 `c`, common, 8 `abs`, absolute, 9 undefined without a name, 10 section 9.
const REFERENCES: &[u8] =
    b"\x7fELF\x01\x01\x01\0\0\0\0\0\0\0\0\0\x01\0\x03\0\x01\0\0\0\0\0\0\0\0\0\0\0\xcc\x01\0\0\0\0\0\04\0\0\0\0\0(\0\x0b\
    \0\x0a\0\x03\0\0\0\xff\xff\xff\xff\xfe\xff\xff\xff\xfc\xff\xff\xff\xfc\xff\xff\xff\xc3\0\0\0ab\0cdef\0\x11\"3D\
    \x07\0\0\0\x01\x02\x03\x04\x05\x06\x07\x08\x0c\0\0\0\x02\x04\0\0\0\0\0\0\x01\x01\0\0\x05\0\0\0\0\0\0\0\x04\0\0\0\
    \x01\x02\0\0\x08\0\0\0\x01\x06\0\0\x10\0\0\0\x04\x03\0\0\x04\0\0\0\x01\x07\0\0\0\0\0\0\0\0\0\0\0\0\0\0\0\0\0\0\0\
    \0\0\0\0\0\0\0\0\0\0\0\x03\0\x02\0\x01\0\0\0\x03\0\0\0\0\0\0\0\0\0\x02\0\x05\0\0\0\0\0\0\0\0\0\0\0\x12\0\x01\0\
    \x07\0\0\0\0\0\0\0\0\0\0\0\x10\0\0\0\x0e\0\0\0\0\0\0\0\0\0\0\0\x11\0\x04\0\x10\0\0\0\x04\0\0\0\0\0\0\0\x01\0\x04\
    \0\x12\0\0\0\x04\0\0\0\0\0\0\0\x11\0\xf2\xff\x14\0\0\0\x01\0\0\0\0\0\0\0\x10\0\xf1\xff\0\0\0\0\0\0\0\0\0\0\0\0\
    \x10\0\0\0\x18\0\0\0\0\0\0\0\0\0\0\0\x03\0\x09\0\0.LC\0f\0printf\0v\0w\0c\0abs\0s\0\0\0\0.text.f\0.rodata.str\0.r\
    odata.k\0.data.v\0.bss.z\0.rel.text.f\0.rel.rodata.k\0.symtab\0.strtab\0.shstrtab\0\0\0\0\0\0\0\0\0\0\0\0\0\0\0\0\
    \0\0\0\0\0\0\0\0\0\0\0\0\0\0\0\0\0\0\0\0\0\0\0\0\0\0\0\x01\0\0\0\x01\0\0\0\x06\0\0\0\0\0\0\04\0\0\0\x15\0\0\0\0\0\
    \0\0\0\0\0\0\x10\0\0\0\0\0\0\0\x09\0\0\0\x01\0\0\02\0\0\0\0\0\0\0L\0\0\0\x08\0\0\0\0\0\0\0\0\0\0\0\x01\0\0\0\x01\
    \0\0\0\x15\0\0\0\x01\0\0\0\x02\0\0\0\0\0\0\0T\0\0\0\x08\0\0\0\0\0\0\0\0\0\0\0\x04\0\0\0\0\0\0\0\x1f\0\0\0\x01\0\0\
    \0\x03\0\0\0\0\0\0\0\\\0\0\0\x08\0\0\0\0\0\0\0\0\0\0\0\x04\0\0\0\0\0\0\0'\0\0\0\x08\0\0\0\x03\0\0\0\0\0\0\0d\0\0\
    \0\x04\0\0\0\0\0\0\0\0\0\0\0\x04\0\0\0\0\0\0\0.\0\0\0\x09\0\0\0\0\0\0\0\0\0\0\0d\0\0\00\0\0\0\x08\0\0\0\x01\0\0\0\
    \x04\0\0\0\x08\0\0\0:\0\0\0\x09\0\0\0\0\0\0\0\0\0\0\0\x94\0\0\0\x08\0\0\0\x08\0\0\0\x03\0\0\0\x04\0\0\0\x08\0\0\0\
    H\0\0\0\x02\0\0\0\0\0\0\0\0\0\0\0\x9c\0\0\0\xb0\0\0\0\x09\0\0\0\x0b\0\0\0\x04\0\0\0\x10\0\0\0P\0\0\0\x03\0\0\0\0\
    \0\0\0\0\0\0\0L\x01\0\0\x1a\0\0\0\0\0\0\0\0\0\0\0\x01\0\0\0\0\0\0\0X\0\0\0\x03\0\0\0\0\0\0\0\0\0\0\0h\x01\0\0b\0\
    \0\0\0\0\0\0\0\0\0\0\x01\0\0\0\0\0\0\0";

/// The sections, with zeros in their fields. A reference has its offset, its addend, whether it is relative, and of a
/// text the offset and the bytes; a variable has its value, and whether it is seen from other objects.
const OF_REFERENCES: &str = "\
.text.f 1 21 16 1
is f
bytes 0 0 0 0 0 0 0 0 0 0 0 0 0 0 0 0 0 0 0 0 195
text .rodata.str 0 0 0 3
says cdef\\x00
text .rodata.str 4 4294967295 0 3
says cdef\\x00
section .data.v 8 2 0
outside printf 12 4294967292 1
section .text.f 16 4294967292 1
.rodata.str 3 8 1 0
bytes 97 98 0 99 100 101 102 0
.rodata.k 4 8 4 0
bytes 17 34 51 68 0 0 0 0
outside c 4 7 0
.data.v 2 8 4 0
bytes 1 2 3 4 5 6 7 8
has v 0 1
has w 4 0
.bss.z 0 4 4 0
bytes
";

fn number_of(class: Class) -> u32 {
    match class {
        Class::Zero => 0,
        Class::Code => 1,
        Class::Writable => 2,
        Class::Strings => 3,
        Class::ReadOnly => 4,
    }
}

fn put_reference(alloc: Global, line: &mut Line, reference: &Ref<'_>) -> Result<(), AllocError> {
    let relative = u32::from(reference.form == Form::Relative);
    let numbers = [reference.offset, reference.addend, relative];
    match &reference.target {
        Target::Section(name) => {
            line.put_text("section ")?;
            put_row(alloc, line, name.as_slice(), &numbers)
        }
        Target::Outside(name) => {
            line.put_text("outside ")?;
            put_row(alloc, line, name.as_slice(), &numbers)
        }
        Target::Text {
            section,
            offset,
            text,
        } => {
            let numbers = [reference.offset, reference.addend, relative, *offset];
            line.put_text("text ")?;
            put_row(alloc, line, section.as_slice(), &numbers)?;
            line.put_text("says ")?;
            put_row(alloc, line, text.as_slice(), &[])
        }
    }
}

fn numbers_of(alloc: Global, bytes: &[u8]) -> Result<Vec<u32>, AllocError> {
    let mut numbers = Vec::new(alloc);
    for byte in bytes {
        numbers.push(u32::from(*byte))?;
    }
    Ok(numbers)
}

fn put_section(
    alloc: Global,
    line: &mut Line,
    section: &NormalSection<'_>,
) -> Result<(), AllocError> {
    let numbers = [
        number_of(section.class),
        section.size,
        section.align,
        u32::from(section.global),
    ];
    put_row(alloc, line, section.name.as_slice(), &numbers)?;
    if section.class.is_code() {
        line.put_text("is ")?;
        put_row(alloc, line, section.function_name(), &[])?;
    }
    let bytes = numbers_of(alloc, section.bytes.as_slice())?;
    put_row(alloc, line, b"bytes", bytes.as_slice())?;
    for reference in section.refs.as_slice() {
        put_reference(alloc, line, reference)?;
    }
    for object in section.objects.as_slice() {
        line.put_text("has ")?;
        let numbers = [object.value, u32::from(object.global)];
        put_row(alloc, line, object.name.as_slice(), &numbers)?;
    }
    Ok(())
}

/// All sections of an object.
fn put_sections(alloc: Global, line: &mut Line, normal: &Normal<'_>) -> Result<(), AllocError> {
    for section in normal.as_slice() {
        put_section(alloc, line, section)?;
    }
    Ok(())
}

fn are_sections(rt: &impl Abort, alloc: Global, file: &[u8], wanted: &str) -> Result<(), Fail> {
    let normal = read_sections(alloc, file).ok().ok_or("no sections")?;
    let mut line = Line::new(alloc);
    put_sections(alloc, &mut line, &normal)?;
    let got = std::str::from_utf8(line.bytes()).unwrap_or("");
    assert!(rt; line.bytes() == wanted.as_bytes(), "{got}");
    Ok(())
}

#[test]
fn sections_of_objects(rt: HostRuntime) -> Result<(), Fail> {
    are_sections(&rt, rt.alloc(), FUNCTIONS, OF_FUNCTIONS)?;
    are_sections(&rt, rt.alloc(), REFERENCES, OF_REFERENCES)
}

#[test]
fn finds_sections_and_targets(rt: HostRuntime) -> Result<(), Fail> {
    let normal = read_sections(rt.alloc(), REFERENCES)
        .ok()
        .ok_or("no sections")?;
    let found = [
        normal.target_place(0, 0),
        normal.target_place(0, 1),
        normal.target_place(0, 2),
        normal.target_place(0, 3),
        normal.target_place(0, 4),
        normal.target_place(0, 5),
        normal.target_place(9, 0),
    ];
    assert!(rt; found == [Some(1), Some(1), Some(3), None, Some(0), None, None]);
    assert!(rt; normal.len() == 5 && normal.place(b".rodata.k") == Some(2));
    assert!(rt; normal.find(b".text.h").is_none());
    Ok(())
}

#[test]
fn values(rt: HostRuntime) {
    let values = [
        (Form::Absolute, 0x1000, 8, 0x2001, 0x1008),
        (Form::Absolute, 5, 0xffff_ffff, 9, 4),
        (Form::Relative, 0x1000, 0xffff_fffc, 0x2001, 0xffff_effb),
        (Form::Relative, 0, 0, 0, 0),
    ];
    for (form, s, a, p, value) in values {
        assert!(rt; field_value(form, s, a, p) == value);
    }
}

/// The refusal of a fault, and that of an object of two sections of one name.
fn put_refusals(alloc: Global, line: &mut Line) -> Result<(), AllocError> {
    line.put_refusal(&object_refusal(ObjectFault::BadReloc(5, 6)))?;
    let mut file = FUNCTIONS.to_vec(alloc)?;
    if let Some(byte) = file.get_mut(292) {
        *byte = 1;
    }
    match read_sections(alloc, file.as_slice()) {
        Ok(_) => line.put_text("read\n"),
        Err(refusal) => line.put_refusal(&refusal),
    }
}

#[test]
fn refusals(rt: HostRuntime) -> Result<(), Fail> {
    let mut line = Line::new(rt.alloc());
    put_refusals(rt.alloc(), &mut line)?;
    let wanted = "refused 6 bad relocation 5 6\nrefused 9 double name .text.f\n";
    assert!(rt; line.bytes() == wanted.as_bytes());
    assert!(rt; matches!(object_refusal(ObjectFault::Memory), Refusal::Memory));
    Ok(())
}
