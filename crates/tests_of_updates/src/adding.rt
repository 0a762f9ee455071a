//! What an update adds: its pieces, its symbols, and its report.

use crate::retired::{Old, olds_of, pieces_of, ranges_of};
use elf32_object::read_object;
use i386_reloc::{Class, Normal, NormalSection, ObjectSymbol, Objects, Refs, Span, normalise};
use image_memory::{Kind, Pieces};
use ks_base::{Added, Bytes, ListOf, Name, Names, Replaced, Report};
use link_post::{Placed, Placement, ascend, in_order, place};
use object_builder::Kind::{Global as Function, Strings, Zeros};
use object_builder::{ABSOLUTE, RELATIVE, Section, object};
use std::alloc::{AllocError, Global};
use std::process::Abort;
use std::test::Fail;
use symbol_table::{Solved, Symbol, Unknown, Values};
use update_pieces::{NewSymbols, Part, Role, new_pieces, new_symbols, report_of, sizes};
use update_retired::Fate;

/// A function that calls another one, reads a variable, takes the address of the text `hi` and calls an outside name.
const SECTIONS: [Section; 4] = [
    Section {
        name: ".text.f",
        kind: Function("f"),
        bytes: b"\xe8\xfc\xff\xff\xff\xa1\0\0\0\0\xb8\x02\0\0\0\xe8\xfc\xff\xff\xff\xc3",
        references: &[
            (1, RELATIVE, ".text.g"),
            (6, ABSOLUTE, ".bss.n"),
            (11, ABSOLUTE, ".rodata.str1.1"),
            (16, RELATIVE, "spin"),
        ],
    },
    Section {
        name: ".bss.n",
        kind: Zeros,
        bytes: b"\0\0\0\0",
        references: &[],
    },
    Section {
        name: ".rodata.str1.1",
        kind: Strings,
        bytes: b"z\0hi\0",
        references: &[],
    },
    Section {
        name: ".text.g",
        kind: Function("g"),
        bytes: b"\xc3",
        references: &[],
    },
];

static ROLES: [Role; 5] = [
    Role::Changed,
    Role::NewData,
    Role::Carried,
    Role::Added,
    Role::Changed,
];

/// Its pieces, where places begin at the first multiple of 16 above 0x00800001, and `spin` is at 0x00100020.
static PIECES: [(Kind, u32, &[u8]); 4] = [
    (
        Kind::Code,
        0x0080_0010,
        b"\xe8\x3b\0\0\0\xa1\x30\0\x80\0\xb8\x42\0\x80\0\xe8\xfc\xff\x8f\xff\xc3",
    ),
    (Kind::Writable, 0x0080_0030, b"\0\0\0\0"),
    (Kind::ReadOnly, 0x0080_0040, b"z\0hi\0"),
    (Kind::Code, 0x0080_0050, b"\xc3"),
];

/// Sections, each with what the update does with it.
fn parts_of<'p, 'a>(
    alloc: Global,
    sections: &'p [NormalSection<'a>],
) -> Result<Vec<Part<'p, 'a>>, AllocError> {
    let mut parts = Vec::new(alloc);
    for (section, role) in sections.iter().zip(&ROLES) {
        parts.push(Part::new(section, *role))?;
    }
    Ok(parts)
}

/// The loaded sections of an object's file.
fn normal_of(alloc: Global, file: &[u8]) -> Result<Normal<'_>, Fail> {
    let object = read_object(alloc, file).ok().ok_or("not read")?;
    Ok(normalise(alloc, &object).ok().ok_or("no sections")?)
}

/// Places for the sections, in one gap.
fn placed(rt: &impl Abort, alloc: Global, parts: &[Part<'_, '_>]) -> Result<Placement, Fail> {
    let gaps = ranges_of(alloc, &[(0x0080_0001, 0x0090_0000)])?;
    assert!(rt; ascend(&gaps));
    let wanted = sizes(alloc, parts)?;
    let placement = place(alloc, wanted.as_slice(), &gaps);
    Ok(placement.ok().ok_or("no room")?)
}

fn values_of(alloc: Global) -> Result<Values, Fail> {
    let mut values = Values::new(alloc);
    let spin = Unknown::Outside(Name::from_slice(alloc, b"spin")?);
    values.insert(spin, Solved::Address(0x0010_0020))?;
    Ok(values)
}

/// The pieces of an object's sections.
fn pieces_added(
    rt: &impl Abort,
    alloc: Global,
    post: &Normal<'_>,
    values: &Values,
) -> Result<Pieces, Fail> {
    let parts = parts_of(alloc, post.as_slice())?;
    let placement = placed(rt, alloc, parts.as_slice())?;
    assert!(rt; in_order(post, &placement));
    Ok(new_pieces(alloc, post, parts.as_slice(), &placement, values)?)
}

#[test]
fn new_pieces_are_linked(rt: HostRuntime) -> Result<(), Fail> {
    let alloc = rt.alloc();
    let file = object(alloc, &SECTIONS)?;
    let post = normal_of(alloc, file.as_slice())?;
    let values = values_of(alloc)?;
    let pieces = pieces_added(&rt, alloc, &post, &values)?;
    assert!(rt; pieces == pieces_of(alloc, &PIECES)?);
    Ok(())
}

/// A section of a new object: its name, its class, the function that it is and whether that is global, its variables,
/// and its place.
type New = (
    &'static str,
    Class,
    Option<(&'static str, bool)>,
    &'static [(&'static str, u32, bool)],
    u32,
);

static NEW: [New; 5] = [
    (
        ".text.b",
        Class::Code,
        Some(("later_b", true)),
        &[],
        0x0080_0000,
    ),
    (
        ".data.n",
        Class::Writable,
        None,
        &[("n", 4, false), ("m", 0xff80_0000, true)],
        0x0080_0040,
    ),
    (
        ".rodata.c",
        Class::ReadOnly,
        None,
        &[("c", 0, true)],
        0x0080_0080,
    ),
    (".text.g", Class::Code, Some(("g", false)), &[], 0x0080_00c0),
    (".text.a", Class::Code, Some(("a", true)), &[], 0x0080_0100),
];

/// The symbols that come of it: address, whether it is a function, whether it is global, and the name.
static SYMBOLS: [(u32, bool, bool, &str); 3] = [
    (0x0080_0044, false, false, "n"),
    (0x0000_0040, false, true, "m"),
    (0x0080_00c0, true, false, "g"),
];

/// The functions of the old object.
const OLDS: [Old; 5] = [
    (b".text.y", 0x0010_0000, 0x0010_0000, 6, Fate::Dropped),
    (b".text.a", 0x0010_0010, 0x0070_0000, 7, Fate::Replaced),
    (b".text.k", 0x0010_0020, 0x0010_0020, 8, Fate::Kept),
    (b".text.b", 0x0010_0030, 0x0010_0030, 9, Fate::Replaced),
    (b".text.x", 0x0010_0040, 0x0010_0040, 10, Fate::Dropped),
];

/// A section without bytes and references.
fn section_of(alloc: Global, row: &New) -> Result<NormalSection<'static>, AllocError> {
    let (name, class, function, variables, _) = *row;
    let mut objects = Objects::new(alloc);
    for (name, value, global) in variables {
        objects.push(ObjectSymbol {
            name: Span::new(name.as_bytes()),
            value: *value,
            global: *global,
        })?;
    }
    Ok(NormalSection {
        name: Span::new(name.as_bytes()),
        class,
        function: function.map(|named| Span::new(named.0.as_bytes())),
        global: function.is_some_and(|named| named.1),
        align: 4,
        size: 8,
        bytes: Bytes::new(alloc),
        refs: Refs::new(alloc),
        objects,
    })
}

fn placement_of(alloc: Global) -> Result<Placement, AllocError> {
    let mut placement = Placement::new(alloc);
    for row in &NEW {
        placement.push(Placed {
            section: Name::from_slice(alloc, row.0.as_bytes())?,
            base: row.4,
        })?;
    }
    Ok(placement)
}

fn symbols_of(alloc: Global) -> Result<NewSymbols, AllocError> {
    let mut symbols = NewSymbols::new(alloc);
    for (address, function, global, name) in &SYMBOLS {
        symbols.push(Symbol {
            address: *address,
            function: *function,
            global: *global,
            name: Name::from_slice(alloc, name.as_bytes())?,
        })?;
    }
    Ok(symbols)
}

fn replaced(
    alloc: Global,
    name: &[u8],
    home: u32,
    base: u32,
    length: u32,
) -> Result<Replaced, AllocError> {
    Ok(Replaced {
        function: Name::from_slice(alloc, name)?,
        home,
        base,
        length,
    })
}

/// What is reported of the new sections and the old functions.
fn reported(alloc: Global) -> Result<Report, AllocError> {
    let mut report = Report {
        replaced: ListOf::new(alloc),
        added: ListOf::new(alloc),
        dropped: Names::new(alloc),
    };
    let first = replaced(alloc, b"b", 0x0010_0030, 0x0080_0000, 9)?;
    report.replaced.push(first)?;
    let second = replaced(alloc, b"a", 0x0010_0010, 0x0080_0100, 7)?;
    report.replaced.push(second)?;
    report.added.push(Added {
        function: Name::from_slice(alloc, b"g")?,
        base: 0x0080_00c0,
    })?;
    report.dropped.push(Name::from_slice(alloc, b"y")?)?;
    report.dropped.push(Name::from_slice(alloc, b"x")?)?;
    Ok(report)
}

fn sections_of(alloc: Global) -> Result<Vec<NormalSection<'static>>, AllocError> {
    let mut sections = Vec::new(alloc);
    for row in &NEW {
        sections.push(section_of(alloc, row)?)?;
    }
    Ok(sections)
}

/// Whether these are the symbols that come of the new sections.
fn are_symbols(
    alloc: Global,
    parts: &[Part<'_, '_>],
    placement: &Placement,
) -> Result<bool, AllocError> {
    let symbols = new_symbols(alloc, parts, placement)?;
    Ok(symbols == symbols_of(alloc)?)
}

/// Whether this is reported of the new sections and the old functions.
fn is_reported(
    alloc: Global,
    parts: &[Part<'_, '_>],
    placement: &Placement,
) -> Result<bool, AllocError> {
    let olds = olds_of(alloc, &OLDS)?;
    let report = report_of(alloc, parts, placement, olds.as_slice())?;
    Ok(report == reported(alloc)?)
}

#[test]
fn symbols_and_report(rt: HostRuntime) -> Result<(), Fail> {
    let alloc = rt.alloc();
    let sections = sections_of(alloc)?;
    let parts = parts_of(alloc, sections.as_slice())?;
    let placement = placement_of(alloc)?;
    assert!(rt; are_symbols(alloc, parts.as_slice(), &placement)?);
    assert!(rt; is_reported(alloc, parts.as_slice(), &placement)?);
    Ok(())
}
