//! New code at its places: the values of its references, its bytes and its needs.

use crate::link_post_files::{NEW, OLD};
use crate::normals::normal_of;
use i386_reloc::Normal;
use ks_base::{Bytes, Name, Names};
use link_post::{Needs, Placed, Placement, in_order, linked, needs, resolve_post};
use std::alloc::Global;
use std::test::Fail;
use symbol_table::{Solved, Symbol, SymbolTable, Unknown, Values};

/// The new sections of the object, and their places.
static PLACES: [(&str, u32); 7] = [
    (".text.main", 0x0080_0010),
    (".text.s", 0x0080_0020),
    (".rodata.s", 0x0080_0040),
    (".text.d", 0x0080_0050),
    (".bss.n", 0x0080_0070),
    (".rodata.str1.1", 0x0080_0080),
    (".text.g", 0x0080_0090),
];

/// A table of symbols: whether each is a function, its name and its address.
fn table_of(alloc: Global, symbols: &[(bool, &str, u32)]) -> Result<SymbolTable, Fail> {
    let mut table = SymbolTable::new(alloc);
    for (function, name, address) in symbols {
        table.reserve(1)?;
        table.add(Symbol {
            address: *address,
            function: *function,
            global: true,
            name: Name::from_slice(alloc, name.as_bytes())?,
        });
    }
    Ok(table)
}

/// What is known before: the home of `f`, and where `.data.y` begins.
fn known(alloc: Global) -> Result<Values, Fail> {
    let mut values = Values::new(alloc);
    let home = Solved::Body {
        home: 0x0010_0000,
        base: 0x0070_0000,
        length: 6,
    };
    values.insert(Unknown::Code(Name::from_slice(alloc, b".text.f")?), home)?;
    let base = Solved::Address(0x0020_0100);
    values.insert(Unknown::Data(Name::from_slice(alloc, b".data.y")?), base)?;
    Ok(values)
}

fn names_of(alloc: Global) -> Result<Names, Fail> {
    let mut names = Names::new(alloc);
    for (name, _) in PLACES {
        names.push(Name::from_slice(alloc, name.as_bytes())?)?;
    }
    Ok(names)
}

fn placement_of(alloc: Global) -> Result<Placement, Fail> {
    let mut placement = Placement::new(alloc);
    for (name, base) in PLACES {
        placement.push(Placed {
            section: Name::from_slice(alloc, name.as_bytes())?,
            base,
        })?;
    }
    Ok(placement)
}

/// The values that the new sections need.
fn values_of(alloc: Global, symbols: &[(bool, &str, u32)]) -> Result<Values, Fail> {
    let pre = normal_of(alloc, OLD)?;
    let post = normal_of(alloc, NEW)?;
    let values = known(alloc)?;
    let sections = names_of(alloc)?;
    let table = table_of(alloc, symbols)?;
    let values = resolve_post(alloc, &pre, &post, &sections, &values, &table);
    Ok(values.ok().ok_or("refused")?)
}

/// The new sections as they are linked, and one that isn't there.
static LINKED: [(&str, &[u8]); 8] = [
    (".text.main", b"\xe8\xeb\xff\x8f\xff\xc3"),
    (
        ".text.s",
        b"\x8b\x44\x24\x04\xff\x24\x85\x40\0\x80\0\xb8\x01\0\0\0\xc3\xb8\x05\0\0\0\xc3",
    ),
    (".rodata.s", b"\x2b\0\x80\0\x31\0\x80\0"),
    (
        ".text.d",
        b"\xa1\x14\0\x20\0\xa3\x70\0\x80\0\xb8\x83\0\x80\0\xe8\xbc\xff\x8f\xff\xe8\x27\0\0\0\xc3",
    ),
    (".bss.n", b"\0\0\0\0\0\0\0\0"),
    (".rodata.str1.1", b"zz\0a\0"),
    (".text.g", b"\xa1\0\x01\x20\0\xc3"),
    (".text.none", b""),
];

/// A section as it is linked.
fn linked_of(
    alloc: Global,
    post: &Normal<'_>,
    name: &str,
    placement: &Placement,
    values: &Values,
) -> Result<Bytes, Fail> {
    if !in_order(post, placement) {
        return Err(Fail::from("another order"));
    }
    let section = Name::from_slice(alloc, name.as_bytes())?;
    Ok(linked(alloc, post, &section, placement, values)?)
}

/// The symbols that the new sections refer to, and a function of the same name as data.
static SYMBOLS: [(bool, &str, u32); 3] = [
    (false, "x", 0x0020_0014),
    (true, "spin", 0x0010_0020),
    (true, "x", 0x0010_0030),
];

/// How many sections are linked as they have to be.
fn count_of_linked(alloc: Global) -> Result<usize, Fail> {
    let values = values_of(alloc, &SYMBOLS)?;
    let post = normal_of(alloc, NEW)?;
    let placement = placement_of(alloc)?;
    let mut count = 0usize;
    for (name, bytes) in &LINKED {
        let found = linked_of(alloc, &post, name, &placement, &values)?;
        if found.as_slice() == *bytes {
            count = count.saturating_add(1);
        }
    }
    Ok(count)
}

#[test]
fn new_sections_are_linked(rt: HostRuntime) -> Result<(), Fail> {
    assert!(rt; count_of_linked(rt.alloc())? == LINKED.len());
    Ok(())
}

/// The fields of the new sections, and of one that isn't there: where each begins, and the address that it needs.
static NEEDS: [(&str, &[(u32, u32)]); 8] = [
    (".text.main", &[(1, 0x0010_0000)]),
    (".text.s", &[(7, 0x0080_0040)]),
    (".rodata.s", &[(0, 0x0080_0020), (4, 0x0080_0020)]),
    (
        ".text.d",
        &[
            (1, 0x0020_0010),
            (6, 0x0080_0070),
            (11, 0x0080_0083),
            (16, 0x0010_0020),
            (21, 0x0080_0090),
        ],
    ),
    (".bss.n", &[]),
    (".rodata.str1.1", &[]),
    (".text.g", &[(1, 0x0020_0100)]),
    (".text.none", &[]),
];

/// Whether these are the needs of the fields of a section.
fn are_needs(found: &Needs, name: &str, fields: &[(u32, u32)]) -> bool {
    found.section.as_slice() == name.as_bytes()
        && found.fields.len() == fields.len()
        && found.fields.as_slice().iter().zip(fields).all(|(need, field)| need.offset == field.0
            && need.s == field.1)
}

/// How many sections need what they have to.
fn count_of_needing(alloc: Global) -> Result<usize, Fail> {
    let values = values_of(alloc, &SYMBOLS)?;
    let post = normal_of(alloc, NEW)?;
    let placement = placement_of(alloc)?;
    if !in_order(&post, &placement) {
        return Err(Fail::from("another order"));
    }
    let mut count = 0usize;
    for (name, fields) in &NEEDS {
        let section = Name::from_slice(alloc, name.as_bytes())?;
        let found = needs(alloc, &post, &section, &placement, &values)?;
        if are_needs(&found, name, fields) {
            count = count.saturating_add(1);
        }
    }
    Ok(count)
}

#[test]
fn new_sections_need_what_they_refer_to(rt: HostRuntime) -> Result<(), Fail> {
    assert!(rt; count_of_needing(rt.alloc())? == NEEDS.len());
    Ok(())
}

/// Whether an unknown is at an index of the values, and came to an address.
fn is_at(values: &Values, index: usize, which: &Unknown, address: u32) -> bool {
    values.get_index_of(which) == Some(index)
        && values.get(which).copied() == Some(Solved::Address(address))
}

/// Whether the values stand in the order of the references: after the home of `f`, which is known, those of `.data.y`,
/// `.data.x`, which begins below address 0, and `spin`.
fn are_in_order(alloc: Global) -> Result<bool, Fail> {
    let values = values_of(alloc, &[(true, "spin", 0x0010_0020), (false, "x", 2)])?;
    let y = Unknown::Data(Name::from_slice(alloc, b".data.y")?);
    let x = Unknown::Data(Name::from_slice(alloc, b".data.x")?);
    let spin = Unknown::Outside(Name::from_slice(alloc, b"spin")?);
    Ok(
        values.len() == 4
            && is_at(&values, 1, &y, 0x0020_0100)
            && is_at(&values, 2, &x, 0xffff_fffe)
            && is_at(&values, 3, &spin, 0x0010_0020),
    )
}

#[test]
fn values_stand_in_the_order_of_the_references(rt: HostRuntime) -> Result<(), Fail> {
    assert!(rt; are_in_order(rt.alloc())?);
    Ok(())
}
