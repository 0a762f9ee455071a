//! Sections that are the same, and sections that are not for one thing alone; and bytes that are equal.
ghost use Rattle.std.specs.Prelude.{◌≤◌};

use crate::normals::normal_of;
use section_equal::{equal_bytes, same_section, same_sections};
use std::alloc::{AllocError, Global};
use std::test::Fail;

/// Sections: 1 `.text.f`, which calls `.text.g` and has the address of a text, 2 `.text.g`, 3 the relocations of
/// section 1, 4 `.rodata.x` of the texts `a`, `b` and `ba`, 5 `.bss.z`, 6 and 7 the symbol table and its strings.
/// Symbols: 1 section 4, 2 the function `f`, 3 the function `g`, 4 `p`, undefined.
const TEXTS: &[u8] =
    b"\x7fELF\x01\x01\x01\0\0\0\0\0\0\0\0\0\x01\0\x03\0\x01\0\0\0\0\0\0\0\0\0\0\0\xf0\0\0\0\0\0\0\04\0\0\0\0\0(\0\x08\0\
    \x07\0\xe8\xfc\xff\xff\xff\xb8\0\0\0\0\xc3\0\xc3\0\0\0\x01\0\0\0\x02\x03\0\0\x06\0\0\0\x01\x01\0\0a\0b\0ba\0\0\0\
    \0\0\0\0\0\0\0\0\0\0\0\0\0\0\0\0\0\0\0\0\0\0\0\0\0\0\0\x03\0\x04\0>\0\0\0\0\0\0\0\0\0\0\0\x12\0\x01\0@\0\0\0\0\0\
    \0\0\0\0\0\0\x12\0\x02\0B\0\0\0\0\0\0\0\0\0\0\0\x10\0\0\0\0.text.f\0.text.g\0.rel.text.f\0.rodata.x\0.bss.z\0.sym\
    tab\0.strtab\0f\0g\0p\0\0\0\0\0\0\0\0\0\0\0\0\0\0\0\0\0\0\0\0\0\0\0\0\0\0\0\0\0\0\0\0\0\0\0\0\0\0\0\0\0\x01\0\0\0\
    \x01\0\0\0\x06\0\0\0\0\0\0\04\0\0\0\x0b\0\0\0\0\0\0\0\0\0\0\0\x10\0\0\0\0\0\0\0\x09\0\0\0\x01\0\0\0\x06\0\0\0\0\0\
    \0\0@\0\0\0\x01\0\0\0\0\0\0\0\0\0\0\0\x10\0\0\0\0\0\0\0\x11\0\0\0\x09\0\0\0\0\0\0\0\0\0\0\0D\0\0\0\x10\0\0\0\x06\
    \0\0\0\x01\0\0\0\x04\0\0\0\x08\0\0\0\x1d\0\0\0\x01\0\0\02\0\0\0\0\0\0\0T\0\0\0\x07\0\0\0\0\0\0\0\0\0\0\0\x01\0\0\
    \0\x01\0\0\0'\0\0\0\x08\0\0\0\x03\0\0\0\0\0\0\0T\0\0\0\x04\0\0\0\0\0\0\0\0\0\0\0\x04\0\0\0\0\0\0\0.\0\0\0\x02\0\0\
    \0\0\0\0\0\0\0\0\0\\\0\0\0P\0\0\0\x07\0\0\0\x02\0\0\0\x04\0\0\0\x10\0\0\06\0\0\0\x03\0\0\0\0\0\0\0\0\0\0\0\xac\0\
    \0\0D\0\0\0\0\0\0\0\0\0\0\0\x01\0\0\0\0\0\0\0";

/// An object with one byte changed.
fn changed(alloc: Global, place: usize, value: u8) -> Result<Vec<u8>, AllocError> {
    let mut bytes = Vec::from_slice(alloc, TEXTS)?;
    if let Some(byte) = bytes.get_mut(place) {
        *byte = value;
    }
    Ok(bytes)
}

/// How many sections are the same.
fn count(same: &[bool]) -> usize {
    same.iter().filter(|same| **same).count()
}

/// Whether the section of a name is the same in two objects, and how many sections of the second are.
fn same_in<'a>(
    alloc: Global,
    pre: &'a [u8],
    post: &'a [u8],
    name: &str,
) -> Result<(bool, usize), Fail> {
    let pre = normal_of(alloc, pre)?;
    let post = normal_of(alloc, post)?;
    let one = same_section(&pre, &post, name.as_bytes());
    let all = same_sections(alloc, &pre, &post)?;
    Ok((one, count(all.post.as_slice())))
}

/// The same of the object and one with a byte changed.
fn compared(alloc: Global, place: usize, value: u8, name: &str) -> Result<(bool, usize), Fail> {
    let other = changed(alloc, place, value)?;
    same_in(alloc, TEXTS, other.as_slice(), name)
}

#[test]
fn sections_differ_by_one_thing(rt: HostRuntime) -> Result<(), Fail> {
    // the place and the value of the byte that is changed, the section that is asked for, whether it is the same, and
    // how many sections of the second object are: nothing, no such name, the class, the size, the place of a text, the
    // text, and texts
    let rows: [(usize, u8, &str, bool, usize); 7] = [
        (0x00, 0x7f, ".text.f", true, 4),
        (0x00, 0x7f, ".text.h", false, 4),
        (0x198, 0x02, ".rodata.x", false, 2),
        (0x1cc, 5, ".bss.z", false, 3),
        (0x3a, 5, ".text.f", true, 4),
        (0x3a, 2, ".text.f", false, 3),
        (0x54, b'c', ".rodata.x", true, 3),
    ];
    for (place, value, name, same, count) in rows {
        assert!(rt; compared(rt.alloc(), place, value, name)? == (same, count));
    }
    Ok(())
}

/// Bytes, each of another value.
const LETTERS: &[u8; 70] =
    b"abcdefghijklmnopqrstuvwxyzABCDEFGHIJKLMNOPQRSTUVWXYZ0123456789+-*/<=>?";

/// How many answers are wrong of the first letters: beside themselves, and beside those with one changed, each in turn.
fn wrong_of(length: usize) -> u32
    requires { length ≤ 70 }
{
    let mut other = *LETTERS;
    let mut wrong = u32::from(!equal_bytes(&LETTERS[..length], &other[..length]));
    for place in 0..length {
        other[place] = b'!';
        let equal = equal_bytes(&LETTERS[..length], &other[..length]);
        wrong = wrong.saturating_add(u32::from(equal));
        other[place] = LETTERS[place];
    }
    wrong
}

#[test]
fn bytes_are_equal(rt: HostRuntime) {
    let mut wrong = 0u32;
    for length in 0..71 {
        wrong = wrong.saturating_add(wrong_of(length));
    }
    assert!(rt; wrong == 0);
}

#[test]
fn bytes_of_two_lengths_differ(rt: HostRuntime) {
    let mut equal = 0u32;
    for length in 0..70 {
        let shorter = equal_bytes(&LETTERS[..length], LETTERS);
        equal = equal.saturating_add(u32::from(shorter));
    }
    assert!(rt; equal == 0);
}
