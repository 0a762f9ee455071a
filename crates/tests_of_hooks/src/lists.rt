//! Lists of functions that objects want to be run.

use elf32_object::read_object;
use hook_list::read_hooks;
use i386_reloc::{Normal, normalise};
use object_builder::{ABSOLUTE, Kind, Section, object};
use std::alloc::Global;
use std::test::Fail;

/// The sections of an object.
fn normal_of(alloc: Global, file: &[u8]) -> Result<Normal<'_>, Fail> {
    let object = read_object(alloc, file).ok().ok_or("not read")?;
    Ok(normalise(alloc, &object).ok().ok_or("no sections")?)
}

/// What an object lists.
#[derive(Clone, Copy, PartialEq, Eq)]
enum Answer {
    /// It has no such section.
    Nothing,
    /// So many functions.
    Functions(usize),
    /// The list is broken at this offset.
    Broken(u32),
}

const F: Section = Section {
    name: ".text.f",
    kind: Kind::Global("f"),
    bytes: b"\xc3",
    references: &[],
};

const G: Section = Section {
    name: ".text.g",
    kind: Kind::Global("g"),
    bytes: b"\xc3",
    references: &[],
};

const NUMBER: Section = Section {
    name: ".data.t",
    kind: Kind::Data,
    bytes: b"\x05\0\0\0",
    references: &[],
};

/// A section of that name.
const fn list(
    kind: Kind,
    bytes: &'static [u8],
    references: &'static [(u32, u32, &'static str)],
) -> Section {
    Section {
        name: ".ksplice_apply",
        kind,
        bytes,
        references,
    }
}

/// What an object of a function, a variable and another section lists.
fn listed(alloc: Global, other: Section) -> Result<Answer, Fail> {
    let file = object(alloc, &[F, NUMBER, other])?;
    let normal = normal_of(alloc, file.as_slice())?;
    match read_hooks(&normal) {
        Ok(None) => Ok(Answer::Nothing),
        Ok(Some(hooks)) => Ok(Answer::Functions(hooks.len())),
        Err(offset) => Ok(Answer::Broken(offset)),
    }
}

#[test]
fn lists_are_read_or_broken(rt: HostRuntime) -> Result<(), Fail> {
    let rows: [(Section, Answer); 11] = [
        (G, Answer::Nothing),
        (
            list(Kind::ReadOnly, &[0; 4], &[(0, ABSOLUTE, ".text.f")]),
            Answer::Functions(1),
        ),
        (
            list(
                Kind::Data,
                &[0; 8],
                &[(0, ABSOLUTE, ".text.f"), (4, ABSOLUTE, ".text.f")],
            ),
            Answer::Functions(2),
        ),
        // by its class, by its length, at an entry, at its end
        (list(Kind::Strings, &[0; 4], &[]), Answer::Broken(0)),
        (list(Kind::Zeros, &[0; 300], &[]), Answer::Broken(0)),
        (list(Kind::ReadOnly, &[0; 257], &[]), Answer::Broken(256)),
        (list(Kind::ReadOnly, &[0; 256], &[]), Answer::Broken(0)),
        (
            list(Kind::ReadOnly, &[0; 5], &[(0, ABSOLUTE, ".text.f")]),
            Answer::Broken(4),
        ),
        (
            list(
                Kind::ReadOnly,
                &[0; 12],
                &[(0, ABSOLUTE, ".text.f"), (6, ABSOLUTE, ".text.f")],
            ),
            Answer::Broken(4),
        ),
        // inside of the function, and to what is none
        (
            list(Kind::ReadOnly, &[1, 0, 0, 0], &[(0, ABSOLUTE, ".text.f")]),
            Answer::Broken(0),
        ),
        (
            list(Kind::ReadOnly, &[0; 4], &[(0, ABSOLUTE, ".data.t")]),
            Answer::Broken(0),
        ),
    ];
    for (section, wanted) in rows {
        assert!(rt; listed(rt.alloc(), section)? == wanted);
    }
    Ok(())
}

#[test]
fn functions_are_told_in_order(rt: HostRuntime) -> Result<(), Fail> {
    let list = list(
        Kind::ReadOnly,
        &[0; 8],
        &[(4, ABSOLUTE, ".text.f"), (0, ABSOLUTE, ".text.f")],
    );
    let file = object(rt.alloc(), &[F, list])?;
    let normal = normal_of(rt.alloc(), file.as_slice())?;
    let hooks = read_hooks(&normal).ok().flatten().ok_or("no list")?;
    assert!(rt; hooks.get(0).map(|reference| reference.offset) == Some(0));
    assert!(rt; hooks.get(1).map(|reference| reference.offset) == Some(4));
    assert!(rt; hooks.get(2).is_none());
    Ok(())
}
