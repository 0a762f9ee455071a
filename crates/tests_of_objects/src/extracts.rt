//! Differences of small objects.

use crate::normals::normal_of;
use extract_post::{Extract, extract};
use ks_base::{Line, Names, Refusal};
use object_builder::{ABSOLUTE, Kind, RELATIVE, Section, object};
use std::alloc::{AllocError, Global};
use std::test::Fail;

/// A jump to the start of the cold part, and `ret`.
const WORK: Section = Section {
    name: ".text.work",
    kind: Kind::Global("work"),
    bytes: b"\xe9\xfc\xff\xff\xff\xc3",
    references: &[(1, RELATIVE, ".text.unlikely.work")],
};

/// A jump back to just after that jump.
const COLD: Section = Section {
    name: ".text.unlikely.work",
    kind: Kind::Local("work.cold"),
    bytes: b"\xe9\x01\0\0\0",
    references: &[(1, RELATIVE, ".text.work")],
};

/// The function without a cold part.
const WORK_ALONE: Section = Section {
    name: ".text.work",
    kind: Kind::Global("work"),
    bytes: b"\xb8\x07\0\0\0\xc3",
    references: &[],
};

/// A new function: the address of a text, and `ret`.
const F: Section = Section {
    name: ".text.f",
    kind: Kind::Global("f"),
    bytes: b"\xb8\0\0\0\0\xc3",
    references: &[(1, ABSOLUTE, ".rodata.x")],
};

const X: Section = Section {
    name: ".rodata.x",
    kind: Kind::Strings,
    bytes: b"a\0",
    references: &[],
};

const NUMBER: Section = Section {
    name: ".data.t",
    kind: Kind::Data,
    bytes: b"\x05\0\0\0",
    references: &[],
};

fn put_names(line: &mut Line, what: &str, names: &Names) -> Result<(), AllocError> {
    for name in names.as_slice() {
        line.put_text(what)?;
        line.put_name(name)?;
        line.put_text("\n")?;
    }
    Ok(())
}

/// What comes of two objects.
fn put_extract(line: &mut Line, answer: &Result<Extract, Refusal>) -> Result<(), AllocError> {
    match answer {
        Ok(found) => {
            put_names(line, "changed ", &found.changed)?;
            put_names(line, "added ", &found.added)?;
            put_names(line, "carried ", &found.carried)?;
            put_names(line, "data ", &found.new_data)?;
            put_names(line, "dropped ", &found.dropped)
        }
        Err(refusal) => line.put_refusal(refusal),
    }
}

/// What comes of two objects, as their files have them.
fn difference_of_files(alloc: Global, pre: &[u8], post: &[u8]) -> Result<Line, Fail> {
    let pre = normal_of(alloc, pre)?;
    let post = normal_of(alloc, post)?;
    let answer = extract(alloc, &pre, &post);
    let mut line = Line::new(alloc);
    put_extract(&mut line, &answer)?;
    Ok(line)
}

fn difference(alloc: Global, pre: &[Section], post: &[Section]) -> Result<Line, Fail> {
    let pre = object(alloc, pre)?;
    let post = object(alloc, post)?;
    difference_of_files(alloc, pre.as_slice(), post.as_slice())
}

/// Two objects, and what comes of them.
static ROWS: [(&[Section], &[Section], &str); 2] = [
    (
        &[WORK, COLD],
        &[NUMBER, WORK_ALONE, X, F],
        "changed .text.work\nadded .text.f\ncarried .rodata.x\ndata .data.t\ndropped .text.unlikely.work\n",
    ),
    (&[WORK, COLD], &[WORK, COLD], "refused 12 no change\n"),
];

#[test]
fn differences(rt: HostRuntime) -> Result<(), Fail> {
    for (pre, post, wanted) in &ROWS {
        let line = difference(rt.alloc(), pre, post)?;
        assert!(rt; line.bytes() == wanted.as_bytes());
    }
    Ok(())
}
