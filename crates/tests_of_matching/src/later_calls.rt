//! The code of a section listed once and compared at two places, and single instructions that run.

use crate::trying::{CODE, HOME, Part, normal_of, put_answer, space_of, table_of};
use i386_reloc::Normal;
use image_memory::FlatSpace;
use ks_base::Line;
use match_instructions::{instruction_at, run_code_goes_on};
use object_builder::{Kind, Section, object};
use run_pre_match::{PreCode, PreObject};
use std::alloc::{AllocError, Global};
use std::process::Abort;
use std::test::Fail;

/// `xor %eax,%eax; ret`
const F: Section = Section {
    name: ".text.f",
    kind: Kind::Global("f"),
    bytes: b"\x31\xc0\xc3",
    references: &[],
};

/// The function at [`HOME`] with padding, and elsewhere something else.
static TWICE: [Part<'static>; 2] = [
    (CODE, HOME, b"\x31\xc0\x66\x90\xc3"),
    (CODE, 0x0010_0010, b"\x31\xc0\xcc"),
];

/// What comes of the code at a home.
fn put_at(
    alloc: Global,
    line: &mut Line,
    code: &PreCode<'_, '_>,
    space: &FlatSpace,
    home: u32,
) -> Result<(), Fail> {
    let table = table_of(alloc, &[])?;
    let answer = code.matched(alloc, space, &table, home, home);
    put_answer(alloc, line, ".text.f", &answer)?;
    Ok(())
}

/// What comes of the code at two places.
fn at_both(alloc: Global, code: &PreCode<'_, '_>) -> Result<Line, Fail> {
    let space = space_of(alloc, &TWICE, None)?;
    let mut line = Line::new(alloc);
    for home in [HOME, 0x0010_0010] {
        put_at(alloc, &mut line, code, &space, home)?;
    }
    Ok(line)
}

/// What comes of the only section of an object at two places.
fn listed_once(rt: &impl Abort, alloc: Global, normal: &Normal<'_>) -> Result<Line, Fail> {
    assert!(rt; normal.len() == 1);
    let object = PreObject::new(alloc, normal)?;
    let code = object.code(alloc, 0).ok().ok_or("not matched")?;
    at_both(alloc, &code)
}

#[test]
fn one_code_at_two_places(rt: HostRuntime) -> Result<(), Fail> {
    let alloc = rt.alloc();
    let file = object(alloc, &[F])?;
    let normal = normal_of(alloc, file.as_slice())?;
    let line = listed_once(&rt, alloc, &normal)?;
    let wanted = "length 5\ncode .text.f 0x00100000 at .text.f+0x0\n\
                  refused 15 mismatch .text.f index 1 pre 0x2 run 0x00100012 opcode\n";
    assert!(rt; line.bytes() == wanted.as_bytes());
    Ok(())
}

/// The instruction that runs at a place: its place, the address after it, its length twice, its bytes, and whether it
/// is kept.
fn put_running(line: &mut Line, space: &FlatSpace, place: u32) -> Result<(), AllocError> {
    let Some(found) = instruction_at(space, place) else {
        return line.put_text("none\n");
    };
    line.put_hex(found.place())?;
    line.put_text(" ")?;
    line.put_hex(found.after())?;
    line.put_text(" ")?;
    line.put_number(u64::from(found.decoded().length))?;
    line.put_text(" ")?;
    line.put_number(found.bytes().len() as u64)?;
    for byte in found.bytes() {
        line.put_text(" ")?;
        line.put_byte(*byte)?;
    }
    line.put_text(if found.is_kept() { "\n" } else { " padding\n" })
}

/// The instructions at some places.
fn all_running(alloc: Global) -> Result<Line, Fail> {
    let space = space_of(alloc, &TWICE, None)?;
    let mut line = Line::new(alloc);
    for place in [HOME, 0x0010_0002, 0x0010_0004, 0x0010_0005] {
        put_running(&mut line, &space, place)?;
    }
    Ok(line)
}

#[test]
fn instructions_that_run(rt: HostRuntime) -> Result<(), Fail> {
    run_code_goes_on();
    let line = all_running(rt.alloc())?;
    let wanted = "0x00100000 0x00100002 2 2 31 c0\n\
                  0x00100002 0x00100004 2 2 66 90 padding\n\
                  0x00100004 0x00100005 1 1 c3\n\
                  none\n";
    assert!(rt; line.bytes() == wanted.as_bytes());
    Ok(())
}
