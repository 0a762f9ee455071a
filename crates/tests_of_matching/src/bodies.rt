//! A section of an object beside what runs: what is reported of a match, and what no image has.
ghost use Rattle.std.specs.Prelude.{◌≡◌};
ghost use Rattle.i386_reloc.specs.Classes.{is_code_class};
ghost use Rattle.i386_reloc.specs.Reaches.{is_in};

use crate::trying::{
    CODE, CONSTANT, HOME, Listed, Part, Retired, normal_of, put_answer, space_of, table_of,
};
use i386_reloc::Normal;
use image_memory::FlatSpace;
use ks_base::{Line, Name};
use object_builder::{ABSOLUTE, Kind, RELATIVE, Section, object};
use run_pre_match::{MatchFault, Matched, match_body};
use std::alloc::Global;
use std::process::Abort;
use std::test::Fail;
use symbol_table::SymbolTable;

/// Where the newer version of a function begins.
const NEWER: u32 = 0x0080_0000;

/// `mov $1,%eax; ret`
const F: Section = Section {
    name: ".text.f",
    kind: Kind::Global("f"),
    bytes: b"\xb8\x01\0\0\0\xc3",
    references: &[],
};

/// `ret`, with padding after it.
const PADDED: Section = Section {
    name: ".text.f",
    kind: Kind::Global("f"),
    bytes: b"\xc3\x90",
    references: &[],
};

/// No instruction.
const NONE: Section = Section {
    name: ".text.f",
    kind: Kind::Global("f"),
    bytes: b"\x0f\xff",
    references: &[],
};

/// `lea x(%esi),%esi; ret`: without the reference the first would be padding.
const L: Section = Section {
    name: ".text.f",
    kind: Kind::Global("f"),
    bytes: b"\x8d\xb6\0\0\0\0\xc3",
    references: &[(2, ABSOLUTE, ".data.x")],
};

const X: Section = Section {
    name: ".data.x",
    kind: Kind::Data,
    bytes: b"\0\0\0\0",
    references: &[],
};

/// `push %eax; mov $table,%eax; ret`
const MOVES_TABLE: Section = Section {
    name: ".text.f",
    kind: Kind::Global("f"),
    bytes: b"\x50\xb8\0\0\0\0\xc3",
    references: &[(2, ABSOLUTE, ".rodata.t")],
};

/// The addresses of the `ret` of `f`, and of `ext`.
const TABLE: Section = Section {
    name: ".rodata.t",
    kind: Kind::ReadOnly,
    bytes: b"\x06\0\0\0\0\0\0\0",
    references: &[(0, ABSOLUTE, ".text.f"), (4, ABSOLUTE, "ext")],
};

/// `call g; mov $g+1,%eax; ret`
const OF_G: Section = Section {
    name: ".text.f",
    kind: Kind::Global("f"),
    bytes: b"\xe8\xfc\xff\xff\xff\xb8\x01\0\0\0\xc3",
    references: &[(1, RELATIVE, ".text.g"), (6, ABSOLUTE, ".text.g")],
};

const G: Section = Section {
    name: ".text.g",
    kind: Kind::Global("g"),
    bytes: b"\x50\x58\xc3",
    references: &[],
};

/// A call of the function itself.
const RECURSIVE: Section = Section {
    name: ".text.f",
    kind: Kind::Global("f"),
    bytes: b"\xe8\xfc\xff\xff\xff\xc3",
    references: &[(1, RELATIVE, ".text.f")],
};

/// The address of the `ret`.
const INWARD: Section = Section {
    name: ".text.f",
    kind: Kind::Global("f"),
    bytes: b"\xb8\x05\0\0\0\xc3",
    references: &[(1, ABSOLUTE, ".text.f")],
};

/// `add $-128,%eax; ret`, with the number in one byte.
const SHORT: Section = Section {
    name: ".text.f",
    kind: Kind::Global("f"),
    bytes: b"\x83\xc0\x80\xc3",
    references: &[],
};

/// `movl $x,8(%ebp); ret`, with the displacement in four bytes.
const STORES: Section = Section {
    name: ".text.f",
    kind: Kind::Global("f"),
    bytes: b"\xc7\x85\x08\0\0\0\0\0\0\0\xc3",
    references: &[(6, ABSOLUTE, ".data.x")],
};

/// `add $x,%eax; ret`
const ADDS: Section = Section {
    name: ".text.f",
    kind: Kind::Global("f"),
    bytes: b"\x81\xc0\0\0\0\0\xc3",
    references: &[(2, ABSOLUTE, ".data.x")],
};

/// An object, of which `.text.f` with the home [`HOME`] is compared; the memory, and where the function begins in it;
/// and what comes of it.
type Row = (
    &'static [Section],
    &'static [Part<'static>],
    u32,
    &'static str,
);

/// What is reported of a match, beside a symbol `ext`.
static TOLD: [Row; 13] = [
    (
        &[L, X],
        &[(CODE, HOME, b"\x8d\xb6\0\0\x20\0\xc3")],
        HOME,
        "length 7\ncode .text.f 0x00100000 at .text.f+0x0\ndata .data.x 0x00200000 at .text.f+0x2\n",
    ),
    // a value in read-only data
    (
        &[MOVES_TABLE, TABLE],
        &[
            (CODE, HOME, b"\x50\xb8\0\0\x18\0\xc3"),
            (CONSTANT, 0x0018_0000, b"\x06\0\x10\0\0\0\x20\0"),
        ],
        HOME,
        "length 7\ncode .text.f 0x00100000 at .text.f+0x0\noutside ext 0x00200000 at .rodata.t+0x4\n",
    ),
    // another function's entry and interior, which may be any address
    (
        &[OF_G, G],
        &[(CODE, HOME, b"\xe8\x1b\0\0\0\xb8\x25\0\x10\0\xc3")],
        HOME,
        "length 11\ncode .text.f 0x00100000 at .text.f+0x0\ncode .text.g 0x00100020 at .text.f+0x1\n\
         inside .text.g+0x1 0x00100025 at .text.f+0x6\n",
    ),
    // padding before the first instruction is counted, and not that after the last one
    (
        &[PADDED],
        &[(CODE, HOME, b"\x66\x90\xc3\x66\x90\x90")],
        HOME,
        "length 3\ncode .text.f 0x00100000 at .text.f+0x0\n",
    ),
    (&[NONE], &[], HOME, "refused 20 pre undecoded .text.f 0x0\n"),
    // a newer version calls its home, and has its own `ret`
    (
        &[RECURSIVE],
        &[(CODE, NEWER, b"\xe8\xfb\xff\x8f\xff\xc3")],
        NEWER,
        "length 6\ncode .text.f 0x00100000 at .text.f+0x0\ncode .text.f 0x00100000 at .text.f+0x1\n",
    ),
    (
        &[RECURSIVE],
        &[(CODE, NEWER, b"\xe8\xfb\xff\xff\xff\xc3")],
        NEWER,
        "refused 15 mismatch .text.f index 0 pre 0x0 run 0x00800000 target\n",
    ),
    (
        &[INWARD],
        &[(CODE, NEWER, b"\xb8\x05\0\x80\0\xc3")],
        NEWER,
        "length 6\ncode .text.f 0x00100000 at .text.f+0x0\n",
    ),
    (
        &[INWARD],
        &[(CODE, NEWER, b"\xb8\x05\0\x10\0\xc3")],
        NEWER,
        "refused 15 mismatch .text.f index 0 pre 0x0 run 0x00800000 value\n",
    ),
    // a number at full width, with its sign and without
    (
        &[SHORT],
        &[(CODE, HOME, b"\x81\xc0\x80\xff\xff\xff\xc3")],
        HOME,
        "length 7\ncode .text.f 0x00100000 at .text.f+0x0\n",
    ),
    (
        &[SHORT],
        &[(CODE, HOME, b"\x81\xc0\x80\0\0\0\xc3")],
        HOME,
        "refused 15 mismatch .text.f index 0 pre 0x0 run 0x00100000 operand\n",
    ),
    // a field behind a displacement of one byte, and one of one byte itself
    (
        &[STORES, X],
        &[(CODE, HOME, b"\xc7\x45\x08\0\0\x20\0\xc3")],
        HOME,
        "length 8\ncode .text.f 0x00100000 at .text.f+0x0\ndata .data.x 0x00200000 at .text.f+0x6\n",
    ),
    (
        &[ADDS, X],
        &[(CODE, HOME, b"\x83\xc0\x08\xc3")],
        HOME,
        "refused 15 mismatch .text.f index 0 pre 0x0 run 0x00100000 operand\n",
    ),
];

/// `f` as it is, with more after it; the same where no code may be; and no memory.
const AS_F: &[Part<'static>] = &[(CODE, HOME, b"\xb8\x01\0\0\0\xc3\x90\x90\x90\x90\x90\x90")];

const NO_CODE: &[Part<'static>] = &[(CONSTANT, HOME, b"\xb8\x01\0\0\0\xc3")];

/// The memory beside `f`, its retired range, and what comes of it.
static BREAKS: [(&[Part<'static>], Retired, &str); 8] = [
    (
        NO_CODE,
        None,
        "refused 15 mismatch .text.f index 0 pre 0x0 run 0x00100000 end\n",
    ),
    (
        &[],
        None,
        "refused 15 mismatch .text.f index 0 pre 0x0 run 0x00100000 end\n",
    ),
    // a spliced home, which isn't gone through, and another retired range
    (
        AS_F,
        Some((0x0010_0005, 0x0010_000a, true)),
        "refused 15 mismatch .text.f index 1 pre 0x5 run 0x00100005 end\n",
    ),
    (
        AS_F,
        Some((0x0010_0005, 0x0010_000a, false)),
        "refused 15 mismatch .text.f index 1 pre 0x5 run 0x00100005 end\n",
    ),
    (
        AS_F,
        Some((0x0010_0001, 0x0010_0006, true)),
        "refused 15 mismatch .text.f index 0 pre 0x0 run 0x00100000 undecoded\n",
    ),
    // the base, the middle of a retired range, and after the last instruction
    (
        AS_F,
        Some((HOME, 0x0010_0005, true)),
        "refused 15 mismatch .text.f index 0 pre 0x0 run 0x00100000 end\n",
    ),
    (
        AS_F,
        Some((0x000f_ffff, 0x0010_0005, true)),
        "refused 15 mismatch .text.f index 0 pre 0x0 run 0x00100000 end\n",
    ),
    (
        AS_F,
        Some((0x0010_0006, 0x0010_000b, true)),
        "length 6\ncode .text.f 0x00100000 at .text.f+0x0\n",
    ),
];

/// Whether there is a code section of a name.
fn has_code(normal: &Normal<'_>, name: &Name) -> bool
    ensures { result ≡ is_in is_code_class normal.now name.now }
{
    match normal.find(name.as_slice()) {
        Some(section) => section.class.is_code(),
        None => false,
    }
}

/// What comes of the code section of a name, where there is one.
fn matched<'a>(
    alloc: Global,
    normal: &Normal<'a>,
    name: &Name,
    space: &FlatSpace,
    table: &SymbolTable,
    base: u32,
) -> Option<Result<Matched<'a>, MatchFault>> {
    if !has_code(normal, name) {
        return None;
    }
    Some(match_body(alloc, normal, name, space, table, HOME, base))
}

/// What comes of `.text.f` of an object, as text.
fn answer(alloc: Global, normal: &Normal<'_>, space: &FlatSpace, base: u32) -> Result<Line, Fail> {
    let listed: [Listed; 1] = [("ext", true, 0x0020_0000)];
    let table = table_of(alloc, &listed)?;
    let name = Name::from_slice(alloc, b".text.f")?;
    let mut line = Line::new(alloc);
    if let Some(answer) = matched(alloc, normal, &name, space, &table, base) {
        put_answer(alloc, &mut line, ".text.f", &answer)?;
    }
    Ok(line)
}

/// What comes of the sections of an object in a memory, as text.
fn compared(
    alloc: Global,
    sections: &[Section],
    parts: &[Part<'_>],
    retired: Retired,
    base: u32,
) -> Result<Line, Fail> {
    let file = object(alloc, sections)?;
    let normal = normal_of(alloc, file.as_slice())?;
    let space = space_of(alloc, parts, retired)?;
    answer(alloc, &normal, &space, base)
}

/// Asserts that a line is this text.
pub(crate) fn is_text(rt: &impl Abort, line: &Line, text: &str) {
    let got = std::str::from_utf8(line.bytes()).unwrap_or("");
    assert!(rt; line.bytes() == text.as_bytes(), "{got} in place of {text}");
}

#[test]
fn bodies_beside_what_runs(rt: HostRuntime) -> Result<(), Fail> {
    for (sections, parts, base, text) in &TOLD {
        let line = compared(rt.alloc(), sections, parts, None, *base)?;
        is_text(&rt, &line, text);
    }
    for (parts, retired, text) in &BREAKS {
        let line = compared(rt.alloc(), &[F], parts, *retired, HOME)?;
        is_text(&rt, &line, text);
    }
    Ok(())
}
