//! Objects in programs in which functions were replaced or retired, and where a listed function has no code: the
//! candidates that are tried, and the values that they come to.

use crate::bodies::is_text;
use crate::trying::{CODE, HOME, Listed, Part, Retired, normal_of, space_of, table_of};
use i386_reloc::Normal;
use image_memory::FlatSpace;
use ks_base::{Line, Name, Refusal};
use match_candidates::{Running, Trials, Tried, try_all};
use object_builder::{Kind, RELATIVE, Section, object};
use run_pre_match::PreCode;
use std::alloc::{AllocError, Global};
use std::test::Fail;
use symbol_solve::solve;
use symbol_table::{Bodies, Solved, Unknown, Values};

/// `xor %eax,%eax; ret`, a function of its object alone
const TW: Section = Section {
    name: ".text.tw",
    kind: Kind::Local("tw"),
    bytes: b"\x31\xc0\xc3",
    references: &[],
};

/// `call tw; call ext; ret`
const CALLER: Section = Section {
    name: ".text.caller",
    kind: Kind::Global("caller"),
    bytes: b"\xe8\xfc\xff\xff\xff\xe8\xfc\xff\xff\xff\xc3",
    references: &[(1, RELATIVE, ".text.tw"), (6, RELATIVE, "ext")],
};

/// `mov $1,%eax; ret`
const F: Section = Section {
    name: ".text.f",
    kind: Kind::Global("f"),
    bytes: b"\xb8\x01\0\0\0\xc3",
    references: &[],
};

/// A variable.
const X: Section = Section {
    name: ".data.x",
    kind: Kind::Data,
    bytes: b"\0\0\0\0",
    references: &[],
};

/// Two twins, then code that calls the second one and what stands after that code.
const TWINS: &[Part<'static>] = &[
    (CODE, HOME, b"\x31\xc0\xc3"),
    (CODE, 0x0010_0010, b"\x31\xc0\xc3"),
    (CODE, 0x0010_0020, b"\xe8\xeb\xff\xff\xff\xe8\x06\0\0\0\xc3"),
    (CODE, 0x0010_0030, b"\xc3"),
];

/// Answers of 1, 2 and 1, the last with padding, at three places.
const ANSWERS: &[Part<'static>] = &[
    (CODE, HOME, b"\xb8\x01\0\0\0\xc3"),
    (CODE, 0x0010_0010, b"\xb8\x02\0\0\0\xc3"),
    (CODE, 0x0080_0000, b"\xb8\x01\0\0\0\x90\xc3"),
];

/// An object; a program: its memory, its symbols, its retired range, and a home with its newest base, where that is
/// another one; and what comes of both.
type Row = (
    &'static [Section],
    &'static [Part<'static>],
    &'static [Listed],
    Retired,
    Option<(u32, u32)>,
    &'static str,
);

static ROWS: [Row; 9] = [
    // sections are counted among those of code, in the order of the object
    (
        &[X, CALLER, TW],
        TWINS,
        &[
            ("tw", false, 0x0010_0010),
            ("caller", true, 0x0010_0020),
            ("tw", false, HOME),
            ("ext", true, 0x0010_0030),
        ],
        None,
        None,
        "0 .text.caller 0x00100020 0x00100020 match\n\
         1 .text.tw 0x00100000 0x00100000 match\n\
         1 .text.tw 0x00100010 0x00100010 match\n\
         of 2\n\
         code .text.caller 0x00100020 0x00100020 11\n\
         outside ext 0x00100030\n\
         code .text.tw 0x00100010 0x00100010 3\n",
    ),
    // one of two homes differs; a home that is listed twice is tried once
    (
        &[F],
        ANSWERS,
        &[
            ("f", true, 0x0010_0010),
            ("f", false, HOME),
            ("f", true, HOME),
        ],
        None,
        None,
        "0 .text.f 0x00100000 0x00100000 match\n\
         0 .text.f 0x00100010 0x00100010 differs\n\
         of 1\n\
         code .text.f 0x00100000 0x00100000 6\n",
    ),
    // a home whose newest base is elsewhere: what stands there matches, and not what stands at the home
    (
        &[F],
        ANSWERS,
        &[("f", true, 0x0010_0010)],
        Some((0x0010_0010, 0x0010_0016, true)),
        Some((0x0010_0010, 0x0080_0000)),
        "0 .text.f 0x00100010 0x00800000 match\n\
         of 1\n\
         code .text.f 0x00100010 0x00800000 7\n",
    ),
    // a retired home is no candidate, and another one is
    (
        &[F],
        ANSWERS,
        &[("f", true, 0x0010_0010), ("f", true, HOME)],
        Some((0x0010_0010, 0x0010_0016, false)),
        None,
        "0 .text.f 0x00100000 0x00100000 match\n\
         of 1\n\
         code .text.f 0x00100000 0x00100000 6\n",
    ),
    // a home whose newest base was retired is none, though its own bytes are as they were
    (
        &[F],
        ANSWERS,
        &[("f", true, HOME), ("f", true, 0x0080_0000)],
        Some((0x0010_0010, 0x0010_0016, false)),
        Some((HOME, 0x0010_0012)),
        "0 .text.f 0x00800000 0x00800000 match\n\
         of 1\n\
         code .text.f 0x00800000 0x00800000 7\n",
    ),
    // the only home was retired, or its newest base was
    (
        &[F],
        ANSWERS,
        &[("f", true, HOME)],
        Some((HOME, 0x0010_0006, false)),
        None,
        "refused 14 no candidate f\nrefused 14 no candidate f\n",
    ),
    (
        &[F],
        ANSWERS,
        &[("f", true, HOME)],
        Some((0x0080_0000, 0x0080_0006, false)),
        Some((HOME, 0x0080_0000)),
        "refused 14 no candidate f\nrefused 14 no candidate f\n",
    ),
    // at a spliced home, and where there is no memory, there is something to try
    (
        &[F],
        ANSWERS,
        &[("f", true, HOME)],
        Some((HOME, 0x0010_0006, true)),
        None,
        "refused 15 mismatch .text.f index 0 pre 0x0 run 0x00100000 end\n\
         refused 15 mismatch .text.f index 0 pre 0x0 run 0x00100000 end\n",
    ),
    (
        &[F],
        ANSWERS,
        &[("f", true, 0x0030_0000)],
        None,
        None,
        "refused 15 mismatch .text.f index 0 pre 0x0 run 0x00300000 end\n\
         refused 15 mismatch .text.f index 0 pre 0x0 run 0x00300000 end\n",
    ),
];

/// The newest bases, where there is one or none.
fn bodies_of(alloc: Global, newest: Option<(u32, u32)>) -> Result<Bodies, AllocError> {
    let Some(row) = newest else {
        return Ok(Bodies::new(Vec::new(alloc)));
    };
    let rows = vec![in alloc; row]?;
    Ok(Bodies::new(rows))
}

/// One that was tried: the number and the name of its section, its home, its base, and whether it matches.
fn put_tried(
    alloc: Global,
    line: &mut Line,
    codes: &[PreCode<'_, '_>],
    tried: &Tried,
) -> Result<(), AllocError> {
    line.put_number(tried.section as u64)?;
    line.put_text(" ")?;
    if let Some(code) = codes.get(tried.section) {
        let name = Name::from_slice(alloc, code.section().name.as_slice())?;
        line.put_name(&name)?;
    }
    line.put_text(" ")?;
    line.put_hex(tried.home)?;
    line.put_text(" ")?;
    line.put_hex(tried.base)?;
    let verdict = if tried.outcome.is_ok() {
        " match\n"
    } else {
        " differs\n"
    };
    line.put_text(verdict)
}

/// All that was tried, a line each, and then the number of code sections. Or the refusal.
fn put_trials(
    alloc: Global,
    line: &mut Line,
    answer: &Result<Trials<'_, '_>, Refusal>,
) -> Result<(), AllocError> {
    match answer {
        Ok(trials) => {
            for tried in trials.tried() {
                put_tried(alloc, line, trials.codes(), tried)?;
            }
            line.put_text("of ")?;
            line.put_number(trials.codes().len() as u64)?;
            line.put_text("\n")
        }
        Err(refusal) => line.put_refusal(refusal),
    }
}

fn put_solved(line: &mut Line, unknown: &Unknown, solved: Solved) -> Result<(), AllocError> {
    let (kind, name) = match unknown {
        Unknown::Code(name) => ("code ", name),
        Unknown::Data(name) => ("data ", name),
        Unknown::Outside(name) => ("outside ", name),
    };
    line.put_text(kind)?;
    line.put_name(name)?;
    line.put_text(" ")?;
    match solved {
        Solved::Body { home, base, length } => {
            line.put_hex(home)?;
            line.put_text(" ")?;
            line.put_hex(base)?;
            line.put_text(" ")?;
            line.put_number(u64::from(length))?;
        }
        Solved::Address(address) => line.put_hex(address)?,
    }
    line.put_text("\n")
}

/// The values, a line each, or the refusal.
fn put_values(line: &mut Line, answer: &Result<Values, Refusal>) -> Result<(), AllocError> {
    match answer {
        Ok(values) => {
            for (unknown, solved) in values.iter() {
                put_solved(line, unknown, *solved)?;
            }
            Ok(())
        }
        Err(refusal) => line.put_refusal(refusal),
    }
}

/// What comes of an object, as text.
fn put_all(
    alloc: Global,
    line: &mut Line,
    normal: &Normal<'_>,
    running: &Running<'_, FlatSpace>,
) -> Result<(), AllocError> {
    let trials = try_all(alloc, normal, running);
    put_trials(alloc, line, &trials)?;
    let values = solve(alloc, normal, running.bodies, running.space, running.table);
    put_values(line, &values)
}

/// What comes of an object in a program, as text.
fn answer(alloc: Global, normal: &Normal<'_>, row: &Row) -> Result<Line, Fail> {
    let (_, parts, symbols, retired, newest, _) = row;
    let space = space_of(alloc, parts, *retired)?;
    let table = table_of(alloc, symbols)?;
    let bodies = bodies_of(alloc, *newest)?;
    let running = Running {
        bodies: &bodies,
        space: &space,
        table: &table,
    };
    let mut line = Line::new(alloc);
    put_all(alloc, &mut line, normal, &running)?;
    Ok(line)
}

/// What comes of a row, as text.
fn solved(alloc: Global, row: &Row) -> Result<Line, Fail> {
    let file = object(alloc, row.0)?;
    let normal = normal_of(alloc, file.as_slice())?;
    answer(alloc, &normal, row)
}

#[test]
fn objects_in_programs(rt: HostRuntime) -> Result<(), Fail> {
    for row in &ROWS {
        let line = solved(rt.alloc(), row)?;
        is_text(&rt, &line, row.5);
    }
    Ok(())
}
