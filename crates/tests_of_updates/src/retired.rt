//! The room for a jump, overlaps, and what is retired and guarded, of functions in a small memory.
ghost use Rattle.std.specs.Prelude.{◌≡◌, [], IfOk};

use image_memory::{FlatSpace, Kind, Piece, Pieces, Space, are_placed};
use ks_base::{Bytes, Name, Range, Ranges, Refusal};
use std::alloc::{AllocError, Global};
use std::process::Abort;
use std::test::Fail;
use symbol_table::{Symbol, SymbolTable};
use update_retired::{Fate, OldFunction, are_bodies, code_refusal, guarded_ranges, retired_ranges};

const HOME: u32 = 0x0010_0000;

/// A piece: its kind, base and bytes.
pub(crate) type Part = (Kind, u32, &'static [u8]);

/// A function: its section, which is named after it, home, base, length and fate.
pub(crate) type Old = (&'static [u8], u32, u32, u32, Fate);

/// What blocks the update.
#[derive(Clone, Copy)]
enum Answer {
    Nothing,
    Room(&'static [u8], u32),
    Overlap(u32, u32),
}

/// Pieces, the addresses of symbols, retired ranges, functions, and what is to be answered.
type Case = (
    &'static [Part],
    &'static [u32],
    &'static [(u32, u32)],
    &'static [Old],
    Answer,
);

/// A function of three bytes, with padding up to sixteen.
const PADDED: [Part; 1] = [(
    Kind::Code,
    HOME,
    b"\x31\xc0\xc3\x90\x90\x90\x90\x90\x90\x90\x90\x90\x90\x90\x90\x90",
)];

/// The same function with another one after it.
const CLOSE: [Part; 1] = [(Kind::Code, HOME, b"\x31\xc0\xc3\xc3\x90\x90\x90\x90")];

const DATA: [Part; 1] = [(Kind::Writable, HOME, b"\x31\xc0\xc3\x90\x90\x90\x90")];

const REPLACED: [Old; 1] = [(b".text.z", HOME, HOME, 3, Fate::Replaced)];

const DROPPED: [Old; 1] = [(b".text.z", HOME, HOME, 3, Fate::Dropped)];

const LATER: [Old; 1] = [(b".text.z", HOME, 0x0010_0003, 1, Fate::Replaced)];

/// Two functions, of which one is replaced: its jump reaches the other one.
const NEAR: [Old; 2] = [
    (b".text.z", HOME, HOME, 3, Fate::Replaced),
    (b".text.y", 0x0010_0004, 0x0010_0004, 3, Fate::Kept),
];

/// A function that is dropped, and others that lie in it; the first of these in their order isn't the lowest.
const INSIDE: [Old; 3] = [
    (b".text.z", HOME, HOME, 12, Fate::Dropped),
    (b".text.y", 0x0010_0008, 0x0010_0008, 2, Fate::Kept),
    (b".text.x", 0x0010_0002, 0x0010_0002, 2, Fate::Kept),
];

/// An overlap, and after it a function without room: the room is looked at first.
const ROOM_BEHIND: [Old; 3] = [
    (b".text.z", HOME, HOME, 6, Fate::Dropped),
    (b".text.y", 0x0010_0002, 0x0010_0002, 2, Fate::Kept),
    (b".text.x", 0x0010_000d, 0x0010_000d, 3, Fate::Replaced),
];

const LONG_BODY: [Old; 1] = [(b".text.z", HOME, HOME, 8, Fate::Replaced)];

static CASES: [Case; 14] = [
    (&PADDED, &[HOME], &[], &[], Answer::Nothing),
    (&PADDED, &[], &[], &REPLACED, Answer::Nothing),
    (
        &PADDED,
        &[HOME, 0x0010_0004],
        &[],
        &REPLACED,
        Answer::Room(b".text.z", 4),
    ),
    (&DATA, &[], &[], &REPLACED, Answer::Room(b".text.z", 0)),
    (&[], &[], &[], &REPLACED, Answer::Room(b".text.z", 0)),
    (&CLOSE, &[], &[], &DROPPED, Answer::Nothing),
    (&CLOSE, &[], &[], &LATER, Answer::Nothing),
    (&PADDED, &[], &[], &NEAR, Answer::Overlap(HOME, 0x0010_0004)),
    (
        &PADDED,
        &[],
        &[],
        &INSIDE,
        Answer::Overlap(HOME, 0x0010_0008),
    ),
    (&PADDED, &[], &[], &ROOM_BEHIND, Answer::Room(b".text.x", 3)),
    (
        &PADDED,
        &[],
        &[(0x0010_0006, 0x0010_0007), (0x0010_0001, 0x0010_0002)],
        &LONG_BODY,
        Answer::Overlap(HOME, 0x0010_0006),
    ),
    (
        &PADDED,
        &[],
        &[(0x0010_0001, 0x0010_0002)],
        &INSIDE,
        Answer::Overlap(HOME, 0x0010_0008),
    ),
    (
        &PADDED,
        &[],
        &[(0x000f_fff0, HOME), (0x0010_0008, 0x0010_0010)],
        &LONG_BODY,
        Answer::Nothing,
    ),
    (
        &PADDED,
        &[],
        &[(0x0010_0004, 0x0010_0006)],
        &REPLACED,
        Answer::Overlap(HOME, 0x0010_0004),
    ),
];

pub(crate) fn pieces_of(alloc: Global, parts: &[Part]) -> Result<Pieces, AllocError> {
    let mut pieces = Pieces::new(alloc);
    for (kind, base, bytes) in parts {
        pieces.push(Piece {
            kind: *kind,
            base: *base,
            bytes: Bytes::from_slice(alloc, bytes)?,
        })?;
    }
    Ok(pieces)
}

fn table_of(alloc: Global, addresses: &[u32]) -> Result<SymbolTable, AllocError> {
    let mut symbols = Vec::new(alloc);
    for address in addresses {
        symbols.push(Symbol {
            address: *address,
            function: true,
            global: true,
            name: Name::from_slice(alloc, b"f")?,
        })?;
    }
    SymbolTable::from_symbols(alloc, symbols)
}

pub(crate) fn ranges_of(alloc: Global, bounds: &[(u32, u32)]) -> Result<Ranges, AllocError> {
    let mut ranges = Ranges::new(alloc);
    for (low, high) in bounds {
        ranges.push(Range {
            low: *low,
            high: *high,
        })?;
    }
    Ok(ranges)
}

pub(crate) fn olds_of(alloc: Global, rows: &[Old]) -> Result<Vec<OldFunction>, AllocError> {
    let mut olds = Vec::new(alloc);
    for (section, home, base, length, fate) in rows {
        olds.push(OldFunction {
            section: Name::from_slice(alloc, section)?,
            function: Name::from_slice(alloc, section.get(6..).unwrap_or(b"f"))?,
            home: *home,
            base: *base,
            length: *length,
            fate: *fate,
        })?;
    }
    Ok(olds)
}

/// A memory of some pieces, without retired ranges.
fn space_of(rt: &impl Abort, alloc: Global, parts: &[Part]) -> Result<FlatSpace, Fail>
    ensures { IfOk result (λ space. (⟦<FlatSpace as Space>⟧.contents space).fences ≡ []) }
{
    let pieces = pieces_of(alloc, parts)?;
    assert!(rt; are_placed(&pieces));
    Ok(FlatSpace::new(alloc, pieces)?)
}

fn is_answer(found: &Result<(), Refusal>, answer: Answer) -> bool {
    match (found, answer) {
        (Ok(()), Answer::Nothing) => true,
        (Err(Refusal::TooSmall(section, room)), Answer::Room(name, wanted)) => {
            section.as_slice() == name && *room == wanted
        }
        (Err(Refusal::Overlap { retired, other }), Answer::Overlap(low, other_low)) => {
            *retired == low && *other == other_low
        }
        _ => false,
    }
}

/// Whether what blocks the update in a case is what the case says.
fn is_answered(rt: &impl Abort, alloc: Global, case: &Case) -> Result<bool, Fail> {
    let (parts, symbols, retired, rows, answer) = *case;
    let space = space_of(rt, alloc, parts)?;
    let table = table_of(alloc, symbols)?;
    let ranges = ranges_of(alloc, retired)?;
    let olds = olds_of(alloc, rows)?;
    if !are_bodies(olds.as_slice()) {
        return Ok(false);
    }
    let found = code_refusal(alloc, &space, &table, &ranges, olds.as_slice());
    Ok(is_answer(&found, answer))
}

#[test]
fn refusals(rt: HostRuntime) -> Result<(), Fail> {
    for (at, case) in CASES.iter().enumerate() {
        assert!(rt; is_answered(&rt, rt.alloc(), case)?, "case {at}");
    }
    Ok(())
}

/// A function that is replaced, one that stays, one that is dropped with a jump at its home, and one without.
const FOUR: [Old; 4] = [
    (b".text.z", 0x0010_0020, 0x0010_0020, 3, Fate::Replaced),
    (b".text.y", 0x0010_0028, 0x0010_0028, 3, Fate::Kept),
    (b".text.x", HOME, 0x0010_0030, 4, Fate::Dropped),
    (b".text.w", 0x0010_0040, 0x0010_0040, 2, Fate::Dropped),
];

#[test]
fn ranges(rt: HostRuntime) -> Result<(), Fail> {
    let alloc = rt.alloc();
    let mut space = space_of(&rt, alloc, &PADDED)?;
    space.reserve(&Pieces::new(alloc), 1)?;
    space.fence(
        Range {
            low: HOME,
            high: 0x0010_0005,
        },
        true,
    );
    let olds = olds_of(alloc, &FOUR)?;
    assert!(rt; are_bodies(olds.as_slice()));
    let bounds = [
        (0x0010_0020, 0x0010_0025),
        (0x0010_0030, 0x0010_0034),
        (0x0010_0040, 0x0010_0042),
        (HOME, 0x0010_0005),
    ];
    assert!(rt; guarded_ranges(alloc, &space, olds.as_slice())? == ranges_of(alloc, &bounds)?);
    assert!(rt; retired_ranges(alloc, olds.as_slice())? == ranges_of(alloc, &bounds[..3])?);
    Ok(())
}
