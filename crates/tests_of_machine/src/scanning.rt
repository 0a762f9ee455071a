//! Where a thread stands in ranges of code, on a stack of 4,096 bytes and on one of 10,000.
ghost use Rattle.std.specs.Prelude.{◌≡◌, ◌≤◌, IsTrue};
ghost use Rattle.stack_scan.specs.Standing.{IsStack};

use ia32_alu::Flags;
use ia32_step::{State, Thread};
use image_memory::{FlatSpace, Kind, Piece, Pieces, Space, are_placed};
use ks_base::{ListOf, Place, Range, Standing};
use stack_scan::{StackOut, first_in, is_stack, stands};
use std::alloc::Global;
use std::process::Abort;
use std::test::Fail;

const CODE: Range = Range {
    low: 0x0010_0000,
    high: 0x0010_0006,
};

const LOW: u32 = 0x0040_0000;

const FLAGS: Flags = Flags {
    cf: false,
    pf: false,
    zf: false,
    sf: false,
    of: false,
};

/// A thread that is looked at: the size of its stack, its state, pc and registers, and a dword that stands on the
/// stack at an address.
type Case = (u32, State, u32, [u32; 8], (u32, u32));

/// What the look answers: the place and the value, or none; an error for a stack pointer that is out.
type Answer = Result<Option<(Place, u32)>, ()>;

const TOP: [u32; 8] = [0, 0, 0, 0, 0x0040_1000, 0, 0, 0];

const INSIDE: u32 = 0x0010_0005;

const AFTER: u32 = 0x0010_0006;

const NOTHING: (u32, u32) = (LOW, 0);

static CASES: [(Case, Answer); 8] = [
    (
        (0x1000, State::Running, INSIDE, TOP, NOTHING),
        Ok(Some((Place::Pc, INSIDE))),
    ),
    (
        (
            0x1000,
            State::Running,
            AFTER,
            [0, INSIDE, 0, 0, 0x0040_1000, 0, 0, 0],
            NOTHING,
        ),
        Ok(Some((Place::Register(1), INSIDE))),
    ),
    (
        (
            0x1000,
            State::Running,
            AFTER,
            [0, 0, 0, 0, 0x0040_0FFF, 0, 0, 0],
            (0x0040_0FFC, INSIDE),
        ),
        Ok(Some((Place::Stack(0x0040_0FFC), INSIDE))),
    ),
    // an address that isn't at a multiple of 4
    (
        (
            0x1000,
            State::Running,
            AFTER,
            [0, 0, 0, 0, 0x0040_0000, 0, 0, 0],
            (0x0040_0FFD, INSIDE),
        ),
        Ok(None),
    ),
    (
        (
            0x1000,
            State::Running,
            AFTER,
            [0, 0, 0, 0, 0x003F_FFFC, 0, 0, 0],
            NOTHING,
        ),
        Err(()),
    ),
    (
        (0x1000, State::Exited(1), INSIDE, [INSIDE; 8], NOTHING),
        Ok(None),
    ),
    // the larger stack
    (
        (
            0x2710,
            State::Running,
            0,
            [0, 0, 0, 0, LOW, 0, 0, 0],
            (0x0040_1000, INSIDE),
        ),
        Ok(Some((Place::Stack(0x0040_1000), INSIDE))),
    ),
    (
        (
            0x2710,
            State::Running,
            0,
            [0, 0, 0, 0, 0x0040_2710, 0, 0, 0],
            (0x0040_270C, INSIDE),
        ),
        Ok(None),
    ),
];

// The range alone; and others with it, in order and not.
static SORTED: [Range; 3] = [
    Range {
        low: 0x0008_0000,
        high: 0x0008_0004,
    },
    CODE,
    Range {
        low: 0x0020_0000,
        high: 0x0020_0001,
    },
];

static MIXED: [Range; 4] = [
    Range {
        low: 0x0020_0000,
        high: 0x0020_0001,
    },
    Range {
        low: 0x0010_0003,
        high: 0x0010_0006,
    },
    Range {
        low: 0x0008_0000,
        high: 0x0008_0004,
    },
    Range {
        low: 0x0010_0000,
        high: 0x0010_0004,
    },
];

/// A stack of zeros but for a dword.
fn pieces_of(alloc: Global, size: u32, dword: (u32, u32)) -> Result<Pieces, Fail> {
    let mut bytes = Vec::new(alloc);
    bytes.resize(size as usize, 0)?;
    let at = dword.0.wrapping_sub(LOW) as usize;
    for (i, byte) in dword.1.to_le_bytes().iter().enumerate() {
        if let Some(place) = bytes.get_mut(at.wrapping_add(i)) {
            *place = *byte;
        }
    }
    let mut pieces = ListOf::new(alloc);
    pieces.push(Piece {
        kind: Kind::Writable,
        base: LOW,
        bytes: ListOf::from_vec(bytes),
    })?;
    Ok(pieces)
}

fn wanted(answer: Answer, esp: u32) -> Result<Option<Standing>, StackOut> {
    match answer {
        Err(()) => Err(StackOut { thread: 3, esp }),
        Ok(None) => Ok(None),
        Ok(Some((place, value))) => Ok(Some(Standing {
            thread: 3,
            place,
            value,
        })),
    }
}

/// What the look at a thread of a case answers.
fn seen(
    rt: &impl Abort,
    alloc: Global,
    case: &Case,
    ranges: &[Range],
) -> Result<Result<Option<Standing>, StackOut>, Fail> {
    let (size, state, pc, registers, dword) = *case;
    let stack = Range {
        low: LOW,
        high: LOW.wrapping_add(size),
    };
    let pieces = pieces_of(alloc, size, dword)?;
    assert!(rt; are_placed(&pieces));
    assert!(rt; is_stack(&pieces, stack));
    let space = FlatSpace::new(alloc, pieces)?;
    let thread = Thread {
        number: 3,
        stack,
        registers,
        pc,
        flags: FLAGS,
        state,
    };
    Ok(stands(&thread, &space, ranges))
}

#[test]
fn places(rt: HostRuntime) -> Result<(), Fail> {
    let alloc = rt.alloc();
    for (case, answer) in &CASES {
        let wanted = wanted(*answer, case.3[4]);
        assert!(rt; seen(&rt, alloc, case, &[CODE])? == wanted);
        assert!(rt; seen(&rt, alloc, case, &SORTED)? == wanted);
        assert!(rt; seen(&rt, alloc, case, &MIXED)? == wanted);
    }
    Ok(())
}

#[test]
fn no_range(rt: HostRuntime) -> Result<(), Fail> {
    let alloc = rt.alloc();
    let case = (0x1000, State::Running, INSIDE, TOP, NOTHING);
    assert!(rt; seen(&rt, alloc, &case, &[])? == Ok(None));
    Ok(())
}

/// Words, and the least index of one that is an address of the range.
static WORDS: [(&[u32], Option<u32>); 7] = [
    (&[], None),
    (&[INSIDE], Some(0)),
    (&[AFTER, 0x000F_FFFF], None),
    (&[0, 0, 0, 0, 0, 0, 0x0010_0000], Some(6)),
    (&[0, 0, 0, 0, 0, 0, 0, INSIDE], Some(7)),
    (&[0, 0, 0, INSIDE, 0, 0, 0, 0, INSIDE], Some(3)),
    (
        &[0, 0, 0, 0, 0, 0, 0, 0, 0, 0, 0, 0, 0, 0, 0, 0, INSIDE],
        Some(16),
    ),
];

#[test]
fn words(rt: HostRuntime) -> Result<(), Fail> {
    for (words, index) in &WORDS {
        assert!(rt; words.len() <= 17);
        assert!(rt; first_in(words, &[CODE]) == *index);
        assert!(rt; first_in(words, &MIXED) == *index);
        assert!(rt; first_in(words, &[]) == None);
    }
    Ok(())
}

/// How many answers are wrong of so many words: of those with no address of a range, and of those with one at each
/// place in turn, by itself and with another at the last place.
fn wrong_of(length: usize, ranges: &[Range]) -> u32
    requires { length ≤ 70 }
{
    let mut words = [AFTER; 70];
    let mut wrong = u32::from(first_in(&words[..length], ranges).is_some());
    for place in 0..length {
        words[place] = INSIDE;
        let alone = first_in(&words[..length], ranges) == Some(place as u32);
        words[length - 1] = INSIDE;
        let first = first_in(&words[..length], ranges) == Some(place as u32);
        words[length - 1] = AFTER;
        words[place] = AFTER;
        wrong = wrong.saturating_add(u32::from(!(alone && first)));
    }
    wrong
}

#[test]
fn words_of_every_length(rt: HostRuntime) {
    let mut wrong = 0u32;
    for length in 0..71 {
        for ranges in [&[CODE][..], &SORTED[..], &MIXED[..]] {
            wrong = wrong.saturating_add(wrong_of(length, ranges));
        }
    }
    assert!(rt; wrong == 0);
}

/// Ranges of 16 addresses, one every 64.
fn spread() -> [Range; 40] {
    let mut ranges = [CODE; 40];
    for (k, range) in ranges.iter_mut().enumerate() {
        range.low = (k as u32).wrapping_mul(64);
        range.high = range.low.wrapping_add(16);
    }
    ranges
}

/// How many answers are wrong of one of many ranges: its first and its last address are told, and the one after it isn't.
fn wrong_at(range: Range, ranges: &[Range]) -> u32 {
    let last = range.high.wrapping_sub(1);
    let to_last = [range.high, range.high, last, range.low];
    let to_first = [range.high, range.high, range.low, last];
    let found = (first_in(&to_last, ranges), first_in(&to_first, ranges));
    u32::from(found != (Some(2), Some(2)))
}

#[test]
fn ends_of_many_ranges(rt: HostRuntime) {
    let ranges = spread();
    let mut wrong = 0u32;
    for range in &ranges {
        wrong = wrong.saturating_add(wrong_at(*range, &ranges));
    }
    assert!(rt; wrong == 0);
}
