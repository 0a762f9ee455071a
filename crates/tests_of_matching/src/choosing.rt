//! Which of some choices are left.

use crate::ordered::are_choices;
use ks_base::ListOf;
use propagation::{Choice, Claim, Demand, propagate};
use std::alloc::{AllocError, Global};
use std::process::Abort;
use std::test::Fail;

/// What a choice claims: unknowns and their values.
type Claims = &'static [(u32, u32)];

/// What it asks: sections and the numbers of demands.
type Demands = &'static [(u32, u32)];

/// A choice: its section, its home, what it claims, what it asks, and the numbers of the demands that it meets.
type Told = (u32, u32, Claims, Demands, &'static [u32]);

/// What there is to choose, and for each choice what becomes of it.
type Row = (&'static [Told], &'static str);

/// The mark of a choice that doesn't match. Of those that match, `+` is one that is left, and `-` one that isn't.
const NO_MATCH: u8 = b'x';

fn claims_of(alloc: Global, told: Claims) -> Result<ListOf<Claim>, AllocError> {
    let mut claims = ListOf::new(alloc);
    for (unknown, value) in told {
        claims.push(Claim {
            unknown: *unknown,
            value: *value,
        })?;
    }
    Ok(claims)
}

fn demands_of(alloc: Global, told: Demands) -> Result<ListOf<Demand>, AllocError> {
    let mut demands = ListOf::new(alloc);
    for (section, number) in told {
        demands.push(Demand {
            section: *section,
            number: *number,
        })?;
    }
    Ok(demands)
}

/// The choices of a row, of which those match whose mark says so.
fn choices_of(alloc: Global, told: &[Told], marks: &str) -> Result<Vec<Choice>, AllocError> {
    let mut choices = Vec::new(alloc);
    for ((section, home, claims, demands, met), mark) in told.iter().zip(marks.as_bytes()) {
        choices.push(Choice {
            section: *section,
            home: *home,
            matches: *mark != NO_MATCH,
            claims: claims_of(alloc, claims)?,
            demands: demands_of(alloc, demands)?,
            met: ListOf::from_vec(Vec::from_slice(alloc, met)?),
        })?;
    }
    Ok(choices)
}

/// Whether those are left whose mark says so.
fn are_left(left: &[bool], marks: &str) -> bool {
    let wanted = marks.as_bytes();
    left.len() == wanted.len()
        && left
            .iter()
            .zip(wanted)
            .all(|(one, mark)| *one == (*mark == b'+'))
}

/// Whether of the choices of a row those are left whose mark says so.
fn leaves(alloc: Global, told: &[Told], marks: &str) -> Result<bool, AllocError> {
    let choices = choices_of(alloc, told, marks)?;
    if !are_choices(choices.as_slice()) {
        return Ok(false);
    }
    let left = propagate(alloc, choices.as_slice())?;
    Ok(are_left(left.as_slice(), marks))
}

fn rows_come(rt: &impl Abort, alloc: Global, rows: &[Row]) -> Result<(), Fail> {
    for (at, (told, marks)) in rows.iter().enumerate() {
        assert!(rt; leaves(alloc, told, marks)?, "row {at} in place of {marks}");
    }
    Ok(())
}

/// Choices that say nothing of demands.
static BY_CLAIMS: [Row; 10] = [
    // each matches alone: nothing is said, or the same
    (
        &[
            (0, 0x10, &[], &[], &[]),
            (1, 0x20, &[(0, 5)], &[], &[]),
            (2, 0x10, &[(0, 5), (1, 6)], &[], &[]),
        ],
        "+++",
    ),
    // twins of which one doesn't match: the other one is forced, and excludes
    (
        &[
            (0, 0x10, &[(0, 1)], &[], &[]),
            (0, 0x20, &[(0, 2)], &[], &[]),
            (1, 0x30, &[(0, 1)], &[], &[]),
            (1, 0x40, &[(0, 2)], &[], &[]),
        ],
        "x+-+",
    ),
    // a chain downwards, which ends before twins of which it says nothing
    (
        &[
            (0, 0x10, &[(3, 1)], &[], &[]),
            (0, 0x20, &[(3, 2)], &[], &[]),
            (1, 0x30, &[(0, 1)], &[], &[]),
            (1, 0x40, &[(0, 2)], &[], &[]),
            (2, 0x50, &[(1, 1), (0, 1)], &[], &[]),
            (2, 0x60, &[(1, 2), (0, 2)], &[], &[]),
            (3, 0x70, &[(1, 1)], &[], &[]),
        ],
        "+++-+-+",
    ),
    // three, of which two different sections exclude one each
    (
        &[
            (0, 0x10, &[(0, 1)], &[], &[]),
            (1, 0x10, &[(0, 1), (1, 2), (2, 1)], &[], &[]),
            (1, 0x20, &[(0, 2), (1, 1), (2, 2)], &[], &[]),
            (1, 0x30, &[(0, 1), (1, 1), (2, 3)], &[], &[]),
            (2, 0x10, &[(1, 1)], &[], &[]),
            (3, 0x10, &[(2, 1)], &[], &[]),
            (3, 0x20, &[(2, 3)], &[], &[]),
        ],
        "+--++-+",
    ),
    // two forced ones that clash exclude one another, and all that say anything of it
    (
        &[
            (0, 0x10, &[(0, 1)], &[], &[]),
            (1, 0x20, &[(0, 2)], &[], &[]),
            (2, 0x30, &[(0, 1)], &[], &[]),
            (2, 0x40, &[(0, 2)], &[], &[]),
            (2, 0x50, &[(1, 2)], &[], &[]),
        ],
        "----+",
    ),
    // no choice of a section matches: all are forced and clash with nothing
    (
        &[
            (0, 0x10, &[(0, 1)], &[], &[]),
            (0, 0x20, &[(0, 2)], &[], &[]),
            (1, 0x30, &[(0, 3)], &[], &[]),
            (1, 0x40, &[(0, 4)], &[], &[]),
        ],
        "xx++",
    ),
    // the only choice of a section doesn't match, and what it claims counts for nothing
    (
        &[
            (0, 0x10, &[(0, 1)], &[], &[]),
            (1, 0x20, &[(0, 2)], &[], &[]),
            (1, 0x30, &[(0, 1)], &[], &[]),
            (2, 0x40, &[(0, 2)], &[], &[]),
        ],
        "x+-+",
    ),
    // twins that are both excluded are both forced from then on, and exclude the one that excluded them, and more
    (
        &[
            (0, 0x10, &[(0, 1), (1, 5)], &[], &[]),
            (0, 0x20, &[(0, 2), (1, 6)], &[], &[]),
            (1, 0x30, &[(0, 3)], &[], &[]),
            (2, 0x40, &[(1, 5)], &[], &[]),
            (2, 0x50, &[(1, 6)], &[], &[]),
            (3, 0x60, &[(1, 7)], &[], &[]),
            (3, 0x70, &[], &[], &[]),
        ],
        "------+",
    ),
    // homes of two sections that are the same, numbers of sections and unknowns with gaps, the largest value
    (
        &[
            (3, 0x10, &[(9, 0xffff_ffff)], &[], &[]),
            (7, 0x10, &[(9, 0xffff_fffe)], &[], &[]),
            (7, 0xffff_ffff, &[(9, 0xffff_ffff)], &[], &[]),
        ],
        "+-+",
    ),
    // a claim that is made twice
    (
        &[
            (0, 0x10, &[(0, 1), (0, 1)], &[], &[]),
            (1, 0x20, &[(0, 2)], &[], &[]),
            (1, 0x30, &[(0, 1), (0, 1)], &[], &[]),
        ],
        "+-+",
    ),
];

/// Choices that ask something of those of other sections.
static BY_DEMANDS: [Row; 8] = [
    // one of twins asks what the forced one doesn't meet
    (
        &[
            (0, 0x10, &[], &[(1, 0)], &[]),
            (0, 0x20, &[], &[(1, 1)], &[]),
            (1, 0x30, &[], &[], &[1]),
        ],
        "-++",
    ),
    // two are asked, of which one is met
    (
        &[
            (0, 0x10, &[], &[(1, 0), (1, 2)], &[]),
            (1, 0x20, &[], &[], &[0, 1]),
            (1, 0x30, &[], &[], &[0, 2]),
            (1, 0x40, &[], &[], &[1, 2]),
        ],
        "+-+-",
    ),
    // a chain of demands
    (
        &[
            (0, 0x10, &[], &[(1, 0)], &[]),
            (1, 0x20, &[], &[(2, 1)], &[]),
            (1, 0x30, &[], &[(2, 2)], &[0]),
            (2, 0x40, &[], &[], &[1]),
            (2, 0x50, &[], &[], &[2]),
        ],
        "+-+-+",
    ),
    // two forced ones, of which one doesn't meet what the other one asks
    (
        &[
            (0, 0x10, &[], &[], &[1]),
            (1, 0x20, &[], &[(0, 0)], &[]),
            (2, 0x30, &[], &[(0, 1)], &[]),
        ],
        "--+",
    ),
    // what is asked of the own section, or of one without a choice, counts for nothing
    (
        &[
            (0, 0x10, &[], &[(0, 0)], &[]),
            (1, 0x20, &[], &[(5, 1), (1, 2)], &[]),
        ],
        "++",
    ),
    // one that doesn't match asks nothing and has nothing to meet
    (
        &[
            (0, 0x10, &[], &[(1, 0)], &[]),
            (1, 0x20, &[], &[], &[]),
            (2, 0x30, &[], &[(3, 1)], &[]),
            (3, 0x40, &[], &[], &[]),
        ],
        "x++x",
    ),
    // the same number is asked of two sections
    (
        &[
            (0, 0x10, &[], &[(1, 0), (2, 0)], &[]),
            (1, 0x20, &[], &[], &[0]),
            (1, 0x30, &[], &[], &[]),
            (2, 0x20, &[], &[], &[]),
            (2, 0x30, &[], &[], &[0]),
        ],
        "++--+",
    ),
    // a claim leaves one of twins, and what that one asks leaves one of the next
    (
        &[
            (0, 0x10, &[(0, 1)], &[], &[]),
            (1, 0x20, &[(0, 1)], &[(2, 4)], &[]),
            (1, 0x30, &[(0, 2)], &[(2, 3)], &[]),
            (2, 0x40, &[], &[], &[3]),
            (2, 0x50, &[(1, 1)], &[], &[4]),
            (3, 0x60, &[(1, 1)], &[], &[]),
            (3, 0x70, &[(1, 2)], &[], &[]),
        ],
        "++--++-",
    ),
];

#[test]
fn some_choices_are_left(rt: HostRuntime) -> Result<(), Fail> {
    rows_come(&rt, rt.alloc(), &BY_CLAIMS)?;
    rows_come(&rt, rt.alloc(), &BY_DEMANDS)
}
