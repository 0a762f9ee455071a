//! Each call on its happy path, over one graph.

use reachability::{Edge, reached_along};
use std::alloc::{AllocError, Global};
use std::test::Fail;

/// A cycle 0, 1, 2, an edge out of it to 3, an edge into it from 4, and 5 with an edge to itself.
const EDGES: [Edge; 6] = [
    Edge { from: 0, to: 1 },
    Edge { from: 1, to: 2 },
    Edge { from: 2, to: 0 },
    Edge { from: 1, to: 3 },
    Edge { from: 4, to: 2 },
    Edge { from: 5, to: 5 },
];

/// Whether from the seeds this is reached.
fn reaches(alloc: Global, seeds: &[bool; 6], wanted: &[bool; 6]) -> Result<bool, AllocError> {
    let marks = reached_along(alloc, 6, &EDGES, seeds)?;
    Ok(marks.as_slice() == wanted.as_slice())
}

#[test]
fn what_is_reached(rt: HostRuntime) -> Result<(), Fail> {
    let alloc = rt.alloc();
    // the seeds, and what is reached
    let rows: [([bool; 6], [bool; 6]); 6] = [
        ([false; 6], [false; 6]),
        (
            [true, false, false, false, false, false],
            [true, true, true, true, false, false],
        ),
        (
            [false, false, false, true, false, false],
            [false, false, false, true, false, false],
        ),
        (
            [false, false, false, false, true, false],
            [true, true, true, true, true, false],
        ),
        (
            [false, false, false, true, false, true],
            [false, false, false, true, false, true],
        ),
        ([true; 6], [true; 6]),
    ];
    for row in rows.iter() {
        assert!(rt; reaches(alloc, &row.0, &row.1)?);
    }
    Ok(())
}
