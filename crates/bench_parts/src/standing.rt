//! A look at a thread on a large stack, for many ranges of code.
ghost use Rattle.std.specs.Prelude.{◌≡◌};
ghost use Rattle.stack_scan.specs.Standing.{IsStack};

use crate::stacks::{LOW, Trial, dword, ranges_of};
use ia32_alu::Flags;
use ia32_step::{State, Thread};
use image_memory::{Kind, Piece, Pieces, Space, are_placed};
use ks_base::{Bytes, Place, Range, Standing};
use paged_memory::PagedSpace;
use stack_scan::{is_stack, stands};
use std::alloc::{AllocError, Global};

/// The piece that has the dwords of a stack.
fn stack_piece(alloc: Global, trial: Trial) -> Result<Piece, AllocError> {
    let mut bytes = Vec::new(alloc);
    for k in 0..trial.dwords {
        bytes.extend_from_slice(&dword(trial, k).to_le_bytes())?;
    }
    Ok(Piece {
        kind: Kind::Writable,
        base: LOW,
        bytes: Bytes::from_vec(bytes),
    })
}

/// A thread whose registers hold no address of a range, so many dwords above the foot of its stack.
fn thread_on(stack: Range, passed: u32) -> Thread
    ensures { result.stack ≡ stack }
{
    Thread {
        number: 0,
        stack,
        registers: [
            u32::MAX,
            u32::MAX,
            u32::MAX,
            u32::MAX,
            stack.low.wrapping_add(passed.wrapping_mul(4)),
            u32::MAX,
            u32::MAX,
            u32::MAX,
        ],
        pc: u32::MAX,
        flags: Flags {
            cf: false,
            pf: false,
            zf: false,
            sf: false,
            of: false,
        },
        state: State::Running,
    }
}

/// Where on a stack, after so many dwords, the first one stands that is an address of a range.
fn place_after<S: Space>(space: &S, stack: Range, passed: u32, ranges: &[Range]) -> Option<u64>
    requires { IsStack (S.contents space.now).pieces stack }
{
    match stands(&thread_on(stack, passed), space, ranges) {
        Ok(
            Some(
                Standing {
                    place: Place::Stack(address),
                    ..
                },
            ),
        ) => Some(u64::from(address)),
        _ => None,
    }
}

/// Where the dword stands that the last look finds on a stack, `None` where a look finds none, and for a stack for
/// which there are no addresses.
pub fn place_on_stack(alloc: Global, trial: Trial) -> Result<Option<u64>, AllocError> {
    let ranges = ranges_of(alloc, trial)?;
    let mut pieces = Pieces::new(alloc);
    pieces.push(stack_piece(alloc, trial)?)?;
    let stack = Range {
        low: LOW,
        high: LOW.wrapping_add(trial.dwords.wrapping_mul(4)),
    };
    if !are_placed(&pieces) || !is_stack(&pieces, stack) {
        return Ok(None);
    }
    let space = PagedSpace::new(alloc, pieces)?;
    let mut place = None;
    for look in 0..trial.times {
        place = place_after(&space, stack, look, ranges.as_slice());
        if place.is_none() {
            return Ok(None);
        }
    }
    Ok(place)
}
