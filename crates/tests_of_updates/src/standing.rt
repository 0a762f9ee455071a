//! Which of two threads blocks a change of code.
ghost use Rattle.std.specs.Prelude.{◌≡◌};

use crate::retired::{pieces_of, ranges_of};
use ia32_alu::Flags;
use ia32_step::{State, Thread};
use image_memory::{FlatSpace, Kind, are_placed, sorted};
use ks_base::{Place, Range, Refusal, Standing};
use stack_scan::{check_threads, is_stack};
use std::alloc::{AllocError, Global};
use std::process::Abort;
use std::test::Fail;

/// The stacks of two threads.
const STACKS: [Range; 2] = [
    Range {
        low: 0x0040_0000,
        high: 0x0040_0010,
    },
    Range {
        low: 0x0040_0010,
        high: 0x0040_0020,
    },
];

/// The first stack has 0x00100010 on it, and the second 0x00100004.
const BYTES: &[u8] = b"\0\0\0\0\0\0\0\0\x10\0\x10\0\0\0\0\0\0\0\0\0\0\0\0\0\0\0\0\0\x04\0\x10\0";

fn thread(number: u32, stack: Range, esp: u32) -> Thread
    ensures { result.stack ≡ stack }
{
    Thread {
        number,
        stack,
        registers: [0, 0, 0, 0, esp, 0, 0, 0],
        pc: 0x0010_0020,
        flags: Flags {
            cf: false,
            pf: false,
            zf: false,
            sf: false,
            of: false,
        },
        state: State::Running,
    }
}

/// What is answered.
#[derive(Clone, Copy)]
enum Answer {
    Nothing,
    Busy(Standing),
    Out(u32, u32),
}

/// The stack pointers of the two threads, and the answer.
static CASES: [(u32, u32, Answer); 3] = [
    (0x0040_0000, 0x0040_0020, Answer::Nothing),
    (
        0x0040_0000,
        0x0040_0010,
        Answer::Busy(Standing {
            thread: 1,
            place: Place::Stack(0x0040_001c),
            value: 0x0010_0004,
        }),
    ),
    (0x0040_0000, 0x0040_000c, Answer::Out(1, 0x0040_000c)),
];

fn is_answer(found: &Result<(), Refusal>, answer: Answer) -> bool {
    match (found, answer) {
        (Ok(()), Answer::Nothing) => true,
        (Err(Refusal::Busy(standing)), Answer::Busy(wanted)) => *standing == wanted,
        (Err(Refusal::StackOut { thread, esp }), Answer::Out(number, wanted)) => {
            *thread == number && *esp == wanted
        }
        _ => false,
    }
}

/// Whether of two threads with these stack pointers this is answered, of ranges that are sorted first.
fn is_checked(
    rt: &impl Abort,
    alloc: Global,
    first: u32,
    second: u32,
    answer: Answer,
) -> Result<bool, Fail> {
    let pieces = pieces_of(alloc, &[(Kind::Writable, 0x0040_0000, BYTES)])?;
    assert!(rt; are_placed(&pieces));
    assert!(rt; is_stack(&pieces, STACKS[0]) && is_stack(&pieces, STACKS[1]));
    let space = FlatSpace::new(alloc, pieces)?;
    let threads = [thread(0, STACKS[0], first), thread(1, STACKS[1], second)];
    let ranges = ranges_of(
        alloc,
        &[(0x0010_0014, 0x0010_0018), (0x0010_0000, 0x0010_0006)],
    )?;
    let ranges = sorted(alloc, ranges.as_slice())?;
    Ok(is_answer(&check_threads(&threads, &space, ranges.as_slice()), answer))
}

#[test]
fn threads_in_the_way(rt: HostRuntime) -> Result<(), Fail> {
    for (first, second, answer) in &CASES {
        assert!(rt; is_checked(&rt, rt.alloc(), *first, *second, *answer)?);
    }
    Ok(())
}

/// Whether three ranges, of which the last is the lowest, are sorted.
fn are_sorted(alloc: Global) -> Result<bool, AllocError> {
    let ranges = ranges_of(alloc, &[(5, 9), (7, 8), (0, 2)])?;
    let found = sorted(alloc, ranges.as_slice())?;
    let wanted = ranges_of(alloc, &[(0, 2), (5, 9), (7, 8)])?;
    Ok(found.as_slice() == wanted.as_slice())
}

#[test]
fn ranges_are_sorted(rt: HostRuntime) -> Result<(), Fail> {
    assert!(rt; are_sorted(rt.alloc())?);
    Ok(())
}
