//! What a watch says of a thread that is started.
ghost use Rattle.std.specs.Prelude.{◌≡◌, true};
ghost use Rattle.ia32_step.specs.Frames.{is_slot};
ghost use Rattle.ia32_step.specs.Threads.{esp_of};

use frame_watch::{Rule, Verdict, Watch};
use ia32_alu::Flags;
use ia32_step::{State, Thread};
use image_memory::{FlatSpace, Kind, Piece, Pieces, are_placed};
use ks_base::{Bytes, Range};
use std::alloc::{AllocError, Global};
use std::test::Fail;

const CODE: u32 = 0x0010_0000;

const STACK: u32 = 0x0040_0000;

/// The start of a thread, and what a watch says of it.
#[derive(Clone, Copy)]
struct Start {
    /// The thread's pc.
    pc: u32,
    /// What stands where its ESP points.
    dword: u32,
    verdict: Verdict,
}

static STARTS: [Start; 3] = [
    Start {
        pc: CODE,
        dword: 0xFFFF_0000,
        verdict: Verdict::Disciplined,
    },
    Start {
        pc: 0x0010_0001,
        dword: 0xFFFF_0000,
        verdict: Verdict::Broken {
            event: 1,
            thread: 3,
            rule: Rule::Start,
        },
    },
    Start {
        pc: CODE,
        dword: 0xFFFE_0000,
        verdict: Verdict::Broken {
            event: 1,
            thread: 3,
            rule: Rule::Slot,
        },
    },
];

/// A return, and a stack of a dword.
fn pieces_of(alloc: Global, dword: u32) -> Result<Pieces, AllocError> {
    let mut pieces = Pieces::new(alloc);
    pieces.push(Piece {
        kind: Kind::Code,
        base: CODE,
        bytes: Bytes::from_slice(alloc, &[0xC3])?,
    })?;
    pieces.push(Piece {
        kind: Kind::Writable,
        base: STACK,
        bytes: Bytes::from_slice(alloc, &dword.to_le_bytes())?,
    })?;
    Ok(pieces)
}

/// A thread whose ESP points to the dword of its stack.
#[tactic(auto, unfolding(ia32_step::specs::Frames::is_slot))]
fn thread(pc: u32) -> Thread
    ensures { is_slot result.stack (esp_of result) (esp_of result) ≡ true }
{
    Thread {
        number: 3,
        stack: Range {
            low: STACK,
            high: 0x0040_0004,
        },
        registers: [0, 0, 0, 0, STACK, 0, 0, 0],
        pc,
        flags: Flags {
            cf: false,
            pf: false,
            zf: false,
            sf: false,
            of: false,
        },
        state: State::Running,
    }
}

/// The verdict when a thread was started.
fn verdict_of(alloc: Global, space: &FlatSpace, thread: &Thread) -> Result<Verdict, AllocError>
    requires { is_slot thread.now.stack (esp_of thread.now) (esp_of thread.now) ≡ true }
{
    let mut watch = Watch::new(alloc);
    watch.note_spawn(thread, space)?;
    Ok(watch.verdict())
}

#[test]
fn starts(rt: HostRuntime) -> Result<(), Fail> {
    let alloc = rt.alloc();
    for start in &STARTS {
        let pieces = pieces_of(alloc, start.dword)?;
        assert!(rt; are_placed(&pieces));
        let space = FlatSpace::new(alloc, pieces)?;
        assert!(rt; verdict_of(alloc, &space, &thread(start.pc))? == start.verdict);
    }
    Ok(())
}
