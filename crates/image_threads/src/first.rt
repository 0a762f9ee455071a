//! What a thread and its stack are at first.
ghost use Rattle.std.specs.Prelude.{◌≡◌, ◌≤◌, ◌+◌, IfOk};
ghost use Rattle.image_memory.specs.Ranges.{are_same};
ghost use Rattle.image_threads.specs.Spawning.{is_taken, free_stack, first_top, first_bytes, first_thread};

use ia32_alu::Flags;
use ia32_step::{ESP, RETURN_ADDRESS, State, Thread};
use ks_base::Range;
use std::alloc::{AllocError, Global};

/// How many bytes of a stack stand at and above the first ESP.
const FIRST_FRAME: u32 = 20;

/// A stack's bytes at first: zeros, and from 20 bytes below its end on the return address, the argument and zeros.
/// `Err` comes only if memory runs out.
pub fn first_bytes(alloc: Global, stack: Range, argument: u32) -> Result<Vec<u8>, AllocError>
    requires { stack.low + 20 ≤ stack.high }
    ensures { IfOk result (λ bytes. bytes.items ≡ first_bytes stack argument) }
{
    let below = (stack.high - FIRST_FRAME - stack.low) as usize;
    let mut bytes = Vec::new(alloc);
    bytes.resize(below, 0)?;
    bytes.extend_from_slice(&RETURN_ADDRESS.to_le_bytes())?;
    bytes.extend_from_slice(&argument.to_le_bytes())?;
    bytes.extend_from_slice(&[0; 12])?;
    Ok(bytes)
}

/// A thread at first: it stands at its function, ESP points 20 bytes below its stack's end, and all other registers
/// and the flags are clear. It takes no memory.
pub fn first_thread(number: u32, stack: Range, pc: u32) -> Thread
    requires { 20 ≤ stack.high }
    ensures { result ≡ first_thread number stack pc }
{
    let mut registers = [0; 8];
    registers[ESP] = stack.high - FIRST_FRAME;
    Thread {
        number,
        stack,
        registers,
        pc,
        flags: Flags {
            cf: false,
            pf: false,
            zf: false,
            sf: false,
            of: false,
        },
        state: State::Running,
    }
}
