//! What is asked of a memory, and of the slot of one frame.
ghost use Rattle.std.specs.Prelude.{◌≡◌, ◌<◌, true, None, Some, MatchResult};
ghost use Rattle.image_memory.specs.Access.{first_fault, read_fault, dword_at};
ghost use Rattle.image_memory.specs.Fetch.{has_window, view_at};
ghost use Rattle.ia32_step.specs.Frames as frames;
ghost use Rattle.ia32_step.specs.Threads as threads;
ghost use Rattle.frame_watch.specs.Conditions.{HaveWindows};
ghost use Rattle.frame_watch.specs.inside.Events.{WasFetched};

use ia32_step::{ESP, Frame, Thread};
use image_memory::{JUMP_LENGTH, Space};
use ks_base::{Fault, Range};

/// Where a thread's ESP points.
pub(crate) fn esp_of(thread: &Thread) -> u32
    ensures { result ≡ threads.esp_of thread.now }
{
    thread.registers[ESP]
}

/// Whether a thread that comes to an address has a window there.
pub(crate) fn has_window<S: Space>(space: &S, pc: u32) -> bool
    ensures { result ≡ has_window (view_at (S.contents space.now) pc) }
{
    space.window(pc).is_ok()
}

/// Whether an address is that of one of so many bytes that were fetched from a pc on, and these are too many to be a
/// jump at a home, so that each has a window.
pub(crate) fn was_fetched(from: u32, fetched: u32, address: u32) -> bool
    ensures { result ≡ true → WasFetched from fetched address }
{
    fetched > JUMP_LENGTH as u32 && from <= address && address - from < fetched
}

/// Whether a thread that comes to an address from a pc, where so many bytes were fetched, has a window there.
pub(crate) fn arrives<S: Space>(space: &S, from: u32, fetched: u32, pc: u32) -> bool
    requires { 5 < fetched → HaveWindows (S.contents space.now) from fetched }
    ensures { result ≡ has_window (view_at (S.contents space.now) pc) }
{
    if was_fetched(from, fetched, pc) {
        return true;
    }
    has_window(space, pc)
}

/// The number that four bytes spell.
fn read_dword<S: Space>(space: &S, address: u32) -> Result<u32, Fault>
    ensures ok { MatchResult result
        (λ number. (first_fault (read_fault (S.contents space.now).pieces) address 4 ≡ None)
        × (number ≡ dword_at (S.contents space.now).pieces address))
        (λ fault. first_fault (read_fault (S.contents space.now).pieces) address 4 ≡ Some fault) }
{
    let mut bytes = [0; 4];
    space.read(address, &mut bytes)?;
    Ok(u32::from_le_bytes(bytes))
}

/// The number that four bytes spell which can be read.
pub(crate) fn dword_at<S: Space>(space: &S, address: u32) -> u32
    requires { first_fault (read_fault (S.contents space.now).pieces) address 4 ≡ None }
    ensures { result ≡ dword_at (S.contents space.now).pieces address }
{
    let Ok(number) = read_dword(space, address) else {
        unreachable!()
    };
    number
}

/// Whether a frame's slot holds its address.
pub(crate) fn holds_address<S: Space>(space: &S, frame: Frame) -> bool
    ensures { result ≡ frames.holds_dword (S.contents space.now).pieces frame.slot frame.address }
{
    match read_dword(space, frame.slot) {
        Ok(number) => number == frame.address,
        Err(_) => false,
    }
}

/// Whether a slot is a multiple of 4, lies at or above ESP and inside the stack.
#[tactic(auto, unfolding(ia32_step::specs::Frames::is_slot))]
pub(crate) fn is_slot(stack: Range, esp: u32, slot: u32) -> bool
    ensures { result ≡ frames.is_slot stack esp slot }
{
    slot % 4 == 0
        && esp <= slot
        && stack.low <= slot
        && u64::from(slot) + 4 <= u64::from(stack.high)
}
