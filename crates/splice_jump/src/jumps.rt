//! Jumps written and taken back.
ghost use Rattle.std.specs.Prelude.{◌≡◌, ◌+◌, ◌≤◌, ◌^◌};
ghost use Rattle.image_memory.specs.Access.{byte_at};
ghost use Rattle.image_memory.specs.Fetch.{HasCode};
ghost use Rattle.splice_jump.specs.Jump.{jump_bytes, five_at, after_jump, after_old};
ghost use Rattle.splice_jump.specs.Phases.{open_home, phase_bytes, trapping};

use crate::phase::Phase;
use image_memory::{JUMP_LENGTH, Space};

/// JMP by a displacement of 32 bits.
const JUMP: u8 = 0xE9;

/// INT3, at which a thread traps.
const TRAP: u8 = 0xCC;

/// The five bytes of the jump that stands at `home` and goes to `base`: E9, and how far it is from the jump's end to
/// `base`, modulo 2^32, the lowest byte first.
pub fn jump_bytes(home: u32, base: u32) -> [u8; JUMP_LENGTH]
    ensures { result ≡ jump_bytes home base }
{
    let end = home.wrapping_add(JUMP_LENGTH as u32);
    let [a, b, c, d] = base.wrapping_sub(end).to_le_bytes();
    [JUMP, a, b, c, d]
}

/// The home at which a jump is being written, where it isn't whole.
pub fn open_home(phase: Phase) -> Option<u32>
    ensures { result ≡ open_home phase }
{
    match phase {
        Phase::Done => None,
        Phase::Marked(home) | Phase::Tailed(home) => Some(home),
    }
}

/// The five bytes at `home` in a phase of writing the jump to `base` over `old` ones: the whole jump, or a byte that
/// traps before the last four of the old bytes or of the jump. The home that the phase names has no say.
pub fn phase_bytes(phase: Phase, home: u32, base: u32, old: [u8; JUMP_LENGTH]) -> [u8; JUMP_LENGTH]
    ensures { result ≡ phase_bytes phase home base old }
{
    match phase {
        Phase::Done => jump_bytes(home, base),
        Phase::Marked(_) => trapping(old),
        Phase::Tailed(_) => trapping(jump_bytes(home, base)),
    }
}

/// Five bytes with a first that traps.
fn trapping(bytes: [u8; JUMP_LENGTH]) -> [u8; JUMP_LENGTH]
    ensures { result ≡ trapping bytes }
{
    let [_, b, c, d, e] = bytes;
    [TRAP, b, c, d, e]
}

/// Writes the jump to `base` over the five bytes of code at `home`, and answers those that stood there. All else in
/// memory stays as it was.
pub fn splice<S: Space>(space: &mut S, home: u32, base: u32) -> [u8; JUMP_LENGTH]
    requires { HasCode (S.contents space.old).pieces home 5 }
    ensures contents { S.contents space.new ≡ after_jump (S.contents space.old) home base }
    ensures old { result ≡ five_at (S.contents space.old).pieces home }
    ensures room { S.room space.new ≡ S.room space.old }
{
    let old = five_at(space, home);
    space.poke_code(home, &jump_bytes(home, base));
    old
}

/// Puts five bytes back over the jump at `home`. All else in memory stays as it was.
pub fn restore<S: Space>(space: &mut S, home: u32, old: [u8; JUMP_LENGTH])
    requires { HasCode (S.contents space.old).pieces home 5 }
    ensures contents { S.contents space.new ≡ after_old (S.contents space.old) home old }
    ensures room { S.room space.new ≡ S.room space.old }
{
    space.poke_code(home, &old);
}

/// The five bytes that stand from an address on, 0 where there is none. They are looked at, since code can't be read as
/// data.
pub fn five_at<S: Space>(space: &S, home: u32) -> [u8; JUMP_LENGTH]
    requires { home + 5 ≤ 2 ^ 32 }
    ensures { result ≡ five_at (S.contents space.now).pieces home }
{
    [
        byte_at(space, home),
        byte_at(space, home + 1),
        byte_at(space, home + 2),
        byte_at(space, home + 3),
        byte_at(space, home + 4),
    ]
}

/// The byte at an address, 0 where there is none.
fn byte_at<S: Space>(space: &S, address: u32) -> u8
    ensures { result ≡ byte_at (S.contents space.now).pieces address }
{
    match space.look(address) {
        Some((_, byte)) => byte,
        None => 0,
    }
}
