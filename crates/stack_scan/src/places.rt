//! The places of a thread, one kind after another.
ghost use Rattle.std.specs.Prelude.{◌≡◌, ◌≤◌, ◌<◌, ◌+◌, ◌*◌, ◌^◌, map, None};
ghost use Rattle.image_memory.specs.Access.{first_fault, read_fault};
ghost use Rattle.stack_scan.specs.Standing.{first_place, looked_at, in_register, on_stack, addresses};

use crate::targets::Targets;
use crate::words::{CHUNK_WORDS, first_among, read_words};
use image_memory::Space;
use ks_base::Place;

const EAX: u8 = 0;

const ECX: u8 = 1;

const EDX: u8 = 2;

const EBX: u8 = 3;

const EBP: u8 = 5;

const ESI: u8 = 6;

const EDI: u8 = 7;

/// The registers that are looked at, in this order.
const LOOKED_AT: [u8; 7] = [EAX, ECX, EDX, EBX, EBP, ESI, EDI];

/// The first register but ESP that holds an address of the targets, and the address.
pub(crate) fn first_register(registers: &[u32; 8], targets: &Targets<'_>) -> Option<(Place, u32)>
    ensures { result ≡ first_place targets.now (map (in_register registers.now) looked_at) }
{
    for number in LOOKED_AT {
        let value = registers[number as usize];
        if targets.has(value) {
            return Some((Place::Register(number), value));
        }
    }
    None
}

/// The first of some dwords of the stack that is an address of the targets, and the address.
pub(crate) fn first_on_stack<S: Space>(
    space: &S,
    start: u32,
    count: u32,
    targets: &Targets<'_>,
) -> Option<(Place, u32)>
    requires end { start + 4 * count < 2 ^ 32 }
    requires readable { first_fault (read_fault (S.contents space.now).pieces) start (4 * count) ≡ None }
    ensures { result ≡ first_place targets.now (map (on_stack (S.contents space.now).pieces) (addresses start count)) }
{
    let mut passed = 0;
    while passed < count {
        let some = (count - passed).min(CHUNK_WORDS as u32);
        if let Some(found) = first_in_chunk(space, start + 4 * passed, some, targets) {
            return Some(found);
        }
        passed += some;
    }
    None
}

/// The same for dwords that are read at once.
fn first_in_chunk<S: Space>(
    space: &S,
    start: u32,
    count: u32,
    targets: &Targets<'_>,
) -> Option<(Place, u32)>
    requires few { count ≤ 1024 }
    requires end { start + 4 * count < 2 ^ 32 }
    requires readable { first_fault (read_fault (S.contents space.now).pieces) start (4 * count) ≡ None }
    ensures { result ≡ first_place targets.now (map (on_stack (S.contents space.now).pieces) (addresses start count)) }
{
    let mut words = [0; CHUNK_WORDS];
    let part = &mut words[..count as usize];
    read_words(space, start, part);
    match first_among(part, targets) {
        None => None,
        Some(index) => Some((Place::Stack(start + 4 * index), part[index as usize])),
    }
}
