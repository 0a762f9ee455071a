//! The jump at a home: its bytes, written and taken back.
ghost use Rattle.image_memory.specs.Fetch.{HasCode};

use crate::memory::{alone, piece_of};
use image_memory::{FlatSpace, Kind, Space, are_placed};
use splice_jump::{jump_bytes, restore, splice};
use std::test::Fail;

/// The five bytes that are seen from an address on.
fn seen<S: Space>(space: &S, home: u32) -> [Option<(Kind, u8)>; 5] {
    [
        space.look(home),
        space.look(home.wrapping_add(1)),
        space.look(home.wrapping_add(2)),
        space.look(home.wrapping_add(3)),
        space.look(home.wrapping_add(4)),
    ]
}

fn code(bytes: [u8; 5]) -> [Option<(Kind, u8)>; 5] {
    let [a, b, c, d, e] = bytes;
    [
        Some((Kind::Code, a)),
        Some((Kind::Code, b)),
        Some((Kind::Code, c)),
        Some((Kind::Code, d)),
        Some((Kind::Code, e)),
    ]
}

/// Splices a home: the bytes that are answered, and those that are seen then and after they were put back.
fn there_and_back<S: Space>(
    space: &mut S,
    home: u32,
    base: u32,
) -> ([u8; 5], [Option<(Kind, u8)>; 5], [Option<(Kind, u8)>; 5])
    requires { HasCode (S.contents space.old).pieces home 5 }
{
    let old = splice(space, home, base);
    let spliced = seen(space, home);
    restore(space, home, old);
    (old, spliced, seen(space, home))
}

/// Homes and bases, and the bytes of the jump: further up, to a base below the home, to the home itself, from a home
/// whose jump would end past the last address, and from near there.
const JUMPS: [(u32, u32, [u8; 5]); 6] = [
    (0x0010_0000, 0x0080_0000, [0xe9, 0xfb, 0xff, 0x6f, 0x00]),
    (0x0010_0000, 0x0080_0010, [0xe9, 0x0b, 0x00, 0x70, 0x00]),
    (0x0080_0000, 0x0010_0000, [0xe9, 0xfb, 0xff, 0x8f, 0xff]),
    (0x0010_0000, 0x0010_0000, [0xe9, 0xfb, 0xff, 0xff, 0xff]),
    (0xffff_fffe, 0x0000_0010, [0xe9, 0x0d, 0x00, 0x00, 0x00]),
    (0xfffe_fff0, 0x0010_0000, [0xe9, 0x0b, 0x00, 0x11, 0x00]),
];

#[test]
fn bytes_of_jumps(rt: HostRuntime) {
    for (home, base, bytes) in JUMPS {
        assert!(rt; jump_bytes(home, base) == bytes);
    }
}

#[test]
fn spliced_and_restored(rt: HostRuntime) -> Result<(), Fail> {
    let alloc = rt.alloc();
    let pieces = alone(
        alloc,
        piece_of(alloc, Kind::Code, 0x000f_ffff, &[0xc3, 1, 2, 3, 4, 5, 0xcc])?,
    )?;
    assert!(rt; are_placed(&pieces));
    let mut space = FlatSpace::new(alloc, pieces)?;
    let (old, spliced, restored) = there_and_back(&mut space, 0x0010_0000, 0x0080_0010);
    let ends = [space.look(0x000f_ffff), space.look(0x0010_0005)];
    let found = (old, spliced, restored, ends);
    let wanted = (
        [1, 2, 3, 4, 5],
        code([0xe9, 0x0b, 0x00, 0x70, 0x00]),
        code([1, 2, 3, 4, 5]),
        [Some((Kind::Code, 0xc3)), Some((Kind::Code, 0xcc))],
    );
    assert!(rt; found == wanted);
    Ok(())
}
