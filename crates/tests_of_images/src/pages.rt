//! What is seen, fetched, read and written at the ends of pages of 4,096 bytes, and of pieces that share a page; in each
//! of the memories.
ghost use Rattle.std.specs.Prelude.{◌≡◌, ◌<◌, [], ◌∷◌, OnOk};
ghost use Rattle.image_memory.specs.Ranges.{from_to};

use crate::memory::{FromPieces, add, drop_at, fetches, memory_of, push, put, reads};
use image_memory::{FlatSpace, Kind, Piece, Pieces, Space};
use ks_base::{Bytes, Fault};
use paged_memory::{PagedSpace, Steps};
use std::alloc::{AllocError, Global};
use std::marker::Brand;
use std::sync::ledger::{Blank, Ledger};
use std::test::Fail;

/// So many bytes, each its place modulo 251.
fn numbered(alloc: Global, count: u32) -> Result<Bytes, AllocError> {
    let mut bytes = Bytes::new(alloc);
    for place in 0..count {
        bytes.push((place % 251) as u8)?;
    }
    Ok(bytes)
}

/// Kinds, bases and lengths: code that ends two bytes into its second page, data that end one byte into theirs, data
/// over three pages, and writable data up to a page's end with read-only data from there on.
const LONG: [(Kind, u32, u32); 5] = [
    (Kind::Code, 0x0010_0000, 0x1002),
    (Kind::Writable, 0x0020_0000, 0x1001),
    (Kind::Writable, 0x0030_0ff0, 0x1020),
    (Kind::Writable, 0x0040_0ff8, 8),
    (Kind::ReadOnly, 0x0040_1000, 0x1000),
];

fn long_pieces(alloc: Global) -> Result<Pieces, AllocError> {
    let mut pieces = Pieces::new(alloc);
    for (kind, base, count) in LONG {
        let bytes = numbered(alloc, count)?;
        pieces.push(Piece { kind, base, bytes })?;
    }
    Ok(pieces)
}

/// Whether so many bytes are read from an address on as these.
fn reads_as<S: Space>(
    space: &S,
    alloc: Global,
    address: u32,
    bytes: &[u8],
) -> Result<bool, AllocError> {
    let mut into = vec![in alloc; 0; bytes.len()]?;
    let answer = space.read(address, into.as_mut_slice());
    Ok(answer == Ok(()) && into.as_slice() == bytes)
}

/// Whether data over three pages are read, and written over both ends, as they should be.
fn crosses_pages<S: Space>(space: &mut S, alloc: Global) -> Result<bool, AllocError> {
    let bytes = numbered(alloc, 0x1020)?;
    let before = reads_as(space, alloc, 0x0030_0ff0, bytes.as_slice())?;
    let front = bytes.as_slice().get(..0x1010).unwrap_or(&[]);
    let answer = space.write(0x0030_0ff8, front);
    let after = reads_as(space, alloc, 0x0030_0ff8, front)?;
    let ends = [space.look(0x0030_0ff7), space.look(0x0030_2008)];
    let wanted = [Some((Kind::Writable, 7)), Some((Kind::Writable, 104))];
    Ok((before, answer, after, ends) == (true, Ok(()), true, wanted))
}

/// Whether reads and writes at the ends of pages and pieces answer as they should.
fn stops_at_ends<S: Space>(space: &mut S) -> bool {
    let mut two = [0xee; 2];
    let answer = space.read(0x0020_0fff, &mut two);
    let read = (answer, two, reads(space, 0x0020_0fff));
    let write = space.write(0x0040_0ffe, &[0xa, 0xb, 0xc, 0xd]);
    let written = (write, reads(space, 0x0040_0ffe));
    let wanted = (
        (Ok(()), [79, 80], (Err(Fault::Unmapped), [0xee; 4])),
        (Err(Fault::ReadOnlyWrite), (Ok(()), [6, 7, 0, 1])),
    );
    (read, written) == wanted
}

/// Whether the long pieces are fetched, read and written as they should be.
fn serves_long_pieces<S: FromPieces>(alloc: Global) -> Result<bool, Fail> {
    let mut space: S = memory_of(alloc, long_pieces(alloc)?)?;
    let last = [78, 79, 80, 81, 0, 0, 0, 0, 0, 0, 0, 0, 0, 0, 0];
    let fetched = fetches(&space, 0x0010_0ffe, 4, last);
    let ends = stops_at_ends(&mut space);
    let crossed = crosses_pages(&mut space, alloc)?;
    Ok(fetched && ends && crossed)
}

#[test]
fn long_pieces_are_used(rt: HostRuntime) -> Result<(), Fail> {
    let right = [
        serves_long_pieces::<FlatSpace>(rt.alloc())?,
        serves_long_pieces::<PagedSpace>(rt.alloc())?,
    ];
    assert!(rt; right == [true; 2]);
    Ok(())
}

/// What is looked up while steps are counted.
fn looked<L: Ledger>(space: &PagedSpace, address: u32, blank: Blank) -> Option<(Kind, u8)>
    requires name { blank.name ≡ L.name }
    requires parts { blank.parts ≡ L.parts }
    requires some { 0 < blank.parts }
{
    space.look_counted::<L>(address, &mut Steps::new(blank))
}

/// Whether a look at an address answers the same while steps are counted.
fn counts_as_it_looks(space: &PagedSpace, address: u32) -> bool {
    looked::<Brand>(space, address, Blank::new(1)) == space.look(address)
}

/// Whether looks at some addresses do: below all pieces, at the last byte of code and behind it, at a page's start.
fn counts_looks(space: &PagedSpace) -> [bool; 4] {
    [
        counts_as_it_looks(space, 0),
        counts_as_it_looks(space, 0x0010_1001),
        counts_as_it_looks(space, 0x0010_1002),
        counts_as_it_looks(space, 0x0040_1000),
    ]
}

#[test]
fn looks_are_counted(rt: HostRuntime) -> Result<(), Fail> {
    let space: PagedSpace = memory_of(rt.alloc(), long_pieces(rt.alloc())?)?;
    assert!(rt; counts_looks(&space) == [true; 4]);
    Ok(())
}

const SIXTEEN: [u8; 16] = [1, 2, 3, 4, 5, 6, 7, 8, 9, 10, 11, 12, 13, 14, 15, 16];

const TWENTIES: [u8; 4] = [20, 21, 22, 23];

const THIRTIES: [u8; 4] = [30, 31, 32, 33];

fn data(byte: u8) -> Option<(Kind, u8)> {
    Some((Kind::Writable, byte))
}

/// What is seen around two pieces in one page, the lower of which begins in the page before.
fn around<S: Space>(space: &S) -> [Option<(Kind, u8)>; 5] {
    [
        space.look(0x0020_0ff8),
        space.look(0x0020_0fff),
        space.look(0x0020_1007),
        space.look(0x0020_1008),
        space.look(0x0020_1010),
    ]
}

/// Whether two pieces in one page, with a gap between them, are seen as they should be while the lower one, which begins
/// in the page before, is dropped and a shorter one added there.
fn serves_neighbours<S: FromPieces>(alloc: Global) -> Result<bool, Fail> {
    let mut pieces = Pieces::new(alloc);
    push(alloc, &mut pieces, Kind::Writable, 0x0020_0ff8, &SIXTEEN)?;
    push(alloc, &mut pieces, Kind::Writable, 0x0020_1010, &TWENTIES)?;
    let mut space: S = memory_of(alloc, pieces)?;
    let first = (around(&space), reads(&space, 0x0020_1006));
    drop_at(&mut space, 0x0020_0ff8);
    let dropped = (around(&space), reads(&space, 0x0020_1010));
    put(&mut space, alloc, Kind::Writable, 0x0020_0ffe, &THIRTIES)?;
    let added = (around(&space), reads(&space, 0x0020_0ffe));
    let unmapped = (Err(Fault::Unmapped), [0xee; 4]);
    let wanted = (
        ([data(1), data(8), data(16), None, data(20)], unmapped),
        ([None, None, None, None, data(20)], (Ok(()), TWENTIES)),
        ([None, data(31), None, None, data(20)], (Ok(()), THIRTIES)),
    );
    Ok((first, dropped, added) == wanted)
}

#[test]
fn neighbours_in_a_page(rt: HostRuntime) -> Result<(), Fail> {
    let right = [
        serves_neighbours::<FlatSpace>(rt.alloc())?,
        serves_neighbours::<PagedSpace>(rt.alloc())?,
    ];
    assert!(rt; right == [true; 2]);
    Ok(())
}

/// Makes room for three pieces of two pages each: the upper page of one is the lower page of the next.
fn reserve_three<S: Space>(space: &mut S, alloc: Global) -> Result<(), AllocError>
    ensures contents { S.contents space.new ≡ S.contents space.old }
    ensures ranges { OnOk result ((S.room space.new).ranges ≡ from_to 0x0020_0ff8 0x0020_1008
        ∷ from_to 0x0020_1ffe 0x0020_2002 ∷ from_to 0x0020_2ffe 0x0020_3002 ∷ []) }
{
    let mut wanted = Pieces::new(alloc);
    push(alloc, &mut wanted, Kind::Writable, 0x0020_0ff8, &SIXTEEN)?;
    push(alloc, &mut wanted, Kind::ReadOnly, 0x0020_1ffe, &[0; 4])?;
    push(alloc, &mut wanted, Kind::Writable, 0x0020_2ffe, &[0; 4])?;
    space.reserve(&wanted, 0)
}

/// Whether pieces that are added in another order than room was made for them are read and written as they should be.
fn serves_reordered<S: FromPieces>(alloc: Global) -> Result<bool, Fail> {
    let mut space: S = memory_of(alloc, Pieces::new(alloc))?;
    reserve_three(&mut space, alloc)?;
    add(&mut space, alloc, Kind::Writable, 0x0020_2ffe, &THIRTIES)?;
    add(&mut space, alloc, Kind::Writable, 0x0020_0ff8, &SIXTEEN)?;
    add(&mut space, alloc, Kind::ReadOnly, 0x0020_1ffe, &TWENTIES)?;
    let answers = [
        space.write(0x0020_0ffc, &[40, 41, 42, 43, 44, 45, 46, 47]),
        space.write(0x0020_1ffe, &[50, 51, 52, 53]),
    ];
    let read = [
        reads(&space, 0x0020_0ffa),
        reads(&space, 0x0020_0ffe),
        reads(&space, 0x0020_1002),
        reads(&space, 0x0020_1ffe),
        reads(&space, 0x0020_2ffe),
    ];
    let wanted = [
        (Ok(()), [3, 4, 40, 41]),
        (Ok(()), [42, 43, 44, 45]),
        (Ok(()), [46, 47, 13, 14]),
        (Ok(()), TWENTIES),
        (Ok(()), THIRTIES),
    ];
    Ok(answers == [Ok(()), Err(Fault::ReadOnlyWrite)] && read == wanted)
}

#[test]
fn added_in_another_order(rt: HostRuntime) -> Result<(), Fail> {
    let right = [
        serves_reordered::<FlatSpace>(rt.alloc())?,
        serves_reordered::<PagedSpace>(rt.alloc())?,
    ];
    assert!(rt; right == [true; 2]);
    Ok(())
}
