//! Each call of a memory, over code, read-only and writable pieces of which two are adjacent; in each of the memories.
ghost use Rattle.std.specs.Prelude.{◌≡◌, ◌<◌, ◌+◌, ◌==◌, [], ◌∷◌, ◌++◌, length, true, IfOk, OnOk};
ghost use Rattle.std.specs.List.{list_any, Contains};
ghost use Rattle.image_memory.specs.Ranges.{from_to, MeetsNone};
ghost use Rattle.image_memory.specs.Contents.{ArePlaced, piece_range};
ghost use Rattle.image_memory.specs.Changes.{IsPlaceable, after_add, after_drop, without_first};

use image_memory::{FlatSpace, Kind, Piece, Pieces, Space, are_placed, piece_at};
use ks_base::{Bytes, Fault, Range};
use paged_memory::PagedSpace;
use std::alloc::{AllocError, Global};
use std::test::Fail;

const LONG_CODE: [u8; 17] = [1, 2, 3, 4, 5, 6, 7, 8, 9, 10, 11, 12, 13, 14, 15, 16, 17];

pub(crate) fn piece_of(
    alloc: Global,
    kind: Kind,
    base: u32,
    bytes: &[u8],
) -> Result<Piece, AllocError>
    ensures { IfOk result (λ piece. piece ≡ record { kind = kind; base = base; bytes = bytes.now }) }
{
    let bytes = Bytes::from_slice(alloc, bytes)?;
    Ok(Piece { kind, base, bytes })
}

pub(crate) fn alone(alloc: Global, piece: Piece) -> Result<Pieces, AllocError>
    ensures { IfOk result (λ pieces. pieces ≡ piece ∷ []) }
{
    let mut pieces = Pieces::new(alloc);
    pieces.push(piece)?;
    Ok(pieces)
}

pub(crate) fn push(
    alloc: Global,
    pieces: &mut Pieces,
    kind: Kind,
    base: u32,
    bytes: &[u8],
) -> Result<(), AllocError>
    ensures { OnOk result (pieces.new ≡ pieces.old ++ record { kind = kind; base = base; bytes = bytes.now } ∷ []) }
{
    pieces.push(piece_of(alloc, kind, base, bytes)?)
}

/// How many bytes are fetched.
fn fetched<S: Space>(space: &S, pc: u32) -> Result<u32, Fault> {
    Ok(space.window(pc)?.length)
}

fn example(alloc: Global) -> Result<Pieces, AllocError> {
    let mut pieces = Pieces::new(alloc);
    push(
        alloc,
        &mut pieces,
        Kind::Code,
        0x0010_0000,
        &[0xb8, 1, 0, 0, 0, 0xc3],
    )?;
    push(alloc, &mut pieces, Kind::Code, 0x0010_0010, &LONG_CODE)?;
    push(alloc, &mut pieces, Kind::ReadOnly, 0x0020_0000, &[1, 2, 3])?;
    push(
        alloc,
        &mut pieces,
        Kind::Writable,
        0x0020_0003,
        &[4, 5, 6, 7],
    )?;
    push(alloc, &mut pieces, Kind::Writable, 0xfffe_ffff, &[8])?;
    Ok(pieces)
}

/// Whether two pieces of these bases and lengths (first at most 3, second at most 2) may make up a memory.
fn placed(alloc: Global, low: u32, high: u32, bytes: &[u8]) -> Result<bool, AllocError> {
    let mut pieces = Pieces::new(alloc);
    push(alloc, &mut pieces, Kind::Code, low, &[1, 2, 3])?;
    push(alloc, &mut pieces, Kind::Writable, high, bytes)?;
    Ok(are_placed(&pieces))
}

pub(crate) fn reads<S: Space>(space: &S, address: u32) -> (Result<(), Fault>, [u8; 4]) {
    let mut bytes = [0xee; 4];
    let answer = space.read(address, &mut bytes);
    (answer, bytes)
}

/// A memory that can be made of pieces.
pub(crate) trait FromPieces: Space + Drop {
    /// The memory that holds the pieces, with no retired range and nothing spare.
    fn from_pieces(alloc: Global, pieces: Pieces) -> Result<Self, AllocError>
        requires { ArePlaced pieces }
        ensures contents { IfOk result (λ space. Self.contents space ≡ record { pieces = pieces; fences = [] }) }
        ensures room { IfOk result (λ space. Self.room space ≡ record { ranges = []; fences = 0 }) };
}

impl FromPieces for FlatSpace {
    fn from_pieces(alloc: Global, pieces: Pieces) -> Result<Self, AllocError> {
        FlatSpace::new(alloc, pieces)
    }
}

impl FromPieces for PagedSpace {
    fn from_pieces(alloc: Global, pieces: Pieces) -> Result<Self, AllocError> {
        PagedSpace::new(alloc, pieces)
    }
}

/// The memory that holds pieces which may make one up.
pub(crate) fn memory_of<S: FromPieces>(alloc: Global, pieces: Pieces) -> Result<S, Fail>
    ensures contents { IfOk result (λ space. S.contents space ≡ record { pieces = pieces; fences = [] }) }
    ensures room { IfOk result (λ space. S.room space ≡ record { ranges = []; fences = 0 }) }
{
    if !are_placed(&pieces) {
        return Err(Fail::from("pieces that may not make up a memory"));
    }
    Ok(S::from_pieces(alloc, pieces)?)
}

/// Adds a piece for which there is room.
pub(crate) fn add<S: Space>(
    space: &mut S,
    alloc: Global,
    kind: Kind,
    base: u32,
    bytes: &[u8],
) -> Result<(), AllocError>
    requires spare { Contains (S.room space.old).ranges (from_to base (base + length bytes.now)) }
    requires apart { MeetsNone piece_range (from_to base (base + length bytes.now)) (S.contents space.old).pieces }
    ensures contents { OnOk result (S.contents space.new
        ≡ after_add (S.contents space.old) (record { kind = kind; base = base; bytes = bytes.now })) }
    ensures room { OnOk result (S.room space.new ≡ record (S.room space.old) {
      ranges = without_first (from_to base (base + length bytes.now)) (S.room space.old).ranges;
    }) }
{
    space.add_piece(piece_of(alloc, kind, base, bytes)?);
    Ok(())
}

/// Makes room for a piece and for a retired range, and adds the piece.
pub(crate) fn put<S: Space>(
    space: &mut S,
    alloc: Global,
    kind: Kind,
    base: u32,
    bytes: &[u8],
) -> Result<(), AllocError>
    requires fits { IsPlaceable (from_to base (base + length bytes.now)) }
    requires apart { MeetsNone piece_range (from_to base (base + length bytes.now)) (S.contents space.old).pieces }
    ensures contents { OnOk result (S.contents space.new
        ≡ after_add (S.contents space.old) (record { kind = kind; base = base; bytes = bytes.now })) }
    ensures fences { OnOk result (0 < (S.room space.new).fences) }
{
    let wanted = alone(alloc, piece_of(alloc, kind, base, bytes)?)?;
    space.reserve(&wanted, 1)?;
    add(space, alloc, kind, base, bytes)
}

/// Drops the piece that begins at a base.
pub(crate) fn drop_at<S: Space>(space: &mut S, base: u32)
    requires { list_any (λ piece. piece.base == base) (S.contents space.old).pieces ≡ true }
    ensures contents { S.contents space.new ≡ after_drop (S.contents space.old) base }
    ensures room { S.room space.new ≡ record (S.room space.old) { ranges = [] } }
{
    space.drop_piece(base);
}

/// The base of the piece in which an address lies, where the pieces may make up a memory.
fn base_at(pieces: &Pieces, address: u64) -> Option<u32> {
    if !are_placed(pieces) {
        return None;
    }
    Some(piece_at(pieces.as_slice(), address)?.base)
}

#[test]
fn pieces_found(rt: HostRuntime) -> Result<(), Fail> {
    let pieces = example(rt.alloc())?;
    let found = [
        base_at(&pieces, 0x0020_0002),
        base_at(&pieces, 0x0020_0007),
        base_at(&pieces, 0x000f_ffff),
    ];
    assert!(rt; found == [Some(0x0020_0000), None, None]);
    Ok(())
}

#[test]
fn placement(rt: HostRuntime) -> Result<(), Fail> {
    // the bases of two pieces, the bytes of the second one, and whether they may make up a memory
    let rows: [(u32, u32, &[u8], bool); 6] = [
        (0, 3, &[1], true),
        (0, 0xfffe_fffe, &[1, 2], true),
        (0, 2, &[1], false),
        (7, 3, &[1], false),
        (0, 3, &[], false),
        (0, 0xfffe_ffff, &[1, 2], false),
    ];
    for (low, high, bytes, wanted) in rows {
        assert!(rt; placed(rt.alloc(), low, high, bytes)? == wanted);
    }
    Ok(())
}

/// A piece's kind and range.
fn shape(kind: Kind, low: u32, high: u32) -> Option<(Kind, Range)> {
    Some((kind, Range { low, high }))
}

/// The kinds and ranges of the example's pieces.
fn shapes<S: Space>(space: &S) -> bool {
    let found = [
        space.piece(0),
        space.piece(3),
        space.piece(4),
        space.piece(5),
        space.piece(u32::MAX),
    ];
    let wanted = [
        shape(Kind::Code, 0x0010_0000, 0x0010_0006),
        shape(Kind::Writable, 0x0020_0003, 0x0020_0007),
        shape(Kind::Writable, 0xfffe_ffff, 0xffff_0000),
        None,
        None,
    ];
    found == wanted
}

/// What is seen of the example: single bytes, and whether its start is a spliced home.
fn looks<S: Space>(space: &S) -> bool {
    space.look(0x0010_0000) == Some((Kind::Code, 0xb8))
        && space.look(0x0020_0003) == Some((Kind::Writable, 4))
        && space.look(0x0020_0007).is_none()
        && space.look(0x000f_ffff).is_none()
        && !space.spliced(0x0010_0000)
}

/// Whether the bytes that are fetched are these, with zeros after them.
pub(crate) fn fetches<S: Space>(space: &S, pc: u32, length: u32, bytes: [u8; 15]) -> bool {
    match space.window(pc) {
        Ok(window) => {
            let fetched = window.bytes;
            window.length == length && fetched == bytes
        }
        Err(_) => false,
    }
}

/// What is fetched of the example.
fn windows<S: Space>(space: &S) -> bool {
    let short = [1, 0, 0, 0, 0xc3, 0, 0, 0, 0, 0, 0, 0, 0, 0, 0];
    let long = [2, 3, 4, 5, 6, 7, 8, 9, 10, 11, 12, 13, 14, 15, 16];
    fetches(space, 0x0010_0001, 5, short)
        && fetches(space, 0x0010_0011, 15, long)
        && space.window(0x0010_0006) == Err(Fault::Unmapped)
        && space.window(0x0020_0000) == Err(Fault::Unmapped)
}

/// What is read of the example.
fn all_read<S: Space>(space: &S) -> bool {
    reads(space, 0x0020_0001) == (Ok(()), [2, 3, 4, 5])
        && reads(space, 0x0020_0004) == (Err(Fault::Unmapped), [0xee; 4])
        && reads(space, 0x0010_0004) == (Err(Fault::CodeAccess), [0xee; 4])
        && reads(space, 0xffff_fffe) == (Err(Fault::Unmapped), [0xee; 4])
}

/// What is written to the example, and read of it then.
fn all_written<S: Space>(space: &mut S) -> bool {
    let answers = [
        space.write(0x0020_0004, &[0xa, 0xb]),
        space.write(0x0020_0002, &[0xc, 0xc]),
        space.write(0x0020_0006, &[0xc, 0xc]),
        space.write(0x0010_0000, &[0xc]),
    ];
    let wanted = [
        Ok(()),
        Err(Fault::ReadOnlyWrite),
        Err(Fault::Unmapped),
        Err(Fault::CodeAccess),
    ];
    answers == wanted
        && reads(space, 0x0020_0003) == (Ok(()), [4, 0xa, 0xb, 7])
        && reads(space, 0x0020_0000) == (Ok(()), [1, 2, 3, 4])
}

/// Whether the example's pieces and bytes are seen, fetched, read and written as they should be.
fn serves_example<S: FromPieces>(alloc: Global) -> Result<bool, Fail> {
    let mut space: S = memory_of(alloc, example(alloc)?)?;
    let found = [
        shapes(&space),
        looks(&space),
        windows(&space),
        all_read(&space),
        all_written(&mut space),
    ];
    Ok(found == [true; 5])
}

#[test]
fn looks_windows_reads_and_writes(rt: HostRuntime) -> Result<(), Fail> {
    let right = [
        serves_example::<FlatSpace>(rt.alloc())?,
        serves_example::<PagedSpace>(rt.alloc())?,
    ];
    assert!(rt; right == [true; 2]);
    Ok(())
}

/// How many bytes are fetched at some places of the code.
fn all_fetched<S: Space>(space: &S) -> [Result<u32, Fault>; 4] {
    [
        fetched(space, 0x0ffa),
        fetched(space, 0x0ffe),
        fetched(space, 0x0fff),
        fetched(space, 0x1003),
    ]
}

/// What is seen at three places of the code.
fn seen<S: Space>(space: &S) -> [Option<(Kind, u8)>; 3] {
    [space.look(0x0fff), space.look(0x1000), space.look(0x1001)]
}

fn code_byte(byte: u8) -> Option<(Kind, u8)> {
    Some((Kind::Code, byte))
}

/// Whether code over a page's end, with a page of data behind it, is seen as it should be while it is added, retired,
/// changed, open again and dropped.
fn serves_changes<S: FromPieces>(alloc: Global) -> Result<bool, Fail> {
    let data = alone(alloc, piece_of(alloc, Kind::Writable, 0x2000, &[1, 2, 3])?)?;
    let mut space: S = memory_of(alloc, data)?;
    let before = space.look(0x0ffa);
    put(&mut space, alloc, Kind::Code, 0x0ffa, &LONG_CODE)?;
    let added = (space.look(0x0ffa), fetched(&space, 0x0ffa));

    let retired = Range {
        low: 0x0ffe,
        high: 0x1003,
    };
    space.fence(retired, true);
    let fenced = (space.spliced(0x0ffe), all_fetched(&space));

    space.poke_code(0x0fff, &[0xe9, 0xff]);
    let poked = seen(&space);

    space.unfence(retired);
    let end = [5, 0xe9, 0xff, 8, 9, 10, 11, 12, 13, 14, 15, 16, 17, 0, 0];
    let open = (space.spliced(0x0ffe), fetches(&space, 0x0ffe, 13, end));

    drop_at(&mut space, 0x0ffa);
    let dropped = [before, space.look(0x0fff), space.look(0x2001)];

    let wanted = (
        (code_byte(1), Ok(15)),
        (true, [Ok(4), Ok(5), Err(Fault::Stray), Ok(8)]),
        [code_byte(0xe9), code_byte(0xff), code_byte(8)],
        (false, true),
        [None, None, Some((Kind::Writable, 2))],
    );
    Ok((added, fenced, poked, open, dropped) == wanted)
}

#[test]
fn changes(rt: HostRuntime) -> Result<(), Fail> {
    let right = [
        serves_changes::<FlatSpace>(rt.alloc())?,
        serves_changes::<PagedSpace>(rt.alloc())?,
    ];
    assert!(rt; right == [true; 2]);
    Ok(())
}
