//! A whole image and the empty one, read and written, and what is read of the whole one.
use image_file::{Image, read_image, write_image};
use image_memory::{Kind, Piece};
use ks_base::Range;
use std::alloc::Global;
use std::test::Fail;
use symbol_table::Symbol;

// Regions, symbols and stacks of each kind.
const WHOLE: [u8; 138] = [
    0x4b, 0x49, 0x4d, 0x31, // magic
    3, 0, 0, 0, 3, 0, 0, 0, 2, 0, 0, 0, // counts
    0, 0, 0x80, 0, 0, 0, 0x90, 0, // 16: arena
    1, 0, 0, 0, 0, 0, 0x10, 0, 2, 0, 0, 0, 0x90, 0xc3, // 24: code at 0x00100000
    2, 0, 0, 0, 2, 0, 0x10, 0, 3, 0, 0, 0, 7, 8, 9, // 38: read-only at 0x00100002
    3, 0, 0, 0, 0, 0, 0x20, 0, 1, 0, 0, 0, 5, // 53: writable at 0x00200000
    1, 0, 0x10, 0, 1, 0, 0, 0, 1, 0, 0, 0, 4, 0, 0, 0, b'm', b'a', b'i', b'n', // 66
    2, 0, 0x10, 0, 2, 0, 0, 0, 0, 0, 0, 0, 3, 0, 0, 0, b't', b'w', b'o', // 86
    0, 0, 0x20, 0, 2, 0, 0, 0, 1, 0, 0, 0, 1, 0, 0, 0, b'w', // 105
    0, 0, 0, 2, 0, 1, 0, 2, // 122: a stack of 256 bytes at 0x02000000
    0, 1, 0, 2, 32, 1, 0, 2, // 130: one of 32 bytes right above it
];

const EMPTY: [u8; 24] = [
    0x4b, 0x49, 0x4d, 0x31, 0, 0, 0, 0, 0, 0, 0, 0, 0, 0, 0, 0, 0, 0, 0, 0, 0, 0, 0, 0,
];

/// Whether the bytes are read, and written as they were.
fn are_written(alloc: Global, bytes: &[u8]) -> Result<bool, Fail> {
    let image = read_image(alloc, bytes).ok().ok_or("refused")?;
    let written = write_image(alloc, &image)?;
    Ok(written.as_slice() == bytes)
}

#[test]
fn images_are_read_and_written(rt: HostRuntime) -> Result<(), Fail> {
    assert!(rt; are_written(rt.alloc(), &EMPTY)? && are_written(rt.alloc(), &WHOLE)?);
    let front = WHOLE.get(..137).unwrap_or(&WHOLE);
    assert!(rt; read_image(rt.alloc(), front).is_err());
    Ok(())
}

fn is_piece(piece: Option<&Piece>, kind: Kind, base: u32, bytes: &[u8]) -> bool {
    match piece {
        Some(piece) => {
            piece.kind == kind && piece.base == base && piece.bytes.as_slice() == bytes
        }
        None => false,
    }
}

fn is_global_function(symbol: Option<&Symbol>, address: u32, name: &[u8]) -> bool {
    match symbol {
        Some(symbol) => {
            symbol.address == address
                && symbol.function
                && symbol.global
                && symbol.name.as_slice() == name
        }
        None => false,
    }
}

/// Whether an image is the whole one: its second piece, its first symbol, its second stack and its arena's high.
fn is_whole(image: &Image) -> bool {
    let stack = Range {
        low: 0x0200_0100,
        high: 0x0200_0120,
    };
    is_piece(image.pieces.get(1), Kind::ReadOnly, 0x0010_0002, &[7, 8, 9])
        && is_global_function(image.symbols.get(0), 0x0010_0001, b"main")
        && image.stacks.get(1).copied() == Some(stack)
        && image.arena.high == 0x0090_0000
}

#[test]
fn whole_image(rt: HostRuntime) -> Result<(), Fail> {
    let image = read_image(rt.alloc(), &WHOLE).ok().ok_or("refused")?;
    assert!(rt; is_whole(&image));
    Ok(())
}
