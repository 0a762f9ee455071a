//! Copies of writable pieces.
ghost use Rattle.std.specs.Prelude.{◌≡◌, ◌-◌, length, IsTrue, IfOk, None};
ghost use Rattle.image_memory.specs.Access.{first_fault, read_fault, bytes_at};
ghost use Rattle.image_threads.specs.Spawning.{is_stack, is_writable};
ghost use Rattle.saved_data.specs.Saved.{writable_pieces};

use image_memory::{Kind, Piece, Pieces, Space};
use ks_base::{Bytes, Range};
use std::alloc::{AllocError, Global};

/// Copies of a memory's writable pieces, in their order. `Err` comes only if memory runs out.
pub fn save<S: Space>(alloc: Global, space: &S) -> Result<Pieces, AllocError>
    ensures { IfOk result (λ saved. saved ≡ writable_pieces (S.contents space.now).pieces) }
{
    let mut saved = Pieces::new(alloc);
    for i in 0..u32::MAX {
        let Some((kind, range)) = space.piece(i) else {
            return Ok(saved);
        };
        if is_writable(kind) {
            saved.push(Piece {
                kind,
                base: range.low,
                bytes: bytes_of(alloc, space, range)?,
            })?;
        }
    }
    Ok(saved)
}

fn is_writable(kind: Kind) -> bool
    ensures { result ≡ is_writable kind }
{
    matches!(kind, Kind::Writable)
}

/// The bytes of a range that is a writable piece.
fn bytes_of<S: Space>(alloc: Global, space: &S, range: Range) -> Result<Bytes, AllocError>
    requires { IsTrue (is_stack (S.contents space.now).pieces range) }
    ensures { IfOk result (λ bytes.
        bytes ≡ bytes_at (S.contents space.now).pieces range.low (range.high - range.low)) }
{
    let mut bytes = Vec::new(alloc);
    bytes.resize((range.high - range.low) as usize, 0)?;
    read_all(space, range.low, &mut bytes);
    Ok(Bytes::from_vec(bytes))
}

/// Reads bytes from an address on, all of which can be read.
fn read_all<S: Space>(space: &S, address: u32, into: &mut [u8])
    requires { first_fault (read_fault (S.contents space.now).pieces) address (length into.old) ≡ None }
    ensures { into.new ≡ bytes_at (S.contents space.now).pieces address (length into.old) }
{
    match space.read(address, into) {
        Ok(()) => {}
        Err(_) => unreachable!(),
    }
}
