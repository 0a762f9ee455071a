//! Data that are saved, written over and put back.
ghost use Rattle.std.specs.Prelude.{◌≡◌, ◌∷◌, [], IfOk, OnOk};
ghost use Rattle.image_memory.specs.Access.{after_write};
ghost use Rattle.saved_data.specs.Saved.{writable_pieces};
ghost use Rattle.tests_of_hooks.specs.Data.{filled};

use image_memory::{FlatSpace, Kind, Piece, Pieces, Space, are_placed};
use ks_base::Bytes;
use saved_data::{put_back, save};
use std::alloc::{AllocError, Global};
use std::process::Abort;
use std::test::Fail;

const DATA: u32 = 0x0080_0020;

fn piece_of(alloc: Global, kind: Kind, base: u32, bytes: &[u8]) -> Result<Piece, AllocError>
    ensures { IfOk result (λ piece. piece ≡ record { kind = kind; base = base; bytes = bytes.now }) }
{
    let bytes = Bytes::from_slice(alloc, bytes)?;
    Ok(Piece { kind, base, bytes })
}

/// A memory of a constant and of three bytes of data.
#[tactic(auto, unfolding(crate::specs::Data::filled))]
fn filled(rt: &impl Abort, alloc: Global) -> Result<FlatSpace, Fail>
    ensures { IfOk result (λ space. ⟦<FlatSpace as Space>⟧.contents space ≡ filled) }
{
    let mut pieces = Pieces::new(alloc);
    pieces.push(piece_of(alloc, Kind::ReadOnly, 0x0020_0000, b"\x01")?)?;
    pieces.push(piece_of(alloc, Kind::Writable, DATA, b"\x07\x08\x09")?)?;
    assert!(rt; are_placed(&pieces));
    Ok(FlatSpace::new(alloc, pieces)?)
}

/// Writes two bytes of the data.
fn change(space: &mut FlatSpace) -> Result<(), Fail>
    requires { ⟦<FlatSpace as Space>⟧.contents space.old ≡ filled }
    ensures { OnOk result (⟦<FlatSpace as Space>⟧.contents space.new ≡ after_write filled DATA (5 ∷ 6 ∷ [])) }
{
    match space.write(DATA, &[5, 6]) {
        Ok(()) => Ok(()),
        Err(_) => Err("not written")?,
    }
}

/// Puts what was saved back over what was written.
fn change_back(space: &mut FlatSpace, saved: &Pieces)
    requires written { ⟦<FlatSpace as Space>⟧.contents space.old ≡ after_write filled DATA (5 ∷ 6 ∷ []) }
    requires saved { saved.now ≡ writable_pieces filled.pieces }
{
    put_back(space, saved);
}

/// The three bytes of the data.
fn data(space: &FlatSpace) -> [Option<(Kind, u8)>; 3] {
    [space.look(DATA), space.look(DATA + 1), space.look(DATA + 2)]
}

fn bytes(a: u8, b: u8, c: u8) -> [Option<(Kind, u8)>; 3] {
    [
        Some((Kind::Writable, a)),
        Some((Kind::Writable, b)),
        Some((Kind::Writable, c)),
    ]
}

#[test]
fn data_come_back(rt: HostRuntime) -> Result<(), Fail> {
    let alloc = rt.alloc();
    let mut space = filled(&rt, alloc)?;
    let saved = save(alloc, &space)?;
    let first = data(&space) == bytes(7, 8, 9) && saved.len() == 1;
    change(&mut space)?;
    let changed = data(&space) == bytes(5, 6, 9);
    change_back(&mut space, &saved);
    let back = data(&space) == bytes(7, 8, 9)
        && space.look(0x0020_0000) == Some((Kind::ReadOnly, 1));
    assert!(rt; first && changed && back);
    Ok(())
}
