//! What an update does to a small memory: pieces are added, a range is retired, and a jump is written.
ghost use Rattle.std.specs.Prelude.{◌≡◌, ◌≤◌, ◌∷◌, [], map, IfOk};
ghost use Rattle.image_memory.specs.Contents.{piece_range};
ghost use Rattle.update_memory.specs.Added.{with_pieces};
ghost use Rattle.update_memory.specs.Retired.{with_fences};
ghost use Rattle.tests_of_updates.specs.Small.{small, added, retired};

use image_memory::{Fence, FlatSpace, Kind, Piece, Pieces, Space, are_placed};
use ks_base::{Bytes, Range};
use std::alloc::{AllocError, Global};
use std::process::Abort;
use std::test::Fail;
use update_memory::{Jump, add_pieces, note_old_code, retire, write_jumps};

const HOME: u32 = 0x0010_0000;

const BASE: u32 = 0x0080_0010;

fn piece_of(alloc: Global, kind: Kind, base: u32, bytes: &[u8]) -> Result<Piece, AllocError>
    ensures { IfOk result (λ piece. piece ≡ record { kind = kind; base = base; bytes = bytes.now }) }
{
    let bytes = Bytes::from_slice(alloc, bytes)?;
    Ok(Piece { kind, base, bytes })
}

/// A memory of one function, which gives 1.
#[tactic(auto, unfolding(crate::specs::Small::small))]
fn small(rt: &impl Abort, alloc: Global) -> Result<FlatSpace, Fail>
    ensures { IfOk result (λ space. ⟦<FlatSpace as Space>⟧.contents space ≡ small) }
{
    let mut pieces = Pieces::new(alloc);
    let running = piece_of(alloc, Kind::Code, HOME, b"\xb8\x01\0\0\0\xc3\x90")?;
    pieces.push(running)?;
    assert!(rt; are_placed(&pieces));
    Ok(FlatSpace::new(alloc, pieces)?)
}

/// A variable, and the function that is to give 2.
#[tactic(auto, unfolding(crate::specs::Small::added))]
fn added(alloc: Global) -> Result<Pieces, AllocError>
    ensures { IfOk result (λ pieces. pieces ≡ added) }
{
    let mut pieces = Pieces::new(alloc);
    pieces.push(piece_of(alloc, Kind::Writable, 0x0080_0020, b"\x07")?)?;
    pieces.push(piece_of(alloc, Kind::Code, BASE, b"\xb8\x02\0\0\0\xc3")?)?;
    Ok(pieces)
}

/// Adds the pieces, and retires the function that runs.
fn add_and_retire(space: &mut FlatSpace, pieces: Pieces)
    requires contents { ⟦<FlatSpace as Space>⟧.contents space.old ≡ small }
    requires pieces { pieces ≡ added }
    requires ranges { (⟦<FlatSpace as Space>⟧.room space.old).ranges ≡ map piece_range pieces }
    requires fences { 1 ≤ (⟦<FlatSpace as Space>⟧.room space.old).fences }
    ensures { ⟦<FlatSpace as Space>⟧.contents space.new ≡ with_fences (with_pieces small added) retired }
{
    add_pieces(space, pieces);
    let range = Range {
        low: HOME,
        high: 0x0010_0006,
    };
    retire(space, &[Fence { range, jump: true }]);
}

/// Notes what stands at the function's home, and writes the jump there.
fn jump_over(space: &mut FlatSpace) -> Jump
    requires { ⟦<FlatSpace as Space>⟧.contents space.old ≡ with_fences (with_pieces small added) retired }
{
    let mut jumps = [Jump {
        home: HOME,
        base: BASE,
        old: [0; 5],
    }];
    note_old_code(space, &mut jumps);
    write_jumps(space, &jumps);
    jumps[0]
}

/// Whether these bytes of code stand from an address on.
fn has_code(space: &FlatSpace, address: u32, bytes: &[u8]) -> bool {
    let mut at = address;
    for byte in bytes {
        if space.look(at) != Some((Kind::Code, *byte)) {
            return false;
        }
        at = at.wrapping_add(1);
    }
    true
}

#[test]
#[tactic(auto, using(crate::proofs::SmallLaws::placeable))]
fn changes_of_an_update(rt: HostRuntime) -> Result<(), Fail> {
    let alloc = rt.alloc();
    let mut space = small(&rt, alloc)?;
    let pieces = added(alloc)?;
    space.reserve(&pieces, 1)?;
    add_and_retire(&mut space, pieces);
    let added = has_code(&space, BASE, b"\xb8\x02\0\0\0\xc3")
        && space.look(0x0080_0020) == Some((Kind::Writable, 7))
        && space.spliced(HOME)
        && !space.spliced(BASE);
    let jump = jump_over(&mut space);
    let jumps = jump.home == HOME && jump.base == BASE && jump.old == [0xb8, 1, 0, 0, 0];
    let written = has_code(&space, HOME, b"\xe9\x0b\0\x70\0\xc3\x90")
        && has_code(&space, BASE, b"\xb8\x02\0\0\0\xc3");
    assert!(rt; added && jumps && written);
    Ok(())
}
