//! Pieces that are added, ranges that are retired and jumps that are written, all of an update's at once. None of it
//! takes memory.
ghost use Rattle.std.specs.Prelude.{◌≡◌, ◌≤◌, ◌+◌, ◌-◌, ◌^◌, [], map, length};
ghost use Rattle.std.specs.List.{All};
ghost use Rattle.image_memory.specs.Contents.{piece_range};
ghost use Rattle.image_memory.specs.Fetch.{HasCode};
ghost use Rattle.splice_jump.specs.Jumps.{olds_at, jumped_memory};
ghost use Rattle.update_memory.specs.Added.{AreAddable, with_pieces};
ghost use Rattle.update_memory.specs.Retired.{AreRetirable, with_fences};
ghost use Rattle.update_memory.specs.Rows.{row_of, old_of};

use crate::types::Jump;
use image_memory::{Fence, Pieces, Space};
use splice_jump::{code_stays_code, five_at, splice};

/// Adds pieces, in their order. Each takes its spare range, and no range is spare then.
pub fn add_pieces<S: Space>(space: &mut S, pieces: Pieces)
    requires spare { (S.room space.old).ranges ≡ map piece_range pieces }
    requires apart { AreAddable (S.contents space.old) pieces }
    ensures contents { S.contents space.new ≡ with_pieces (S.contents space.old) pieces }
    ensures room { S.room space.new ≡ record (S.room space.old) { ranges = [] } }
{
    for piece in pieces.into_vec() {
        space.add_piece(piece);
    }
}

/// Retires ranges, in their order, each with whether its low is a spliced home. Each takes one spare retired range.
pub fn retire<S: Space>(space: &mut S, fences: &[Fence])
    requires spare { length fences.now ≤ (S.room space.old).fences }
    requires apart { AreRetirable (S.contents space.old) fences.now }
    ensures contents { S.contents space.new ≡ with_fences (S.contents space.old) fences.now }
    ensures room { S.room space.new
        ≡ record (S.room space.old) { fences = (S.room space.old).fences - length fences.now } }
{
    for fence in fences {
        space.fence(fence.range, fence.jump);
    }
}

/// Notes at each jump the five bytes that stand at its home.
pub fn note_old_code<S: Space>(space: &S, jumps: &mut [Jump])
    requires { All (λ jump. jump.home + 5 ≤ 2 ^ 32) jumps.old }
    ensures rows { map row_of jumps.new ≡ map row_of jumps.old }
    ensures olds { map old_of jumps.new ≡ olds_at (S.contents space.now).pieces (map row_of jumps.old) }
{
    for jump in jumps.iter_mut() {
        jump.old = five_at(space, jump.home);
    }
}

/// Writes the jumps, in their order.
pub fn write_jumps<S: Space>(space: &mut S, jumps: &[Jump])
    requires { All (λ jump. HasCode (S.contents space.old).pieces jump.home 5) jumps.now }
    ensures contents { S.contents space.new ≡ jumped_memory (map row_of jumps.now) (S.contents space.old) }
    ensures room { S.room space.new ≡ S.room space.old }
{
    // Nothing is done here: the law says that code stands at each home after each jump that is written.
    code_stays_code();
    for jump in jumps {
        splice(space, jump.home, jump.base);
    }
}
