//! An update's changes of memory are taken back: old bytes are put back at homes, ranges are no longer retired, and
//! pieces are dropped. None of it takes memory.
ghost use Rattle.std.specs.Prelude.{◌≡◌, ◌≢◌, false, map};
ghost use Rattle.std.specs.List.{All, AllPairs};
ghost use Rattle.image_memory.specs.Ranges.{are_same};
ghost use Rattle.image_memory.specs.Fetch.{HasCode};
ghost use Rattle.image_memory.specs.Changes.{HasPiece, IsRetired, without_ranges};
ghost use Rattle.splice_jump.specs.Jumps.{unjumped};
ghost use Rattle.update_memory.specs.Rows.{old_of};
ghost use Rattle.update_memory.specs.Withdrawn.{without_pieces, spare_after, withdrawn_memory};

use crate::types::Jump;
use image_memory::Space;
use ks_base::Range;
use splice_jump::{code_stays_code, restore};

/// Puts the old bytes back at each home, in the order of the jumps.
pub fn restore_code<S: Space>(space: &mut S, jumps: &[Jump])
    requires { All (λ jump. HasCode (S.contents space.old).pieces jump.home 5) jumps.now }
    ensures contents { S.contents space.new
        ≡ record (S.contents space.old) { pieces = unjumped (map old_of jumps.now) (S.contents space.old).pieces } }
    ensures room { S.room space.new ≡ S.room space.old }
{
    // Nothing is done here: the law says that code stands at each home after old bytes are put back.
    code_stays_code();
    for jump in jumps {
        restore(space, jump.home, jump.old);
    }
}

/// Takes ranges out of the retired ones. None of them stands twice.
pub fn unretire<S: Space>(space: &mut S, ranges: &[Range])
    requires retired { All (IsRetired (S.contents space.old)) ranges.now }
    requires once { AllPairs (λ range other. are_same range other ≡ false) ranges.now }
    ensures contents { S.contents space.new
        ≡ record (S.contents space.old) { fences = without_ranges ranges.now (S.contents space.old).fences } }
    ensures room { S.room space.new ≡ S.room space.old }
{
    space.unfence_all(ranges);
}

/// Takes the pieces away that begin at some addresses, of which none stands twice. No range is spare then, unless there
/// are no such addresses.
pub fn drop_pieces<S: Space>(space: &mut S, bases: &[u32])
    requires there { All (HasPiece (S.contents space.old)) bases.now }
    requires once { AllPairs (λ base other. base ≢ other) bases.now }
    ensures contents { S.contents space.new
        ≡ record (S.contents space.old) { pieces = without_pieces bases.now (S.contents space.old).pieces } }
    ensures ranges { (S.room space.new).ranges ≡ spare_after bases.now (S.room space.old).ranges }
    ensures fences { (S.room space.new).fences ≡ (S.room space.old).fences }
{
    for base in bases {
        space.drop_piece(*base);
    }
}

/// Takes an update's changes back: puts the old bytes back at each home, takes the ranges out of the retired ones, and
/// takes the pieces away that begin at the bases. No range is spare then, unless there are no bases.
pub fn withdraw<S: Space>(space: &mut S, bases: &[u32], ranges: &[Range], jumps: &[Jump])
    requires code { All (λ jump. HasCode (S.contents space.old).pieces jump.home 5) jumps.now }
    requires retired { All (IsRetired (S.contents space.old)) ranges.now }
    requires ranges_once { AllPairs (λ range other. are_same range other ≡ false) ranges.now }
    requires there { All (HasPiece (S.contents space.old)) bases.now }
    requires bases_once { AllPairs (λ base other. base ≢ other) bases.now }
    ensures contents { S.contents space.new
        ≡ withdrawn_memory bases.now ranges.now (map old_of jumps.now) (S.contents space.old) }
    ensures ranges { (S.room space.new).ranges ≡ spare_after bases.now (S.room space.old).ranges }
    ensures fences { (S.room space.new).fences ≡ (S.room space.old).fences }
{
    restore_code(space, jumps);
    unretire(space, ranges);
    drop_pieces(space, bases);
}
