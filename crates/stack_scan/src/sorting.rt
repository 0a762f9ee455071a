//! In which order the scan is given its ranges.
ghost use Rattle.std.specs.Prelude.{◌≡◌, List};
ghost use Rattle.std.specs.List.Sorted.{IsPermutation};
ghost use Rattle.ks_base.specs.declared.places.Range.{Range as RangeOf};
ghost use Rattle.image_memory.specs.declared.types.Piece.{Piece};
ghost use Rattle.ia32_step.specs.declared.types.Thread.{Thread};
ghost use Rattle.stack_scan.specs.Standing.{stands, thread_refusal};

/// In whichever order ranges are given, a thread stands in the same place, and the same thread stands in the way.
pub fn order_has_no_say()
    ensures thread { (pieces : List Piece) (ranges others : List RangeOf) (thread : Thread)
        → IsPermutation ranges others → stands pieces ranges thread ≡ stands pieces others thread }
    ensures threads { (pieces : List Piece) (ranges others : List RangeOf) (threads : List Thread)
        → IsPermutation ranges others → thread_refusal pieces ranges threads ≡ thread_refusal pieces others threads }
{}
