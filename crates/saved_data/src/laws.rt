//! The law on what is put back.
ghost use Rattle.std.specs.Prelude.{◌≡◌, ℕ, List, length, None};
ghost use Rattle.image_memory.specs.Access.{after_write, first_fault, write_fault};
ghost use Rattle.image_memory.specs.Contents.{Contents, IsValid};
ghost use Rattle.image_memory.specs.declared.types.Piece.{Piece};
ghost use Rattle.saved_data.specs.Saved.{CanBePutBack, DiffersInData, OfShape, filtered, put_back, writable_pieces};

/// A write that has no fault, and bytes that are put back, leave a memory that differs in bytes of writable pieces alone.
/// So do two such changes, one after the other; a memory stays a memory; and without some pieces, which are told by their
/// kinds and ranges, it differs so still.
pub fn data_alone_differ()
    ensures written { (contents : Contents) (start : ℕ) (bytes : List ℕ) → IsValid contents
        → first_fault (write_fault contents.pieces) start (length bytes) ≡ None
        → DiffersInData contents (after_write contents start bytes) }
    ensures put_back { (contents : Contents) (saved : List Piece) → IsValid contents
        → CanBePutBack contents.pieces saved → DiffersInData contents (put_back contents saved) }
    ensures on { (a b c : Contents) → DiffersInData a b → DiffersInData b c → DiffersInData a c }
    ensures valid { (a b : Contents) → IsValid a → DiffersInData a b → IsValid b }
    ensures left { (test : OfShape) (a b : Contents) → DiffersInData a b
        → DiffersInData (filtered test a) (filtered test b) }
{
    // Nothing is done here.
}

/// What was saved of a memory can be put back wherever another differs from it in bytes of writable pieces alone, and that
/// is then the first again, byte for byte.
pub fn saved_data_come_back()
    ensures fit { (before after : Contents) → IsValid before → DiffersInData before after
        → CanBePutBack after.pieces (writable_pieces before.pieces) }
    ensures same { (before after : Contents) → IsValid before → DiffersInData before after
        → put_back after (writable_pieces before.pieces) ≡ before }
{
    // Nothing is done here.
}
