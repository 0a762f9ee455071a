//! What holds of decoding at every window.
ghost use Rattle.std.specs.Prelude.{◌≡◌, ◌≤◌, ◌<◌, ◌+◌, ◌*◌, ◌^◌, ◌∷◌, ◌++◌, ℕ, false, List, Some, length, take};
ghost use Rattle.std.specs.Prelude.{IfSome};
ghost use Rattle.std.specs.Int.{w32, to_le_bytes};
ghost use Rattle.ia32_decode.specs.declared.types.Decoded.{Decoded};
ghost use Rattle.ia32_decode.specs.Encoding.{byte_in};
ghost use Rattle.ia32_decode.specs.Decode.{decoded_from, Spells};
ghost use Rattle.ia32_decode.specs.Branches.{jump_by};
ghost use Rattle.ia32_decode.specs.Wide.{has_short_number, wide_bytes, wide_fields};

/// What is decoded rests on the instruction's own bytes: whatever follows them, it is decoded the same.
pub fn decoding_rests_on_its_bytes()
    ensures { (window other : List ℕ) (decoded : Decoded) → decoded_from window ≡ Some decoded →
        take decoded.length other ≡ take decoded.length window → decoded_from other ≡ Some decoded }
{}

/// An instruction has at least one byte, at most 15, and no more than the window it is decoded from.
pub fn instructions_have_bytes()
    ensures some { (window : List ℕ) (decoded : Decoded) → decoded_from window ≡ Some decoded → 0 < decoded.length }
    ensures short { (window : List ℕ) (decoded : Decoded) → decoded_from window ≡ Some decoded → decoded.length ≤ 15 }
    ensures within { (window : List ℕ) (decoded : Decoded) → decoded_from window ≡ Some decoded →
        decoded.length ≤ length window }
{}

/// The wide form of an instruction rests on the instruction's own bytes: whatever follows them, it is the same.
pub fn wide_forms_rest_on_their_bytes()
    ensures bytes { (window other : List ℕ) (decoded : Decoded) → decoded_from window ≡ Some decoded →
        take decoded.length other ≡ take decoded.length window → wide_bytes other decoded ≡ wide_bytes window decoded }
    ensures fields { (window other : List ℕ) (decoded : Decoded) → decoded_from window ≡ Some decoded →
        take decoded.length other ≡ take decoded.length window → wide_fields other decoded ≡ wide_fields window decoded }
{}

/// An instruction without a short number is its own wide form.
pub fn others_are_their_own_wide_form()
    ensures bytes { (window : List ℕ) (decoded : Decoded) → decoded_from window ≡ Some decoded →
        has_short_number window decoded ≡ false → wide_bytes window decoded ≡ take decoded.length window }
    ensures fields { (window : List ℕ) (decoded : Decoded) → decoded_from window ≡ Some decoded →
        has_short_number window decoded ≡ false → wide_fields window decoded ≡ decoded.fields }
{}

/// A wide form is no shorter than its instruction and has at most 21 bytes, and its parts lie in it. A displacement in
/// it has four bytes.
pub fn wide_forms_have_bytes()
    ensures longer { (window : List ℕ) (decoded : Decoded) → decoded_from window ≡ Some decoded →
        decoded.length ≤ length (wide_bytes window decoded) }
    ensures short { (window : List ℕ) (decoded : Decoded) → decoded_from window ≡ Some decoded →
        length (wide_bytes window decoded) ≤ 21 }
    ensures opcode { (window : List ℕ) (decoded : Decoded) → decoded_from window ≡ Some decoded →
        (wide_fields window decoded).opcode_end ≤ length (wide_bytes window decoded) }
    ensures displacement { (window : List ℕ) (decoded : Decoded) → decoded_from window ≡ Some decoded →
        IfSome (wide_fields window decoded).disp (λ f. f.offset + f.width ≤ length (wide_bytes window decoded)) }
    ensures full { (window : List ℕ) (decoded : Decoded) → decoded_from window ≡ Some decoded →
        IfSome (wide_fields window decoded).disp (λ f. f.width ≡ 4) }
    ensures immediate { (window : List ℕ) (decoded : Decoded) → decoded_from window ≡ Some decoded →
        IfSome (wide_fields window decoded).imm (λ f. f.offset + f.width ≤ length (wide_bytes window decoded)) }
{}

/// At most one line of the opcode table spells the first bytes of a window, and so one instruction stands there.
pub fn one_line_spells()
    ensures line { (window : List ℕ) (one other : Decoded) (s : Spells window one) (t : Spells window other) →
        ((i : ℕ) → byte_in window i < 256) → s.line ≡ t.line }
    ensures instruction { (window : List ℕ) (one other : Decoded) (s : Spells window one) (t : Spells window other) →
        ((i : ℕ) → byte_in window i < 256) → one ≡ other }
{}

/// E9 and four bytes are the jump by the number that these bytes hold, whatever follows.
pub fn jumps_decode()
    ensures bytes { (a b c d : ℕ) (rest : List ℕ) →
        decoded_from (0xE9 ∷ a ∷ b ∷ c ∷ d ∷ rest) ≡ Some (jump_by ((a + 0x100 * b) + 0x10000 * (c + 0x100 * d))) }
    ensures number { (n : ℕ) (rest : List ℕ) → n < 2 ^ 32 →
        decoded_from (0xE9 ∷ (to_le_bytes w32 n ++ rest)) ≡ Some (jump_by n) }
{}
