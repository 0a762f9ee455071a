//! What holds of every match.
ghost use Rattle.std.specs.Prelude.{◌≡◌, ◌≢◌, ◌↔◌, ◌<◌, ◌≤◌, ℕ, ◌+◌, List, ◌∷◌, All, None, Some, Ok, IsTrue};
ghost use Rattle.std.specs.Prelude.{length, map};
ghost use Rattle.std.specs.List.{AllPairs, Contains, IsDistinct, slice_get};
ghost use Rattle.i386_reloc.specs.Classes.{is_code_class};
ghost use Rattle.i386_reloc.specs.Normal.{same_bytes, name_of};
ghost use Rattle.i386_reloc.specs.declared.types.NormalSection.{NormalSection};
ghost use Rattle.image_memory.specs.Contents.{Contents, IsValid};
ghost use Rattle.run_pre_match.specs.Alike.{AreAlike, HasFieldsInside, in_memory};
ghost use Rattle.run_pre_match.specs.Bodies.{body_at};
ghost use Rattle.run_pre_match.specs.Candidate.{Candidate, body_of, same_number};
ghost use Rattle.match_instructions.specs.Instructions.{kept_of};
ghost use Rattle.match_instructions.specs.Landing.{undecoded_offset};
ghost use Rattle.run_pre_match.specs.Match.{Valuation, StandForOne, IsField, Match, Agrees, IsSaid, IsNamed, Says};
ghost use Rattle.run_pre_match.specs.Matched.{PreSection, home_claim, outcome};
ghost use Rattle.run_pre_match.specs.Places.{StandAtFields, IsInteriorAt, HasFieldsApart};
ghost use Rattle.match_instructions.specs.PreCode.{pre_code};
ghost use Rattle.run_pre_match.specs.declared.goals.Goal.{Goal};
ghost use Rattle.run_pre_match.specs.declared.goals.Given.{Given};
ghost use Rattle.run_pre_match.specs.declared.types.Claim.{Claim};
ghost use Rattle.run_pre_match.specs.declared.types.Interior.{Interior};
ghost use Rattle.run_pre_match.specs.declared.types.Matched.{Matched};

use match_instructions::run_code_goes_on;

/// In an object whose names are distinct the claims of a match give each thing one value, and the first claim is the
/// own home.
pub fn claims_agree()
    ensures agree { (c : Candidate) (m : Matched) → slice_get c.object c.place ≡ Some c.section →
        IsDistinct same_bytes (map name_of c.object) → outcome c ≡ Ok m →
        (a b : Claim) → Contains m.claims a → Contains m.claims b → a.unknown ≡ b.unknown → a.value ≡ b.value }
    ensures home { (c : Candidate) (m : Matched) → outcome c ≡ Ok m → slice_get m.claims 0 ≡ Some (home_claim c) }
{}

/// The claims of a match are the own home, at the start of the own section, and then what the fields that count give,
/// each at the place of its field. If the section is code, and the sections of the object have distinct names, and each
/// its fields at distinct offsets, no two of the others stand at one place.
pub fn claims_stand_at_their_fields()
    ensures places { (c : Candidate) (v : Valuation) (m : Matched) → Match c v → outcome c ≡ Ok m →
        StandAtFields c v m.claims }
    ensures once { (c : Candidate) (m : Matched) → slice_get c.object c.place ≡ Some c.section →
        IsTrue (is_code_class c.section.class) → IsDistinct same_bytes (map name_of c.object) →
        All HasFieldsApart c.object → outcome c ≡ Ok m → (others : List Claim) → m.claims ≡ home_claim c ∷ others →
        AllPairs (λ one other. one.place ≢ other.place) others }
{}

/// The interiors of a match are those of other code sections to which fields that count go, each at the place of its
/// field; under the same conditions no two of them stand at one place.
pub fn interiors_stand_at_their_fields()
    ensures places { (c : Candidate) (v : Valuation) (m : Matched) → Match c v → outcome c ≡ Ok m →
        (interior : Interior) → (Contains m.interiors interior ↔ IsInteriorAt c v interior) }
    ensures once { (c : Candidate) (m : Matched) → slice_get c.object c.place ≡ Some c.section →
        IsTrue (is_code_class c.section.class) → IsDistinct same_bytes (map name_of c.object) →
        All HasFieldsApart c.object → outcome c ≡ Ok m →
        AllPairs (λ one other. one.place ≢ other.place) m.interiors }
{}

/// Where a section's code can be matched, a candidate comes out as a match exactly where some valuation makes it one.
/// There is no second valuation, and the values and interiors that are reported are what it gives.
pub fn matches_have_one_valuation()
    ensures some { (c : Candidate) (m : Matched) → outcome c ≡ Ok m → (v : Valuation) × Match c v }
    ensures comes { (c : Candidate) (v : Valuation) → Match c v → (m : Matched) × (outcome c ≡ Ok m) }
    ensures one { (c : Candidate) (v w : Valuation) → Match c v → Match c w → (goal : Goal) → v goal ≡ w goal }
    ensures says { (c : Candidate) (v : Valuation) (m : Matched) → slice_get c.object c.place ≡ Some c.section →
        Match c v → outcome c ≡ Ok m → Says c v m }
{}

/// Where code and fields agree under a valuation, which may give values to more than the fields tell, a candidate comes
/// out as a match. The values that are reported are the valuation's, and each interior is that of a field that counts
/// under it.
pub fn agreeing_values_match()
    ensures comes { (c : Candidate) (v : Valuation) → Agrees c v → (m : Matched) × (outcome c ≡ Ok m) }
    ensures says { (c : Candidate) (v : Valuation) (m : Matched) → slice_get c.object c.place ≡ Some c.section →
        Agrees c v → outcome c ≡ Ok m → All (IsSaid c v) m.claims }
    ensures interiors { (c : Candidate) (v : Valuation) (m : Matched) → slice_get c.object c.place ≡ Some c.section →
        Agrees c v → outcome c ≡ Ok m
        → All (λ interior. (field : Given) × IsField c v field × IsNamed c interior field) m.interiors }
{}

/// In a match, an address in the running body is found to stand for the number of an offset of the section exactly
/// where both stand for one number.
pub fn numbers_stand_for_one()
    ensures { (c : Candidate) (v : Valuation) (offset address : ℕ) → Match c v →
        (IsTrue (same_number c offset address) ↔ StandForOne c offset address) }
{}

/// In memories where the same is met at each address and the same stands in read-only memory, a candidate comes to the
/// same, and so does what stands at each place of its body. Bytes that are never met, such as those of a jump at a
/// home, don't matter.
pub fn alike_memories_match_alike()
    ensures outcome { (c : Candidate) (contents : Contents) → AreAlike c.contents contents
        → All HasFieldsInside c.object
        → outcome c ≡ outcome (in_memory contents c) }
    ensures body { (c : Candidate) (contents : Contents) → AreAlike c.contents contents
        → body_of c ≡ body_of (in_memory contents c) }
    ensures body_at { (pre : PreSection) (a b : Contents) (base : ℕ) → AreAlike a b
        → body_at pre a base ≡ body_at pre b base }
{}

/// A section whose code can be matched has a kept instruction. The body of a match of such a section isn't empty, and
/// ends where a piece of code does or before.
pub fn bodies_lie_in_code()
    ensures kept { (object : List NormalSection) (section : NormalSection) → undecoded_offset object section ≡ None
        → 0 < length (kept_of (pre_code section)) }
    ensures some { (c : Candidate) (m : Matched) → IsValid c.contents → 0 < length (kept_of (pre_code c.section))
        → outcome c ≡ Ok m → 0 < m.length }
    ensures low { (c : Candidate) (m : Matched) → IsValid c.contents → 0 < length (kept_of (pre_code c.section))
        → outcome c ≡ Ok m → c.base + m.length ≤ 0xFFFF_0000 }
{
    // Nothing is done here: the law says that each instruction that is met has a byte, and ends in code.
    run_code_goes_on();
}
