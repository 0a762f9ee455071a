//! What the answers say of solutions.
ghost use Rattle.std.specs.Prelude.{◌≡◌, ◌↔◌, ℕ, List, [], All, map, Some, None, Ok, Err};
ghost use Rattle.std.specs.List.{AllZip, IsDistinct, cons_option};
ghost use Rattle.ks_base.specs.declared.refusals.ConflictName.{ConflictName};
ghost use Rattle.ks_base.specs.declared.refusals.Refusal.{Refusal};
ghost use Rattle.ks_base.specs.declared.refusals.Refusal.TheVariants.{Mismatch, Conflict};
ghost use Rattle.ks_base.specs.declared.places.Spot.{Spot};
ghost use Rattle.ks_base.specs.declared.refusals.Difference.{Difference};
ghost use Rattle.i386_reloc.specs.declared.types.NormalSection.{NormalSection};
ghost use Rattle.i386_reloc.specs.Normal.{same_bytes, name_of};
ghost use Rattle.image_memory.specs.Contents.{IsValid};
ghost use Rattle.run_pre_match.specs.Alike.{HasFieldsInside, in_memory};
ghost use Rattle.run_pre_match.specs.Candidate.{Candidate};
ghost use Rattle.match_candidates.specs.Alike.{RunAlike};
ghost use Rattle.match_candidates.specs.Candidates.{Running, code_sections};
ghost use Rattle.match_candidates.specs.OwnFaults.{first_undecoded, first_missing};
ghost use Rattle.symbol_solve.specs.Solve.{Value, left_of, obstacle, solved, values};
ghost use Rattle.symbol_solve.specs.Solution.{IsChoice, IsSolution};
ghost use Rattle.symbol_table.specs.declared.values.Unknown.{Unknown};
ghost use Rattle.symbol_solve.specs.Answered.{IsAnswered};
ghost use Rattle.symbol_solve.specs.Assignment.{Assignment, Solves, IsOpen, addresses_of};

use match_candidates::alike_programs_have_alike_candidates;
use run_pre_match::{
    alike_memories_match_alike, bodies_lie_in_code, claims_agree, matches_have_one_valuation,
    numbers_stand_for_one,
};

/// What differs and what clashes is refused only where there is no solution.
pub fn refused_without_solution()
    ensures mismatch { (running : Running) (object : List NormalSection) (name : List ℕ) (difference : Difference)
        → obstacle running object ≡ Some (Mismatch name difference)
        → (chosen : List Candidate) → IsSolution running object chosen → ⊥ }
    ensures conflict { (running : Running)
        (object : List NormalSection) (name : ConflictName) (a b : ℕ) (one other : Spot)
        → obstacle running object ≡ Some (Conflict name a b one other)
        → (chosen : List Candidate) → IsSolution running object chosen → ⊥ }
{}

/// Where nothing stands in the way of an answer, the candidates that are left are a solution, and every solution is the
/// same. Nothing does exactly where each code section can be matched and has a candidate, and one of each is left.
pub fn answer_is_only_solution()
    ensures solution { (running : Running) (object : List NormalSection) → obstacle running object ≡ None
        → IsSolution running object (left_of running object) }
    ensures only { (running : Running) (object : List NormalSection) → obstacle running object ≡ None
        → (chosen : List Candidate) → IsSolution running object chosen → chosen ≡ left_of running object }
    ensures exactly { (running : Running) (object : List NormalSection) → (obstacle running object ≡ None)
        ↔ ((first_undecoded object ≡ None) × (first_missing running object ≡ None)
        × AllZip (IsChoice running) (code_sections object) (left_of running object)) }
{}

/// In running programs that are alike an object has the same answer, from the same candidates but for the memories that
/// these hold. So bytes that are never met, such as those of a jump at a home, don't matter, nor does the order in
/// which newest bases are listed.
pub fn alike_programs_have_one_answer()
    ensures left { (one other : Running) (object : List NormalSection) → RunAlike one other
        → All HasFieldsInside object
        → left_of other object ≡ map (in_memory other.contents) (left_of one object) }
    ensures answer { (one other : Running) (object : List NormalSection) → RunAlike one other
        → All HasFieldsInside object
        → solved object one.bodies one.contents one.symbols ≡ solved object other.bodies other.contents other.symbols }
{
    // Nothing is done here: the laws say that matches and candidates are the same.
    alike_memories_match_alike();
    alike_programs_have_alike_candidates();
}

/// An answer for an object whose names are distinct has one value for each code section: the home and the newest base
/// of a function of its name, and how many bytes of code its body has there.
pub fn answers_tell_each_body()
    ensures { (running : Running) (object : List NormalSection) (values : List Value) → IsValid running.contents
        → IsDistinct same_bytes (map name_of object)
        → solved object running.bodies running.contents running.symbols ≡ Ok values
        → All (IsAnswered running values) (code_sections object) }
{
    // Nothing is done here: the law says that the body of a match lies in code.
    bodies_lie_in_code();
}

/// An answer comes exactly where nothing stands in its way, and has the values of the candidates that are left; a refusal
/// is the first that does. So each law on what stands in the way is one on what [`solve`](crate::solve) answers.
pub fn answers_tell_the_obstacle()
    ensures ok { (running : Running) (object : List NormalSection) (answer : List Value)
        → (solved object running.bodies running.contents running.symbols ≡ Ok answer)
        ↔ ((obstacle running object ≡ None) × (answer ≡ values (left_of running object))) }
    ensures err { (running : Running) (object : List NormalSection) (refusal : Refusal)
        → (solved object running.bodies running.contents running.symbols ≡ Err refusal)
        ↔ (obstacle running object ≡ Some refusal) }
{}

/// In an object whose names are distinct a choice of candidates is a solution exactly where an assignment of addresses
/// solves the object by it. The values of the choice list what the assignment gives an address, each once and at that
/// address, and nothing else.
pub fn solutions_assign_addresses()
    ensures solution { (running : Running) (object : List NormalSection) (chosen : List Candidate)
        → IsDistinct same_bytes (map name_of object)
        → IsSolution running object chosen ↔ ((assigned : Assignment) × Solves running object assigned chosen) }
    ensures listed { (running : Running) (object : List NormalSection) (assigned : Assignment) (chosen : List Candidate)
        → IsDistinct same_bytes (map name_of object) → Solves running object assigned chosen
        → (about : Unknown) → addresses_of (values chosen) about ≡ cons_option (assigned about) [] }
{
    // Nothing is done here: the laws say that a match has one valuation, and that what it gives is what it claims.
    matches_have_one_valuation();
    claims_agree();
    numbers_stand_for_one();
}

/// An answer for an object whose names are distinct is the one assignment of addresses that solves it: there is one, by
/// the candidates that are left, and no second, and the answer lists what it gives. Where an assignment solves an object
/// there is an answer, unless the object's own code can't be matched, or of a section more than one candidate is left;
/// the last may be though no second assignment solves it. So there is an answer exactly where the object's code can be
/// matched and an assignment solves it by the candidates that are left.
pub fn answer_is_only_assignment()
    ensures some { (running : Running) (object : List NormalSection) (answer : List Value)
        → IsDistinct same_bytes (map name_of object)
        → solved object running.bodies running.contents running.symbols ≡ Ok answer
        → (assigned : Assignment) × Solves running object assigned (left_of running object) }
    ensures only { (running : Running) (object : List NormalSection) (answer : List Value) (assigned : Assignment)
        (chosen : List Candidate) → IsDistinct same_bytes (map name_of object)
        → solved object running.bodies running.contents running.symbols ≡ Ok answer
        → Solves running object assigned chosen
        → (about : Unknown) → addresses_of answer about ≡ cons_option (assigned about) [] }
    ensures no_second { (running : Running) (object : List NormalSection) (answer : List Value)
        (one other : Assignment) (chosen others : List Candidate) → IsDistinct same_bytes (map name_of object)
        → solved object running.bodies running.contents running.symbols ≡ Ok answer
        → Solves running object one chosen → Solves running object other others
        → (chosen ≡ others) × ((about : Unknown) → one about ≡ other about) }
    ensures otherwise { (running : Running) (object : List NormalSection) (refusal : Refusal) (assigned : Assignment)
        (chosen : List Candidate) → IsDistinct same_bytes (map name_of object)
        → solved object running.bodies running.contents running.symbols ≡ Err refusal
        → Solves running object assigned chosen → IsOpen running object refusal }
    ensures exactly { (running : Running) (object : List NormalSection) → IsDistinct same_bytes (map name_of object)
        → ((answer : List Value) × (solved object running.bodies running.contents running.symbols ≡ Ok answer))
        ↔ ((first_undecoded object ≡ None)
        × ((assigned : Assignment) × Solves running object assigned (left_of running object))) }
{
    // Nothing is done here: the law says that solutions are what assignments solve an object by.
    solutions_assign_addresses();
}
