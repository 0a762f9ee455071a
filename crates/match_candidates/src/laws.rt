//! What holds of the candidates of every object.
ghost use Rattle.std.specs.Prelude.{◌≡◌, List, All, map};
ghost use Rattle.i386_reloc.specs.declared.types.NormalSection.{NormalSection};
ghost use Rattle.run_pre_match.specs.Alike.{HasFieldsInside, in_memory};
ghost use Rattle.match_candidates.specs.Alike.{RunAlike};
ghost use Rattle.match_candidates.specs.Candidates.{Running, candidates};
ghost use Rattle.match_candidates.specs.OwnFaults.{own_fault};

use run_pre_match::alike_memories_match_alike;

/// In running programs that are alike an object has the same candidates, but for the memories that these hold, and the
/// same is wrong with one section by itself.
pub fn alike_programs_have_alike_candidates()
    ensures candidates { (one other : Running) (object : List NormalSection) → RunAlike one other
        → candidates other object ≡ map (in_memory other.contents) (candidates one object) }
    ensures own_fault { (one other : Running) (object : List NormalSection) → RunAlike one other
        → All HasFieldsInside object → own_fault one object ≡ own_fault other object }
{
    // Nothing is done here: the law says that a candidate comes to the same in alike memories.
    alike_memories_match_alike();
}
