//! What holds of every plan.
ghost use Rattle.std.specs.Prelude.{◌≡◌, ℕ, false, true, List, map, Ok};
ghost use Rattle.std.specs.List.{All, list_any};
ghost use Rattle.ks_base.specs.declared.places.Range.{Range};
ghost use Rattle.i386_reloc.specs.declared.types.NormalSection.{NormalSection};
ghost use Rattle.i386_reloc.specs.Sections.{sections_of};
ghost use Rattle.image_memory.specs.Ranges.{Ascends, lies_in};
ghost use Rattle.image_memory.specs.Contents.{IsValid, fence_range, spliced_at};
ghost use Rattle.symbol_solve.specs.MatchAlike.{HasFieldsInside};
ghost use Rattle.symbol_solve.specs.Alike.{RunAlike};
ghost use Rattle.symbol_solve.specs.Candidates.{Running};
ghost use Rattle.symbol_solve.specs.Solve.{solved};
ghost use Rattle.link_post.specs.Values.{ValueList};
ghost use Rattle.extract_post.specs.declared.types.Extract.{Extract as Lists};
ghost use Rattle.splice_jump.specs.Jumps.{AreSpliced};
ghost use Rattle.update_retired.specs.Retired.{AreInUse, body_range};
ghost use Rattle.update_retired.specs.Room.{HaveOneShape};
ghost use Rattle.update_plan.specs.declared.types.Plan.{Plan};
ghost use Rattle.update_plan.specs.Olds.{olds_of};
ghost use Rattle.update_plan.specs.Plan.{planned};
ghost use Rattle.update_plan.specs.Addresses.{AreSteps, HasAddresses};
ghost use Rattle.update_plan.specs.Placing.{parts_of};
ghost use Rattle.update_plan.specs.Sound.{AllReplaceNewest, AreGaps, AreListed, CanBeMade, IsCode};
ghost use Rattle.update_plan.specs.NewCode.{BringsNewCode};
ghost use Rattle.update_plan.specs.OneFunction.{ReportsOne, extract_of, is_one_changed};

use extract_post::placed_sections_bring_what_they_name;
use i386_reloc::sections_are_whole;
use ia32_decode::instructions_have_bytes;
use link_post::{places_keep_the_order, places_lie_apart, values_are_found};
use symbol_solve::{
    alike_programs_have_one_answer, answer_is_only_solution, answers_tell_each_body,
};
use update_pieces::{new_pieces_lie_apart, places_are_found, replaced_functions_have_new_text};
use update_retired::{retired_code_lies_apart, room_is_code, room_is_met};

/// The functions of an old object as they run are in use: no address of a body that was matched is retired, since each
/// instruction of it was met.
pub fn matched_bodies_are_in_use()
    ensures { (running : Running) (object : List NormalSection) (values : ValueList) (extract : Lists)
        → IsValid running.contents
        → solved object running.bodies running.contents running.symbols ≡ Ok values
        → AreInUse running.contents (olds_of extract values object) }
{
    // Nothing is done here: the laws say that an instruction has no more bytes than are met, and that each value is one
    // of a match.
    instructions_have_bytes();
    answer_is_only_solution();
}

/// The functions of an old object as they run are code: each address of a body that was matched is one of code, since
/// each instruction of it was met.
pub fn matched_bodies_are_code()
    ensures { (running : Running) (object : List NormalSection) (values : ValueList) (extract : Lists)
        → IsValid running.contents
        → solved object running.bodies running.contents running.symbols ≡ Ok values
        → All (λ old. IsCode running.contents.pieces (body_range old)) (olds_of extract values object) }
{
    // Nothing is done here: the laws say that an instruction has no more bytes than are met, and that each value is one
    // of a match.
    instructions_have_bytes();
    answer_is_only_solution();
}

/// A plan can be carried out, for a program whose homes with newer versions are spliced and whose retired ranges are
/// all listed: its pieces fit beside those that are there, and what it retires is code and lies apart. Each replaced
/// function has a home of its own, at which a jump fits and where a range begins that is retired, by the plan or
/// already; and no other of the plan's ranges is marked as having a jump.
pub fn plans_can_be_made()
    ensures { (running : Running) (retired gaps : List Range) (pre_file post_file : List ℕ) (plan : Plan)
        → IsValid running.contents → AreSpliced running.contents running.bodies
        → AreListed running.contents retired → AreGaps running.contents gaps
        → planned running retired gaps pre_file post_file ≡ Ok plan → CanBeMade running.contents plan }
{
    // Nothing is done here: the laws say what holds of each step of a plan.
    answers_tell_each_body();
    matched_bodies_are_in_use();
    matched_bodies_are_code();
    places_lie_apart();
    sections_are_whole();
    new_pieces_lie_apart();
    retired_code_lies_apart();
    room_is_code();
}

/// Each function that a plan replaces gets a version of its own, and what ran before it is retired: a piece of code of
/// the plan begins at its base, and a range that is retired begins where the newest version of its home did.
pub fn plans_replace_the_newest()
    ensures { (running : Running) (retired gaps : List Range) (pre_file post_file : List ℕ) (plan : Plan)
        → IsValid running.contents → planned running retired gaps pre_file post_file ≡ Ok plan
        → AllReplaceNewest running.bodies plan }
{
    // Nothing is done here: the law says that each function of the old object was found as the newest version of its
    // home.
    answers_tell_each_body();
}

/// Each address that a plan retires is one of those that it guards.
pub fn retired_code_is_guarded()
    ensures { (running : Running) (retired gaps : List Range) (pre_file post_file : List ℕ) (plan : Plan)
        (address : ℕ) → planned running retired gaps pre_file post_file ≡ Ok plan
        → list_any (lies_in address) plan.guarded ≡ false
        → list_any (lies_in address) (map fence_range plan.fences) ≡ false }
{
    // Nothing is done here: what is retired is the first part of what is guarded.
}

/// Each field of a section of an object file that isn't refused stands whole in the section's bytes.
pub fn fields_stand_inside()
    ensures { (file : List ℕ) (sections : List NormalSection) → sections_of file ≡ Ok sections
        → All HasFieldsInside sections }
{
    // Nothing is done here: the law says that each section has its bytes.
    sections_are_whole();
}

/// In running programs that are alike, whose pieces differ in their bytes alone and in which the same homes are
/// spliced, an update has one plan, or one refusal.
pub fn alike_programs_have_one_plan()
    ensures { (one other : Running) (retired gaps : List Range) (pre_file post_file : List ℕ)
        → RunAlike one other → HaveOneShape one.contents other.contents
        → ((address : ℕ) → spliced_at one.contents.fences address ≡ spliced_at other.contents.fences address)
        → planned one retired gaps pre_file post_file ≡ planned other retired gaps pre_file post_file }
{
    // Nothing is done here: the laws say that the old object's answer and the room for a jump are the same.
    alike_programs_have_one_answer();
    room_is_met();
    fields_stand_inside();
}

/// Each field of the new sections of an update has an address, where no step of its plan is refused: each section that
/// is placed has its place, and what each of its references goes to has a place, a home or a value.
pub fn new_fields_have_addresses()
    ensures { (running : Running) (gaps : List Range) (pre_file post_file : List ℕ)
        (steps : AreSteps running gaps pre_file post_file)
        → IsValid running.contents → Ascends (λ range. range) 0 gaps
        → All (HasAddresses steps.post steps.placement steps.values) (parts_of steps.extract steps.post) }
{
    // Nothing is done here: the laws say what holds of each step of a plan.
    answers_tell_each_body();
    places_lie_apart();
    values_are_found();
    placed_sections_bring_what_they_name();
}

/// Each function that a plan replaces has its new code among the plan's pieces. It is the function of the old object's
/// section that was found to run with the report's home; and at the report's base, which is the place of the changed
/// section of the same name, a piece of code begins with that section's linked bytes.
pub fn replaced_functions_have_new_code()
    ensures { (running : Running) (retired gaps : List Range) (pre_file post_file : List ℕ) (plan : Plan)
        → Ascends (λ range. range) 0 gaps → planned running retired gaps pre_file post_file ≡ Ok plan
        → BringsNewCode running gaps pre_file post_file plan }
{
    // Nothing is done here: the laws say that each replaced function of a report has its new text, and that the name of
    // each section leads to its own place.
    replaced_functions_have_new_text();
    places_keep_the_order();
    places_are_found();
}

/// A plan between objects that differ in one function, with none added and none dropped, reports that this function is
/// replaced, and no other.
pub fn single_changes_are_reported()
    ensures { (running : Running) (retired gaps : List Range) (pre_file post_file : List ℕ) (extract : Lists)
        (plan : Plan) → IsValid running.contents → Ascends (λ range. range) 0 gaps
        → extract_of pre_file post_file ≡ Ok extract → is_one_changed extract ≡ true
        → planned running retired gaps pre_file post_file ≡ Ok plan → ReportsOne plan.report }
{
    // Nothing is done here: the laws say that each function of the old object was found, and that each new section has
    // its place.
    answers_tell_each_body();
    places_lie_apart();
}
