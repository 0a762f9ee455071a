//! What holds of the abstract machine, and of the memory that stands for it.
ghost use Rattle.std.specs.Prelude.{◌≡◌, ℕ, List, Ok};
ghost use Rattle.std.specs.List.{All};
ghost use Rattle.ks_base.specs.declared.reports.Report.{Report};
ghost use Rattle.image_memory.specs.Fetch.{HasCode};
ghost use Rattle.image_memory.specs.declared.types.Piece.{Piece};
ghost use Rattle.image_threads.specs.Program.{IsStackRange};
ghost use Rattle.ia32_step.specs.Code.{KeepsCode};
ghost use Rattle.ia32_step.specs.declared.types.Thread.{Thread};
ghost use Rattle.update_plan.specs.declared.types.Plan.{Plan};
ghost use Rattle.update_plan.specs.Sound.{CanBeMade};
ghost use Rattle.update_stack.specs.AbstractMachine.{AbstractMachine, contents_of};
ghost use Rattle.update_stack.specs.Apply.{planned_in, committed, applied};
ghost use Rattle.update_stack.specs.Events.{Event, Step, AreSteps, Happened, answered, after_event, after_events};
ghost use Rattle.update_stack.specs.Jumps.{CanJump, StepsStand};
ghost use Rattle.splice_jump.specs.declared.phase.Phase.{Phase};
ghost use Rattle.update_stack.specs.Phases.{IsOpenAt, patched_in};
ghost use Rattle.update_stack.specs.PhaseSteps.{PhasesLeaveViews, StepsStandIn, OpenHomesLeadOn};
ghost use Rattle.update_stack.specs.Reached.{LeadsTo, AreReached};
ghost use Rattle.update_stack.specs.Stacked.{IsBuilt};
ghost use Rattle.update_stack.specs.StandsFor.{patched};
ghost use Rattle.update_stack.specs.Stays.{HookedCodeStaysReached, IsNewest, LeavesAloneBy, NewCodeStaysReached};

use crate::hooked::hooks_are_updates;
use crate::uncovered::uncovered_updates_can_go;
use ia32_decode::jumps_decode;
use ia32_step::{code_bytes_have_no_say, steps_leave_code};
use image_memory::pieces_stay_placed;
use link_post::gaps_are_free;
use saved_data::{data_alone_differ, saved_data_come_back};
use splice_jump::{
    code_stays_code, data_are_written_past_jumps, homes_are_not_looked_at, homes_stay_spliced,
    jumps_leave_views, jumps_stand,
};
use update_memory::{changes_are_withdrawn, pieces_are_added, ranges_are_retired};
use update_plan::{
    alike_programs_have_one_plan, plans_can_be_made, plans_replace_the_newest,
    replaced_functions_have_new_code,
};

/// Over the memory with the jumps a thread's step comes to what it comes to on the machine: at a home it goes on at the
/// newest version, in a retired range it stops, and elsewhere it carries out the machine's text.
pub fn steps_stand()
    ensures { (k : AbstractMachine) (thread : Thread) → CanJump k → StepsStand k thread }
{
    // Nothing is done here: the laws say that a jump's bytes decode to it, that an instruction does the same whatever
    // bytes of code stand beside its data, and what jumps leave of memory.
    jumps_decode();
    code_bytes_have_no_say();
    jumps_leave_views();
    jumps_stand();
    data_are_written_past_jumps();
    code_stays_code();
    homes_stay_spliced();
}

/// In each phase of the newest update's jump a thread meets at each address what it meets on the machine: whatever five
/// bytes stand at the home that is open, they aren't looked at.
pub fn phases_leave_views()
    ensures { PhasesLeaveViews }
{
    // Nothing is done here: the laws say that neither jumps nor the bytes at one of their homes change what is met.
    jumps_leave_views();
    homes_are_not_looked_at();
    homes_stay_spliced();
}

/// In each phase of the newest update a thread that doesn't stand at the home that is open steps over the memory of that
/// phase as on the machine: what is left is what the machine's step leaves, with the jumps and the phase's bytes.
pub fn steps_stand_in()
    ensures { StepsStandIn }
{
    // Nothing is done here: the laws say that a step stands where all the jumps do, and that whatever bytes stand at a
    // home none looks at them, nor does an instruction that is carried out.
    steps_stand();
    code_bytes_have_no_say();
    data_are_written_past_jumps();
    code_stays_code();
    homes_stay_spliced();
    homes_are_not_looked_at();
    jumps_leave_views();
}

/// At the home that is open the machine's step goes on at the newest version, and nothing else changes.
pub fn open_homes_lead_on()
    ensures { OpenHomesLeadOn }
{}

/// Whatever a thread does, its step leaves each piece of code, and each byte in it, as they were: those of the machine's
/// text, and those of the memory that stands for it, with the jumps, in whichever phase the newest of these is.
pub fn threads_leave_code()
    ensures text { (k : AbstractMachine) (number : ℕ) → IsBuilt k →
        KeepsCode k.pieces (after_event k (Step number)).pieces }
    ensures memory { (k : AbstractMachine) (number : ℕ) → IsBuilt k →
        KeepsCode (patched k).pieces (patched (after_event k (Step number))).pieces }
    ensures phases { (phase : Phase) (k : AbstractMachine) (number : ℕ) → IsBuilt k → IsOpenAt phase k →
        KeepsCode (patched_in phase k).pieces (patched_in phase (after_event k (Step number))).pieces }
{
    // Nothing is done here: the law says that whatever an instruction may do leaves code as it was.
    steps_leave_code();
}

/// Steps of threads, however many, leave what is planned for an update, or why it can't be: they change data alone, and a
/// plan asks for none of the bytes of data that can be written.
pub fn steps_keep_plans()
    ensures { (k : AbstractMachine) (steps : List Event) (name pre_file post_file : List ℕ) → IsBuilt k →
        AreSteps steps → planned_in (after_events k steps) name pre_file post_file
        ≡ planned_in k name pre_file post_file }
{
    // Nothing is done here: the laws say that a write leaves data alone different, and that programs which are alike have
    // one plan.
    data_alone_differ();
    alike_programs_have_one_plan();
}

/// On a machine whose updates lie each on what was there without it, an update that is planned can be made; and where
/// it is made, code stays code.
pub fn updates_can_be_made()
    ensures can { (k : AbstractMachine) (name pre_file post_file : List ℕ) (plan : Plan) → IsBuilt k →
        planned_in k name pre_file post_file ≡ Ok plan → CanBeMade (contents_of k) plan }
    ensures code { (k : AbstractMachine) (name : List ℕ) (plan : Plan) (address count : ℕ) → IsBuilt k →
        CanBeMade (contents_of k) plan → HasCode k.pieces address count →
        HasCode (committed k name plan).pieces address count }
{
    // Nothing is done here: the laws say that plans can be made where gaps are free, and that code stays code where
    // pieces are added.
    plans_can_be_made();
    gaps_are_free();
    pieces_are_added();
}

/// Where an update is accepted, arrivals at each function that its report says is replaced go to its new code: a thread
/// that comes to the function's home goes on, in one step, at the report's base, and meets there the first of the linked
/// bytes of the new object's section of its name.
pub fn accepted_code_is_reached()
    ensures { (k now : AbstractMachine) (name pre_file post_file : List ℕ) (report : Report) → IsBuilt k →
        applied k name pre_file post_file ≡ Ok (now, report) → AreReached k pre_file post_file now report }
{
    // Nothing is done here: the laws say what a plan brings and that it can be made, and what each change of the machine
    // leaves.
    pieces_are_added();
    ranges_are_retired();
    changes_are_withdrawn();
    plans_can_be_made();
    plans_replace_the_newest();
    gaps_are_free();
    replaced_functions_have_new_code();
}

/// A home that leads to new code goes on leading there: after each event that leaves both alone; and so, in every list
/// of events from the start of an image, after those that come after an update was accepted, whether functions were run
/// at it or not, until a later update replaces the function again or retires its code, or the update that brought it is
/// taken back.
pub fn reached_code_stays()
    ensures event { (k : AbstractMachine) (event : Event) (now : Happened) (home : ℕ) (piece : Piece) → IsBuilt k →
        All IsStackRange k.stacks → IsNewest k home piece.base → LeadsTo k home piece → answered k event ≡ Ok now →
        LeavesAloneBy k now now.answer home piece.base →
        IsNewest now.machine home piece.base × LeadsTo now.machine home piece }
    ensures events { NewCodeStaysReached }
    ensures hooked { HookedCodeStaysReached }
{
    // Nothing is done here: the laws say what a plan brings and that it can be made, and what each change of the machine
    // leaves.
    pieces_stay_placed();
    pieces_are_added();
    ranges_are_retired();
    changes_are_withdrawn();
    plans_can_be_made();
    plans_replace_the_newest();
    gaps_are_free();
    uncovered_updates_can_go();
    hooks_are_updates();
    data_alone_differ();
    saved_data_come_back();
    replaced_functions_have_new_code();
}
