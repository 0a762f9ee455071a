//! What an accepted update lies on.
ghost use Rattle.update_stack.specs.Accepted.{AcceptedLieOnTop, JumpsLieOnTop, SinglesReplaceOne, RetiredIsNotMet};

use link_post::gaps_are_free;
use splice_jump::jumps_are_added_and_replaced;
use update_memory::{changes_are_withdrawn, pieces_are_added, ranges_are_retired};
use update_plan::{
    plans_can_be_made, plans_replace_the_newest, replaced_functions_have_new_code,
    single_changes_are_reported,
};

/// An accepted update is the newest, and the machine without it is the one before it. Whatever stood in the system's
/// memory stands there in the code without the update's jumps, and these are written over that. Where its objects differ
/// in one function alone, its report says that this one was replaced, and no other.
pub fn accepted_updates_lie_on_top()
    ensures accepted { AcceptedLieOnTop }
    ensures jumps { JumpsLieOnTop }
    ensures single { SinglesReplaceOne }
{
    // Nothing is done here: the laws say what a plan brings and that it can be made, what each change of the machine
    // leaves, and what jumps leave.
    pieces_are_added();
    ranges_are_retired();
    changes_are_withdrawn();
    jumps_are_added_and_replaced();
    plans_can_be_made();
    plans_replace_the_newest();
    gaps_are_free();
    replaced_functions_have_new_code();
    single_changes_are_reported();
}

/// No thread meets code that a live update retired: at a home it goes on elsewhere, and in the rest it stops.
pub fn retired_code_is_not_met()
    ensures { RetiredIsNotMet }
{}
