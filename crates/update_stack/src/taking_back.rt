//! What is restored when an update is taken back.
ghost use Rattle.update_stack.specs.TakenBack.{TakenBackIsRestored, HomesAreRestored, MachinesAreBuilt};

use crate::hooked::hooks_are_updates;
use crate::uncovered::uncovered_updates_can_go;
use image_memory::pieces_stay_placed;
use link_post::gaps_are_free;
use saved_data::{data_alone_differ, saved_data_come_back};
use splice_jump::{homes_stay_spliced, jumps_are_added_and_replaced, jumps_are_taken_back};
use update_memory::{
    changes_are_withdrawn, code_that_stays, dropping_goes_past_writes, memory_stays_memory,
    pieces_are_added, ranges_are_retired,
};
use update_plan::{plans_can_be_made, plans_replace_the_newest};

/// In every list of events from the start of an image, taking the newest update back, where no older one was taken back
/// since, leaves the machine's text, the system's code with its jumps, the table, the retired ranges, the symbols and
/// the places of data as they were just before the event that accepted the update, whatever threads did since and
/// whatever else was updated and taken back. Taking any update back puts the five bytes back that stood at its homes
/// just before that event, takes its pieces away, and leaves every other byte. Data keep what was written since.
pub fn undo_restores()
    ensures newest { TakenBackIsRestored }
    ensures homes { HomesAreRestored }
{
    // Nothing is done here: the laws say what each change of the machine leaves, and what jumps leave and restore.
    pieces_stay_placed();
    pieces_are_added();
    ranges_are_retired();
    changes_are_withdrawn();
    memory_stays_memory();
    code_that_stays();
    dropping_goes_past_writes();
    homes_stay_spliced();
    jumps_are_added_and_replaced();
    jumps_are_taken_back();
    plans_can_be_made();
    plans_replace_the_newest();
    gaps_are_free();
    uncovered_updates_can_go();
    hooks_are_updates();
    data_alone_differ();
    saved_data_come_back();
}

/// After every list of events from the start of an image, the machine's updates lie each on what was there without it.
pub fn machines_are_built()
    ensures { MachinesAreBuilt }
{
    // Nothing is done here: the laws say what each change of the machine leaves.
    pieces_stay_placed();
    pieces_are_added();
    ranges_are_retired();
    changes_are_withdrawn();
    plans_can_be_made();
    plans_replace_the_newest();
    gaps_are_free();
    uncovered_updates_can_go();
    hooks_are_updates();
    data_alone_differ();
    saved_data_come_back();
}
