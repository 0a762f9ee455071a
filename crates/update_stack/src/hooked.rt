//! What holds of an update at which functions were run.
ghost use Rattle.update_stack.specs.Hooked.{HooksAreUpdates};

use crate::accepted::accepted_updates_lie_on_top;
use crate::scratch::scratch_comes_and_goes;
use saved_data::{data_alone_differ, saved_data_come_back};
use update_memory::{code_that_stays, memory_stays_memory};

/// An accepted update at which functions were run is accepted as any other, with the same report, and the machine is then
/// the one that this makes, but for bytes of its data.
pub fn hooks_are_updates()
    ensures { HooksAreUpdates }
{
    // Nothing is done here: the laws say what an accepted update lies on, that a scratch piece comes and goes, and that
    // threads which are none of the program's leave bytes of data alone different.
    accepted_updates_lie_on_top();
    scratch_comes_and_goes();
    data_alone_differ();
    saved_data_come_back();
    memory_stays_memory();
    code_that_stays();
}
