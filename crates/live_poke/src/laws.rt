//! What holds of the three writes of an update, whatever else happens between them.
ghost use Rattle.live_poke.specs.Poke.{MarksOneHome, TailChangesFour, SealChangesOne};
ghost use Rattle.live_poke.specs.Interleaved.{MachineGoesOn, AlwaysLive};

use update_stack::{
    accepted_updates_lie_on_top, machines_are_built, phases_leave_views, retired_code_is_not_met,
};

/// An update that is accepted at its first write is made by the machine as a whole. It replaced one function, and added
/// and dropped none; the home of that one is open, and its first byte alone changed of all that stood.
pub fn first_writes_open_one_home()
    ensures { MarksOneHome }
{
    // Nothing is done here: the law says what an accepted update lies on, and what it reports.
    accepted_updates_lie_on_top();
}

/// The second write changes the four bytes behind the first one at most, and the third the first one again.
pub fn later_writes_change_their_bytes()
    ensures tail { TailChangesFour }
    ensures seal { SealChangesOne }
{
    // Nothing is done here: the law says that the newest update's jumps are written over the code without it.
    accepted_updates_lie_on_top();
}

/// In whatever order the three writes, threads and other events come, the machine is that after its own events: each
/// update is made as a whole at its first write, and the other two are none.
pub fn machines_go_on()
    ensures { MachineGoesOn }
{}

/// After every list of events and writes from the start of an image, the machine's updates lie each on what was there
/// without it, a home that is open is that of the one function which the newest update replaced, and in the system's
/// memory, whatever its phase, no thread meets code that a live update replaced.
pub fn systems_stay_live()
    ensures { AlwaysLive }
{
    // Nothing is done here: the laws say that a first write opens one home, that machines stay built, that what was
    // retired isn't met, and that the bytes at an open home aren't looked at.
    first_writes_open_one_home();
    machines_are_built();
    retired_code_is_not_met();
    phases_leave_views();
}
