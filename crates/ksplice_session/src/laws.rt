//! What a disciplined run is spared, and how a user learns that a run is one.
ghost use Rattle.std.specs.Prelude.{ℕ, List};
ghost use Rattle.ksplice_session.specs.Watching.{Watched};
ghost use Rattle.ksplice_session.specs.Session.{Ran};
ghost use Rattle.ksplice_session.specs.Safety.{OpenFramesKeepWindows, NoReturnIsLost};
ghost use Rattle.ksplice_session.specs.Premise.{TellsDiscipline};

use ia32_step::instructions_are_never_stray;
use update_safety::{
    accepted_updates_are_clear, hooks_keep_threads_safe, threads_keep_windows,
    undone_updates_are_clear, updates_keep_slots, updates_keep_windows,
};
use update_stack::machines_are_built;

/// In every list of events from the start of an image that keeps the discipline, an open frame whose address had a
/// window when its call was made has one at each later moment while it is open; and no step stops for lack of code,
/// except directly after a return to an address that had no window when its call was made.
pub fn disciplined_runs_are_safe()
    ensures frames { OpenFramesKeepWindows }
    ensures returns { NoReturnIsLost }
{
    // Nothing is done here: the laws say what each event leaves.
    threads_keep_windows();
    updates_keep_windows();
    updates_keep_slots();
    hooks_keep_threads_safe();
    accepted_updates_are_clear();
    undone_updates_are_clear();
    machines_are_built();
    instructions_are_never_stray();
}

/// The lines of a script leave the machine and the watch that their events leave, one after another; and where the line
/// `watch` comes after them, it replies `watch disciplined` exactly where these events keep the discipline. So what it
/// prints is the premise of [`disciplined_runs_are_safe`], for the run up to that line.
pub fn watch_prints_the_premise()
    ensures { (k : Watched) (before : List Ran) (held : List (List ℕ)) → TellsDiscipline k before held }
{}
