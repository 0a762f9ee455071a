//! What is clear of threads and their frames where code goes, and which windows and slots stay.
ghost use Rattle.update_safety.specs.Clear.{AcceptedIsClear, HookedIsClear, TakenBackIsClear};
ghost use Rattle.update_safety.specs.Slots.{UpdatesKeepSlots, UndosKeepSlots};
ghost use Rattle.update_safety.specs.Slots.{UpdatesKeepThreads, HooksKeepThreads, UndosKeepThreads};
ghost use Rattle.update_safety.specs.Windows.{StartsKeepWindows, StepsKeepWindows};
ghost use Rattle.update_safety.specs.Windows.{UpdatesKeepWindows, HooksKeepWindows, UndosKeepWindows, FetchedHaveWindows};

use saved_data::{data_alone_differ, saved_data_come_back};
use update_plan::retired_code_is_guarded;
use update_stack::{hooks_are_updates, uncovered_updates_can_go, updates_can_be_made};

/// Where an update is accepted, no running thread, and no frame of it that keeps the slot rule, is in the code that is
/// retired.
pub fn accepted_updates_are_clear()
    ensures { AcceptedIsClear }
{
    // Nothing is done here: the law says that a plan guards what it retires.
    retired_code_is_guarded();
}

/// Where an update is taken back, the newest or one that is named, no running thread, and no frame of it that keeps the
/// slot rule, is in the update's pieces.
pub fn undone_updates_are_clear()
    ensures { TakenBackIsClear }
{}

/// A start and a step of a thread change no window.
pub fn threads_keep_windows()
    ensures starts { StartsKeepWindows }
    ensures steps { StepsKeepWindows }
{}

/// An update takes windows away in the ranges that it retires alone, and taking one back, the newest or one that is
/// named, in its pieces alone.
pub fn updates_keep_windows()
    ensures updates { UpdatesKeepWindows }
    ensures undos { UndosKeepWindows }
{
    // Nothing is done here: the laws say that an update that is planned can be made, and that code stays code then; and
    // that without an update that no later one covers the others lie each on what was there without it.
    updates_can_be_made();
    uncovered_updates_can_go();
}

/// Where a step fetches more bytes than the five of a jump, there is a window at each of them.
pub fn fetched_bytes_have_windows()
    ensures { FetchedHaveWindows }
{}

/// An update that is accepted, and one that is taken back, leaves each slot of a stack what it holds, and each thread
/// as it is.
pub fn updates_keep_slots()
    ensures updates { UpdatesKeepSlots }
    ensures undos { UndosKeepSlots }
    ensures updated_threads { UpdatesKeepThreads }
    ensures undone_threads { UndosKeepThreads }
{}

/// Where an update is accepted at which functions are run, no running thread, and no frame of it that keeps the slot rule,
/// is in the code that is retired; windows go in the ranges alone that it retires; and no thread and no stack changes. Any
/// slot of a stack may have been written.
pub fn hooks_keep_threads_safe()
    ensures clear { HookedIsClear }
    ensures windows { HooksKeepWindows }
    ensures threads { HooksKeepThreads }
{
    // Nothing is done here: the laws say that the update is one as any other, what is known of those, and that bytes of
    // data alone differ then.
    hooks_are_updates();
    accepted_updates_are_clear();
    updates_keep_windows();
    updates_keep_slots();
    data_alone_differ();
    saved_data_come_back();
}
