//! The law on what is taken back.
ghost use Rattle.apply_hooks.specs.Restored.{FailedHooksAreTakenBack};

use saved_data::{data_alone_differ, saved_data_come_back};

/// Whatever functions wrote once an update was made: with the scratch piece gone, the update taken back and the writable
/// pieces put back as they were before it, the machine is as it was before it, byte for byte.
pub fn failed_hooks_are_taken_back()
    ensures { FailedHooksAreTakenBack }
{
    // Nothing is done here: the laws say that such functions leave bytes of data alone different, and that what was saved
    // of these can be put back.
    data_alone_differ();
    saved_data_come_back();
}
