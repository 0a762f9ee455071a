//! What holds of an update that no later one covers.
ghost use Rattle.update_stack.specs.Uncovered.{
  UncoveredIsNewest,
  UncoveredIsAlone,
  UncoveredCanGo,
  UncoveredGoesPast,
};

use update_memory::{changes_are_withdrawn, code_that_stays, memory_stays_memory};

/// An update whose code no later one retired can be taken out from among the others. It is the newest version of each
/// function that it replaced, no later update replaced one of these, without it the machine's updates lie each on what
/// was there without it, and it goes before as after a later one.
pub fn uncovered_updates_can_go()
    ensures newest { UncoveredIsNewest }
    ensures alone { UncoveredIsAlone }
    ensures goes { UncoveredCanGo }
    ensures past { UncoveredGoesPast }
{
    // Nothing is done here: the laws say that what is left of a memory is one, which ranges are left, and that code
    // which is left was there.
    memory_stays_memory();
    changes_are_withdrawn();
    code_that_stays();
}
