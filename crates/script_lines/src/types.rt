//! The commands of a script.
use ks_base::{ListOf, Name};

/// What one line of a script asks for.
#[derive(Clone, PartialEq, Eq, Drop)]
pub enum Command {
    /// Make a thread that calls a function.
    Spawn {
        /// The function's name.
        name: Name,
        /// What it is called with.
        argument: u32,
    },
    /// Run one thread.
    Step {
        /// The thread's number.
        thread: u32,
        /// How many instructions, at most 16,777,216.
        steps: u32,
    },
    /// Run the threads in turn.
    RoundRobin {
        /// How many instructions each turn has, at least 1.
        quantum: u32,
        /// How many instructions in all, at most 16,777,216.
        steps: u32,
    },
    /// Show the threads.
    Threads,
    /// Show bytes of memory. None of them lies above 0xFFFFFFFF.
    Peek {
        /// Where the first lies.
        address: u32,
        /// How many, from 1 to 4,096.
        count: u32,
    },
    /// Replace functions of the program.
    Apply {
        /// The update's name.
        name: Name,
        /// The file of the object built before the change.
        pre: Name,
        /// The file of the object built after it.
        post: Name,
        /// How often it is tried at most while a thread stands in the way, from 1 to 1,000.
        tries: u32,
        /// How many instructions the threads run in turn between two tries; with `tries` at most 16,777,216 in all.
        gap: u32,
    },
    /// Replace functions of the program, and run the functions that the new object lists.
    Hooks {
        /// The update's name.
        name: Name,
        /// The file of the object built before the change.
        pre: Name,
        /// The file of the object built after it.
        post: Name,
    },
    /// Replace one function of the program in separate writes, and make the first of them.
    Poke {
        /// The update's name.
        name: Name,
        /// The file of the object built before the change.
        pre: Name,
        /// The file of the object built after it.
        post: Name,
    },
    /// Make the second of these writes.
    Tail,
    /// Make the last of these writes.
    Seal,
    /// Take the newest update back.
    Undo,
    /// Take the update of a name back.
    UndoNamed {
        /// The update's name.
        name: Name,
    },
    /// Show the live updates.
    ListUpdates,
    /// Show whether the run so far has kept the discipline.
    Watch,
}

/// Commands in order.
pub type Script = ListOf<Command>;
