//! The outside of the program: files that are loaded by name, and a sink that takes bytes. Each is a trait
//! whose contract says when an answer may be anything but Ok: a fault of the outside shows in a count of
//! it that rose in the call. `MemoryFiles` and `MemorySink` implement the two in memory.
#![tactic(auto)]

mod counters;
mod loading;
mod memory_files;
mod memory_sink;
mod outside;
mod types;
mod writing;

pub use loading::load_all;
pub use memory_files::MemoryFiles;
pub use memory_sink::MemorySink;
pub use outside::{Files, Sink};
pub use types::{FileFault, Lost, SinkFault, Wanted};
pub use writing::write_all;
