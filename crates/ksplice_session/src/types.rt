//! What a line of a script comes to, and how a session ends.
ghost use Rattle.std.specs.Prelude.{◌≤◌};

use ks_base::{Line, Name};
use ks_io::Wanted;

/// The answer to a line.
#[derive(Drop)]
pub struct Answer {
    /// The reply.
    pub line: Line,
    /// Whether the reply is a refusal.
    pub refused: bool,
}

/// How a session ends.
#[derive(Clone, Copy, PartialEq, Eq)]
pub enum SessionEnd {
    /// All lines were run, and none was refused.
    Done,
    /// All lines were run, and at least one was refused.
    SomeRefused,
    /// A file could not be loaded.
    FileEnd,
    /// The sink failed.
    SinkEnd,
    /// Memory ran out.
    MemoryEnd,
}

/// The files that a line loads before it is run, in order: the first so many of two.
#[derive(Clone, Copy)]
pub(crate) struct Loads<'a> {
    pub(crate) files: [Wanted<'a>; 2],
    pub(crate) count: usize,
    ghost few: { count ≤ 2 },
}

/// An update that a line tries to make.
#[derive(Clone, Copy)]
pub(crate) struct Trial<'a> {
    pub(crate) name: &'a Name,
    /// The bytes of the object built before the change, and of that built after it.
    pub(crate) pre: &'a [u8],
    pub(crate) post: &'a [u8],
}
