//! The faults that files and sinks answer with, and the files that are wanted.
ghost use Rattle.std.specs.Prelude.{◌≡◌};

use std::alloc::AllocError;
use thiserror::Error;

/// Why a load left no bytes.
#[derive(Clone, Copy, Debug, PartialEq, Eq, Error)]
pub enum FileFault {
    /// There is no file of this name.
    #[error("no file of this name")]
    Missing,
    /// The file has more bytes than the limit.
    #[error("the file is longer than its limit")]
    TooLong,
    /// The outside failed while it was read.
    #[error("the file could not be read")]
    Failed,
    /// The buffer could not grow.
    #[error("out of memory")]
    Memory,
}

impl From<AllocError> for FileFault {
    ghost use Rattle.std.specs.Prelude.{◌≡◌};
    ghost use Rattle.ks_io.specs.declared.types.FileFault.TheVariants.{Memory};

    ghost from_gives = { λ _ fault. fault ≡ Memory };

    fn from(_error: AllocError) -> FileFault {
        FileFault::Memory
    }
}

/// A file that is wanted.
#[derive(Clone, Copy)]
pub struct Wanted<'a> {
    /// The file's name.
    pub name: &'a str,
    /// The most bytes that it may have.
    pub limit: u32,
}

/// A file that was not loaded.
#[derive(Clone, Copy, Debug, PartialEq, Eq)]
pub struct Lost {
    /// Which of the wanted files, counted from 0.
    pub index: usize,
    /// Why it was not loaded.
    pub fault: FileFault,
}

/// Why a sink took nothing.
#[derive(Clone, Copy, Debug, PartialEq, Eq, Error)]
pub enum SinkFault {
    /// The sink failed.
    #[error("the sink failed")]
    SinkFailed,
    /// The sink could not grow.
    #[error("out of memory")]
    Memory,
}

impl From<AllocError> for SinkFault {
    ghost use Rattle.std.specs.Prelude.{◌≡◌};
    ghost use Rattle.ks_io.specs.declared.types.SinkFault.TheVariants.{Memory};

    ghost from_gives = { λ _ fault. fault ≡ Memory };

    fn from(_error: AllocError) -> SinkFault {
        SinkFault::Memory
    }
}
