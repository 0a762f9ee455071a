//! How a call ends.

/// How a call ends, by the status that the program ends with.
#[derive(Clone, Copy, PartialEq, Eq)]
pub struct Status {
    pub code: u8,
}

impl Status {
    /// The command was carried out.
    pub const DONE: Status = Status { code: 0 };

    /// The words have no reading. The usage line is written.
    pub const USAGE: Status = Status { code: 2 };

    /// The command was refused. The refusal is written.
    pub const REFUSED: Status = Status { code: 3 };

    /// A file was missing, too long, or could not be read. The file's line is written.
    pub const NO_FILE: Status = Status { code: 4 };

    /// The sink failed, or took nothing. A prefix of the output is written.
    pub const NO_SINK: Status = Status { code: 5 };

    /// Memory ran out. A prefix of the output is written.
    pub const NO_MEMORY: Status = Status { code: 6 };

    /// The image or the script isn't in its form. The refusal is written.
    pub const BAD_INPUT: Status = Status { code: 7 };
}
