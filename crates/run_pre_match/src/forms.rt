//! Wide forms of instructions, and the fields in them that belong to references.
use ia32_decode::{Fields, Wide};

/// The wide form of an instruction.
#[derive(Clone, Copy)]
pub(crate) enum Form<'w> {
    /// The instruction itself, which has no short number: its bytes, and where its parts are.
    Own(&'w [u8], Fields),
    /// One with other bytes.
    Made(Wide),
}
