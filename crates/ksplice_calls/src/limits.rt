//! The most bytes that each kind of file may have, beside objects.

/// The most bytes that an image file may have.
pub const IMAGE_LIMIT: u32 = 33_554_432;

/// The most bytes that a script may have.
pub const SCRIPT_LIMIT: u32 = 1_048_576;
