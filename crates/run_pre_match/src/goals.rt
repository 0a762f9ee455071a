//! What references go to.
use i386_reloc::Span;

/// What a reference goes to. A section is named by its place among the object's sections.
#[derive(Drop)]
pub enum Goal<'a> {
    /// The entry of the function that is the code section at this place.
    Entry(usize),
    /// The instruction at an offset of the code section at a place.
    Inside {
        /// The section's place.
        place: usize,
        /// The offset in bytes.
        offset: u32,
    },
    /// The section at this place, whose data the program may change.
    Variable(usize),
    /// The section of read-only data at this place.
    Constant(usize),
    /// A name that the object doesn't define.
    Outside(Span<'a>),
    /// A text.
    Text {
        /// The place of the section that holds it.
        place: usize,
        /// Where it begins in that section, in bytes.
        offset: u32,
        /// Its bytes, the zero with them.
        text: Span<'a>,
    },
}

/// What a field that holds `S + A` says: that its goal has the value `S`.
#[derive(Drop)]
pub struct Given<'a> {
    /// What the field's reference goes to.
    pub goal: Goal<'a>,
    /// The value, an address.
    pub value: u32,
}

/// What is said of a value that is found.
#[derive(Clone, Copy, PartialEq, Eq)]
pub enum Verdict {
    /// It holds.
    Holds,
    /// It contradicts an earlier value, isn't listed, or isn't the address of the instruction.
    Refused,
    /// What should stand there doesn't.
    Absent,
}
