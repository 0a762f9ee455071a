//! The loaded sections of an i386 object as they are compared, and the values of its relocations.
#![tactic(auto)]

mod blanking;
mod checks;
mod fields;
mod file_sections;
mod functions;
mod known;
mod laws;
mod loaded;
mod names;
mod objects;
mod reaches;
mod reading;
mod references;
mod refused;
mod relocation_checks;
mod relocations;
mod sections;
mod source;
mod span;
mod targets;
mod texts;
mod types;
mod value;

pub use crate::file_sections::read_sections;
pub use crate::laws::sections_are_whole;
pub use crate::reading::normalise;
pub use crate::refused::object_refusal;
pub use crate::sections::Normal;
pub use crate::span::Span;
pub use crate::types::{
    Class, FIELD_LENGTH, Form, NormalSection, ObjectSymbol, Objects, Ref, Refs, Target,
};
pub use crate::value::field_value;
