//! Read-only data: whether a section of an object lies at an address of a program, and whether a text of the object
//! stands there.
#![tactic(auto)]

mod constants;
mod endings;
mod fields;
mod texts;

pub use constants::{Lies, lies_at};
pub use endings::Endings;
pub use fields::dword_at;
pub use texts::{KnownTexts, TextPlace, text_stands};
