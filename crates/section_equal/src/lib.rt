//! Whether two objects have the same section of a name: of one name, or of all their names.
#![tactic(auto)]

mod all_sections;
mod bytes;
mod comparing;
mod parts;
mod texts;

pub use crate::all_sections::{SameSections, same_section, same_sections};
pub use crate::bytes::equal_bytes;
pub use crate::parts::same_class;
