//! The image of a program: its regions of memory, its symbols, its stacks and its arena, read from the
//! bytes of a file and written to them.
#![tactic(auto)]

mod bounds;
mod front;
mod laws;
mod numbers;
mod reading;
mod regions;
mod stacks;
mod symbols;
mod types;
mod writing;

pub use crate::laws::{
    functions_lie_in_code, image_keeps_rules, read_is_spelled, spelling_is_read, written_is_read,
};
pub use reading::read_image;
pub use types::Image;
pub use writing::write_image;
