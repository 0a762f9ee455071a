//! Work of any size, made from a number alone: the image of a program, two objects between which it is updated, and a
//! script that runs and updates it.
#![tactic(auto)]

mod elf_file;
mod encoding;
mod functions;
mod image;
mod making;
mod objects;
mod script;
mod types;

pub use functions::function_count;
pub use making::make_work;
pub use types::{Section, Work};
