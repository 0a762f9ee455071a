//! Lists of instructions: those of a code section of an object and those that run from an address on, which of them are
//! kept, what a place among them stands for, and where the code of a section can't be matched.
#![tactic(auto)]

mod instructions;
mod landing;
mod least;
mod named;
mod places;
mod pre_code;
mod run_code;
mod running;

pub use instructions::{PreInstruction, first_reference, pre_instruction_at};
pub use landing::{interior_offset, undecoded_offset};
pub use named::{Offsets, offsets_named};
pub use places::Places;
pub use pre_code::{PreList, instructions_lie_within, list_pre};
pub use run_code::{RunList, list_run};
pub use running::{RunInstruction, break_kind, instruction_at, run_code_goes_on};
