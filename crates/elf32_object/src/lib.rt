//! Reads ELF32 relocatable object files for the i386.
#![tactic(auto)]

pub mod elf;
mod header;
mod layout;
mod object;
mod reader;
mod reading;
mod relocations;
mod rows;
mod sections;
mod strings;
mod symbols;
mod table;
pub mod types;

pub use crate::object::Object;
pub use crate::reader::read_object;
