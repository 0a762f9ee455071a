//! That the files which are made of a number are in their forms: what the program reads in them.
#![tactic(auto)]

mod laws;

pub use crate::laws::{
    images_are_read, object_relocations_are_read, object_sections_are_read,
    object_symbols_are_read, objects_are_read, objects_are_short, objects_keep_rules,
    scripts_are_read, written_sections_are_read,
};
