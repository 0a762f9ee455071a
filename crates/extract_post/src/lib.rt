//! The difference of two objects: which functions an update replaces, adds and drops, and which data it brings with it;
//! and what it does with each section of the second.
#![tactic(auto)]

mod carrying;
mod changes;
mod classes;
mod edges;
mod extracting;
mod interiors;
mod laws;
mod linking;
mod marking;
mod member_edges;
mod members;
mod naming;
mod reaching;
mod role;
mod roles;
mod types;

pub use crate::extracting::extract;
pub use crate::laws::{
    extract_is_computed, objects_have_one_extract, placed_sections_bring_what_they_name,
};
pub use crate::role::Role;
pub use crate::roles::roles_of;
pub use crate::types::Extract;
